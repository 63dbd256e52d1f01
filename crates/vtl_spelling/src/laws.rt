// The laws of spelling.
ghost use Rattle.vtl_spelling.specs.Laws.{SomeSpelling, SpellsScripts};

/// Tokens of the kinds that spell a script of the grammar are that script, apart from places.
pub fn spells_scripts()
    ensures { SpellsScripts }
{}

/// Some tokens spell a script of the grammar.
pub fn some_spelling()
    ensures { SomeSpelling }
{}
