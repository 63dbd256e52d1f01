// The laws of the grammar.
ghost use Rattle.vtl_grammar.specs.Parsed.{ParsesAll, ParsesRightly};
ghost use Rattle.vtl_grammar.specs.Laws.{OneAnswer, OneScript, ReadsRightly, ReadsScripts, TellsFaults, TellsRename};

/// Reading gives a script only where the tokens are it; else it stops at the first token with which no script goes
/// on, or at the end, and tells whether one of other limits does.
pub fn reads_rightly()
    ensures { ReadsRightly }
{}

/// A script is read as itself.
pub fn reads_scripts()
    ensures { ReadsScripts }
{}

/// Tokens are one script at most.
pub fn one_script()
    ensures { OneScript }
{}

/// Tokens are one script, or have one fault at one place, and not both; so no token is too deep and too many.
pub fn one_answer()
    ensures { OneAnswer }
{}

/// Where reading stops there is a fault: the word is left out, or no script goes on, or only one of other limits.
pub fn tells_faults()
    ensures { TellsFaults }
{}

/// Reading with `rename` put in tells whether a script goes on with it.
pub fn tells_rename()
    ensures { TellsRename }
{}

/// A script is told only where the tokens are it; else the fault is the one that they have, at its place.
pub fn parses_rightly()
    ensures { ParsesRightly }
{}

/// What the tokens are is told.
pub fn parses_all()
    ensures { ParsesAll }
{}
