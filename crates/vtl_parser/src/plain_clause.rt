// Clauses that hold no expression.
ghost use Rattle.vtl_grammar.specs.Rules.{either};
ghost use Rattle.vtl_grammar.specs.Clauses.{keep_rule, keep_of, drop_rule, drop_of, kept_of, rename_rule, rename_of, sub_rule, sub_of, unpivot_rule, unpivot_of};
ghost use Rattle.vtl_grammar.specs.Reading.{no_part};
ghost use Rattle.vtl_cursor.specs.Limits.{limits};
ghost use Rattle.vtl_cursor.specs.Plain.{read_plain};
ghost use Rattle.vtl_cursor.specs.Views.{Shows};

use sqlite_items::Boxed;
use std::alloc::Global;
use vtl_cursor::{Cursor, Stop, commas};
use vtl_syntax::{Clause, Comp, Rename, SubItem};
use vtl_tokens::{Keyword, Sign};

/// `keep c, ..`
pub fn keep_clause(alloc: Global, cursor: &mut Cursor) -> Result<Boxed<Clause>, Stop>
    ensures { Shows keep_of cursor.new.tokens.now result (read_plain limits no_part keep_rule cursor.old.tokens.now) }
{
    let place = cursor.word(Keyword::Keep)?;
    let components = commas::<Comp>(alloc, cursor)?;
    let clause = Clause::Keep { components, place };
    Ok(Boxed::new(alloc, clause)?)
}

/// `drop c, ..`
pub fn drop_clause(alloc: Global, cursor: &mut Cursor) -> Result<Boxed<Clause>, Stop>
    ensures { Shows drop_of cursor.new.tokens.now result (read_plain limits no_part drop_rule cursor.old.tokens.now) }
{
    let place = cursor.word(Keyword::Drop)?;
    let components = commas::<Comp>(alloc, cursor)?;
    let clause = Clause::Drop { components, place };
    Ok(Boxed::new(alloc, clause)?)
}

/// `keep` or `drop`, as it stands in a join.
pub fn kept_clause(alloc: Global, cursor: &mut Cursor) -> Result<Boxed<Clause>, Stop>
    ensures { Shows kept_of cursor.new.tokens.now result (read_plain limits no_part (either keep_rule drop_rule) cursor.old.tokens.now) }
{
    if cursor.is_word(Keyword::Keep) {
        let clause = keep_clause(alloc, cursor)?;
        return Ok(clause);
    }
    let clause = drop_clause(alloc, cursor)?;
    Ok(clause)
}

/// `rename c to d, ..`
pub fn rename_clause(alloc: Global, cursor: &mut Cursor) -> Result<Boxed<Clause>, Stop>
    ensures { Shows rename_of cursor.new.tokens.now result (read_plain limits no_part rename_rule cursor.old.tokens.now) }
{
    let place = cursor.word(Keyword::Rename)?;
    let renames = commas::<Rename>(alloc, cursor)?;
    let clause = Clause::Rename { renames, place };
    Ok(Boxed::new(alloc, clause)?)
}

/// `sub c = literal, ..`
pub fn sub_clause(alloc: Global, cursor: &mut Cursor) -> Result<Boxed<Clause>, Stop>
    ensures { Shows sub_of cursor.new.tokens.now result (read_plain limits no_part sub_rule cursor.old.tokens.now) }
{
    let place = cursor.word(Keyword::Sub)?;
    let items = commas::<SubItem>(alloc, cursor)?;
    let clause = Clause::Sub { items, place };
    Ok(Boxed::new(alloc, clause)?)
}

/// `unpivot identifier, measure`
pub fn unpivot_clause(alloc: Global, cursor: &mut Cursor) -> Result<Boxed<Clause>, Stop>
    ensures { Shows unpivot_of cursor.new.tokens.now result (read_plain limits no_part unpivot_rule cursor.old.tokens.now) }
{
    let place = cursor.word(Keyword::Unpivot)?;
    let identifier = cursor.name()?;
    cursor.sign(Sign::Comma)?;
    let measure = cursor.name()?;
    let clause = Clause::Unpivot {
        identifier: identifier.value,
        measure: measure.value,
        place,
    };
    Ok(Boxed::new(alloc, clause)?)
}
