// What is read by a rule, and lists of it.
ghost use Rattle.vtl_grammar.specs.Rules.{◌▸◌, repeated, comma, listed, commas};
ghost use Rattle.vtl_grammar.specs.Reading.{no_part};
ghost use Rattle.vtl_cursor.specs.Limits.{limits};
ghost use Rattle.vtl_cursor.specs.Plain.{read_plain};
ghost use Rattle.vtl_cursor.specs.Views.{Shows, limit_of};

use crate::{Cursor, Kind, Limit, Stop};
use sqlite_items::Items;
use std::alloc::Global;
use vtl_tokens::Sign;

/// What is read by a rule that holds no expression.
pub trait Parse: Drop {
    ghost use Rattle.vtl_grammar.specs.Rules.{Rule, Of};

    // The rule, and what is seen of what it reads.
    ghost rule: { Rule };

    ghost of: { Of rule → Self };

    fn parse(alloc: Global, cursor: &mut Cursor) -> Result<Self, Stop>
        ensures { Shows of cursor.new.tokens.now result (read_plain limits no_part rule cursor.old.tokens.now) };
}

/// One of them, and any number of others with commas between them.
pub fn commas<T: Parse>(alloc: Global, cursor: &mut Cursor) -> Result<Items<T>, Stop>
    ensures { Shows (listed T.of) cursor.new.tokens.now result (read_plain limits no_part (commas T.rule) cursor.old.tokens.now) }
{
    list(alloc, cursor, Limit::Lists)
}

/// One of them, and as many others as there may be, with commas between them.
pub fn list<T: Parse>(alloc: Global, cursor: &mut Cursor, limit: Limit) -> Result<Items<T>, Stop>
    ensures { Shows (listed T.of) cursor.new.tokens.now result (read_plain limits no_part (repeated (limit_of limit) T.rule (comma ▸ T.rule)) cursor.old.tokens.now) }
{
    let first = T::parse(alloc, cursor)?;
    let mut items = Items::new(alloc);
    items.push(first)?;
    let mut left = limit.most();
    while cursor.is_sign(Sign::Comma) {
        if left == 0 {
            return Err(Stop::At(Kind::TooMany(limit)));
        }
        left -= 1;
        cursor.sign(Sign::Comma)?;
        let next = T::parse(alloc, cursor)?;
        items.push(next)?;
    }
    Ok(items)
}
