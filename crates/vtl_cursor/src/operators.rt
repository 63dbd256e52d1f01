// The parts of defined operators.
ghost use Rattle.std.specs.Option.{option_map};
ghost use Rattle.vtl_tokens.specs.declared.keyword.Keyword.TheVariants as words;
ghost use Rattle.vtl_grammar.specs.Rules.{◌▸◌, word};
ghost use Rattle.vtl_grammar.specs.Words.{one_of, chosen, sorts};
ghost use Rattle.vtl_grammar.specs.Reading.{no_part, firsts, maybe};
ghost use Rattle.vtl_grammar.specs.Operators.{param, param_of, params, params_of};
ghost use Rattle.vtl_cursor.specs.Limits.{limits};
ghost use Rattle.vtl_cursor.specs.Plain.{read_plain};
ghost use Rattle.vtl_cursor.specs.Views.{Shows};

use crate::parse::{Parse, list};
use crate::{Cursor, Limit, Stop, choice};
use sqlite_items::Items;
use std::alloc::Global;
use vtl_syntax::Param;
use vtl_syntax::words::Sort;
use vtl_tokens::Keyword;

/// Parameters with commas between them; there may be none.
pub fn params(alloc: Global, cursor: &mut Cursor) -> Result<Items<Param>, Stop>
    ensures { Shows params_of cursor.new.tokens.now result (maybe (firsts params) (read_plain limits no_part params) cursor.old.tokens.now) }
{
    if !cursor.is_name() {
        return Ok(Items::new(alloc));
    }
    let params = list(alloc, cursor, Limit::Parameters)?;
    Ok(params)
}

impl Parse for Param {
    ghost rule = { param };

    ghost of = { param_of };

    /// `name sort`
    fn parse(_alloc: Global, cursor: &mut Cursor) -> Result<Self, Stop> {
        let name = cursor.name()?;
        let sort = choice(cursor)?;
        Ok(Param {
            name: name.value,
            sort,
            place: name.place,
        })
    }
}

/// `returns sort`, or nothing.
pub fn returns(cursor: &mut Cursor) -> Result<Option<Sort>, Stop>
    ensures { Shows (λ v. option_map (λ w. chosen sorts w.1) v) cursor.new.tokens.now result (maybe (firsts (word words.Returns)) (read_plain limits no_part (word words.Returns ▸ one_of sorts)) cursor.old.tokens.now) }
{
    if !cursor.is_word(Keyword::Returns) {
        return Ok(None);
    }
    cursor.word(Keyword::Returns)?;
    let sort = choice(cursor)?;
    Ok(Some(sort))
}
