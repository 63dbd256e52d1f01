// Names, components, and what clauses say of them.
ghost use Rattle.std.specs.Option.{option_map};
ghost use Rattle.vtl_tokens.specs.declared.sign.Sign.TheVariants as signs;
ghost use Rattle.vtl_grammar.specs.Rules.{name, ◌▸◌, sig};
ghost use Rattle.vtl_grammar.specs.Reading.{no_part, firsts, maybe};
ghost use Rattle.vtl_grammar.specs.Clauses.{names, names_of, comp, comp_of, renamed, renamed_of, sub_item, sub_item_of, literal, literal_of, grouping, grouping_of};
ghost use Rattle.vtl_cursor.specs.Limits.{limits};
ghost use Rattle.vtl_cursor.specs.Plain.{read_plain};
ghost use Rattle.vtl_cursor.specs.Views.{Shows};

use crate::literals::literal;
use crate::parse::{Parse, commas};
use crate::{Cursor, Stop, choice};
use sqlite_items::Items;
use std::alloc::Global;
use vtl_syntax::{Comp, Grouping, Rename, SubItem};
use vtl_tokens::{Keyword, Sign};
use vtl_values::{Value, Word};

/// Names with commas between them.
pub fn names(alloc: Global, cursor: &mut Cursor) -> Result<Items<Word>, Stop>
    ensures { Shows names_of cursor.new.tokens.now result (read_plain limits no_part names cursor.old.tokens.now) }
{
    commas(alloc, cursor)
}

impl Parse for Word {
    ghost rule = { name };

    ghost of = { λ v. v.value };

    /// A name.
    fn parse(_alloc: Global, cursor: &mut Cursor) -> Result<Self, Stop> {
        let name = cursor.name()?;
        Ok(name.value)
    }
}

impl Parse for Comp {
    ghost rule = { comp };

    ghost of = { comp_of };

    /// `name` or `name#component`.
    fn parse(_alloc: Global, cursor: &mut Cursor) -> Result<Self, Stop> {
        component(cursor)
    }
}

/// `name` or `name#component`.
fn component(cursor: &mut Cursor) -> Result<Comp, Stop>
    ensures { Shows comp_of cursor.new.tokens.now result (read_plain limits no_part comp cursor.old.tokens.now) }
{
    let name = cursor.name()?;
    let component = member(cursor)?;
    Ok(Comp {
        name: name.value,
        component,
        place: name.place,
    })
}

/// `#name`, or nothing.
fn member(cursor: &mut Cursor) -> Result<Option<Word>, Stop>
    ensures { Shows (λ v. option_map (λ w. w.1.value) v) cursor.new.tokens.now result (maybe (firsts (sig signs.Hash)) (read_plain limits no_part (sig signs.Hash ▸ name)) cursor.old.tokens.now) }
{
    if !cursor.is_sign(Sign::Hash) {
        return Ok(None);
    }
    cursor.sign(Sign::Hash)?;
    let name = cursor.name()?;
    Ok(Some(name.value))
}

impl Parse for Rename {
    ghost rule = { renamed };

    ghost of = { renamed_of };

    /// `component to name`
    fn parse(_alloc: Global, cursor: &mut Cursor) -> Result<Self, Stop> {
        let component = component(cursor)?;
        cursor.word(Keyword::To)?;
        let name = cursor.name()?;
        Ok(Rename {
            place: component.place,
            component,
            name: name.value,
        })
    }
}

impl Parse for Value {
    ghost rule = { literal };

    ghost of = { literal_of };

    /// A literal.
    fn parse(_alloc: Global, cursor: &mut Cursor) -> Result<Self, Stop> {
        literal(cursor)
    }
}

impl Parse for SubItem {
    ghost rule = { sub_item };

    ghost of = { sub_item_of };

    /// `name = literal`
    fn parse(_alloc: Global, cursor: &mut Cursor) -> Result<Self, Stop> {
        let name = cursor.name()?;
        cursor.sign(Sign::Equal)?;
        let value = literal(cursor)?;
        Ok(SubItem {
            name: name.value,
            value,
            place: name.place,
        })
    }
}

/// `group by names` or `group except names`.
pub fn grouping(alloc: Global, cursor: &mut Cursor) -> Result<Grouping, Stop>
    ensures { Shows grouping_of cursor.new.tokens.now result (read_plain limits no_part grouping cursor.old.tokens.now) }
{
    let place = cursor.word(Keyword::Group)?;
    let word = choice(cursor)?;
    let names = names(alloc, cursor)?;
    Ok(Grouping { word, names, place })
}
