// Windows of analytic functions.
ghost use Rattle.std.specs.Option.{option_map};
ghost use Rattle.vtl_tokens.specs.declared.keyword.Keyword.TheVariants as words;
ghost use Rattle.vtl_grammar.specs.Rules.{◌▸◌, word, commas, listed};
ghost use Rattle.vtl_grammar.specs.Reading.{no_part, firsts, maybe};
ghost use Rattle.vtl_grammar.specs.Clauses.{names, names_of};
ghost use Rattle.vtl_grammar.specs.Calls.{order_item, order_item_of, window_start, window_start_of, window_end, window_end_of, points, points_of, over, over_of};
ghost use Rattle.vtl_cursor.specs.Limits.{limits};
ghost use Rattle.vtl_cursor.specs.Plain.{read_plain};
ghost use Rattle.vtl_cursor.specs.Views.{Shows};

use crate::components::names;
use crate::parse::{Parse, commas};
use crate::{Cursor, Stop, optional_choice};
use sqlite_items::Items;
use std::alloc::Global;
use vtl_syntax::words::{WindowEnd, WindowStart};
use vtl_syntax::{OrderItem, Over, Points};
use vtl_tokens::{Keyword, Sign};
use vtl_values::Word;

/// `over (partition by .. order by .. data points between .. and ..)`
pub fn over(alloc: Global, cursor: &mut Cursor) -> Result<Over, Stop>
    ensures { Shows over_of cursor.new.tokens.now result (read_plain limits no_part over cursor.old.tokens.now) }
{
    let place = cursor.word(Keyword::Over)?;
    cursor.sign(Sign::LeftParen)?;
    let partition = partition(alloc, cursor)?;
    let order = order(alloc, cursor)?;
    let points = optional_points(cursor)?;
    cursor.sign(Sign::RightParen)?;
    Ok(Over {
        partition,
        order,
        points,
        place,
    })
}

/// `partition by names`, or nothing.
fn partition(alloc: Global, cursor: &mut Cursor) -> Result<Option<Items<Word>>, Stop>
    ensures { Shows (λ v. option_map (λ w. names_of w.1.1) v) cursor.new.tokens.now result (maybe (firsts (word words.Partition)) (read_plain limits no_part (word words.Partition ▸ word words.By ▸ names)) cursor.old.tokens.now) }
{
    if !cursor.is_word(Keyword::Partition) {
        return Ok(None);
    }
    cursor.word(Keyword::Partition)?;
    cursor.word(Keyword::By)?;
    let names = names(alloc, cursor)?;
    Ok(Some(names))
}

/// `order by ..`, or nothing.
fn order(alloc: Global, cursor: &mut Cursor) -> Result<Option<Items<OrderItem>>, Stop>
    ensures { Shows (λ v. option_map (λ w. listed order_item_of w.1.1) v) cursor.new.tokens.now result (maybe (firsts (word words.Order)) (read_plain limits no_part (word words.Order ▸ word words.By ▸ commas order_item)) cursor.old.tokens.now) }
{
    if !cursor.is_word(Keyword::Order) {
        return Ok(None);
    }
    cursor.word(Keyword::Order)?;
    cursor.word(Keyword::By)?;
    let items = commas(alloc, cursor)?;
    Ok(Some(items))
}

impl Parse for OrderItem {
    ghost rule = { order_item };

    ghost of = { order_item_of };

    /// `name`, `name asc` or `name desc`.
    fn parse(_alloc: Global, cursor: &mut Cursor) -> Result<Self, Stop> {
        let name = cursor.name()?;
        let direction = optional_choice(cursor);
        Ok(OrderItem {
            name: name.value,
            direction,
            place: name.place,
        })
    }
}

/// `data points between .. and ..`, or nothing.
fn optional_points(cursor: &mut Cursor) -> Result<Option<Points>, Stop>
    ensures { Shows (λ v. option_map points_of v) cursor.new.tokens.now result (maybe (firsts points) (read_plain limits no_part points) cursor.old.tokens.now) }
{
    if !cursor.is_word(Keyword::Data) {
        return Ok(None);
    }
    let points = points(cursor)?;
    Ok(Some(points))
}

/// `data points between .. and ..`
pub fn points(cursor: &mut Cursor) -> Result<Points, Stop>
    ensures { Shows points_of cursor.new.tokens.now result (read_plain limits no_part points cursor.old.tokens.now) }
{
    let place = cursor.word(Keyword::Data)?;
    cursor.word(Keyword::Points)?;
    cursor.word(Keyword::Between)?;
    let from = window_start(cursor)?;
    cursor.word(Keyword::And)?;
    let to = window_end(cursor)?;
    Ok(Points { from, to, place })
}

/// `n preceding`, `unbounded preceding` or `current data point`.
pub fn window_start(cursor: &mut Cursor) -> Result<WindowStart, Stop>
    ensures { Shows window_start_of cursor.new.tokens.now result (read_plain limits no_part window_start cursor.old.tokens.now) }
{
    if cursor.is_integer() {
        let count = cursor.integer()?;
        cursor.word(Keyword::Preceding)?;
        return Ok(WindowStart::Preceding(count.value));
    }
    if cursor.is_word(Keyword::Unbounded) {
        cursor.word(Keyword::Unbounded)?;
        cursor.word(Keyword::Preceding)?;
        return Ok(WindowStart::UnboundedPreceding);
    }
    cursor.word(Keyword::Current)?;
    cursor.word(Keyword::Data)?;
    cursor.word(Keyword::Point)?;
    Ok(WindowStart::Current)
}

/// `n following`, `unbounded following` or `current data point`.
pub fn window_end(cursor: &mut Cursor) -> Result<WindowEnd, Stop>
    ensures { Shows window_end_of cursor.new.tokens.now result (read_plain limits no_part window_end cursor.old.tokens.now) }
{
    if cursor.is_integer() {
        let count = cursor.integer()?;
        cursor.word(Keyword::Following)?;
        return Ok(WindowEnd::Following(count.value));
    }
    if cursor.is_word(Keyword::Unbounded) {
        cursor.word(Keyword::Unbounded)?;
        cursor.word(Keyword::Following)?;
        return Ok(WindowEnd::UnboundedFollowing);
    }
    cursor.word(Keyword::Current)?;
    cursor.word(Keyword::Data)?;
    cursor.word(Keyword::Point)?;
    Ok(WindowEnd::Current)
}
