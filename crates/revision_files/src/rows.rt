// The rows of a block.
ghost use Rattle.std.specs.Prelude.{◌≡◌, ◌≤◌, ◌+◌, Ok, IfOk, IfErr, map, length, chars};
ghost use Rattle.std.specs.Option.{SomeIff};
ghost use Rattle.revision_files.specs.Answers.{Refuses};
ghost use Rattle.revision_files.specs.Rows.{raw_field, action_of, fields_counted, next_row, text_in, MOST_ROWS as ROW_LIMIT, MOST_FIELDS as FIELD_LIMIT};
ghost use Rattle.revision_files.specs.Texts.{texts_of};

use crate::columns::{Columns, text_in};
use crate::stop::{FeedFault, FeedStop};
use csv::StringRecord;
use point_sets::{Action, RawField, RawRow};
use sqlite_items::Items;
use std::alloc::{AllocError, Global};
use vtl_values::Word;

const MOST_ROWS: usize = 200_000;

const MOST_FIELDS: u64 = 8_000_000;

/// The rows of a block so far, and the fields of all rows of the feed so far.
#[derive(Drop)]
pub struct BlockRows {
    pub rows: Items<RawRow>,
    pub fields: u64,
}

fn raw_field(alloc: Global, text: &str) -> Result<RawField, AllocError>
    ensures { IfOk result (λ field. field ≡ raw_field (chars text.now)) }
{
    if text.is_empty() {
        Ok(RawField::Empty)
    } else {
        Ok(RawField::Given(Word::from_str(alloc, text)?))
    }
}

fn raw_fields(
    alloc: Global,
    columns: &[usize],
    row: &StringRecord,
) -> Result<Items<RawField>, AllocError>
    ensures { IfOk result (λ fields. fields ≡ map (λ column. raw_field (text_in (texts_of row.now) column)) columns.now) }
{
    let mut fields = Vec::with_capacity(alloc, columns.len())?;
    for column in columns {
        fields.push(raw_field(alloc, text_in(row, *column))?)?;
    }
    Ok(Items::from_vec(fields))
}

fn action_of(text: &str) -> Option<Action>
    ensures { result ≡ action_of (chars text.now) }
{
    match text {
        "put" => Some(Action::Put),
        "remove" => Some(Action::Remove),
        _ => None,
    }
}

// The fields of the feed with one row more, if they aren't too many.
fn fields_after(columns: &Columns, fields: u64) -> Option<u64>
    ensures { SomeIff result (fields + fields_counted columns.now ≤ FIELD_LIMIT) (fields + fields_counted columns.now) }
{
    match fields.checked_add(columns.fields.len() as u64) {
        Some(after) if after <= MOST_FIELDS => Some(after),
        _ => None,
    }
}

/// The rows with a further one, for the block with this number.
pub(crate) fn with_row(
    alloc: Global,
    block: u64,
    columns: &Columns,
    before: BlockRows,
    row: &StringRecord,
) -> Result<BlockRows, FeedStop>
    requires { length before.rows ≤ ROW_LIMIT }
    ensures ok { IfOk result (λ after. next_row block columns.now before (texts_of row.now) ≡ Ok after) }
    ensures err { IfErr result (Refuses (next_row block columns.now before (texts_of row.now))) }
    ensures few { IfOk result (λ after. length after.rows ≤ ROW_LIMIT) }
{
    let number = before.rows.len() as u64 + 1;
    if before.rows.len() >= MOST_ROWS {
        return Err(FeedStop::Refused(FeedFault::TooMany(block, number)));
    }
    let Some(fields) = fields_after(columns, before.fields) else {
        return Err(FeedStop::Refused(FeedFault::TooMany(block, number)));
    };
    if row.len() != columns.width {
        return Err(FeedStop::Refused(FeedFault::FieldCount(block, number)));
    }
    let Some(action) = action_of(text_in(row, columns.action)) else {
        return Err(FeedStop::Refused(FeedFault::BadAction(block, number)));
    };
    let mut rows = before.rows;
    rows.push(RawRow {
        action,
        fields: raw_fields(alloc, columns.fields.as_slice(), row)?,
    })?;
    Ok(BlockRows { rows, fields })
}
