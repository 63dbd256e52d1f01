// The records of a block.
ghost use Rattle.std.specs.Prelude.{◌≡◌, [], Ok, IfOk, IfErr, IsUtf8, option_map};
ghost use Rattle.csv.specs.Reading.{error_kind};
ghost use Rattle.revision_files.specs.Answers.{Refuses, one_by_one};
ghost use Rattle.revision_files.specs.Feeds.{rows_in, table_of};
ghost use Rattle.revision_files.specs.Readers.{IsOfMemory, IsReading, table_left};
ghost use Rattle.revision_files.specs.Rows.{next_row};

use crate::columns::{Columns, columns_of};
use crate::rows::{BlockRows, with_row};
use crate::stop::{FeedFault, FeedStop};
use csv::{Error, ErrorKind, Reader, ReaderBuilder, StringRecord};
use sqlite_items::Items;
use std::alloc::Global;
use vtl_values::Structure;

// Why a text in UTF-8 isn't read on: for want of memory. The clauses of a reader leave open that one of memory fails.
fn stop_of(error: &Error) -> FeedStop
    requires { IsOfMemory (error_kind error.now) }
    ensures { result ≡ FeedStop.Memory }
{
    match error.kind() {
        ErrorKind::Io(_) | ErrorKind::OutOfMemory => FeedStop::Memory,
        ErrorKind::Utf8 { .. }
        | ErrorKind::UnequalLengths { .. }
        | ErrorKind::Serialize(_)
        | ErrorKind::Deserialize { .. } => unreachable!(),
    }
}

// A reader of the records of a text, whatever the number of their fields.
fn reader_of(alloc: Global, text: &[u8]) -> Reader<&[u8]>
    requires { IsUtf8 text.now }
    ensures reading { IsReading result }
    ensures table { table_of text.now ≡ table_left result }
{
    ReaderBuilder::new()
        .has_headers(false)
        .flexible(true)
        .from_reader(alloc, text)
}

// The rows of the records that a reader has left.
fn rows_left(
    alloc: Global,
    reader: Reader<&[u8]>,
    block: u64,
    columns: &Columns,
    fields: u64,
) -> Result<BlockRows, FeedStop>
    requires { IsReading reader }
    ensures ok { IfOk result (λ rows. one_by_one (next_row block columns.now) (record { rows = []; fields = fields }) (table_left reader.entry) ≡ Ok rows) }
    ensures err { IfErr result (Refuses (one_by_one (next_row block columns.now) (record { rows = []; fields = fields }) (table_left reader.entry))) }
{
    let mut rows = BlockRows {
        rows: Items::new(alloc),
        fields,
    };
    for record in reader.into_records() {
        match record {
            Ok(record) => rows = with_row(alloc, block, columns, rows, &record)?,
            Err(error) => return Err(stop_of(&error)),
        }
    }
    Ok(rows)
}

/// The rows of a block with this number and this text, for a data set of this structure, or one that isn't known; so many
/// fields stand in the blocks before it.
pub(crate) fn rows_in(
    alloc: Global,
    structure: Option<&Structure>,
    block: u64,
    fields: u64,
    text: &[u8],
) -> Result<BlockRows, FeedStop>
    requires { IsUtf8 text.now }
    ensures ok { IfOk result (λ rows. rows_in (option_map (λ s. s.now) structure.entry) block fields text.now ≡ Ok rows) }
    ensures err { IfErr result (Refuses (rows_in (option_map (λ s. s.now) structure.entry) block fields text.now)) }
{
    let mut reader = reader_of(alloc, text);
    let mut header = StringRecord::new(alloc);
    match reader.read_record(&mut header) {
        Ok(true) => {}
        Ok(false) => return Err(FeedStop::Refused(FeedFault::BadHeader(block))),
        Err(error) => return Err(stop_of(&error)),
    }
    let Some(columns) = columns_of(alloc, structure, &header)? else {
        return Err(FeedStop::Refused(FeedFault::BadHeader(block)));
    };
    rows_left(alloc, reader, block, &columns, fields)
}
