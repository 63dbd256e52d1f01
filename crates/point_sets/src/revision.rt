// Revisions as they are read: rows whose fields are not yet judged.
ghost use Rattle.std.specs.Prelude.{◌≡◌, IfOk};

use sqlite_items::Items;
use std::alloc::AllocError;
use vtl_values::Word;

/// What a row asks for: to put its point in, or to take the point of its key away.
#[derive(Clone, Copy, Debug, PartialEq, Eq)]
pub enum Action {
    Put,
    Remove,
}

/// A field of a row as it was written, not yet read as a value.
#[derive(Debug, Drop, PartialEq, Eq)]
pub enum RawField {
    Empty,
    Given(Word),
}

impl RawField {
    /// An equal field, or want of memory.
    pub fn copy(&self) -> Result<RawField, AllocError>
        ensures { IfOk result (λ field. field ≡ self.now) }
    {
        Ok(match self {
            RawField::Empty => RawField::Empty,
            RawField::Given(text) => RawField::Given(text.copy()?),
        })
    }
}

/// A row of a revision. Its fields stand in structure order where the data set is known, else in the order of the
/// file.
#[derive(Debug, Drop)]
pub struct RawRow {
    pub action: Action,
    pub fields: Items<RawField>,
}

/// Rows for the data set of that name.
#[derive(Debug, Drop)]
pub struct Part {
    pub set: Word,
    pub rows: Items<RawRow>,
}

/// What a source sends at once: parts, in their order, which are judged together.
#[derive(Debug, Drop)]
pub struct Revision {
    pub parts: Items<Part>,
}
