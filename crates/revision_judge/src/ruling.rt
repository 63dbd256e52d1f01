// What judging answers.
ghost use Rattle.std.specs.Prelude.{◌≡◌, IfOk};

use crate::cause::Cause;
use point_sets::{Delta, RawField};
use sqlite_items::Items;
use std::alloc::{AllocError, Global};

/// The row that a revision is refused for: the number of its part and its own number in the part, both from 1, the
/// fields of its key as they were written, and the first cause that it has. Where no data set has the part's name, the
/// row is 0 and the key empty.
#[derive(Debug, Drop)]
pub struct Refusal {
    pub part: u64,
    pub row: u64,
    pub key: Items<RawField>,
    pub cause: Cause,
}

impl Refusal {
    /// An equal refusal, or want of memory.
    pub fn copy(&self, alloc: Global) -> Result<Refusal, AllocError>
        ensures { IfOk result (λ refusal. refusal ≡ self.now) }
    {
        Ok(Refusal {
            part: self.part,
            row: self.row,
            key: copy_fields(alloc, self.key.as_slice())?,
            cause: self.cause,
        })
    }
}

fn copy_fields(alloc: Global, fields: &[RawField]) -> Result<Items<RawField>, AllocError>
    ensures { IfOk result (λ copies. copies ≡ fields.now) }
{
    let mut copies = Vec::new(alloc);
    for field in fields {
        copies.push(field.copy()?)?;
    }
    Ok(Items::from_vec(copies))
}

/// What a revision makes of the data set with this number, which it changes: the delta leads from what that was before
/// all parts to what it is after them.
#[derive(Debug, Drop)]
pub struct Share {
    pub set: u64,
    pub delta: Delta,
}

/// What becomes of a revision.
#[derive(Debug, Drop)]
pub enum Ruling {
    /// It fits. Each data set that it changes has one share, by ascending numbers; one that it leaves as it was has none.
    Fit { shares: Items<Share> },
    Refused(Refusal),
}
