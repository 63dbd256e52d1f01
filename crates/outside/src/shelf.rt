// Shelves.
ghost use Rattle.std.specs.Prelude.{◌≡◌, ◌<◌, ◌≤◌, ℕ, List, length, Some, IfOk, IfErr, OnErr, IsErrOf};
ghost use Rattle.outside.specs.Shelves.{ShelfView, Told, IfTooLong, kept_of, last_of};
ghost use Rattle.outside.specs.Counts.{Rose};

use std::alloc::Global;
use thiserror::Error;
use vtl_values::Word;

/// Why a read gave nothing: a fault, more bytes than the limit (their number), or want of memory.
#[derive(Clone, Copy, Debug, Drop, PartialEq, Eq, Error)]
pub enum ShelfStop {
    #[error("the read failed")]
    Failed,
    #[error("{0} bytes are too long")]
    TooLong(u64),
    #[error("out of memory")]
    Memory,
}

/// Something with bytes under names.
pub trait Shelf {
    ghost view: { Self → ShelfView };

    /// The bytes under a name, at most `limit`.
    fn read(&mut self, alloc: Global, name: &Word, limit: u64) -> Result<Vec<u8>, ShelfStop>
        // What it holds stays, and its count of faults doesn't fall.
        ensures files { (view self.new).files ≡ (view self.old).files }
        ensures later { (view self.old).faults ≤ (view self.new).faults }

        // The bytes are those under the name, where told.
        ensures within { IfOk result (λ bytes. length bytes.items ≤ limit) }
        ensures bytes { IfOk result (λ bytes. Told (view self.old).files
            (λ files. files name.now ≡ Some bytes.items)) }

        // A fault is counted, and its name is kept until the next one.
        ensures rose { IsErrOf result ShelfStop.Failed → Rose (view self.old).faults (view self.new).faults }
        ensures last { IsErrOf result ShelfStop.Failed → (view self.new).last ≡ name.now }
        ensures last_kept { (view self.new).last ≡ last_of result name.now (view self.old).last }

        // Too long is told with the number of bytes, which is above the limit and, where told, theirs.
        ensures kept { (view self.new).kept ≡ kept_of result }
        ensures long { IfErr result (IfTooLong (λ n. limit < n)) }
        ensures told_long { IfErr result (IfTooLong (λ n. Told (view self.old).files
            (λ files. (bytes : List ℕ) × (files name.now ≡ Some bytes) × (length bytes ≡ n)))) };
}
