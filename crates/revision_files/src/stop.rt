// Why a feed is refused, and where.
ghost use Rattle.revision_files.specs.declared.stop.FeedStop.TheVariants.{Memory};
ghost use Rattle.std.specs.Prelude.{◌≡◌};

use std::alloc::{AllocError, AllocFailed};
use thiserror::Error;

/// A fault of a feed. Blocks and their rows are counted from 1; a fault before the first block has the number 0.
#[derive(Clone, Copy, Debug, Drop, PartialEq, Eq, Error)]
pub enum FeedFault {
    #[error("the feed isn't in UTF-8")]
    NotUtf8,
    #[error("block {0} has no header that fits, or isn't in its place")]
    BadHeader(u64),
    #[error("row {1} of block {0} has another number of fields than the header")]
    FieldCount(u64, u64),
    #[error("row {1} of block {0} neither puts nor removes")]
    BadAction(u64, u64),
    #[error("a limit is passed at block {0}, row {1}")]
    TooMany(u64, u64),
}

/// Why a feed gives no revisions.
#[derive(Clone, Copy, Debug, Drop, PartialEq, Eq, Error)]
pub enum FeedStop {
    #[error("the feed is refused")]
    Refused(FeedFault),
    #[error("out of memory")]
    Memory,
}

impl From<AllocError> for FeedStop {
    ghost from_gives = { λ _ stop. stop ≡ Memory };

    fn from(_error: AllocError) -> Self {
        FeedStop::Memory
    }
}

impl<T: Drop> From<AllocFailed<T>> for FeedStop {
    ghost from_gives = { λ _ stop. stop ≡ Memory };

    fn from(_error: AllocFailed<T>) -> Self {
        FeedStop::Memory
    }
}
