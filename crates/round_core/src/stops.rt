// What calls of a production answer.

use crate::limits::Full;
use round_journal::ScriptFault;

/// Why a revision was not judged.
#[derive(Debug, Drop)]
pub enum SubmitStop {
    /// It doesn't fit any more.
    Full(Full),
    /// Memory was wanting.
    Memory,
}

/// Why a script was not replaced.
#[derive(Debug, Drop)]
pub enum RescriptStop {
    /// It doesn't fit any more.
    Full(Full),
    /// Memory was wanting.
    Memory,
}

/// Why a round was not opened.
#[derive(Debug, Drop)]
pub enum OpenStop {
    /// The round with this number is open.
    Running(u64),
    /// Of so many accepted revisions and of the scripts nothing is new: the last round had them all and the newest
    /// script, and wasn't dropped, or there are none and the script is the first one.
    NothingNew(u64),
    /// Its entries don't fit any more.
    Full(Full),
    /// Memory was wanting.
    Memory,
}

/// Why no statement was handed out.
#[derive(Debug, Drop)]
pub enum ClaimStop {
    /// No round is open. There were so many so far.
    NoRound(u64),
    /// No statement is ready, and so many are out.
    NoneReady { out: u64 },
}

/// Why there is no release to be had with the number that was asked for.
#[derive(Clone, Copy, Debug, PartialEq, Eq)]
pub enum NoRelease {
    /// It isn't kept any more. This is the oldest one that is.
    Gone(u64),
    /// It wasn't made yet. This is the latest one.
    NotYet(u64),
}

/// What giving a work back came to.
#[derive(Debug, Drop)]
pub enum Given {
    /// The round goes on.
    Counted,
    /// The round ended with the release of this number.
    Published(u64),
    /// The round ended with the script's fault.
    Failed(ScriptFault),
    /// The round ended without a release, since a statement of it was given up.
    Dropped,
}
