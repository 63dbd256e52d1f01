// What a journal lists.

use crate::verdict::{ScriptFault, Verdict};
use built_scripts::CheckedScript;
use point_sets::Revision;
use sqlite_items::Items;
use std::sync::Arc;

/// What happened in a turn.
#[derive(Drop)]
pub enum What {
    /// A revision was judged.
    Judged {
        revision: Revision,
        verdict: Verdict,
    },
    /// The script was replaced: rounds that are opened from then on are of this one.
    Rescripted {
        script: Arc<CheckedScript>,
    },
    /// A round was opened over so many accepted revisions.
    Opened {
        to: u64,
    },
    /// A statement was handed out.
    Claimed {
        statement: u64,
    },
    /// A statement came back with its change or its fault.
    Returned {
        statement: u64,
    },
    /// A statement came back because memory was wanting.
    GaveUp {
        statement: u64,
    },
    /// The round ended with a release.
    Published {
        to: u64,
    },
    /// The round ended with the script's fault.
    Failed {
        to: u64,
        fault: ScriptFault,
    },
    /// The round ended without a release, since a statement was given up.
    Dropped {
        to: u64,
    },
}

/// What happened, and the number of the caller.
#[derive(Drop)]
pub struct Entry {
    pub by: u64,
    pub what: What,
}

/// All that happened, in order.
#[derive(Drop)]
pub struct Journal {
    pub entries: Items<Entry>,
}
