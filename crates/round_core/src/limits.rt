// How much a production may hold.

/// The most entries of a journal that the program allows.
pub const ENTRY_LIMIT: u64 = 4_000_000;

/// The most fields of all judged revisions together that the program allows.
pub const FIELD_LIMIT: u64 = 16_000_000;

/// The most scripts of a production that the program allows, the first one counted.
pub const SCRIPT_LIMIT: u64 = 16;

/// The earlier releases that are kept beside the latest one.
pub const EARLIER_LIMIT: usize = 63;

/// The most entries of a production's journal, with those that are set aside for an open round; the most fields of all
/// its judged revisions together; and the most scripts, of which there is always one.
#[derive(Clone, Copy, Debug, PartialEq, Eq)]
pub struct Limits {
    pub entries: u64,
    pub fields: u64,
    pub scripts: u64,
}

/// What doesn't fit any more. A number that is larger than a `u64` is told as the last one.
#[derive(Clone, Copy, Debug, PartialEq, Eq)]
pub enum Full {
    /// The journal's length, the entries that are set aside for the open round, and those that the call needs.
    Entries { held: u64, aside: u64, need: u64 },
    /// The fields of all judged revisions, and those of this one.
    Fields { held: u64, need: u64 },
    /// The scripts that there were, the first one counted.
    Scripts { held: u64 },
}
