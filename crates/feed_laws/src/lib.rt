//! Laws for those who read and write feeds: what a revision that fits changes, told from its rows, and that a feed which is
//! written by the rules reads back as its revisions.
//!
//! It stands on the judging of revisions in `revision_judge` and on the reading of feeds in `revision_files`, and has no code
//! but laws. `specs/Asked.antt` says which key a row names and what stands where that was done; `specs/Written.antt` has the
//! text of a feed, and which revisions can be written.
#![tactic(auto)]

pub mod laws;
