//! Journals of productions: what happened, which journals are legal, and what they say.
//!
//! It stands on the works of `transform_nodes`, on the judge of `revision_judge` and on the releases of `release_text`.
//! `specs/Journals.antt` reads a journal entry by entry into what it says, and says which entry may come next;
//! `specs/Words.antt` tells what it says from the entries alone; `specs/Stands.antt` says which works stand for a journal,
//! and `specs/Releases.antt` which releases it made. `laws` promises what a production and its readers go by: what stands
//! for a journal stands for longer ones, inputs after a prefix stay, scripts of one number are the same, a round ends by
//! what came back in it, what is set aside is enough, and releases stay and go forward. Works and nodes are passed on, so
//! that what stands above names this crate alone.
#![tactic(auto)]

pub mod entry;
pub mod laws;
pub mod verdict;

pub use entry::{Entry, Journal, What};
pub use transform_nodes::{Done, DoneParts, Finish, Node, NodeFault, Settle, Work};
pub use verdict::{ScriptFault, Verdict};
