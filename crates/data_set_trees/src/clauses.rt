//! Checked clauses of data sets, what they work on, and what they are checked to be: the definitions.
//!
//! It stands on `scalar_trees::typing`, whose scopes a clause's names stand in, and on `scalar_trees` for the
//! expressions in a clause. A clause works on a frame: components, and the names that they have.
//! `specs/clauses/Frames.antt` says what a frame is and which parts it has, `specs/clauses/After.antt` what it is after
//! a clause, and `specs/clauses/Clauses.antt` what a clause is checked to be, or its first fault. A data set and a join
//! each have a frame, so one set of rules serves both. `laws` has what holds of all frames. The functions that answer
//! so are in `clause_typing`.

mod clause;
mod frame;
pub mod laws;

pub use clause::{
    CheckedClause, CheckedItem, CheckedMeasure, CheckedRename, CheckedSubItem, Target,
};
pub use frame::Frame;
