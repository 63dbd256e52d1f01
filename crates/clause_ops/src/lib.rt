//! The delta rule of clauses, on a data set and in a join, and of scalar operators on one data set.
//!
//! It stands on `clause_eval` for what a clause makes of a point, and on the drafts and the trait of rules of
//! `held_index`. The changes of the operand carry the old point and the new one, and a clause works each point out by
//! itself, so the rule holds nothing and looks nothing up: for each change it notes what the result had and has at the
//! keys at which the point counts. `ClauseRule` is a `DeltaRule`: its answer is the right delta or the right fault,
//! whichever data set its operand is. Threads may share a rule (`proofs/Shared.antt`).
#![tactic(auto)]

mod notes;
pub mod rule;

pub use rule::ClauseRule;
