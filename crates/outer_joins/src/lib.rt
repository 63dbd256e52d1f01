//! The delta rules of left and full joins.
//!
//! It stands on the meanings of operators in `operator_meaning`, on the plans of `join_eval`, and on the held operands, the
//! drafts and the trait of rules of `held_index`. In these joins each operand has all identifiers, so that a key of an
//! operand is a key of the result, in another order. All operands are held whole. At each key of the result that a change
//! comes to the rule looks up what each operand has there and notes what the result had and has: so a padded point goes
//! when its partner comes, and comes again when the partner goes. `OuterJoinRule` is a `DeltaRule`: its answer is the right
//! delta or the right fault, whichever data sets the held operands stand for. Threads may share a rule
//! (`proofs/Shared.antt`).
#![tactic(auto)]

pub mod laws;
mod notes;
pub mod rule;

pub use rule::OuterJoinRule;
