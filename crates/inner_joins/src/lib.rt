//! The delta rule of inner joins.
//!
//! It stands on the meanings of operators in `operator_meaning`, on the plans of `join_eval`, and on the held operands, the
//! drafts and the trait of rules of `held_index`. The main operand, the first that has all identifiers, gives the keys of
//! the result. It is held in parts, for each other operand by the identifiers that this one has, so that a part has the
//! points that one point of the other operand meets; the others are held whole. At the key of each change of the main
//! operand the others are looked up, each as it was and after its news. For a change of another operand the part of its
//! key is gone through, each point there is taken as it was and after its news, and the further operands are looked up.
//! What the join had and has there is noted. `InnerJoinRule` is a `DeltaRule`: its answer is the right delta, whichever
//! data sets the held operands stand for. Without a change it looks nothing up. Threads may share a rule
//! (`proofs/Shared.antt`).
#![tactic(auto)]

pub mod laws;
mod notes;
mod plan;
pub mod rule;
mod wants;

pub use rule::InnerJoinRule;
