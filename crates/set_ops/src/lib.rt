//! The delta rules of the set operators.
//!
//! It stands on the meanings of operators in `operator_meaning`, and on the held operands, the drafts and the trait of
//! rules of `held_index`. All operands are held whole. At each key of the result that a change comes to the rule looks up
//! what each operand has there and notes what the result had and has. A plan, made once from the structures, puts keys and
//! points of an operand into the order of the first one; where the order is the same they are shared. `SetRule` is a
//! `DeltaRule`: its answer is the right delta or the right fault, whichever data sets the held operands stand for. Threads
//! may share a rule (`proofs/Shared.antt`).
#![tactic(auto)]

mod chosen;
mod notes;
mod order;
pub mod reading;
pub mod rule;

pub use rule::SetRule;
