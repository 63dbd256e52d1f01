//! The delta rule of scalar operators on two data sets, where the identifiers of one include those of the other.
//!
//! It stands on the meanings of operators in `operator_meaning`, on `pair_eval` for keys and for what is made of two
//! points, and on the held operands, the drafts and the trait of rules of `held_index`. The main operand gives the keys of
//! the result. Its points are held in parts, by the identifiers that the other operand has, so that a part has the
//! points that one point of the other operand meets; the other operand is held whole. For a change of the main operand
//! its partner is looked up, as it was and after its news. For a change of the other one the part of its key is gone
//! through, and each point there is taken as it was and after its news. `PairRule` is a `DeltaRule`: its answer is the
//! right delta or the right fault, whichever two data sets the held operands stand for. Without a change it looks
//! nothing up. Threads may share a rule (`proofs/Shared.antt`).
#![tactic(auto)]

mod notes;
pub mod rule;

pub use rule::PairRule;
