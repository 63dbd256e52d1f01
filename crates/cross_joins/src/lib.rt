//! The delta rule of cross joins.
//!
//! It stands on the meanings of operators in `operator_meaning`, on the plans of `join_eval`, and on the held operands,
//! the drafts and the trait of rules of `held_index`. A cross join has a point for each combination of a point of each
//! operand. All operands are held whole. Where the news leave more combinations than a data set may have points, the rule
//! says so by their number alone. Else it goes through each operand once, and takes those combinations in which a point
//! changes: of the points that were there before the news, and of those that are there after them. `CrossJoinRule` is a
//! `DeltaRule`: its answer is the right delta or the right fault, whichever data sets the held operands stand for. Without
//! a change it looks nothing up. Threads may share a rule (`proofs/Shared.antt`).
#![tactic(auto)]

mod combinations;
mod counts;
pub mod laws;
mod notes;
mod rows;
pub mod rule;

pub use rule::CrossJoinRule;
