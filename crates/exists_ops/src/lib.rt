//! The delta rule of `exists_in`.
//!
//! It stands on the meanings of operators in `operator_meaning`, on the held operands, the drafts and the trait of rules of
//! `held_index`, and on the reach that `pair_ops` defines for operands that meet by the identifiers that they share. Both
//! operands are held in parts, by the identifiers that both have: whether a point of the first one is met goes by whether
//! the second one has a point in its part. `ExistsRule` is a `DeltaRule`: at the key of each change of the first operand it
//! notes what the result had and has, and so for all points that the first operand holds in a part into which the first
//! point of the second operand comes, or out of which its last one goes. Without a change it looks nothing up.
#![tactic(auto)]

pub mod laws;
mod notes;
mod numbers;
mod parts;
pub mod rule;
mod told;

pub use rule::ExistsRule;
