//! What a join makes of the points of its operands, and the keys at which they meet.
//!
//! It stands on the meanings of joins in `operator_meaning::joins`. A `JoinPlan` is made once from the structures of
//! the operands and of the result: it keeps by which numbers keys are turned into each other, and where measures and
//! viral attributes stand. The keys that it gives, and the point that it makes of the operands' points at a key, are
//! exactly what `join_meaning` says, or want of memory. Keys whose order stays are shared.
#![tactic(auto)]

mod components;
mod keys;
mod plan;
mod points;
mod sides;
mod virals;

pub use keys::key_at;
pub use plan::JoinPlan;
