//! What a scalar operator on two data sets makes of two of their points.
//!
//! It stands on the definitions of `operator_meaning::pairs`, on `scalar_eval` for the measures, and takes the form of
//! what is made of a point from `clause_eval`. A `PairPlan` is made once from the structures of the operands and of the
//! result: it keeps which operand is the main one, by which numbers keys are turned into each other, and which viral
//! attributes meet. What it gives for keys and for points is exactly what `pair_meaning` says, or want of memory.
#![tactic(auto)]

mod components;
mod keys;
mod plan;
mod row;
mod virals;

pub use plan::{PairPlan, Side};
