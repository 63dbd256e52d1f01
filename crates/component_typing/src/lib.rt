//! Scalar expressions as they are checked, or their first fault.
//!
//! `check_expr` answers exactly what `scalar_trees` says of an expression: its checked tree with its kind, or the first
//! fault at its place. It stands on `operator_typing`, which types each operator, and adds the walk over the tree.
#![tactic(auto)]

mod checker;
mod choices;
mod expression;
mod groups;
mod level;
mod misplaced;
mod operators;

pub use expression::{check_expr, check_operand};
