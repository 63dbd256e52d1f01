//! What checked scalar expressions mean.
//!
//! It stands on `scalar_trees` for the expressions, and on `vtl_decimals` and `scalar_texts` for the words in which
//! operators are defined. `meaning` of `specs/Scalars.antt` gives the value of an expression on a row, which is a point or
//! a group of points seen as the values of its components, aggregates and count; it is none where it is out of range.
//! Operators of one and of two operands are rows of the tables in `specs/Operators.antt`. `laws` has what holds of all
//! expressions; the call that works values out is in `scalar_eval`.
#![tactic(auto)]

pub mod laws;
