//! Checked scalar expressions: trees whose names are numbers of components, and the kinds that their operators take and
//! give.
//!
//! It stands on `vtl_values`, on `vtl_syntax` for the words that a tree keeps, and on `scalar_texts` for patterns. Each
//! operator is a row of the tables in `specs/Kinds.antt`, and `specs/WellTyped.antt` says what a well typed tree is.
//! `typing` says which tree an expression is checked to be, or its first fault.
#![tactic(auto)]

mod kinds;
mod operators;
mod pattern;
mod tree;
pub mod typing;

pub use kinds::{
    aggregate_gives, aggregate_takes, agreed, any_kind, binary_gives, binary_takes, digits_fit,
    is_present, literal_kind, may_stand, round_gives, sort_takes, unary_gives, unary_takes,
    widened_value,
};
pub use operators::{BinaryOperator, UnaryOperator};
pub use pattern::SharedPattern;
pub use tree::CheckedExpr;
