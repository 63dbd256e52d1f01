//! The literals in an expression, and in rulesets, are in range.
//!
//! It stands on `scalar_trees`, which says which values are in range. Each value of `vtl_values` is, since its type keeps
//! it there; `see_literals` looks at those in an expression and in its clauses, and so tells it of the whole expression,
//! which what is said of all expressions may ask for, and `see_rulesets` at those in the rules of rulesets.
//! `specs/Ranges.antt` says where literals stand.
#![tactic(auto)]

mod literals;
mod rulesets;

pub use literals::see_literals;
pub use rulesets::see_rulesets;
