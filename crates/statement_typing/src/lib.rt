//! What an expression outside of clauses is checked to be, a data set or a scalar, or its first fault.
//!
//! It stands on `data_set_trees` for the trees and on `expression_rules` for the definitions, on `data_set_typing`,
//! `set_typing` and `join_typing` for operators, on `clause_typing` and `component_typing` for clauses and the
//! expressions in them, and on `aggregate_typing`, `window_typing`, `time_typing` and `rule_typing` for other operators on
//! one data set. `names` has what names stand for. `checker` types one level of an expression, by `operators`, `data_sets`,
//! `checks`, `joins`, `clauses`, `points`, `series` and `uses`; `level` has one row for each form, and `expression` adds the
//! walk over the tree.
//!
//! The contract of `check_expression` promises that an answer is exactly the operand that `expression_rules` says
//! (`specs/Expressions.antt`, `typed`), where names stand for what `specs/Names.antt` says, and that an error is
//! exactly the first fault that it says, at its place, or want of memory.
#![tactic(auto)]

mod checker;
mod checks;
mod clauses;
mod data_sets;
mod expression;
mod forms;
mod items;
mod joins;
mod level;
mod names;
mod on_rules;
mod on_sets;
mod operators;
mod points;
mod series;
mod sorts;
mod tables;
mod uses;

pub use expression::check_expression;
pub use names::{Names, StatementResult};
