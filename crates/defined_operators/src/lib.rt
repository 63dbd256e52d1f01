//! The written-out script: each call of a defined operator is replaced by the operator's body.
//!
//! `expand` gives it, or the first fault of the script's operators; want of memory alone is free. First the sorts of the
//! operators are put to the arguments and results of calls, then all calls are replaced. What is written and in which
//! order tells nothing: `replaced_calls` has the meaning and the laws. It stands on `operator_faults`, `tree_copies` and
//! `replaced_calls`.
#![tactic(auto)]

mod calling;
mod calls;
mod copies;
pub mod expand;
mod names;
mod rulesets;
mod scripts;
mod sorts;
mod trees;
mod uses;
mod writer;
