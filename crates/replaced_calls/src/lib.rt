//! What the calls of a script's defined operators are replaced by.
//!
//! First the sorts of the operators are put to the arguments and results of calls; then each call becomes its operator's
//! body, with arguments for parameters. It stands on `operator_faults` and `tree_copies`, and has no code but laws.
#![tactic(auto)]

pub mod laws;
