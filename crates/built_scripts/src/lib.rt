//! Which typed scripts may be run: those all of whose operators are built.
//!
//! It stands on `data_set_trees::checked`, and says which operators are built: all but aggregates, analytic operators,
//! operators on time series, `check` and uses of rulesets. `runnable` gives the script exactly where all its operators
//! are built, as a `CheckedScript`, which keeps that they are. It goes over each tree once.
#![tactic(auto)]

mod operators;
pub mod script;
mod scripts;

pub use script::CheckedScript;
pub use scripts::runnable;
