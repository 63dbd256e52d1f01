//! What uses of rulesets are checked to be, or their faults; and which components they give.
//!
//! It stands on `data_set_trees::rules` for the trees and the definitions, on `component_typing` for the expressions in
//! rules, on `clause_typing` for names and roles, and on `result_components` for components by their numbers. A ruleset
//! is checked at each use, with the components of the data set. Of all that is wrong the first in the order of faults
//! is told, so a walk over the rules keeps the first fault that it has found beside the rules that it has checked. Each
//! call answers exactly what the definition says, or want of memory, and what is checked on a structure gives a
//! structure.
#![tactic(auto)]

mod conditions;
mod content;
mod datapoints;
mod faults;
mod hierarchies;
mod item_rules;
mod names;
mod point_rules;
mod rows;
mod told;

pub use content::variables_of;
pub use datapoints::{datapoint_after, datapoint_typed};
pub use hierarchies::{computed_typed, hierarchy_after, rows_typed};
pub use names::name_in_rules;
pub use told::{error_with, rule_name};
