//! Checked rulesets on data sets, and what they are checked to be: the definitions.
//!
//! It stands on `scalar_trees::typing`, whose scopes the names in a rule stand in, on `clauses` for components by their
//! roles, and on `aggregates` for what is asked of a result's components. A ruleset is checked at each use, with the
//! kinds of the data set's components; what is wrong with a ruleset by itself is asked before. `specs/rules/Rules.antt`
//! says what the names in a rule stand for, and of several faults which one is told, `specs/rules/Datapoints.antt` what
//! `check_datapoint` is checked to be, and `specs/rules/Hierarchies.antt` the same of `hierarchy` and
//! `check_hierarchy`. `laws` has what holds of all of them, and `examples` tries some on small data sets.

pub mod examples;
pub mod laws;
mod rules;

pub use rules::{
    CheckedCheck, CheckedDatapoint, CheckedHierarchy, HierarchyContent, ItemRule, PointRule,
    RuleError, SignedItem,
};
