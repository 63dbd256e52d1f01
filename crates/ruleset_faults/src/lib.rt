//! What is wrong with rulesets by themselves, wherever they are used and whatever the kinds of their variables are there.
//!
//! It stands on `vtl_syntax` for the trees, on `shortest_cycles` and `script_graph` for items that depend on themselves, on
//! `window_typing` for how far windows reach, and on `rule_typing` for what rules and variables are called. `expressions`
//! looks at an expression in a rule, `over` at an analytic operator in it, `items` at what the items of a hierarchical
//! ruleset are worked out from, `rules` at rules, and `rulesets` at whole rulesets.
//!
//! The contract of `check_rulesets` promises that an answer is exactly that nothing is wrong with any of them
//! (`specs/Rulesets.antt`), and an error exactly the first fault of the first in the script that has one, at its place, or
//! want of memory.
#![tactic(auto)]

mod expressions;
mod items;
mod over;
mod rules;
mod rulesets;

pub use rulesets::check_rulesets;
