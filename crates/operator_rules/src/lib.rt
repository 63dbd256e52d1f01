//! The rule of any operator that is built: that of the operator's family.
//!
//! Those above it see the rule as its operator, and the families not at all: what a rule wants held and how many steps it
//! may take are told by the operator.
#![tactic(auto)]

mod family;
mod rule;

pub use rule::OperatorRule;
