//! The delta rule of conditionals `if c then a else b` on data sets.
//!
//! It stands on the meanings of operators in `operator_meaning`, on `scalar_eval` for the measures, and on the held
//! operands, the drafts and the trait of rules of `held_index`. A `ChoicePlan` is made once from the structures of the
//! operands and of the result: it keeps the numbers by which keys are turned into each other and viral attributes meet. At
//! the key of each change the rule works out what the result had and has: the condition is looked up there, and the branch
//! that it chose and chooses. `ChoiceRule` is a `DeltaRule`: its answer is the right delta or the right fault, whichever
//! data sets the held operands stand for. Without a change it looks nothing up.
#![tactic(auto)]

mod components;
mod keys;
mod looks;
mod notes;
mod plan;
pub mod rule;
mod values;

pub use rule::ChoiceRule;
