//! Checked operators on data sets, trees of them, and what single ones are checked to be: the definitions.
//!
//! It stands on `scalar_trees` for the scalar expressions in them. Operators on one data set each have a module:
//! `clauses`, `aggregates`, `windows`, `times` and `rules`. An operand is a data set, as a tree with its structure, or a
//! scalar. A scalar operator on data sets works on their measures, so what it is on them is said by what it is on
//! components: `specs/Forms.antt` has these operators without their operands, `specs/Lifted.antt` and
//! `specs/Pairs.antt` what they are on one data set and on two, and `specs/Choices.antt`, `specs/Exists.antt`,
//! `specs/Sets.antt`, `specs/Joins.antt`, `specs/Checks.antt`, `specs/Members.antt` the other operators. What whole
//! expressions are checked to be stands in `expression_rules`, so that what evaluates stands on none of it. `checked` has
//! typed scripts, and `examples` tries the operators on small data sets.
#![tactic(auto)]

pub mod aggregates;
pub mod checked;
pub mod clauses;
pub mod examples;
mod form;
mod measure;
mod operand;
pub mod rules;
mod shared;
pub mod times;
mod tree;
pub mod windows;

pub use form::Form;
pub use measure::Measure;
pub use operand::{DataSet, Operand};
pub use shared::SharedOperator;
pub use tree::{
    Branch, ChoiceMeasure, DataSetNode, DataSetOperator, DataSetTree, SetOperation, Source,
};
