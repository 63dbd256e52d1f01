//! What each operator of scalar expressions makes of operands that are typed, or its fault; and what names stand for.
//!
//! It stands on `scalar_trees::typing` for the definitions, and on `scalar_trees` for the trees. Each call takes its
//! operands by value and puts them into the tree that it answers. It answers exactly what the definition says, or want
//! of memory.
#![tactic(auto)]

mod choices;
mod groups;
mod leaves;
mod names;
mod numbers;
mod operands;
mod scopes;
mod sets;
mod signs;
mod tables;
mod texts;

pub use choices::{function_typed, if_typed, nvl_typed};
pub use groups::{aggregate_typed, count_at};
pub use leaves::{component_typed, literal_typed};
pub use names::{bare_number, member, member_number, named};
pub use numbers::round_typed;
pub use operands::{Agreed, agreeing, joint, wanted, wanted_if, widened};
pub use scopes::{columns_of, names_of, scope_of};
pub use sets::{between_typed, in_typed};
pub use signs::{
    comparison_operator, or_operator, prefix_operator, product_operator, sum_operator,
    unary_operator,
};
pub use tables::{binary_typed, sort_typed, unary_typed};
pub use texts::{matches_typed, replace_typed, substr_typed};
