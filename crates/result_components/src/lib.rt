//! Which components an operator on one data set gives, and what is asked of them.
//!
//! It stands on `data_set_trees::aggregates` for the definitions and on `clause_typing` for frames. The operators are
//! those that give components of their operand and beside them new ones, as aggregates and analytic operators do: they
//! take components by their numbers, put what they make after them, and order all by role. Of the result it is asked
//! that no two components have one name and that there are at most 64. Others, as sums of time series and hierarchies,
//! take numeric measures and give all components but plain attributes. Each call answers exactly what the definition of
//! its name says, or want of memory.
#![tactic(auto)]

mod asked;
mod components;
mod names;

pub use asked::{are_numeric, has_room, names_differ};
pub use components::{by_role, numbers_of, with_numbers, without_attributes};
pub use names::{are_known, int_var, is_identifier};
