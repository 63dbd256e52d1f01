//! What `a#c`, `exists_in`, set operators, `check` and conditionals on data sets are checked to be, or their faults.
//!
//! It stands on `data_set_trees` for the trees and the definitions, on `data_set_parts` for structures and trees, and on
//! `operator_typing` for conditionals of scalars. There is one call for each operator, whose operands the caller has typed.
//! Each first works out the structure of its result from those of its operands, which it only looks at, and moves them
//! into the tree once nothing can be refused.
//!
//! The contract of each call promises that an answer is exactly the operand that `data_set_trees` says, and that an error
//! is exactly the first fault that it says, at its place, or want of memory.
#![tactic(auto)]

mod agreement;
mod applying;
mod branches;
mod checks;
mod chosen;
mod collections;
mod conditionals;
mod existence;
mod membership;
mod results;

pub use checks::check;
pub use collections::sets;
pub use conditionals::choice;
pub use existence::exists;
pub use membership::member;
