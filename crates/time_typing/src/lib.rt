//! What operators on time series are checked to be, or their faults; and which components they give.
//!
//! It stands on `data_set_trees::times` for the trees and the definitions, on `clause_typing` for demands and roles,
//! and on `result_components` for components by their numbers. There is one call for each kind of operator. Each
//! answers exactly what the definition says, or want of memory, and what is checked on a structure gives a structure.
#![tactic(auto)]

mod after;
mod operators;
mod period;

pub use after::components_after;
pub use operators::{fill_typed, shift_typed, time_typed};
