//! What aggregates on a data set are checked to be, or their first fault; and which components they give.
//!
//! It stands on `data_set_trees::aggregates` for the trees and the definitions, on `component_typing` for the
//! expressions that are worked out on a group, and on `result_components` for what is asked of the result's components.
//! `sum(ds group by ..)` and its like, and the clause `aggr`, are one call each; the data set is typed by the caller,
//! and a call takes its components. Each answers exactly what the definition says, or want of memory.
#![tactic(auto)]

mod aggregates;
mod groups;
mod items;
mod parts;
mod results;

pub use aggregates::{aggr_typed, aggregate_typed};
pub use results::components_after;
