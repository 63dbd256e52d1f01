//! What is wrong with the defined operators of a script, as far as its text shows it before any call is replaced.
//!
//! An expression is seen as its outline: names, calls of defined operators, and what stands round them. The faults
//! speak of outlines alone. It stands on `vtl_syntax` and `shortest_cycles`.
#![tactic(auto)]

mod bodies;
pub mod calls;
pub mod fault;
pub mod faults;
pub mod graph;
mod names;
pub mod outline;
pub mod sketch;
pub mod trees;

pub use fault::{OperatorFault, PlacedFault};
pub use outline::{CallSite, Outline, Site, What};
pub use sketch::Sketch;
