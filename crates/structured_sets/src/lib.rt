//! Data sets of a structure: each point gives each component a value that fits it.
//!
//! It stands on the structures of `vtl_values` and the data sets of `point_sets`, and has the definitions that readers,
//! operators and productions share. `copies` makes equal structures for those who keep them.
#![tactic(auto)]

pub mod copies;
pub mod laws;

pub use copies::copy_all;
