//! Copies of the trees of scripts and of what stands in them, and trees that are made anew.
//!
//! A copy equals what it is of. `Maker` makes one level of a tree anew, so that each caller has the recursion to itself:
//! what it makes is the tree of `specs/Made.antt`, in which names and calls of defined operators become something else.
//! Want of memory alone is free. It stands on `vtl_syntax`.
#![tactic(auto)]

mod clauses;
mod components;
pub mod laws;
mod level;
mod lists;
mod maker;
mod pairs;
mod parts;
mod trees;
mod wide;
mod windows;

pub use components::{copy_comp, copy_comps, copy_renames, copy_sub_items};
pub use lists::{copy_optional_word, copy_values, copy_words};
pub use maker::{Maker, Naming};
pub use trees::copy_expr;
pub use windows::{copy_grouping, copy_over};
