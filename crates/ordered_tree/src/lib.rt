//! Sequences in balanced trees that share what does not change.
//!
//! It stands on std alone. Contracts see a `Tree` as the list of its items. A change makes the nodes on one path anew
//! and shares the others, so the tree before it stays as it was. Each node keeps its number of items and what a
//! `Measure` tells of them, so that places, and measures of the items between two places, are found by descents, whose
//! length is logarithmic (`laws`). In a tree whose items ascend by an `Order`, which may be chosen while the program
//! runs, items are found, put in and taken out by it.
#![tactic(auto)]

pub mod laws;
mod measure;
mod order;
mod sorted;
mod tree;

pub use measure::{Measure, Measured, Reading};
pub use order::{Order, Probe};
pub use tree::Tree;
