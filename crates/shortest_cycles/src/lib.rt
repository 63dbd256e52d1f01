//! Ways and cycles in a graph of numbers.
//!
//! A graph has for each number from 0 the numbers to which it leads, in the order in which it mentions them.
//! `first_cycle` finds the first number that is on a cycle, and of its shortest cycles the one that is mentioned first,
//! exactly where there is a cycle; its contract says so by ways alone. It stands on std and on the kit's `sqlite_items`.
#![tactic(auto)]

pub mod cycles;
pub mod laws;

pub use cycles::{Graph, contains, first_cycle, mark_at, put_once, targets_of};
