//! The graph of a script: which statements use the results of which.
//!
//! `order` gives an order in which the statements can be worked out, with what each uses, or the first fault of names and
//! uses; its contract names exactly one or the other. It stands on `vtl_syntax` for the trees that scripts are read as, on
//! `vtl_values` for the structures of the inputs, and on `shortest_cycles`.
#![tactic(auto)]

mod both;
mod cycle;
pub mod fault;
mod mentions;
mod names;
mod ordering;
mod repeats;
mod scope;
mod script_order;
pub mod sort;
mod uses;

pub use fault::{GraphFault, GraphStop, PlacedFault};
pub use ordering::in_order;
pub use script_order::{ScriptOrder, order};
pub use sort::NameSort;
