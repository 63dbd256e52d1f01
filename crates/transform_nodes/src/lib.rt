//! Statements at work: trees of delta rules that hold what they need, and the works that carry a change through them.
//!
//! It stands on the rules of the operators, of which it uses the clauses of `DeltaRule` alone, and on the pages of
//! `release_text`. A node stands for a list of input data sets where what its tree holds is what its operators have on
//! them. `Work::run` turns a work that stands for two lists of inputs, the old and the new ones, into a done that
//! stands for both: it has the right change, or the statement's fault on the new inputs, or it was given up.
#![tactic(auto)]

mod build;
mod carry;
pub mod fault;
mod finish;
mod halt;
pub mod node;
mod operate;
mod settle;
pub mod work;

pub use fault::NodeFault;
pub use node::{Child, Node, OpTree};
pub use work::{Done, DoneParts, Finish, Settle, Work};
