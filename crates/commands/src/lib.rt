//! The commands of the program, from its words and the bytes of its files to the bytes that it writes.
//!
//! `call::run_vtlprod` works on any shelf, sink and gate. Its contract says what is written and with which status the
//! program ends (specs/Output.antt). It stands on `round_runs`, which runs a script over revisions, on the crates that read
//! scripts and work out their structures, and on the forms of files that the program takes.
#![tactic(auto)]

pub mod call;
mod checking;
mod feeds;
pub mod forms;
mod graph;
mod operators;
pub mod reading;
pub mod script;
pub mod stop;
mod structures;
mod typing;
pub mod words;
