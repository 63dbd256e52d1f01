//! How large a script is once its calls of defined operators are replaced, told without writing it out.
//!
//! Each operator gets a form that says what a call weighs from the weights of its arguments; so only the script and the
//! bodies are gone through, and never what they become. `faults::size_fault` promises the first fault of size of the
//! written-out script; `rooms::fits_as_it_stands` tells without memory whether a script that calls no operator has none.
//! It stands on `operator_faults` and `replaced_calls`.
#![tactic(auto)]

pub mod faults;
pub mod form;
pub mod laws;
pub mod measure;
pub mod outermost;
mod places;
pub mod rooms;
mod sizes;
mod weights;
