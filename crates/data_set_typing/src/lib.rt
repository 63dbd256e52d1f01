//! What operators on data sets are checked to be, or their faults.
//!
//! It stands on `data_set_trees` for the trees and the definitions, on `operator_typing` for scalar operators, and on
//! `data_set_parts` for structures and trees. `lifted` types a scalar operator on data sets and constants: `call` answers
//! what the operator is where components stand for its data sets, and `direct` does so for one and two operands, as most
//! operators have; `kinds` tells whether the kinds fit, `one` and `pairs` what it comes to on one data set and on two,
//! `planning` which of these it is, and `lifting` carries that out. `known` keeps what the last operators
//! came to, for those that are `alike`. Its operands are typed by the caller.
//!
//! The contract of `lifted` promises that an answer is exactly the operand that `data_set_trees` says (`specs/Pairs.antt`,
//! `lifted`), and that an error is exactly the first fault that it says, at its place, or want of memory.
#![tactic(auto)]

mod alike;
mod call;
mod checked;
mod direct;
mod forms;
mod kinds;
mod known;
mod lifting;
mod meetings;
mod names;
mod one;
mod pairs;
mod plan;
mod planning;
mod slots;

pub use known::KnownPlans;
pub use lifting::lifted;
