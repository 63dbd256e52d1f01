//! Judging of revisions: what a revision makes of its data sets, or why it is refused.
//!
//! It stands on the structures and values of `vtl_values`, on the data sets, deltas and notes of `point_sets`, and on
//! the fitting of points of `structured_sets`. `judge` goes through the parts and their rows in order. Its contract gives for
//! each revision the judgement of the definition: the deltas that lead to the data sets after all parts, or the first row
//! that has a cause, its part, its key as it was written, and the cause. Judging changes nothing: that is left to those
//! who put the deltas in place.
#![tactic(auto)]

pub mod cause;
mod fields;
pub mod judging;
pub mod laws;
pub mod ruling;
mod stop;
mod tallies;
mod tally;

pub use cause::Cause;
pub use judging::judge;
pub use ruling::{Refusal, Ruling, Share};
