//! What joins are checked to be, or their faults.
//!
//! It stands on `data_set_trees` for the trees and the definitions, on `data_set_parts` for structures and trees, and on
//! `clause_typing` and `window_typing` for what a clause leaves of a frame. The caller has typed the operands, and types the expressions in the
//! clauses inside: `begin` puts the operands under their aliases and tells the join's own faults, the caller checks each
//! clause on the frame that the one before it leaves, and `finish` puts the clauses on the join and asks that names differ
//! at the end. So nothing here calls itself.
//!
//! The contract of each call promises that an answer is exactly what `data_set_trees` says (`specs/Joins.antt`), and that an
//! error is exactly the first fault that it says, at its place, or want of memory. `specs/Inside.antt` has the laws of frames
//! inside a join, whose names may stand twice; `laws` shows them.
#![tactic(auto)]

mod agreement;
mod beginning;
mod components;
mod finishing;
mod frames;
mod inside;
mod joining;
pub mod laws;
mod operands;
mod titles;

pub use beginning::begin;
pub use finishing::finish;
pub use frames::copy_frame;
pub use inside::frame_left;
pub use joining::{Joining, Placed};
