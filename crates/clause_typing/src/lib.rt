//! What the clauses of a data set are checked to be, or their faults; and what a frame is after a clause.
//!
//! It stands on `data_set_trees::clauses` for the trees and the definitions, and on `operator_typing` for operands and
//! names. There is one call for each clause, none of which calls itself; the expressions in a clause are typed by the
//! caller. Each answers exactly what the definition says, or want of memory. They serve data sets and joins alike,
//! since what a clause works on is a frame. What the typing of other operators wants too is exported beside them:
//! demands at a word, names and parts of frames, roles.
#![tactic(auto)]

mod after;
mod calc;
mod choices;
mod demanded;
mod differ;
mod names;
mod numbers;
mod parts;
mod points;
mod rename;
mod sub;
mod unpivot;

pub use after::{by_role, components_after, frame_after, made};
pub use calc::{calc_typed, item_typed, old_role, role_of, target_of};
pub use choices::{drop_typed, keep_typed};
pub use demanded::{demands, has_room};
pub use differ::names_differ;
pub use names::bare_number_of;
pub use numbers::{has_role, is_among, numbers_by_role};
pub use parts::{frame_of, picked, scope_of_frame};
pub use points::filter_typed;
pub use rename::rename_typed;
pub use sub::sub_typed;
pub use unpivot::unpivot_typed;
