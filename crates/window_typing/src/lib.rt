//! What analytic operators are checked to be, or their first fault; and what a frame is after them.
//!
//! It stands on `data_set_trees::windows` for the trees and the definitions, on `component_typing` for the operand of
//! an operator in `calc`, and on `clause_typing` and `result_components` for frames and for what is asked of a result.
//! An operator on a data set is typed on its components, and one in `calc` on a frame, each by one call that answers
//! exactly what the definition says, or want of memory. What they give on a structure is a structure again.
#![tactic(auto)]

mod after;
mod calc;
mod functions;
mod items;
mod measures;
mod operands;
mod parts;
mod points;

pub use after::{components_after, frame_after};
pub use calc::calc_checked;
pub use items::{analytic_item, scalar_item};
pub use measures::{offset_on, window_on};
pub use operands::{offset_typed, rank_typed, window_typed};
pub use parts::{order_items, partition_names};
pub use points::{is_offset, points_within};
