//! The operands that an operator holds, and the trait of delta rules.
//!
//! It stands on `vtl_values`, on the deltas, outcomes and drafts of `data_model`, and on the points of `point_sets`. A
//! held operand is seen as what is wanted of it and its data set; each look says exactly what it finds, and counts its
//! steps. What comes after a delta is planned beside the content, and put in place without memory. `DeltaRule` says of
//! any operator that its rule answers right, whichever operands stand behind what is held; a `Draft` gathers what a
//! rule notes, in any order, and finishes it into that answer.
#![tactic(auto)]

pub mod draft;
mod entry;
pub mod held;
mod place;
pub mod rule;
pub mod stop;
mod sums;
mod walk;
pub mod want;

pub use draft::Draft;
pub use held::{Held, Patch};
pub use rule::DeltaRule;
pub use stop::Stop;
pub use want::{OrderItem, SumOf, Want, all_whole};
