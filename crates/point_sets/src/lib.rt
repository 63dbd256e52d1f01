//! The points of data sets, in the order of their keys, the deltas between data sets, and revisions as they are read.
//!
//! It stands on `vtl_values`, whose values and order of keys it takes, on the definitions of finite maps and deltas of
//! `data_model`, and on the trees of `ordered_tree`. A key is seen as the list of its values, a set of points as a finite
//! map from keys to the other values, and a delta as the map from keys to the values before and after. Looking a point
//! up, counting, walking and putting in say exactly which map comes out; `PointSet::apply` gives the set to which the
//! delta leads, `compose` the right delta for two that come one after the other, and `Notes` the delta of changes that
//! were noted in any order, `all_of` the delta that makes a set from nothing. Where memory is refused, what was there stays. Copies share what they are copies of.
#![tactic(auto)]

pub mod delta;
mod edits;
pub mod key;
mod measure;
pub mod notes;
pub mod point;
pub mod point_set;
mod probe;
pub mod revision;
mod whole;

pub use delta::{Change, Delta, compose, have_same_values};
pub use key::Key;
pub use notes::Notes;
pub use point::Point;
pub use point_set::PointSet;
pub use revision::{Action, Part, RawField, RawRow, Revision};
pub use whole::all_of;
