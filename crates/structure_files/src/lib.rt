//! The structure file: the data sets that a script may use, with their components, as JSON.
//!
//! It stands on `vtl_values`, whose structures it gives, and on the kit's `serde_json`, which says what the bytes are
//! as JSON. Its contract says for all bytes which structures come out, or which fault at which path is the first.
#![tactic(auto)]

mod components;
mod fields;
mod json;
pub mod sets;
pub mod stop;

pub use sets::read_structures;
pub use stop::{Fault, Field, Path, Refusal, StructureStop};
