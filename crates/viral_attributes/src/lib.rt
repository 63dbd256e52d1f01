//! How several values of a viral attribute combine to one.
//!
//! A viral attribute is handed on by every operator. Where several of its values meet in one result point, the value
//! with the highest rank in the attribute's code list is taken; null stands below all codes. It stands on
//! `vtl_values`. The contract of `combine` names the first place of that value among the values that meet, exactly.
#![tactic(auto)]

pub mod laws;
pub mod ranks;

pub use ranks::{Ranks, combine};
