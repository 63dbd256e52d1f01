//! Arithmetic on numbers: exact sums, and products, quotients and means that are rounded once, half away from zero.
//!
//! Stands on `vtl_values`, whose numbers contracts see as whole counts of millionths. Each call gives the number that
//! `specs/Arithmetic.antt` defines, and `Range` exactly where that passes 10^21 millionths; no call takes memory. What
//! school arithmetic says of these definitions is proved in `laws`.
#![tactic(auto)]

pub mod laws;
pub mod places;
pub mod quotients;
pub mod range;
pub mod sums;

pub use places::{ceil, floor, modulo, round, trunc};
pub use quotients::{div, mean, mul, ratio};
pub use range::Range;
pub use sums::{add, sub, total};
