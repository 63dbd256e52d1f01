//! The values of checked scalar expressions on points and on groups of points.
//!
//! `eval` gives exactly the value that `scalar_meaning` defines, and tells `Range` exactly where that is out of range. It
//! stands on `vtl_decimals` and `scalar_texts` for what operators make of values. What an expression is worked out on is a
//! `Row`: it lends the values of its components by number, so no point is copied, and has those of aggregates. The matchers
//! of patterns are kept in `Matchers`, which whoever works expressions out at many points makes once: the matcher of a
//! pattern takes its room when the pattern is first met.
#![tactic(auto)]

mod comparisons;
mod evaluation;
mod logic;
mod matchers;
mod numbers;
mod operators;
mod row;
mod stop;
mod texts;

pub use evaluation::eval;
pub use matchers::Matchers;
pub use row::{PointRow, Row};
pub use stop::EvalStop;
