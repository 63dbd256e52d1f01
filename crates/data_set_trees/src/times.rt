//! Checked operators on time series, and what they are checked to be: the definitions.
//!
//! It stands on `clauses` for components by their roles, and on `aggregates` for what is asked of a result's
//! components. Such an operator takes a data set with a string identifier `TIME_PERIOD`. `specs/times/Times.antt` says
//! which components it gives, and what it is checked to be, or its first fault. `laws` has what holds of all of them,
//! and `examples` tries some on small data sets.

pub mod examples;
pub mod laws;
mod time;

pub use time::CheckedTime;
