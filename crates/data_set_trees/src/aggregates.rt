//! Checked aggregates of data sets, and what they are checked to be: the definitions.
//!
//! It stands on `scalar_trees::typing`, whose scopes the names in an aggregate stand in, on `scalar_trees` for the
//! expressions that are worked out on a group, and on `clauses` for components by their roles. `sum(ds group by ..)`
//! and its like, and the clause `aggr`, are one thing: items that are worked out on each group of points.
//! `specs/aggregates/Groups.antt` says by what groups are formed and what may be named of one,
//! `specs/aggregates/Results.antt` which components the result has, and `specs/aggregates/Aggregates.antt` what an
//! aggregate is checked to be, or its first fault. `laws` has what holds of all of them, and `examples` tries some on
//! small data sets.

mod aggregate;
pub mod examples;
pub mod laws;

pub use aggregate::{AggregateItem, CheckedAggregate};
