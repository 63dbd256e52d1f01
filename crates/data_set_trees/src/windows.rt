//! Checked analytic operators, and what they are checked to be: the definitions.
//!
//! It stands on `scalar_trees::typing`, whose scopes the names in an operator stand in, on `scalar_trees` for
//! expressions on a point, and on `clauses` for components by their roles and for `calc`. An analytic operator gives
//! each point a value from the points around it in its part. It stands on a data set, where it works on each measure,
//! or in a `calc` item as the whole expression. `specs/windows/Functions.antt` has the kinds that it takes and gives,
//! `specs/windows/Parts.antt` what `over (..)` is checked to be, `specs/windows/Windows.antt` the operators, or their
//! first fault, and `specs/windows/Results.antt` which components a result has. `laws` has what holds of all of them,
//! and `examples` tries some on a small data set.

mod analytic;
pub mod examples;
pub mod laws;

pub use analytic::{
    Analytic, AnalyticItem, AnalyticMeasure, AnalyticValue, CheckedAnalytic, CheckedWindow,
    OrderedBy, Parts,
};
