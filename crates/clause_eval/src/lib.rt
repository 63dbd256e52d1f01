//! What a clause makes of one point of a data set.
//!
//! It stands on the meanings of clauses in `clause_meaning`, and on `scalar_eval` for the expressions in a clause.
//! `specs/Points.antt` says what a clause makes of a point by itself: at which keys of the result the point counts, what
//! the result has there, and where the clause is out of range at the point. The functions here give exactly that, or
//! want of memory. `picks` gives the numbers of the values that a clause takes over; they depend on the structure alone,
//! so whoever works a clause out at many points asks for them once. `laws` has that the whole result of a clause is made
//! of what it makes of single points.
#![tactic(auto)]

mod evaluation;
mod items;
mod keys;
pub mod laws;
mod numbers;
mod pieces;
mod values;

pub use evaluation::{Evaluation, evaluate};
pub use keys::{has_values, key_left};
pub use numbers::picks;
pub use pieces::{key_with_name, measure_of, moved};
