//! What the operators on data sets mean, and what expressions and scripts of them mean.
//!
//! It stands on the typed operators and the scripts of `data_set_trees::checked`, on `clause_meaning` for clauses, and
//! on `pairs`, `sets`, `exists`, `choices` and `joins` for operators on several data sets. An operator's outcome is its
//! data set, the least key at which an evaluation is out of range, or that the result has too many points. The laws say
//! what follows for whoever works an operator or a script out.
#![tactic(auto)]

pub mod aggregates;
pub mod choices;
pub mod exists;
pub mod joins;
pub mod laws;
pub mod pairs;
pub mod sets;
