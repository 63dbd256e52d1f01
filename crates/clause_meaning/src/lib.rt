//! What clauses mean on data sets: the definitions, and their laws.
//!
//! It stands on the clauses and frames of `data_set_trees::clauses`, on the maps and outcomes of `data_model`, and on
//! `scalar_meaning` for the expressions in a clause. `clause_meaning` of `specs/Clauses.antt` gives the outcome of a
//! clause on a data set of the frame's components: its data set, the least key at which it is out of range, or that the
//! result has too many points. It says so by the keys at which the clause is evaluated and is out of range, and by the
//! keys of its result and the values at each. `laws` has what follows for whoever works a clause out, and `examples`
//! works each clause on a small data set.
#![tactic(auto)]

pub mod examples;
pub mod laws;
