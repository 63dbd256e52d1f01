//! What joins mean on data sets, before the clauses inside them: the definitions, and their laws.
//!
//! It stands on the structures of results in `data_set_trees`, on the typing of operators in `data_set_trees::checked`,
//! on the workings of `clause_meaning`, and on `viral_attributes`. `join_meaning` of `specs/joins/Joins.antt` gives the
//! outcome of a join of a list of data sets: its data set, or that the result has too many points.
//! `specs/joins/Typed.antt` says which joins are well typed. `laws` has what follows for whoever works a join out, and
//! `examples` works some on small data sets.

pub mod examples;
pub mod laws;
