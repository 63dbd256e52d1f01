//! What `exists_in` means: the definitions, and their laws.
//!
//! It stands on the structures of results in `data_set_trees`, on the workings of `clause_meaning`, and on the reading
//! of keys by name in `pairs`. `exists_meaning` of `specs/exists/Exists.antt` gives the outcome of the operator on two
//! data sets: the points of the first one that stay, each with its viral attributes and whether a point of the second
//! one agrees with it. `specs/exists/Typed.antt` says which operators are well typed. `laws` has what follows for
//! whoever works such an operator out, and `examples` works two on small data sets.

pub mod examples;
pub mod laws;
