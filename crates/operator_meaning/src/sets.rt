//! What set operators on data sets of one structure mean: the definitions, and their laws.
//!
//! It stands on the structures of results in `data_set_trees`, on the workings of `clause_meaning`, and on the reading
//! of keys by name in `pairs`. `set_meaning` of `specs/sets/Sets.antt` gives the outcome of an operator on a list of
//! data sets: its data set, or that the result has too many points. `specs/sets/Typed.antt` says which operators are
//! well typed. `laws` has what follows for whoever works such an operator out, and `examples` works some on small data
//! sets.

pub mod examples;
pub mod laws;
