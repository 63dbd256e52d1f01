//! What scalar operators on two data sets mean: the definitions, and their laws.
//!
//! It stands on the structures of results in `data_set_trees`, on the typing of operators in `data_set_trees::checked`,
//! on the workings of `clause_meaning`, and on `viral_attributes`. `pair_meaning` of `specs/pairs/Pairs.antt` gives the
//! outcome of an operator on two data sets: its data set, the least key at which it is out of range, or that the result
//! has too many points. `specs/pairs/Typed.antt` says which operators are well typed: those that typing gives, as data
//! sets of structures. `laws` has what follows for whoever works such an operator out, and `examples` works some on
//! small data sets.

pub mod examples;
pub mod laws;
