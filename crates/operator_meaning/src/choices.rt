//! What conditionals `if c then a else b` on data sets mean: the definitions, and their laws.
//!
//! It stands on the structures of results in `data_set_trees`, on the typing of operators in `data_set_trees::checked`,
//! on the workings of `clause_meaning`, and on keys and viral attributes by name in `pairs`. `choice_meaning` of
//! `specs/choices/Choices.antt` gives the outcome of a conditional on its condition and the branches that are data
//! sets: its data set, the least key at which it is out of range, or that the result has too many points.
//! `specs/choices/Typed.antt` says which conditionals are well typed: those that typing gives. `laws` has what follows
//! for whoever works one out, and `examples` works some on small data sets.

pub mod examples;
pub mod laws;
