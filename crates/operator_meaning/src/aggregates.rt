//! What aggregates on data sets mean: the definitions, and their laws.
//!
//! It stands on the checked aggregates of `data_set_trees::aggregates`, on the meaning of expressions in
//! `scalar_meaning`, and on the workings of `clause_meaning`. `specs/aggregates/Reductions.antt` says what an aggregate
//! makes of the values of a component, `specs/aggregates/Groups.antt` which points are a group and what may be worked
//! out on it, and `specs/aggregates/Aggregates.antt` what aggregates give on a data set. `laws` has what follows for
//! whoever works one out, and `examples` works some on small data sets.

pub mod examples;
pub mod laws;
