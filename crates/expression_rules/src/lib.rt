//! What expressions outside of clauses are checked to be: the definitions.
//!
//! It stands on `data_set_trees`, which has the trees and what single operators are checked to be.
//! `specs/OnClauses.antt` has the clauses of a data set with the expressions in them, `specs/PointClauses.antt` what these
//! leave, `specs/JoinClauses.antt` those inside a join and whole joins, `specs/OnSets.antt` aggregates, analytic operators
//! and operators on time series on one data set, `specs/OnChecks.antt` has `check`, `specs/OnRules.antt` uses of rulesets,
//! and `specs/Expressions.antt` whole expressions. Only typing stands on it: what a new form is checked to be changes
//! nothing of what evaluates. `examples` tries some on small data sets.
#![tactic(auto)]

pub mod examples;
pub mod point_clause;

pub use point_clause::PointClause;
