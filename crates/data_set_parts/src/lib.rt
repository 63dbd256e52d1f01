//! Parts that the typing of several operators on data sets shares.
//!
//! It stands on `data_set_trees` for the trees and the definitions, and on `clause_typing` for what a clause leaves.
//! `components` has the parts of structures and what two structures have in common, `measures` measures of a data set and
//! what stands for one, `names` the names that operators give, `copies` copies of checked expressions, `demands` what is
//! demanded of operands in the order of the faults, `joins` the components of results, `results` their structures,
//! `clauses` clauses on a data set, and `nodes` operators with their operands. Each call answers exactly what the
//! definition of that name in `data_set_trees` says, or want of memory.
#![tactic(auto)]

pub mod clauses;
pub mod components;
pub mod copies;
pub mod demands;
pub mod joins;
pub mod measures;
pub mod names;
pub mod nodes;
pub mod results;
