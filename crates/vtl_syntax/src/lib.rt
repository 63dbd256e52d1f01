//! The trees of scripts as they are read, before names and types are looked at.
//!
//! They follow the grammar of `docs/language.md`, section "Grammar": a rule is a struct, or an enum where it has
//! alternatives; fields stand in the grammar's order; a part that may be left out is an `Option`, a repeated part a
//! list, a choice between words or signs an enum of these. Names and strings are texts, literals are values. A chain
//! of infix operators is nested to the left, and brackets are kept. Contracts see a list as the list of its items and
//! a boxed part as that part, so two trees are equal if they say the same at the same places.
//!
//! It stands on `vtl_values` and on the kit's `sqlite_items`.
#![tactic(auto)]

pub mod expr;
pub mod operator;
pub mod ruleset;
pub mod script;
pub mod words;

pub use expr::{
    Clause, Comp, Expr, Grouping, Groups, Item, JoinOperand, OrderItem, Over, Points, Rename,
    SubItem, SubstrRange,
};
pub use operator::{DefinedOperator, Param};
pub use ruleset::{
    DatapointRule, DatapointRules, FaultPart, HierarchyRule, HierarchyRules, Ruleset, SignedName,
    Variable,
};
pub use script::{Script, Statement};
