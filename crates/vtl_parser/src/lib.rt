//! The parser: from the tokens of a script to its tree.
//!
//! It reads from left to right by recursive descent, and each function is proved to answer as the reader of the grammar
//! does. Only `expression` is recursive: what holds expressions is read by the methods of `Parser`, which has the reader
//! of those as a value, so each is proved by itself. The contract of `parse` says by the grammar alone, for the tokens of
//! every text, that they are the script or have the fault that it gives, and nothing else; only want of memory is free.
//! A `ParsedScript` keeps that it is read from tokens that texts have. It stands on the grammar of `vtl_grammar`, and on
//! the cursor of `vtl_cursor` with what is read by it.
#![tactic(auto)]

#[tactic(auto, using(vtl_cursor::proofs::Shown::shown_deep))]
mod call;
#[tactic(auto, using(vtl_cursor::proofs::Shown::shown_deep))]
mod clause;
mod definition;
#[tactic(auto, using(vtl_cursor::proofs::Shown::shown))]
mod ending;
#[tactic(auto, using(vtl_cursor::proofs::Shown::shown_deep))]
mod expression;
mod form;
#[tactic(auto, using(vtl_cursor::proofs::Shown::shown_deep))]
mod join;
mod leaf;
#[tactic(auto, using(vtl_cursor::proofs::Shown::shown_deep))]
mod operators;
pub mod parsed;
#[tactic(auto, using(vtl_cursor::proofs::Shown::shown_deep))]
mod parser;
pub mod parsing;
#[tactic(auto, using(vtl_cursor::proofs::Shown::shown))]
mod plain_clause;
#[tactic(auto, using(vtl_cursor::proofs::Shown::shown_deep, vtl_cursor::proofs::Shown::shown))]
mod rulesets;
#[tactic(auto, using(vtl_cursor::proofs::Shown::shown_deep, vtl_cursor::proofs::Shown::shown))]
mod script;
pub mod stop;

pub use parsed::ParsedScript;
pub use parsing::parse;
pub use stop::{ParseFault, ParseStop};
