//! The tokens that spell a script.
//!
//! `specs/` says which kinds of tokens spell a tree, and a script: its defined operators, its rulesets, and then its
//! statements, each in their order. `laws` proves that tokens of these kinds are the script again, apart from places, where the grammar gives it
//! to some tokens.
//!
//! It stands on `vtl_grammar`.
#![tactic(auto)]

mod calls;
mod kinds;
pub mod laws;
mod operators;
mod parts;
mod rulesets;
mod scripts;
mod trees;
mod words;

pub use scripts::spell;
