//! The cursor over the tokens of a script, and what is read with it that holds no expression.
//!
//! A cursor holds the tokens that are still to be read, without the `End` after them. Each of its steps is proved to
//! answer as the reader of the grammar does: what it returned, with what is left, is what that reader gives; and where
//! it stops, the token there is the one at which the reader stops, for the same reason. Above it stands one function
//! for each rule of the grammar that holds no expression, with a contract of the same kind; where a rule is read many
//! times with commas between, `list` reads the list. Want of memory alone is free.
//!
//! It stands on `vtl_tokens`, on the grammar of `vtl_grammar` and on the trees of `vtl_syntax`.
#![tactic(auto)]

pub mod choices;
#[tactic(auto, using(crate::proofs::Shown::shown))]
pub mod components;
pub mod cursor;
#[tactic(auto, using(crate::proofs::Shown::shown))]
pub mod literals;
#[tactic(auto, using(crate::proofs::Shown::shown))]
pub mod operators;
#[tactic(auto, using(crate::proofs::Shown::shown))]
pub mod outputs;
pub mod parse;
#[tactic(auto, using(crate::proofs::Shown::shown))]
pub mod rules;
pub mod same;
pub mod stop;
#[tactic(auto, using(crate::proofs::Shown::shown))]
pub mod windows;

pub use choices::{choice, optional_choice};
pub use cursor::{Cursor, Named, Number, Whole};
pub use parse::{Parse, commas, list};
pub use same::{is_same_word, is_word};
pub use stop::{Kind, Limit, Stop};
pub use vtl_grammar::{Mark, mark_in};
