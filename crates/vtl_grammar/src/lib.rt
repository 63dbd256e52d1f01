//! The grammar of scripts: which lists of tokens are a script, which script they are, and where reading stops else.
//!
//! `specs/` has the grammar of `docs/language.md`, section "Grammar", as rules that are data, with a row for each form
//! of expression, the tokens that a rule spells, and a reader that goes from left to right and looks at one token, two
//! at a name with a colon or a component and at a definition. `laws` proves that the reader answers exactly by the
//! grammar: it gives the script that the tokens are, tokens are one script at most or have one fault, and it stops at
//! the first token with which no script within the limits goes on. The parser is proved to answer as the reader does.
//!
//! Of code it has the choices between words or signs alone: a table for each, by which readers and the spelling go.
//!
//! It stands on `vtl_tokens` and `vtl_syntax`.
#![tactic(auto)]

pub mod choices;
pub mod laws;
pub mod mark;

pub use choices::Choice;
pub use mark::{Mark, mark_in};
