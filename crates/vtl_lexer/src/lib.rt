//! The lexer: from the bytes of a script to its tokens.
//!
//! A text is read piece by piece: a piece is a token, or a blank or comment between tokens, and is as long as
//! possible. The contract of `tokens` gives, for all bytes, the list of tokens with their places, or the first
//! fault with its place; only want of memory is free. It promises that the list is ended by its one end, and that each
//! other token is one that a text can have. `laws` proves that pieces are as long as possible, and what the lines and
//! columns of places count. It stands on `vtl_tokens` and on the numerals of `vtl_values`.
#![tactic(auto)]

pub mod laws;
pub mod lexer;
pub mod piece;
pub mod scan;
mod shared;
pub mod start;
pub mod stop;

pub use lexer::tokens;
pub use stop::{LexFault, LexStop};
