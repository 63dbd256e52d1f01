//! The words of the language's grammar: reserved words, signs and tokens.
//!
//! A reserved word and a sign are each a variant of their own, and the contracts say how each is written. It stands
//! on `vtl_values`, whose texts, integers, numbers and places tokens hold.
#![tactic(auto)]

pub mod keyword;
pub mod sign;
pub mod token;

pub use keyword::Keyword;
pub use sign::Sign;
pub use token::{Token, TokenKind};
