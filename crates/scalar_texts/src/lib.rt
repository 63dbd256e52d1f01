//! The operators of VTL on texts, exact on characters: `trim`, `ltrim`, `rtrim`, `upper`, `lower`, `length`, `substr`,
//! `instr`, `replace`, joining (`||`), and the patterns of `match_characters`.
//!
//! It stands on std and, for patterns, on the crate `regex` (with the crates below it, which the proofs name), and on no
//! representation of values: a text is a `&str`, and the contracts see the list of its characters (`chars`). `specs/` has a
//! function for each operator, which a definition above may compute with, and beside the less plain ones the law in words.
//! Each call that makes a text promises that text, or tells that memory ran out. A `Pattern` is seen as the characters of
//! its text: building one tells whether they are a pattern, and a match is the crate's own definition of it. Threads may
//! share a pattern (`proofs/Shared.antt`).
#![tactic(auto)]

mod blanks;
mod letters;
mod parts;
mod patterns;
mod places;

pub use blanks::{ltrim, rtrim, trim};
pub use letters::{lower, upper};
pub use parts::{concat, replace};
pub use patterns::{Pattern, PatternMatcher, PatternStop};
pub use places::{instr, length, substr};
