//! The printer: from a script's tree to its text.
//!
//! Each kind of token is spelled in one way, and what stands between two of them is as a person would write it: a
//! statement a line, and blanks where words and signs want them. The contract of `write_tokens` gives the text of
//! every list of kinds, and says that the lexer reads that text as these kinds, wherever each of them is one that a
//! text has. The text of a script is that of the tokens that spell it, and the contract of `show` gives it whole: it
//! promises that the lexer and the grammar read the text as the script again, apart from places, wherever the script
//! is, apart from places, that of some text. It stands on `vtl_spelling` and `vtl_lexer`.
#![tactic(auto)]

mod gap;
pub mod laws;
pub mod print;
mod spell;
mod write;

pub use print::show;
pub use write::write_tokens;
