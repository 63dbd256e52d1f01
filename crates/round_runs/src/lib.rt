//! Runs of a script over revisions by one caller, and the lines of verdicts and of failed rounds.
//!
//! It stands on `round_core` and knows nothing of scripts as texts, of files or of words. `run_whole` opens a round and
//! runs it to its end; `eval` judges revisions, runs a round over them and says what is written of it, and its contract
//! says that this is what a run means (specs/Eval.antt), and how the production is left (specs/Runs.antt).
#![tactic(auto)]

pub mod eval;
pub mod lines;
pub mod round;

pub use round_core::Production;
