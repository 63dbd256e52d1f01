//! What data sets, changes and outcomes are, for any keys and any values. It stands on std alone.
//!
//! `specs/` has the definitions that the contracts of other crates cite: finite maps made key by key
//! (`Maps`), the deltas between them (`Deltas`), what an operator gives (`Outcomes`), which answer of
//! its delta rule is right (`Answers`), what a rule gathers on the way to it (`Drafts`), and the lists
//! in which code holds maps (`Entries`). Each function of `laws` promises one theorem on them, each
//! function of `examples` works them on small maps, and `steps` counts looks at no cost.
#![tactic(auto)]

pub mod examples;
pub mod laws;
pub mod steps;

/// The most points that a data set may have.
pub const POINT_LIMIT: u64 = 200_000;

#[cfg(test)]
mod tests;
