//! A lock round one value that keeps a journal, such as a production's. Whoever has the turn has the value itself, and gives it back with a
//! journal that only grew.
//!
//! It stands on `atomic_table`: one word and one slot. The word is `2 * n` while the turn is free and `2 * n + 1` while it is taken, where n is
//! the length of the journal as it was last given back. A caller holds a `Pass`, which has a number of its own, carries it into its entries, and
//! knows how far it has seen the journal and which entries are its own.
//!
//! What the contracts promise, for any value that is `Growing`: a caller that gets the turn finds the value of the lock's ground, whose journal
//! begins with all that its pass has seen, has of its pass's number just the entries that its pass made, and of each number that was joined into
//! the pass those that were kept for it. A pass that has all numbers is sole, and finds just the journal that it has seen. A lock that lost a
//! value that was given back, or that gave one number to two passes, would break them. They stand on a rule of six points over the word, the
//! slot and what all passes know (`specs/Rule.antt`), which each step keeps.
//!
//! Nothing is said of waiting, fairness or time. A pass that is dropped while it holds the turn takes the turn with it.
#![tactic(auto)]

mod growing;
mod lock;
mod pass;
mod rule;
#[cfg(test)]
mod tests;

pub use growing::Growing;
pub use lock::{Busy, NoNumbers, TurnLock};
pub use pass::Pass;
pub use rule::{Joined, View};
