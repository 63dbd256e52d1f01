//! What scripts are checked to be, or their first fault: the definitions, so far for scalar expressions, and what follows
//! from them.
//!
//! It stands on `vtl_syntax` for the trees that scripts are read as. `specs/typing/Scalars.antt`
//! gives an expression its checked tree with its kind, or its first fault; `specs/typing/Scopes.antt` says what its
//! names stand for. `laws` has what holds of all expressions. The functions that answer so are in the crates above.

pub mod laws;
mod scope;
mod stop;
mod typed;

pub use scope::{Basis, Column, Scope, ScopeName, Slot};
pub use stop::{Fault, Refusal, TypeStop, demand};
pub use typed::Typed;
