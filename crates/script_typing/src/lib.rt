//! The structures of a script's statements, or the script's first fault.
//!
//! It stands on `script_graph` for the order of the statements and for what each uses, on `ruleset_faults` for what is wrong
//! with rulesets by themselves, on `statement_typing` for expressions, on `data_set_trees::checked` for typed scripts, and on `fitting_trees` and `literal_ranges`, by which
//! what typing gives fits. Statements are typed in that order. One that uses the result of a statement that has no data
//! set is passed over, and the fault that is told is that of the first statement of the script that has one. `typing`
//! types one statement after another, each of which goes as it was written once it is typed; `lists` has the statements before
//! and after, and `script` makes a typed script of what they come to.
//!
//! The contract of `check_script` promises that an answer is exactly `typed_of` of the structures and the script
//! (`specs/Scripts.antt`), and that an error is exactly the first fault of its graph, or else exactly the refusal that
//! `typed_of` is, or want of memory.
#![tactic(auto)]

mod lists;
mod script;
mod state;
pub mod stop;
mod typing;

pub use script::check_script;
pub use stop::ScriptStop;
