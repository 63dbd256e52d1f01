//! Scripts whose structures are worked out.
//!
//! It stands on the trees of `data_set_trees`. A statement's tree is seen as an expression: names, and operators with
//! the structures of their operands and of their result. A `TypedScript` keeps that its operators are well typed, that
//! its trees have the structures that its statements have, and an order in which operands come first.

pub mod script;

pub use script::{CheckedStatement, TypedScript};
