//! Values, and the structures of the data sets that hold them.
//!
//! A value is null, a truth value, an integer, a number or a text, and contracts see it as that: an integer and a
//! number (a whole count of millionths) as a whole number within its range, a text as the list of its characters.
//! Values have one total order. A structure is the list of its components in their order, and structures by name are
//! the list of them in order of insertion. It stands on the kit's `indexmap` and `sqlite_items`.
#![tactic(auto)]

pub mod codes;
pub mod kind;
pub mod laws;
pub mod number;
pub mod place;
pub mod read;
pub mod show;
pub mod structure;
pub mod structures;
pub mod value;
pub mod word;

pub use codes::{CodeList, NewCodes};
pub use kind::{Kind, Role};
pub use number::{Decimal, Integer};
pub use place::Place;
pub use read::{BadText, ReadStop, read_value};
pub use show::{show_value, show_value_in};
pub use structure::{Codes, Component, Structure};
pub use structures::Structures;
pub use value::Value;
pub use word::Word;
