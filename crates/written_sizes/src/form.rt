// What a call of an operator weighs, from the weights of its arguments.

use sqlite_items::Items;

/// What a call weighs: so much of its own, and of each argument so many times its weight.
#[derive(Drop)]
pub struct Form {
    pub own: u64,
    pub times: Items<u64>,
}

/// A part of a form: its own weight, or how many times the argument with that number counts.
#[derive(Clone, Copy, PartialEq, Eq)]
pub enum Share {
    Own,
    Of(usize),
}

/// The forms of all operators, for the expressions and for the levels of what calls become.
#[derive(Drop)]
pub struct Tables {
    pub expressions: Items<Form>,
    pub levels: Items<Form>,
}
