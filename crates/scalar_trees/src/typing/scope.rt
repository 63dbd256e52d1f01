// What the names in an expression stand for.
use sqlite_items::Items;
use vtl_values::{Kind, Role, Word};

/// What an expression is worked out on: a point, or a group of points, as an item of `aggr` and `having` are.
#[derive(Clone, Copy, Debug, PartialEq, Eq)]
pub enum Basis {
    Point,
    Group,
}

/// A component of the points that an expression is worked out on.
#[derive(Clone, Copy, Debug, PartialEq, Eq)]
pub struct Column {
    pub kind: Kind,
    pub role: Role,
    /// Whether groups are formed by it.
    pub grouped: bool,
}

/// A name, and the number of the component that it stands for. With an alias it is `alias#name`, which is what a
/// component of one operand of a join is called.
#[derive(Debug)]
pub struct ScopeName {
    pub alias: Option<Word>,
    pub name: Word,
    pub number: u64,
}

// Written out, so that who drops one calls this and doesn't go through what is in it.
impl Drop for ScopeName {
    fn drop(self) {
        let ScopeName {
            alias: _,
            name: _,
            number: _,
        } = self;
    }
}

/// What the names in an expression stand for. A component may have several names; in a ruleset a variable with an alias
/// has that one alone.
#[derive(Debug, Drop)]
pub struct Scope {
    pub names: Items<ScopeName>,
    pub columns: Items<Column>,
}

/// A component that a name stands for.
#[derive(Clone, Copy, Debug, PartialEq, Eq)]
pub struct Slot {
    pub number: u64,
    pub kind: Kind,
}
