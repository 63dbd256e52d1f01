// Checked clauses.
use scalar_trees::CheckedExpr;
use sqlite_items::Items;
use vtl_values::{Kind, Role, Value, Word};

/// A clause whose names are numbers of components of the frame that it works on.
pub enum CheckedClause {
    /// Keeps the points at which the condition is true.
    Filter { condition: CheckedExpr },
    /// Works out components, all of them on the point as it was.
    Calc { items: Items<CheckedItem> },
    /// Keeps these components, the identifiers and the viral attributes.
    Keep { components: Items<u64> },
    /// Keeps all components but these.
    Drop { components: Items<u64> },
    /// Gives components other names, all at once.
    Rename { renames: Items<CheckedRename> },
    /// Keeps the points whose identifiers have these values, and drops these identifiers.
    Sub { items: Items<CheckedSubItem> },
    /// Makes a point for each point and measure that isn't null, with the measure's name and its value.
    Unpivot { identifier: Word, measure: Word },
    /// Works out measures in place of those that there are, as a scalar operator on a data set and `ds#name` do.
    /// Identifiers and viral attributes stay.
    Measures { items: Items<CheckedMeasure> },
}

// Written out, so that who drops one calls this and doesn't go through what is in it.
impl Drop for CheckedClause {
    fn drop(self) {
        match self {
            CheckedClause::Filter { condition: _ } => {}
            CheckedClause::Calc { items: _ } => {}
            CheckedClause::Keep { components: _ } => {}
            CheckedClause::Drop { components: _ } => {}
            CheckedClause::Rename { renames: _ } => {}
            CheckedClause::Sub { items: _ } => {}
            CheckedClause::Unpivot {
                identifier: _,
                measure: _,
            } => {}
            CheckedClause::Measures { items: _ } => {}
        }
    }
}

/// What an item of `calc` is put into: the component with this number, or a new one of this name.
#[derive(Debug, Drop)]
pub enum Target {
    Old(u64),
    New(Word),
}

/// An item of `calc`: the role and the kind that its target has afterwards, and its value.
pub struct CheckedItem {
    pub target: Target,
    pub role: Role,
    pub kind: Kind,
    pub value: CheckedExpr,
}

// Written out, so that who drops one calls this and doesn't go through what is in it.
impl Drop for CheckedItem {
    fn drop(self) {
        let CheckedItem {
            target: _,
            role: _,
            kind: _,
            value: _,
        } = self;
    }
}

/// The component with this number, and its new name.
#[derive(Debug, Drop)]
pub struct CheckedRename {
    pub component: u64,
    pub name: Word,
}

/// The identifier with this number, and the value that it has to have. Integers and numbers are compared as numbers.
#[derive(Debug, Drop)]
pub struct CheckedSubItem {
    pub component: u64,
    pub value: Value,
}

/// A measure that is worked out: its name, its kind and its value.
pub struct CheckedMeasure {
    pub name: Word,
    pub kind: Kind,
    pub value: CheckedExpr,
}

// Written out, so that who drops one calls this and doesn't go through what is in it.
impl Drop for CheckedMeasure {
    fn drop(self) {
        let CheckedMeasure {
            name: _,
            kind: _,
            value: _,
        } = self;
    }
}
