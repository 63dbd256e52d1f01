// Checked aggregates.
use scalar_trees::CheckedExpr;
use sqlite_items::Items;
use vtl_values::{Kind, Role, Word};

/// A component that is worked out on each group: its name, its role, its kind and its value, in which aggregates may stand.
pub struct AggregateItem {
    pub name: Word,
    pub role: Role,
    pub kind: Kind,
    pub value: CheckedExpr,
}

// Written out, so that who drops one calls this and doesn't go through what is in it.
impl Drop for AggregateItem {
    fn drop(self) {
        let AggregateItem {
            name: _,
            role: _,
            kind: _,
            value: _,
        } = self;
    }
}

/// Aggregates on a data set. Its names are numbers of the data set's components.
pub struct CheckedAggregate {
    /// The identifiers by which groups are formed, in the data set's order; without any, all points are one group.
    pub grouping: Items<u64>,
    /// What is worked out on each group.
    pub items: Items<AggregateItem>,
    /// Where it is given, only the groups on which it is true stay.
    pub having: Option<CheckedExpr>,
}

// Written out, so that who drops one calls this and doesn't go through what is in it.
impl Drop for CheckedAggregate {
    fn drop(self) {
        let CheckedAggregate {
            grouping: _,
            items: _,
            having: _,
        } = self;
    }
}
