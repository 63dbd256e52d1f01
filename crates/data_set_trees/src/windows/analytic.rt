// Checked analytic operators.
use crate::clauses::Target;
use scalar_trees::CheckedExpr;
use sqlite_items::Items;
use vtl_syntax::words::{Direction, OffsetFunction, WindowEnd, WindowFunction, WindowStart};
use vtl_values::{Integer, Kind, Role, Word};

/// A component by which the points of a part are ordered.
#[derive(Clone, Copy, Debug, PartialEq, Eq)]
pub struct OrderedBy {
    pub component: u64,
    pub direction: Direction,
}

/// The parts of a data set, each of the points that agree on these identifiers, and the order of the points in a part.
/// Without identifiers all points are one part. Ties are broken by all identifiers.
#[derive(Debug, Drop)]
pub struct Parts {
    pub partition: Items<u64>,
    pub order: Items<OrderedBy>,
}

/// What a point has from the points of its part. Components are given by their numbers, and windows are written out.
#[derive(Clone, Copy, Debug, PartialEq, Eq)]
pub enum Analytic {
    /// `sum(c over ..)` and its like, of the window from the one end to the other; for `ratio_to_report` it is the part.
    Window {
        function: WindowFunction,
        component: u64,
        from: WindowStart,
        to: WindowEnd,
    },
    /// How many points the window has, as `count` on a data set says.
    CountAll {
        from: WindowStart,
        to: WindowEnd,
    },
    /// `lag(c, n over ..)`, `lead(c, n over ..)`
    Offset {
        function: OffsetFunction,
        component: u64,
        offset: Integer,
    },
    /// `rank(over ..)`
    Rank,
}

/// An analytic operator with its parts.
#[derive(Debug, Drop)]
pub struct CheckedAnalytic {
    pub analytic: Analytic,
    pub parts: Parts,
}

/// A measure that is worked out: its name, its kind and its value.
#[derive(Debug, Drop)]
pub struct AnalyticMeasure {
    pub name: Word,
    pub kind: Kind,
    pub value: CheckedAnalytic,
}

/// What an item of `calc` is worked out by: an expression on the point itself, or an analytic operator.
#[derive(Drop)]
pub enum AnalyticValue {
    Scalar(CheckedExpr),
    Analytic(CheckedAnalytic),
}

/// An item of `calc`: the role and the kind that its target has afterwards, and its value.
pub struct AnalyticItem {
    pub target: Target,
    pub role: Role,
    pub kind: Kind,
    pub value: AnalyticValue,
}

// Written out, so that who drops one calls this and doesn't go through what is in it.
impl Drop for AnalyticItem {
    fn drop(self) {
        let AnalyticItem {
            target: _,
            role: _,
            kind: _,
            value: _,
        } = self;
    }
}

/// Analytic operators on one data set, or on what a join has.
pub enum CheckedWindow {
    /// Works out measures in place of those that there are, as `sum(ds over ..)` does. Identifiers and viral attributes
    /// stay.
    Measures { items: Items<AnalyticMeasure> },
    /// `calc` with an item that is analytic.
    Calc { items: Items<AnalyticItem> },
}

// Written out, so that who drops one calls this and doesn't go through what is in it.
impl Drop for CheckedWindow {
    fn drop(self) {
        match self {
            CheckedWindow::Measures { items: _ } => {}
            CheckedWindow::Calc { items: _ } => {}
        }
    }
}
