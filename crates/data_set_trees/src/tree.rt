// Trees of operators on data sets.
use crate::aggregates::CheckedAggregate;
use crate::clauses::{CheckedClause, CheckedMeasure};
use crate::rules::{CheckedCheck, CheckedDatapoint, CheckedHierarchy};
use crate::shared::SharedOperator;
use crate::times::CheckedTime;
use crate::windows::CheckedWindow;
use scalar_trees::CheckedExpr;
use sqlite_items::Items;
use vtl_syntax::words::{ExistsRows, JoinFunction};
use vtl_values::{Kind, Place, Structure, Word};

/// What a name stands for: an input by its number among the structures, or the result of a statement by its number in
/// the script, both from 0.
#[derive(Clone, Copy, Debug, PartialEq, Eq)]
pub enum Source {
    Input(u64),
    Result(u64),
}

/// The set operators.
#[derive(Clone, Copy, Debug, PartialEq, Eq)]
pub enum SetOperation {
    Union,
    Intersect,
    Setdiff,
    Symdiff,
}

/// A measure of a conditional: its name, its kind, and its value in each branch. In a branch that is a data set names are
/// numbers of its components; one that is a scalar has none.
pub struct ChoiceMeasure {
    pub name: Word,
    pub kind: Kind,
    pub holds: CheckedExpr,
    pub fails: CheckedExpr,
}

// Written out, so that who drops one calls this and doesn't go through what is in it.
impl Drop for ChoiceMeasure {
    fn drop(self) {
        let ChoiceMeasure {
            name: _,
            kind: _,
            holds: _,
            fails: _,
        } = self;
    }
}

/// What a branch of a conditional is: the next data set among the operands, or a scalar.
#[derive(Clone, Copy, Debug, PartialEq, Eq)]
pub enum Branch {
    DataSet,
    Scalar,
}

/// An operator on data sets, with all that its form says but its data set operands.
pub enum DataSetOperator {
    /// A clause; a scalar operator on one data set and constants; `a#c`.
    Clause(CheckedClause),
    /// A scalar operator on two data sets. The names in its measures are numbers of the components of both, those of the
    /// second operand after those of the first.
    Pair {
        measures: Items<CheckedMeasure>,
    },
    /// `if c then a else b`, of a data set `c` and of the branches that are data sets
    Choice {
        holds: Branch,
        fails: Branch,
        measures: Items<ChoiceMeasure>,
    },
    /// `exists_in(a, b, rows)`
    ExistsIn {
        rows: ExistsRows,
    },
    /// `union(a, b, ..)` and its like
    Set(SetOperation),
    /// `inner_join(a as x, b as y, ..)` and its like, without the clauses inside
    Join(JoinFunction),
    /// A clause inside a join. There components are called by their numbers, and get their names at the end.
    InJoin(CheckedClause),
    /// `sum(a group by ..)` and its like, and the clause `aggr`
    Aggregate(CheckedAggregate),
    /// `sum(a over (..))` and its like, and `calc` with an item that is analytic
    Window(CheckedWindow),
    /// A `calc` with an item that is analytic inside a join, as `InJoin`.
    WindowInJoin(CheckedWindow),
    /// `timeshift(a, n)` and its like
    Time(CheckedTime),
    /// `check(a errorcode .. errorlevel .. imbalance .. output)`
    Check(CheckedCheck),
    /// `check_datapoint(a, rules output)`
    Datapoint(CheckedDatapoint),
    /// `hierarchy(a, rules ..)`, `check_hierarchy(a, rules ..)`
    Hierarchy(CheckedHierarchy),
}

// Written out, so that who drops one calls this and doesn't go through what is in it.
impl Drop for DataSetOperator {
    fn drop(self) {
        match self {
            DataSetOperator::Clause(_) => {}
            DataSetOperator::Pair { measures: _ } => {}
            DataSetOperator::Choice {
                holds: _,
                fails: _,
                measures: _,
            } => {}
            DataSetOperator::ExistsIn { rows: _ } => {}
            DataSetOperator::Set(_) => {}
            DataSetOperator::Join(_) => {}
            DataSetOperator::InJoin(_) => {}
            DataSetOperator::Aggregate(_) => {}
            DataSetOperator::Window(_) => {}
            DataSetOperator::WindowInJoin(_) => {}
            DataSetOperator::Time(_) => {}
            DataSetOperator::Check(_) => {}
            DataSetOperator::Datapoint(_) => {}
            DataSetOperator::Hierarchy(_) => {}
        }
    }
}

/// A name, or an operator on its operands.
#[cycle(tree)]
#[derive(Drop)]
pub enum DataSetTree {
    Name(Source),
    Operator(DataSetNode),
}

/// An operator at its place in the script, its operands in order with their structures, and the structure of its result.
#[cycle(tree)]
#[derive(Drop)]
pub struct DataSetNode {
    pub operator: SharedOperator,
    pub place: Place,
    pub children: Items<DataSetTree>,
    pub operands: Items<Structure>,
    pub structure: Structure,
}
