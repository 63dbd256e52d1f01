// Checked scalar expressions.
use crate::operators::{BinaryOperator, UnaryOperator};
use crate::pattern::SharedPattern;
use sqlite_items::{Boxed, Items};
use vtl_syntax::words::{AggregateFunction, InSign, RoundFunction, Sort};
use vtl_values::{Integer, Value};

/// A checked scalar expression. Its names are numbers of components, brackets are gone, and where an integer stands for a
/// number this is written, so each operator meets operands of one kind.
#[derive(Drop)]
pub enum CheckedExpr {
    Literal(Value),
    /// The value of the component with this number.
    Component(u64),
    /// An integer as a number.
    Widened(Boxed<CheckedExpr>),
    Unary {
        operator: UnaryOperator,
        operand: Boxed<CheckedExpr>,
    },
    Binary {
        operator: BinaryOperator,
        left: Boxed<CheckedExpr>,
        right: Boxed<CheckedExpr>,
    },
    /// `nvl(a, b)`
    Nvl {
        first: Boxed<CheckedExpr>,
        second: Boxed<CheckedExpr>,
    },
    /// `if c then a else b`
    If {
        condition: Boxed<CheckedExpr>,
        holds: Boxed<CheckedExpr>,
        fails: Boxed<CheckedExpr>,
    },
    /// `a in {..}`, `a not_in {..}`, with literals of the operand's kind
    In {
        operand: Boxed<CheckedExpr>,
        sign: InSign,
        set: Items<Value>,
    },
    /// `between(a, low, high)`, with bounds of the operand's kind or null
    Between {
        operand: Boxed<CheckedExpr>,
        low: Value,
        high: Value,
    },
    /// `round(a, n)`, `trunc(a, n)`
    Round {
        function: RoundFunction,
        operand: Boxed<CheckedExpr>,
        digits: Option<Integer>,
    },
    /// `substr(a, start, length)`
    Substr {
        operand: Boxed<CheckedExpr>,
        start: Option<Boxed<CheckedExpr>>,
        length: Option<Boxed<CheckedExpr>>,
    },
    /// `replace(a, pattern, by)`
    Replace {
        operand: Boxed<CheckedExpr>,
        pattern: Boxed<CheckedExpr>,
        by: Option<Boxed<CheckedExpr>>,
    },
    /// `match_characters(a, "pattern")`
    Matches {
        operand: Boxed<CheckedExpr>,
        pattern: SharedPattern,
    },
    /// An argument or a result of a defined operator, which is of the sort and keeps its own kind
    OfSort {
        sort: Sort,
        operand: Boxed<CheckedExpr>,
    },
    /// `sum(c)` and its like of a group, on the component with this number
    Aggregate {
        function: AggregateFunction,
        component: u64,
    },
    /// `count()` of a group
    CountAll,
}
