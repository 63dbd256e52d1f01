// Scalar operators without their operands.
use scalar_trees::{BinaryOperator, UnaryOperator};
use sqlite_items::Items;
use vtl_syntax::words::{InSign, RoundFunction};
use vtl_values::{Integer, Value, Word};

/// A scalar operator, with all that its form says but its operands.
#[derive(Drop)]
pub enum Form {
    Unary(UnaryOperator),
    Binary(BinaryOperator),
    /// `nvl(a, b)`
    Nvl,
    /// `if c then a else b`
    If,
    /// `a in {..}`, `a not_in {..}`
    In {
        sign: InSign,
        set: Items<Value>,
    },
    /// `between(a, low, high)`
    Between {
        low: Value,
        high: Value,
    },
    /// `round(a, n)`, `trunc(a, n)`
    Round {
        function: RoundFunction,
        digits: Option<Integer>,
    },
    /// `substr(a)`, `substr(a, start)`, `substr(a, start, length)`
    Substr,
    /// `replace(a, pattern)`, `replace(a, pattern, by)`
    Replace,
    /// `match_characters(a, "pattern")`
    Matches {
        pattern: Word,
    },
}
