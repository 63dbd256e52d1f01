// Choices between words or signs.
use vtl_values::Integer;

/// `+` and `-` before an operand.
#[derive(Clone, Copy, Debug, PartialEq, Eq)]
pub enum Sign {
    Plus,
    Minus,
}

/// The operators before an operand: `+`, `-`, `not`.
#[derive(Clone, Copy, Debug, PartialEq, Eq)]
pub enum Prefix {
    Plus,
    Minus,
    Not,
}

/// `or` and `xor`.
#[derive(Clone, Copy, Debug, PartialEq, Eq)]
pub enum OrSign {
    Or,
    Xor,
}

/// How two values are compared.
#[derive(Clone, Copy, Debug, PartialEq, Eq)]
pub enum Comparison {
    Equal,
    NotEqual,
    Less,
    Greater,
    AtMost,
    AtLeast,
}

/// How the sides of a rule of a hierarchy are compared.
#[derive(Clone, Copy, Debug, PartialEq, Eq)]
pub enum Relation {
    Equal,
    Less,
    Greater,
    AtMost,
    AtLeast,
}

/// `in` and `not_in`.
#[derive(Clone, Copy, Debug, PartialEq, Eq)]
pub enum InSign {
    In,
    NotIn,
}

/// `+`, `-` and `||` between operands.
#[derive(Clone, Copy, Debug, PartialEq, Eq)]
pub enum SumSign {
    Plus,
    Minus,
    Join,
}

/// `*` and `/`.
#[derive(Clone, Copy, Debug, PartialEq, Eq)]
pub enum ProductSign {
    Times,
    Over,
}

/// The role that an item gives to its target.
#[derive(Clone, Copy, Debug, PartialEq, Eq)]
pub enum ItemRole {
    Measure,
    Attribute,
}

/// `group by` and `group except`.
#[derive(Clone, Copy, Debug, PartialEq, Eq)]
pub enum GroupWord {
    By,
    Except,
}

/// `asc` and `desc`.
#[derive(Clone, Copy, Debug, PartialEq, Eq)]
pub enum Direction {
    Ascending,
    Descending,
}

/// Where a window begins.
#[derive(Clone, Copy, Debug, PartialEq, Eq)]
pub enum WindowStart {
    Preceding(Integer),
    UnboundedPreceding,
    Current,
}

/// Where a window ends.
#[derive(Clone, Copy, Debug, PartialEq, Eq)]
pub enum WindowEnd {
    Following(Integer),
    UnboundedFollowing,
    Current,
}

/// Functions of one operand.
#[derive(Clone, Copy, Debug, PartialEq, Eq)]
pub enum UnaryFunction {
    Abs,
    Ceil,
    Floor,
    Trim,
    Ltrim,
    Rtrim,
    Upper,
    Lower,
    Length,
    Isnull,
}

/// Functions of an operand and digits.
#[derive(Clone, Copy, Debug, PartialEq, Eq)]
pub enum RoundFunction {
    Round,
    Trunc,
}

/// Functions of two operands.
#[derive(Clone, Copy, Debug, PartialEq, Eq)]
pub enum BinaryFunction {
    Mod,
    Nvl,
    Instr,
}

/// Which rows `exists_in` keeps.
#[derive(Clone, Copy, Debug, PartialEq, Eq)]
pub enum ExistsRows {
    All,
    True,
    False,
}

/// Set operators of two operands or more.
#[derive(Clone, Copy, Debug, PartialEq, Eq)]
pub enum SetFunction {
    Union,
    Intersect,
}

/// Set operators of two operands.
#[derive(Clone, Copy, Debug, PartialEq, Eq)]
pub enum DifferenceFunction {
    Setdiff,
    Symdiff,
}

/// The joins.
#[derive(Clone, Copy, Debug, PartialEq, Eq)]
pub enum JoinFunction {
    Inner,
    Left,
    Full,
    Cross,
}

/// Aggregates.
#[derive(Clone, Copy, Debug, PartialEq, Eq)]
pub enum AggregateFunction {
    Sum,
    Avg,
    Count,
    Min,
    Max,
    Median,
}

/// Analytic functions of an operand alone.
#[derive(Clone, Copy, Debug, PartialEq, Eq)]
pub enum WindowFunction {
    Sum,
    Avg,
    Count,
    Min,
    Max,
    Median,
    FirstValue,
    LastValue,
    RatioToReport,
}

/// `lag` and `lead`.
#[derive(Clone, Copy, Debug, PartialEq, Eq)]
pub enum OffsetFunction {
    Lag,
    Lead,
}

/// The outputs of `check_datapoint` and `check_hierarchy`.
#[derive(Clone, Copy, Debug, PartialEq, Eq)]
pub enum RowsOutput {
    Invalid,
    All,
    AllMeasures,
}

/// The outputs of `check`.
#[derive(Clone, Copy, Debug, PartialEq, Eq)]
pub enum CheckOutput {
    All,
    Invalid,
}

/// What stands for a missing item of a hierarchy.
#[derive(Clone, Copy, Debug, PartialEq, Eq)]
pub enum Mode {
    NonNull,
    NonZero,
    PartialNull,
    PartialZero,
    AlwaysNull,
    AlwaysZero,
}

/// The inputs of `hierarchy`.
#[derive(Clone, Copy, Debug, PartialEq, Eq)]
pub enum HierarchyInput {
    Rule,
    Dataset,
    RulePriority,
}

/// The outputs of `hierarchy`.
#[derive(Clone, Copy, Debug, PartialEq, Eq)]
pub enum HierarchyOutput {
    Computed,
    All,
}

/// The inputs of `check_hierarchy`.
#[derive(Clone, Copy, Debug, PartialEq, Eq)]
pub enum CheckInput {
    Dataset,
    DatasetPriority,
}

/// Operators on time series with an operand alone.
#[derive(Clone, Copy, Debug, PartialEq, Eq)]
pub enum TimeFunction {
    FlowToStock,
    StockToFlow,
    PeriodIndicator,
}

/// Between which periods `fill_time_series` adds those that are missing: the first and the last of all series, or of
/// each single one.
#[derive(Clone, Copy, Debug, PartialEq, Eq)]
pub enum FillSpan {
    All,
    Single,
}

/// What a parameter or the result of a defined operator is: a data set, or a scalar of a kind.
#[derive(Clone, Copy, Debug, PartialEq, Eq)]
pub enum Sort {
    Dataset,
    Integer,
    Number,
    Text,
    Truth,
}
