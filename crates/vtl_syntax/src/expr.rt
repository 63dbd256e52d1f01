// Expressions, and what stands inside them.
use crate::words::{
    AggregateFunction, BinaryFunction, CheckInput, CheckOutput, Comparison, DifferenceFunction,
    Direction, ExistsRows, FillSpan, GroupWord, HierarchyInput, HierarchyOutput, InSign, ItemRole,
    JoinFunction, Mode, OffsetFunction, OrSign, Prefix, ProductSign, RoundFunction, RowsOutput,
    SetFunction, Sort, SumSign, TimeFunction, UnaryFunction, WindowEnd, WindowFunction,
    WindowStart,
};
use sqlite_items::{Boxed, Items};
use vtl_values::{Integer, Place, Value, Word};

/// An expression. The place of an operator between operands is its sign, of one before its operand too; that of a
/// call, a clause, an `if` is its word; that of a name, a literal, a bracket its first byte.
#[derive(Drop)]
#[cycle(tree)]
pub enum Expr {
    /// `if c then a else b`
    If {
        condition: Boxed<Expr>,
        holds: Boxed<Expr>,
        fails: Boxed<Expr>,
        place: Place,
    },
    /// `a or b`, `a xor b`
    Or {
        left: Boxed<Expr>,
        sign: OrSign,
        right: Boxed<Expr>,
        place: Place,
    },
    /// `a and b`
    And {
        left: Boxed<Expr>,
        right: Boxed<Expr>,
        place: Place,
    },
    /// `a = b` and its like
    Compare {
        left: Boxed<Expr>,
        sign: Comparison,
        right: Boxed<Expr>,
        place: Place,
    },
    /// `a in {..}`, `a not_in {..}`
    In {
        left: Boxed<Expr>,
        sign: InSign,
        set: Items<Value>,
        place: Place,
    },
    /// `a + b`, `a - b`, `a || b`
    Sum {
        left: Boxed<Expr>,
        sign: SumSign,
        right: Boxed<Expr>,
        place: Place,
    },
    /// `a * b`, `a / b`
    Product {
        left: Boxed<Expr>,
        sign: ProductSign,
        right: Boxed<Expr>,
        place: Place,
    },
    /// `+ a`, `- a`, `not a`
    Signed {
        sign: Prefix,
        operand: Boxed<Expr>,
        place: Place,
    },
    /// `a#c`
    Member {
        operand: Boxed<Expr>,
        name: Word,
        place: Place,
    },
    /// `a [clause]`
    Clause {
        operand: Boxed<Expr>,
        clause: Boxed<Clause>,
        place: Place,
    },
    Literal {
        value: Value,
        place: Place,
    },
    Name {
        name: Word,
        place: Place,
    },
    /// `(a)`
    Bracket {
        inner: Boxed<Expr>,
        place: Place,
    },
    /// `abs(a)` and its like
    Unary {
        function: UnaryFunction,
        operand: Boxed<Expr>,
        place: Place,
    },
    /// `round(a, n)`, `trunc(a, n)`
    Round {
        function: RoundFunction,
        operand: Boxed<Expr>,
        digits: Option<Integer>,
        place: Place,
    },
    /// `mod(a, b)` and its like
    Binary {
        function: BinaryFunction,
        left: Boxed<Expr>,
        right: Boxed<Expr>,
        place: Place,
    },
    /// `between(a, low, high)`
    Between {
        operand: Boxed<Expr>,
        low: Value,
        high: Value,
        place: Place,
    },
    /// `match_characters(a, "pattern")`
    MatchCharacters {
        operand: Boxed<Expr>,
        pattern: Word,
        place: Place,
    },
    /// `substr(a, start, length)`
    Substr {
        operand: Boxed<Expr>,
        range: Option<SubstrRange>,
        place: Place,
    },
    /// `replace(a, pattern, by)`
    Replace {
        operand: Boxed<Expr>,
        pattern: Boxed<Expr>,
        by: Option<Boxed<Expr>>,
        place: Place,
    },
    /// `exists_in(a, b, rows)`
    ExistsIn {
        left: Boxed<Expr>,
        right: Boxed<Expr>,
        rows: Option<ExistsRows>,
        place: Place,
    },
    /// `union(a, b, ..)`, `intersect(a, b, ..)`
    Sets {
        function: SetFunction,
        first: Boxed<Expr>,
        second: Boxed<Expr>,
        others: Items<Expr>,
        place: Place,
    },
    /// `setdiff(a, b)`, `symdiff(a, b)`
    Difference {
        function: DifferenceFunction,
        left: Boxed<Expr>,
        right: Boxed<Expr>,
        place: Place,
    },
    /// `inner_join(a as x, b as y, .. filter .. calc .. keep .. rename ..)` and its like. Each of the four is that
    /// clause; `keep` stands for `drop` too.
    Join {
        function: JoinFunction,
        first: Boxed<JoinOperand>,
        second: Boxed<JoinOperand>,
        others: Items<JoinOperand>,
        filter: Option<Boxed<Clause>>,
        calc: Option<Boxed<Clause>>,
        keep: Option<Boxed<Clause>>,
        rename: Option<Boxed<Clause>>,
        place: Place,
    },
    /// `sum(a group by .. having ..)` and its like
    Aggregate {
        function: AggregateFunction,
        operand: Boxed<Expr>,
        groups: Option<Boxed<Groups>>,
        place: Place,
    },
    /// `sum(a over (..))` and its like
    Window {
        function: WindowFunction,
        operand: Boxed<Expr>,
        over: Over,
        place: Place,
    },
    /// `count()`
    CountAll {
        place: Place,
    },
    /// `lag(a, n over (..))`, `lead(a, n over (..))`
    Offset {
        function: OffsetFunction,
        operand: Boxed<Expr>,
        offset: Integer,
        over: Over,
        place: Place,
    },
    /// `rank(over (..))`
    Rank {
        over: Over,
        place: Place,
    },
    /// `check_datapoint(a, rules output)`
    CheckDatapoint {
        operand: Boxed<Expr>,
        ruleset: Word,
        ruleset_place: Place,
        output: Option<RowsOutput>,
        place: Place,
    },
    /// `hierarchy(a, rules rule c mode input output)`
    Hierarchy {
        operand: Boxed<Expr>,
        ruleset: Word,
        ruleset_place: Place,
        component: Option<Word>,
        mode: Option<Mode>,
        input: Option<HierarchyInput>,
        output: Option<HierarchyOutput>,
        place: Place,
    },
    /// `check_hierarchy(a, rules rule c mode input output)`
    CheckHierarchy {
        operand: Boxed<Expr>,
        ruleset: Word,
        ruleset_place: Place,
        component: Option<Word>,
        mode: Option<Mode>,
        input: Option<CheckInput>,
        output: Option<RowsOutput>,
        place: Place,
    },
    /// `check(a errorcode .. errorlevel .. imbalance .. output)`
    Check {
        operand: Boxed<Expr>,
        code: Option<Word>,
        level: Option<Integer>,
        imbalance: Option<Boxed<Expr>>,
        output: Option<CheckOutput>,
        place: Place,
    },
    /// `flow_to_stock(a)`, `stock_to_flow(a)`, `period_indicator(a)`
    Time {
        function: TimeFunction,
        operand: Boxed<Expr>,
        place: Place,
    },
    /// `timeshift(a, n)`
    Timeshift {
        operand: Boxed<Expr>,
        shift: Integer,
        place: Place,
    },
    /// `fill_time_series(a, span)`
    FillTimeSeries {
        operand: Boxed<Expr>,
        span: Option<FillSpan>,
        place: Place,
    },
    /// `name(a, b, ..)`, a call of a defined operator
    CallOf {
        name: Word,
        arguments: Items<Expr>,
        place: Place,
    },
    /// An argument or the result of a call that was written out, which has to be of the sort. It has no text.
    Typed {
        sort: Sort,
        expr: Boxed<Expr>,
        place: Place,
    },
}

/// A clause, after a data set or in a join. Its place is that of its word.
#[derive(Drop)]
#[cycle(tree)]
pub enum Clause {
    Filter {
        condition: Boxed<Expr>,
        place: Place,
    },
    Calc {
        items: Items<Item>,
        place: Place,
    },
    Keep {
        components: Items<Comp>,
        place: Place,
    },
    Drop {
        components: Items<Comp>,
        place: Place,
    },
    Rename {
        renames: Items<Rename>,
        place: Place,
    },
    Sub {
        items: Items<SubItem>,
        place: Place,
    },
    Unpivot {
        identifier: Word,
        measure: Word,
        place: Place,
    },
    Aggr {
        items: Items<Item>,
        groups: Option<Boxed<Groups>>,
        place: Place,
    },
}

/// `measure name := a`
#[derive(Drop)]
#[cycle(tree)]
pub struct Item {
    pub role: Option<ItemRole>,
    pub name: Word,
    pub expr: Boxed<Expr>,
    pub place: Place,
}

/// `group by .. having ..`
#[derive(Drop)]
#[cycle(tree)]
pub struct Groups {
    pub grouping: Grouping,
    pub having: Option<Boxed<Expr>>,
    pub place: Place,
}

/// An operand of a join, and its alias.
#[derive(Drop)]
#[cycle(tree)]
pub struct JoinOperand {
    pub expr: Boxed<Expr>,
    pub alias: Option<Word>,
    pub place: Place,
}

/// `, start, length` of `substr`
#[derive(Drop)]
#[cycle(tree)]
pub struct SubstrRange {
    pub start: Boxed<Expr>,
    pub length: Option<Boxed<Expr>>,
    pub place: Place,
}

/// `name` or `name#component`
#[derive(Drop)]
pub struct Comp {
    pub name: Word,
    pub component: Option<Word>,
    pub place: Place,
}

/// `component to name`
#[derive(Drop)]
pub struct Rename {
    pub component: Comp,
    pub name: Word,
    pub place: Place,
}

/// `name = literal`
#[derive(Drop)]
pub struct SubItem {
    pub name: Word,
    pub value: Value,
    pub place: Place,
}

/// `group by names`, `group except names`
#[derive(Drop)]
pub struct Grouping {
    pub word: GroupWord,
    pub names: Items<Word>,
    pub place: Place,
}

/// `over (partition by .. order by .. data points between .. and ..)`
#[derive(Drop)]
pub struct Over {
    pub partition: Option<Items<Word>>,
    pub order: Option<Items<OrderItem>>,
    pub points: Option<Points>,
    pub place: Place,
}

/// `name asc`, `name desc`
#[derive(Drop)]
pub struct OrderItem {
    pub name: Word,
    pub direction: Option<Direction>,
    pub place: Place,
}

/// `data points between .. and ..`
#[derive(Drop)]
pub struct Points {
    pub from: WindowStart,
    pub to: WindowEnd,
    pub place: Place,
}
