// Defined operators.
use crate::expr::Expr;
use crate::words::Sort;
use sqlite_items::Items;
use vtl_values::{Place, Word};

/// `define operator name (params) returns sort is body end operator`
#[derive(Drop)]
pub struct DefinedOperator {
    pub name: Word,
    pub params: Items<Param>,
    pub returns: Option<Sort>,
    pub body: Expr,
    pub place: Place,
}

/// A parameter: `name sort`
#[derive(Drop)]
pub struct Param {
    pub name: Word,
    pub sort: Sort,
    pub place: Place,
}
