// What a tree is written by.
ghost use Rattle.defined_operators.specs.Uses.{AreUsesTo};
ghost use Rattle.defined_operators.specs.Callings.{level};

use crate::calling::Calling;
use sqlite_items::Items;
use vtl_syntax::{DefinedOperator, Expr, Param};

/// What a tree is written by: the operators and what becomes of their calls; which of their parameters are used, where no
/// call is replaced inside another, where one is, and so on; and the parameters with their arguments.
#[derive(Clone, Copy)]
pub(crate) struct Writer<'a> {
    pub(crate) operators: &'a [DefinedOperator],
    pub(crate) calling: Calling,
    pub(crate) levels: &'a [Items<Items<bool>>],
    pub(crate) params: &'a [Param],
    pub(crate) arguments: &'a [Expr],
    ghost known: { AreUsesTo operators.now levels.now (level calling) },
}
