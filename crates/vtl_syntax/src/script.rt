// Scripts.
use crate::expr::Expr;
use crate::operator::DefinedOperator;
use crate::ruleset::Ruleset;
use sqlite_items::Items;
use vtl_values::{Place, Word};

/// A script. Each list is in its order; the order between items of different lists is that of their places.
#[derive(Drop)]
pub struct Script {
    pub statements: Items<Statement>,
    pub rulesets: Items<Ruleset>,
    pub operators: Items<DefinedOperator>,
}

/// `name <- expr` or `name := expr`. The result is published where it is persistent, which is `<-`.
#[derive(Drop)]
pub struct Statement {
    pub name: Word,
    pub persistent: bool,
    pub expr: Expr,
    pub place: Place,
}
