// Rulesets.
use crate::expr::Expr;
use crate::words::{Relation, Sign};
use sqlite_items::Items;
use vtl_values::{Integer, Place, Word};

/// A ruleset.
#[derive(Drop)]
pub enum Ruleset {
    Datapoint(DatapointRules),
    Hierarchy(HierarchyRules),
}

/// `define datapoint ruleset ..`
#[derive(Drop)]
pub struct DatapointRules {
    pub name: Word,
    pub variables: Items<Variable>,
    pub rules: Items<DatapointRule>,
    pub place: Place,
}

/// `define hierarchical ruleset ..`; the variables are those of its conditions, and `component` is the rule component.
#[derive(Drop)]
pub struct HierarchyRules {
    pub name: Word,
    pub variables: Option<Items<Variable>>,
    pub component: Word,
    pub rules: Items<HierarchyRule>,
    pub place: Place,
}

/// `name`, `name as alias`
#[derive(Drop)]
pub struct Variable {
    pub name: Word,
    pub alias: Option<Word>,
    pub place: Place,
}

/// `name : when condition then expr ..`
#[derive(Drop)]
pub struct DatapointRule {
    pub name: Option<Word>,
    pub condition: Option<Expr>,
    pub expr: Expr,
    pub fault: FaultPart,
    pub place: Place,
}

/// `name : when condition then left = first + others ..`
#[derive(Drop)]
pub struct HierarchyRule {
    pub name: Option<Word>,
    pub condition: Option<Expr>,
    pub left: Word,
    pub relation: Relation,
    pub sign: Option<Sign>,
    pub first: Word,
    pub others: Items<SignedName>,
    pub fault: FaultPart,
    pub place: Place,
}

/// `+ name`, `- name`
#[derive(Drop)]
pub struct SignedName {
    pub sign: Sign,
    pub name: Word,
    pub place: Place,
}

/// `errorcode "text" errorlevel n`. Its place is that of its first word, and of its rule where it has none.
#[derive(Drop)]
pub struct FaultPart {
    pub code: Option<Word>,
    pub level: Option<Integer>,
    pub place: Place,
}
