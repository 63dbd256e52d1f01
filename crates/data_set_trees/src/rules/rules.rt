// Checked rulesets.
use scalar_trees::CheckedExpr;
use sqlite_items::Items;
use vtl_syntax::words::{
    CheckInput, CheckOutput, HierarchyInput, HierarchyOutput, Mode, Relation, RowsOutput, Sign,
};
use vtl_values::{Integer, Word};

/// What is told where a rule is broken.
#[derive(Debug, Drop)]
pub struct RuleError {
    pub code: Option<Word>,
    pub level: Option<Integer>,
}

/// A rule of a datapoint ruleset, on the components of a data set by their numbers. It is true where its condition is false.
#[derive(Drop)]
pub struct PointRule {
    pub name: Word,
    pub condition: Option<CheckedExpr>,
    pub value: CheckedExpr,
    pub error: RuleError,
}

/// `check_datapoint(ds, rules output)`
pub struct CheckedDatapoint {
    pub rules: Items<PointRule>,
    pub output: RowsOutput,
}

// Written out, so that who drops one calls this and doesn't go through what is in it.
impl Drop for CheckedDatapoint {
    fn drop(self) {
        let CheckedDatapoint {
            rules: _,
            output: _,
        } = self;
    }
}

/// `check(ds errorcode .. errorlevel .. imbalance .. output)`, with the imbalance as a second operand, if there is one.
pub struct CheckedCheck {
    pub error: RuleError,
    pub has_imbalance: bool,
    pub output: CheckOutput,
}

// Written out, so that who drops one calls this and doesn't go through what is in it.
impl Drop for CheckedCheck {
    fn drop(self) {
        let CheckedCheck {
            error: _,
            has_imbalance: _,
            output: _,
        } = self;
    }
}

/// An item of a rule with its sign.
#[derive(Drop)]
pub struct SignedItem {
    pub sign: Sign,
    pub item: Word,
}

/// A rule of a hierarchical ruleset: its items are values of the rule component, and the condition goes by the numbers of
/// a data set's components.
#[derive(Drop)]
pub struct ItemRule {
    pub name: Word,
    pub condition: Option<CheckedExpr>,
    pub left: Word,
    pub relation: Relation,
    pub right: Items<SignedItem>,
    pub error: RuleError,
}

/// The rules of a hierarchical ruleset in their order, the number of the component that has the items, and what stands for
/// one that is missing.
#[derive(Drop)]
pub struct HierarchyContent {
    pub component: u64,
    pub rules: Items<ItemRule>,
    pub mode: Mode,
}

/// `hierarchy(ds, rules ..)` and `check_hierarchy(ds, rules ..)`
pub enum CheckedHierarchy {
    Computed {
        content: HierarchyContent,
        input: HierarchyInput,
        output: HierarchyOutput,
    },
    Checked {
        content: HierarchyContent,
        input: CheckInput,
        output: RowsOutput,
    },
}

// Written out, so that who drops one calls this and doesn't go through what is in it.
impl Drop for CheckedHierarchy {
    fn drop(self) {
        match self {
            CheckedHierarchy::Computed {
                content: _,
                input: _,
                output: _,
            } => {}
            CheckedHierarchy::Checked {
                content: _,
                input: _,
                output: _,
            } => {}
        }
    }
}
