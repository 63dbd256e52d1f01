// The rule of any operator.
ghost use Rattle.std.specs.Prelude.{◌≡◌, true, IfOk};
ghost use Rattle.operator_rules.specs.Families.{operator_of};

use crate::family::FamilyRule;
use data_model::steps::Steps;
use data_set_trees::DataSetNode;
use held_index::{DeltaRule, Held, Stop, Want};
use point_sets::Delta;
use sqlite_items::Boxed;
use std::alloc::{AllocError, Global};
use std::marker::Model;
use std::sync::Arc;
use std::sync::ledger::Ledger;
use std::thread::Threads;
use vtl_values::Structure;

/// The rule of an operator that is built. It is seen as its operator.
pub struct OperatorRule {
    family: Boxed<FamilyRule>,
}

impl Model for OperatorRule {
    ghost use Rattle.data_set_trees.specs.checked.Operators.{operator_coded, Operator};
    ghost use Rattle.operator_rules.specs.Families.{operator_of, IsOfItsFamily};

    ghost Value = { Operator };

    ghost coded = { operator_coded };

    ghost view = { λ r. operator_of r.family };

    ghost invariant = { λ r. IsOfItsFamily r.family };
}

// Written out, so that who drops one calls this and doesn't go through what is in it.
impl Drop for OperatorRule {
    fn drop(self) {
        let OperatorRule { family: _ } = self;
    }
}

impl OperatorRule {
    ghost use Rattle.data_set_trees.specs.checked.Operators.{an_operator, IsTyped};
    ghost use Rattle.built_scripts.specs.Built.{is_built};

    /// The rule of a node's operator.
    pub fn of(alloc: Global, node: &DataSetNode) -> Result<OperatorRule, AllocError>
        requires typed { IsTyped (an_operator node.now.operator node.now.operands node.now.structure) }
        requires built { is_built node.now.operator ≡ true }
        ensures { IfOk result (λ rule. rule ≡ an_operator node.now.operator node.now.operands node.now.structure) }
    {
        let family = FamilyRule::of(alloc, node)?;
        Ok(OperatorRule {
            family: Boxed::new(alloc, family)?,
        })
    }
}

impl DeltaRule for OperatorRule {
    ghost use Rattle.std.specs.Prelude.{length};
    ghost use Rattle.operator_meaning.specs.Operators.{meaning_of, AreOperands};
    ghost use Rattle.operator_rules.specs.ReachLaws.{no_rule_reach};
    ghost use Rattle.operator_rules.specs.Rules.{reach_of, wanted_of};

    ghost arity = { λ r. length r.operands };

    ghost admits = { λ r. AreOperands r.operands };

    ghost meaning = { meaning_of };

    ghost wanted = { wanted_of };

    ghost structure = { λ r. r.structure };

    ghost reach = { reach_of };

    ghost rests = { no_rule_reach };

    fn wants(&self) -> &[Want] {
        self.family.get().wants()
    }

    fn result(&self) -> &Structure {
        self.family.get().result()
    }

    fn delta<R: Threads + Sync, L: Ledger>(
        &self,
        rt: &R,
        alloc: Global,
        before: u64,
        held: &[Held],
        news: &[Arc<Delta>],
        steps: &mut Steps<L>,
    ) -> Result<Delta, Stop> {
        self.family
            .get()
            .delta(rt, alloc, before, held, news, steps)
    }
}
