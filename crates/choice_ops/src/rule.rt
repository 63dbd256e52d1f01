// The rule of a conditional on data sets.
ghost use Rattle.std.specs.Prelude.{◌≡◌, IfOk};
ghost use Rattle.data_set_trees.specs.checked.Operators.{an_operator, IsTyped};
ghost use Rattle.choice_ops.specs.Rules.{IsChoice};

use crate::notes::noted;
use crate::plan::ChoicePlan;
use data_model::steps::Steps;
use data_set_trees::DataSetNode;
use held_index::{DeltaRule, Held, Stop, Want, all_whole};
use point_sets::Delta;
use scalar_eval::Matchers;
use sqlite_items::Items;
use std::alloc::{AllocError, Global};
use std::marker::Model;
use std::sync::Arc;
use std::sync::ledger::Ledger;
use std::thread::Threads;
use vtl_values::Structure;

/// The rule of a conditional.
#[derive(Drop)]
pub struct ChoiceRule {
    plan: ChoicePlan,
    wants: Items<Want>,
}

impl Model for ChoiceRule {
    ghost use Rattle.data_set_trees.specs.checked.Operators.{operator_coded, Operator};
    ghost use Rattle.choice_ops.specs.Rules.{IsRule};

    ghost Value = { Operator };

    ghost coded = { operator_coded };

    ghost view = { λ r. r.plan };

    ghost invariant = { λ r. IsRule r.plan r.wants };
}

impl ChoiceRule {
    /// The rule of a node's operator, which is a conditional.
    pub fn of(alloc: Global, node: &DataSetNode) -> Result<ChoiceRule, AllocError>
        requires typed { IsTyped (an_operator node.now.operator node.now.operands node.now.structure) }
        requires choice { IsChoice node.now.operator }
        ensures { IfOk result (λ rule. rule ≡ an_operator node.now.operator node.now.operands node.now.structure) }
    {
        Ok(ChoiceRule {
            plan: ChoicePlan::of(alloc, node)?,
            wants: all_whole(alloc, node.operands.len())?,
        })
    }

    /// The plan of the operator, which is a conditional, and well typed.
    fn plan(&self) -> &ChoicePlan
        ensures planned { result.now ≡ self.now }
        ensures typed { IsTyped self.now }
        ensures choice { IsChoice self.now.operator }
    {
        &self.plan
    }
}

impl DeltaRule for ChoiceRule {
    ghost use Rattle.std.specs.Prelude.{length};
    ghost use Rattle.operator_meaning.specs.Operators.{meaning_of, AreOperands};
    ghost use Rattle.choice_ops.specs.Reach.{choice_reach};
    ghost use Rattle.choice_ops.specs.ReachLaws.{no_reach};
    ghost use Rattle.choice_ops.specs.Rules.{wanted_of};

    ghost arity = { λ r. length r.operands };

    ghost admits = { λ r. AreOperands r.operands };

    ghost meaning = { meaning_of };

    ghost wanted = { wanted_of };

    ghost structure = { λ r. r.structure };

    ghost reach = { λ r. choice_reach r.operands };

    ghost rests = { λ r. no_reach r.operands };

    fn wants(&self) -> &[Want] {
        self.wants.as_slice()
    }

    fn result(&self) -> &Structure {
        self.plan.structure()
    }

    fn delta<R: Threads + Sync, L: Ledger>(
        &self,
        _rt: &R,
        alloc: Global,
        before: u64,
        held: &[Held],
        news: &[Arc<Delta>],
        steps: &mut Steps<L>,
    ) -> Result<Delta, Stop> {
        let mut matchers = Matchers::new(alloc);
        noted(alloc, self.plan(), held, news, &mut matchers, steps)?.finish(alloc, before)
    }
}
