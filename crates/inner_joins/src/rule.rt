// The rule of an inner join.
ghost use Rattle.std.specs.Prelude.{◌≡◌, IfOk};

use crate::notes::noted;
use crate::plan::InnerPlan;
use crate::wants::wants_of;
use data_model::steps::Steps;
use data_set_trees::{DataSetNode, SharedOperator};
use held_index::{DeltaRule, Held, Stop, Want};
use point_sets::Delta;
use sqlite_items::Items;
use std::alloc::{AllocError, Global};
use std::marker::Model;
use std::sync::Arc;
use std::sync::ledger::Ledger;
use std::thread::Threads;
use vtl_values::Structure;

/// The rule of an inner join. It keeps how the points of the operands meet.
#[derive(Drop)]
pub struct InnerJoinRule {
    operator: SharedOperator,
    plan: InnerPlan,
    wants: Items<Want>,
}

impl Model for InnerJoinRule {
    ghost use Rattle.data_set_trees.specs.checked.Operators.{an_operator, operator_coded, Operator};
    ghost use Rattle.inner_joins.specs.Rules.{IsRule};

    ghost Value = { Operator };

    ghost coded = { operator_coded };

    ghost view = { λ r. an_operator r.operator r.plan.operands r.plan.structure };

    ghost invariant = { λ r. IsRule (an_operator r.operator r.plan.operands r.plan.structure) r.plan r.wants };
}

impl InnerJoinRule {
    ghost use Rattle.data_set_trees.specs.checked.Operators.{an_operator, IsTyped};
    ghost use Rattle.inner_joins.specs.Rules.{join_in, IsInner, IsInnerOn};

    /// The rule of a node's operator, which is an inner join.
    pub fn of(alloc: Global, node: &DataSetNode) -> Result<InnerJoinRule, AllocError>
        requires typed { IsTyped (an_operator node.now.operator node.now.operands node.now.structure) }
        requires inner { IsInner node.now.operator }
        ensures { IfOk result (λ rule. rule ≡ an_operator node.now.operator node.now.operands node.now.structure) }
    {
        let plan = InnerPlan::of(alloc, node.operands.as_slice(), &node.structure)?;
        let wants = wants_of(alloc, &plan)?;
        let operator = node.operator.copy()?;
        Ok(InnerJoinRule {
            operator,
            plan,
            wants,
        })
    }

    /// How the points of the operands meet.
    fn plan(&self) -> &InnerPlan
        ensures planned { result.now ≡ join_in self.now }
        ensures inner { IsInner self.now.operator }
        ensures join { IsInnerOn result.now }
    {
        &self.plan
    }
}

impl DeltaRule for InnerJoinRule {
    ghost use Rattle.std.specs.Prelude.{length};
    ghost use Rattle.operator_meaning.specs.Operators.{meaning_of, AreOperands};
    ghost use Rattle.inner_joins.specs.Reach.{inner_reach};
    ghost use Rattle.inner_joins.specs.ReachLaws.{no_reach};
    ghost use Rattle.inner_joins.specs.Rules.{join_in, wanted_of};

    ghost arity = { λ r. length r.operands };

    ghost admits = { λ r. AreOperands r.operands };

    ghost meaning = { meaning_of };

    ghost wanted = { wanted_of };

    ghost structure = { λ r. r.structure };

    ghost reach = { λ r. inner_reach (join_in r) };

    ghost rests = { λ r. no_reach (join_in r) };

    fn wants(&self) -> &[Want] {
        self.wants.as_slice()
    }

    fn result(&self) -> &Structure {
        self.plan.join().structure()
    }

    fn delta<R: Threads + Sync, L: Ledger>(
        &self,
        _rt: &R,
        alloc: Global,
        before: u64,
        held: &[Held],
        news: &[Arc<Delta>],
        steps: &mut Steps<L>,
    ) -> Result<Delta, Stop> {
        let draft = noted(alloc, self.plan(), held, news, steps)?;
        draft.finish(alloc, before)
    }
}
