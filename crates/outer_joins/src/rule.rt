// The rule of a left or full join.
ghost use Rattle.std.specs.Prelude.{◌≡◌, true, IfOk};
ghost use Rattle.data_set_trees.specs.declared.tree.DataSetOperator.TheVariants.{Join};
ghost use Rattle.data_set_trees.specs.checked.Operators.{an_operator, IsTyped};
ghost use Rattle.outer_joins.specs.Rules.{is_outer, operator_of, IsOuter};

use crate::notes::noted;
use data_model::steps::Steps;
use data_set_trees::{DataSetNode, DataSetOperator};
use held_index::{DeltaRule, Held, Stop, Want, all_whole};
use join_eval::JoinPlan;
use point_sets::Delta;
use sqlite_items::Items;
use std::alloc::{AllocError, Global};
use std::marker::Model;
use std::sync::Arc;
use std::sync::ledger::Ledger;
use std::thread::Threads;
use vtl_syntax::words::JoinFunction;
use vtl_values::Structure;

/// The rule of a left or full join. It keeps how the points of the operands meet.
#[derive(Drop)]
pub struct OuterJoinRule {
    plan: JoinPlan,
    wants: Items<Want>,
}

impl Model for OuterJoinRule {
    ghost use Rattle.data_set_trees.specs.checked.Operators.{operator_coded, Operator};
    ghost use Rattle.outer_joins.specs.Rules.{operator_of, IsRule};

    ghost Value = { Operator };

    ghost coded = { operator_coded };

    ghost view = { λ r. operator_of r.plan };

    ghost invariant = { λ r. IsRule r.plan r.wants };
}

/// The function of a left or full join.
fn function_of(operator: &DataSetOperator) -> JoinFunction
    requires { IsOuter operator.now }
    ensures join { operator.now ≡ Join result }
    ensures outer { is_outer result ≡ true }
{
    match operator {
        DataSetOperator::Join(function) => *function,
        _ => unreachable!(),
    }
}

impl OuterJoinRule {
    /// The rule of a node's operator, which is a left or full join.
    pub fn of(alloc: Global, node: &DataSetNode) -> Result<OuterJoinRule, AllocError>
        requires typed { IsTyped (an_operator node.now.operator node.now.operands node.now.structure) }
        requires outer { IsOuter node.now.operator }
        ensures { IfOk result (λ rule. rule ≡ an_operator node.now.operator node.now.operands node.now.structure) }
    {
        let operands = node.operands.as_slice();
        let function = function_of(node.operator.get());
        let plan = JoinPlan::of(alloc, function, operands, &node.structure)?;
        let wants = all_whole(alloc, operands.len())?;
        Ok(OuterJoinRule { plan, wants })
    }

    /// How the points of the operands meet. The operator is this join, which is a left or full one, and well typed.
    fn plan(&self) -> &JoinPlan
        ensures operator { self.now ≡ operator_of result.now }
        ensures typed { IsTyped (operator_of result.now) }
        ensures outer { is_outer result.now.function ≡ true }
    {
        &self.plan
    }
}

impl DeltaRule for OuterJoinRule {
    ghost use Rattle.std.specs.Prelude.{length};
    ghost use Rattle.operator_meaning.specs.Operators.{meaning_of, AreOperands};
    ghost use Rattle.outer_joins.specs.Reach.{outer_reach, no_reach};
    ghost use Rattle.outer_joins.specs.Rules.{wanted_of};

    ghost arity = { λ r. length r.operands };

    ghost admits = { λ r. AreOperands r.operands };

    ghost meaning = { meaning_of };

    ghost wanted = { wanted_of };

    ghost structure = { λ r. r.structure };

    ghost reach = { λ r held news. outer_reach (length r.operands) news };

    ghost rests = { λ r held news. no_reach (length r.operands) news };

    fn wants(&self) -> &[Want] {
        self.wants.as_slice()
    }

    fn result(&self) -> &Structure {
        self.plan.structure()
    }

    fn delta<R: Threads + Sync, L: Ledger>(
        &self,
        _rt: &R,
        alloc: Global,
        before: u64,
        held: &[Held],
        news: &[Arc<Delta>],
        steps: &mut Steps<L>,
    ) -> Result<Delta, Stop> {
        let draft = noted(alloc, self.plan(), held, news, steps)?;
        draft.finish(alloc, before)
    }
}
