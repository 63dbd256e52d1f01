// The rule of a cross join.
ghost use Rattle.std.specs.Prelude.{◌≡◌, IfOk};
ghost use Rattle.data_set_trees.specs.checked.Operators.{an_operator, IsTyped};
ghost use Rattle.cross_joins.specs.Rules.{IsCross, IsCrossOn};

use crate::counts::{are_too_many, is_nothing_new};
use crate::notes::{no_change, noted};
use crate::rows::whole_part;
use data_model::steps::Steps;
use data_set_trees::{DataSetNode, SharedOperator};
use held_index::{DeltaRule, Held, Stop, Want, all_whole};
use join_eval::JoinPlan;
use point_sets::Delta;
use sqlite_items::Items;
use std::alloc::{AllocError, Global};
use std::marker::Model;
use std::sync::Arc;
use std::sync::ledger::Ledger;
use std::thread::Threads;
use vtl_syntax::words::JoinFunction;
use vtl_values::Structure;

/// The rule of a cross join. It keeps how the points of the operands meet.
#[derive(Drop)]
pub struct CrossJoinRule {
    operator: SharedOperator,
    plan: JoinPlan,
    wants: Items<Want>,
}

impl Model for CrossJoinRule {
    ghost use Rattle.data_set_trees.specs.checked.Operators.{an_operator, operator_coded, Operator};
    ghost use Rattle.cross_joins.specs.Rules.{IsRule};

    ghost Value = { Operator };

    ghost coded = { operator_coded };

    ghost view = { λ r. an_operator r.operator r.plan.operands r.plan.structure };

    ghost invariant = { λ r. IsRule (an_operator r.operator r.plan.operands r.plan.structure) r.plan r.wants };
}

impl CrossJoinRule {
    /// The rule of a node's operator, which is a cross join.
    pub fn of(alloc: Global, node: &DataSetNode) -> Result<CrossJoinRule, AllocError>
        requires typed { IsTyped (an_operator node.now.operator node.now.operands node.now.structure) }
        requires cross { IsCross node.now.operator }
        ensures { IfOk result (λ rule. rule ≡ an_operator node.now.operator node.now.operands node.now.structure) }
    {
        let operands = node.operands.as_slice();
        Ok(CrossJoinRule {
            operator: node.operator.copy()?,
            plan: JoinPlan::of(alloc, JoinFunction::Cross, operands, &node.structure)?,
            wants: all_whole(alloc, operands.len())?,
        })
    }

    /// How the points of the operands meet.
    fn plan(&self) -> &JoinPlan
        ensures { IsCrossOn self.now result.now }
    {
        &self.plan
    }
}

impl DeltaRule for CrossJoinRule {
    ghost use Rattle.std.specs.Prelude.{length};
    ghost use Rattle.operator_meaning.specs.Operators.{meaning_of, AreOperands};
    ghost use Rattle.held_index.specs.Wants as wants;
    ghost use Rattle.cross_joins.specs.Reach.{cross_reach, no_reach};

    ghost arity = { λ r. length r.operands };

    ghost admits = { λ r. AreOperands r.operands };

    ghost meaning = { meaning_of };

    ghost wanted = { λ r. wants.all_whole (length r.operands) };

    ghost structure = { λ r. r.structure };

    ghost reach = { λ r. cross_reach (length r.operands) };

    ghost rests = { λ r. no_reach (length r.operands) };

    fn wants(&self) -> &[Want] {
        self.wants.as_slice()
    }

    fn result(&self) -> &Structure {
        self.plan.structure()
    }

    fn delta<R: Threads + Sync, L: Ledger>(
        &self,
        _rt: &R,
        alloc: Global,
        before: u64,
        held: &[Held],
        news: &[Arc<Delta>],
        steps: &mut Steps<L>,
    ) -> Result<Delta, Stop> {
        let plan = self.plan();
        if is_nothing_new(news) {
            return no_change(alloc, before);
        }
        let whole = whole_part(alloc)?;
        if are_too_many(held, news, &whole, steps) {
            return Err(Stop::TooMany);
        }
        let draft = noted(alloc, plan, held, news, steps)?;
        draft.finish(alloc, before)
    }
}
