// The rule of an operator on a pair of data sets.
ghost use Rattle.std.specs.Prelude.{◌≡◌, IfOk};
ghost use Rattle.pair_ops.specs.Rules as rules;

use crate::notes::{note_main, note_partner};
use data_model::steps::Steps;
use data_set_trees::{DataSetNode, SharedOperator};
use held_index::{DeltaRule, Draft, Held, Stop, Want};
use pair_eval::{PairPlan, Side};
use point_sets::Delta;
use scalar_eval::Matchers;
use sqlite_items::Items;
use std::alloc::{AllocError, Global};
use std::marker::Model;
use std::sync::Arc;
use std::sync::ledger::Ledger;
use std::thread::Threads;
use structured_sets::copy_all;
use vtl_values::Structure;

/// The rule of an operator on two data sets.
#[derive(Drop)]
pub struct PairRule {
    operator: SharedOperator,
    operands: Items<Structure>,
    structure: Structure,
    plan: PairPlan,
    wants: Items<Want>,
}

impl Model for PairRule {
    ghost use Rattle.data_set_trees.specs.checked.Operators.{an_operator, operator_coded, Operator};
    ghost use Rattle.pair_ops.specs.Rules.{IsRule};

    ghost Value = { Operator };

    ghost coded = { operator_coded };

    ghost view = { λ r. an_operator r.operator r.operands r.structure };

    ghost invariant = { λ r. IsRule (an_operator r.operator r.operands r.structure) r.plan r.wants };
}

/// What a plan wants held, in the order of the operands.
fn wants_of(alloc: Global, plan: &PairPlan) -> Result<Items<Want>, AllocError>
    ensures { IfOk result (λ wants. wants ≡ rules.wants_on plan.now) }
{
    let (left, right): (&[u64], &[u64]) = match plan.main() {
        Side::Left => (plan.partner_numbers(), &[]),
        Side::Right => (&[], plan.partner_numbers()),
    };
    let mut wants = Vec::new(alloc);
    wants.push(Want::in_parts(alloc, 0, Items::from_slice(alloc, left)?))?;
    wants.push(Want::in_parts(alloc, 1, Items::from_slice(alloc, right)?))?;
    Ok(Items::from_vec(wants))
}

impl PairRule {
    ghost use Rattle.std.specs.Prelude.{◌<◌, length};
    ghost use Rattle.data_set_trees.specs.checked.Operators.{an_operator, IsTyped};
    ghost use Rattle.pair_ops.specs.Rules.{pair_in, IsPair};

    /// The rule of a node's operator, which is one on a pair.
    pub fn of(alloc: Global, node: &DataSetNode) -> Result<PairRule, AllocError>
        requires typed { IsTyped (an_operator node.now.operator node.now.operands node.now.structure) }
        requires pair { IsPair node.now.operator }
        ensures { IfOk result (λ rule. rule ≡ an_operator node.now.operator node.now.operands node.now.structure) }
    {
        let operands = node.operands.as_slice();
        let (left, right) = (&operands[0], &operands[1]);
        let plan = PairPlan::of(alloc, &node.operator, left, right, &node.structure)?;
        let wants = wants_of(alloc, &plan)?;
        Ok(PairRule {
            operator: node.operator.copy()?,
            operands: copy_all(alloc, operands)?,
            structure: node.structure.copy()?,
            plan,
            wants,
        })
    }

    /// The plan of the operator, which is on a pair: there are two operands.
    fn plan(&self) -> &PairPlan
        ensures two { length self.now.operands ≡ 2 }
        ensures typed { IsTyped self.now }
        ensures pair { IsPair self.now.operator }
        ensures planned { result.now ≡ pair_in self.now }
    {
        &self.plan
    }
}

/// The numbers of the main operand and of the other one.
fn numbers_of(plan: &PairPlan) -> (usize, usize)
    ensures main { result.0 ≡ rules.main_number plan.now }
    ensures partner { result.1 ≡ rules.partner_number plan.now }
{
    match plan.main() {
        Side::Left => (0, 1),
        Side::Right => (1, 0),
    }
}

impl DeltaRule for PairRule {
    ghost use Rattle.std.specs.Prelude.{length};
    ghost use Rattle.operator_meaning.specs.Operators.{meaning_of, AreOperands};
    ghost use Rattle.pair_ops.specs.Reach.{matching_reach};
    ghost use Rattle.pair_ops.specs.ReachLaws.{no_reach};
    ghost use Rattle.pair_ops.specs.Rules.{main_number, pair_in, wanted_of};

    ghost arity = { λ r. length r.operands };

    ghost admits = { λ r. AreOperands r.operands };

    ghost meaning = { meaning_of };

    ghost wanted = { wanted_of };

    ghost structure = { λ r. r.structure };

    ghost reach = { λ r. matching_reach r.operands (main_number (pair_in r)) };

    ghost rests = { λ r. no_reach r.operands (main_number (pair_in r)) };

    fn wants(&self) -> &[Want] {
        self.wants.as_slice()
    }

    fn result(&self) -> &Structure {
        &self.structure
    }

    fn delta<R: Threads + Sync, L: Ledger>(
        &self,
        _rt: &R,
        alloc: Global,
        before: u64,
        held: &[Held],
        news: &[Arc<Delta>],
        steps: &mut Steps<L>,
    ) -> Result<Delta, Stop> {
        let plan = self.plan();
        let (main, partner) = numbers_of(plan);
        let (own, other) = (&news[main], &news[partner]);
        let (parts, whole) = (&held[main], &held[partner]);
        let mut draft = Draft::new(alloc);
        let mut matchers = Matchers::new(alloc);
        note_main(
            alloc,
            plan,
            own,
            whole,
            other,
            &mut draft,
            &mut matchers,
            steps,
        )?;
        note_partner(
            alloc,
            plan,
            other,
            parts,
            own,
            &mut draft,
            &mut matchers,
            steps,
        )?;
        draft.finish(alloc, before)
    }
}
