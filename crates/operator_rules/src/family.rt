// The rules of operators, by their families.
ghost use Rattle.std.specs.Prelude.{◌≡◌, true, IfOk};

use choice_ops::ChoiceRule;
use clause_ops::ClauseRule;
use cross_joins::CrossJoinRule;
use data_model::steps::Steps;
use data_set_trees::{DataSetNode, DataSetOperator};
use exists_ops::ExistsRule;
use held_index::{DeltaRule, Held, Stop, Want};
use inner_joins::InnerJoinRule;
use outer_joins::OuterJoinRule;
use pair_ops::PairRule;
use point_sets::Delta;
use set_ops::SetRule;
use std::alloc::{AllocError, Global};
use std::sync::Arc;
use std::sync::ledger::Ledger;
use std::thread::Threads;
use vtl_syntax::words::JoinFunction;
use vtl_values::Structure;

/// The rule of an operator, by its family.
#[derive(Drop)]
pub(crate) enum FamilyRule {
    Clause(ClauseRule),
    Pair(PairRule),
    Choice(ChoiceRule),
    Exists(ExistsRule),
    Set(SetRule),
    OuterJoin(OuterJoinRule),
    InnerJoin(InnerJoinRule),
    CrossJoin(CrossJoinRule),
}

impl FamilyRule {
    ghost use Rattle.data_set_trees.specs.checked.Operators.{an_operator, IsTyped};
    ghost use Rattle.built_scripts.specs.Built.{is_built};
    ghost use Rattle.operator_rules.specs.Families.{operator_of, IsOfItsFamily};

    /// The rule of a node's operator.
    #[tactic(auto, unfolding(crate::specs::Families::operator_of, crate::specs::Families::IsOfItsFamily))]
    pub(crate) fn of(alloc: Global, node: &DataSetNode) -> Result<FamilyRule, AllocError>
        requires typed { IsTyped (an_operator node.now.operator node.now.operands node.now.structure) }
        requires built { is_built node.now.operator ≡ true }
        ensures operator { IfOk result (λ rule. operator_of rule ≡ an_operator node.now.operator node.now.operands node.now.structure) }
        ensures family { IfOk result IsOfItsFamily }
    {
        match node.operator.get() {
            DataSetOperator::Clause(_) => Ok(FamilyRule::Clause(ClauseRule::of(alloc, node)?)),
            DataSetOperator::Pair { .. } => Ok(FamilyRule::Pair(PairRule::of(alloc, node)?)),
            DataSetOperator::Choice { .. } => Ok(FamilyRule::Choice(ChoiceRule::of(alloc, node)?)),
            DataSetOperator::ExistsIn { .. } => Ok(FamilyRule::Exists(ExistsRule::of(
                alloc, node,
            )?)),
            DataSetOperator::Set(_) => Ok(FamilyRule::Set(SetRule::of(alloc, node)?)),
            DataSetOperator::Join(JoinFunction::Left | JoinFunction::Full) => {
                Ok(FamilyRule::OuterJoin(OuterJoinRule::of(alloc, node)?))
            }
            DataSetOperator::Join(JoinFunction::Inner) => {
                Ok(FamilyRule::InnerJoin(InnerJoinRule::of(alloc, node)?))
            }
            DataSetOperator::Join(JoinFunction::Cross) => {
                Ok(FamilyRule::CrossJoin(CrossJoinRule::of(alloc, node)?))
            }
            DataSetOperator::InJoin(_) => Ok(FamilyRule::Clause(ClauseRule::of(alloc, node)?)),
            // What isn't built.
            _ => unreachable!(),
        }
    }
}

#[tactic(auto, unfolding(crate::specs::Families::operator_of, crate::specs::Families::wanted_in, crate::specs::Families::reach_in))]
impl DeltaRule for FamilyRule {
    ghost use Rattle.std.specs.Prelude.{length};
    ghost use Rattle.operator_meaning.specs.Operators.{meaning_of, AreOperands};
    ghost use Rattle.operator_rules.specs.ReachLaws.{no_reach_in};
    ghost use Rattle.operator_rules.specs.Families.{operator_of, reach_in, wanted_in};

    ghost arity = { λ r. length (operator_of r).operands };

    ghost admits = { λ r. AreOperands (operator_of r).operands };

    ghost meaning = { λ r. meaning_of (operator_of r) };

    ghost wanted = { wanted_in };

    ghost structure = { λ r. (operator_of r).structure };

    ghost reach = { reach_in };

    ghost rests = { no_reach_in };

    fn wants(&self) -> &[Want] {
        match self {
            FamilyRule::Clause(rule) => rule.wants(),
            FamilyRule::Pair(rule) => rule.wants(),
            FamilyRule::Choice(rule) => rule.wants(),
            FamilyRule::Exists(rule) => rule.wants(),
            FamilyRule::Set(rule) => rule.wants(),
            FamilyRule::OuterJoin(rule) => rule.wants(),
            FamilyRule::InnerJoin(rule) => rule.wants(),
            FamilyRule::CrossJoin(rule) => rule.wants(),
        }
    }

    fn result(&self) -> &Structure {
        match self {
            FamilyRule::Clause(rule) => rule.result(),
            FamilyRule::Pair(rule) => rule.result(),
            FamilyRule::Choice(rule) => rule.result(),
            FamilyRule::Exists(rule) => rule.result(),
            FamilyRule::Set(rule) => rule.result(),
            FamilyRule::OuterJoin(rule) => rule.result(),
            FamilyRule::InnerJoin(rule) => rule.result(),
            FamilyRule::CrossJoin(rule) => rule.result(),
        }
    }

    fn delta<R: Threads + Sync, L: Ledger>(
        &self,
        rt: &R,
        alloc: Global,
        before: u64,
        held: &[Held],
        news: &[Arc<Delta>],
        steps: &mut Steps<L>,
    ) -> Result<Delta, Stop> {
        match self {
            FamilyRule::Clause(rule) => rule.delta(rt, alloc, before, held, news, steps),
            FamilyRule::Pair(rule) => rule.delta(rt, alloc, before, held, news, steps),
            FamilyRule::Choice(rule) => rule.delta(rt, alloc, before, held, news, steps),
            FamilyRule::Exists(rule) => rule.delta(rt, alloc, before, held, news, steps),
            FamilyRule::Set(rule) => rule.delta(rt, alloc, before, held, news, steps),
            FamilyRule::OuterJoin(rule) => rule.delta(rt, alloc, before, held, news, steps),
            FamilyRule::InnerJoin(rule) => rule.delta(rt, alloc, before, held, news, steps),
            FamilyRule::CrossJoin(rule) => rule.delta(rt, alloc, before, held, news, steps),
        }
    }
}
