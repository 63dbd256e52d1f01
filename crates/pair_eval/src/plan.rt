// How the points of two operands meet.
ghost use Rattle.std.specs.Prelude.{◌≡◌, ◌++◌, false, Some, is_none, IfOk};
ghost use Rattle.std.specs.Option.{option_copied};
ghost use Rattle.clause_eval.specs.Evaluations.{IsEvaluation};
ghost use Rattle.operator_meaning.specs.pairs.Pairs as meant;
ghost use Rattle.operator_meaning.specs.pairs.Typed.{IsTypedPair};
ghost use Rattle.pair_eval.specs.Plans as plans;
ghost use Rattle.pair_eval.specs.Made.{IsMade};

use crate::components::{all_places, include, numbers_between};
use crate::keys::key_at;
use crate::row::measure_values;
use crate::virals::{ViralPlaces, push_virals};
use clause_eval::Evaluation;
use data_set_trees::clauses::CheckedMeasure;
use data_set_trees::{DataSetOperator, SharedOperator};
use point_sets::{Key, Point};
use scalar_eval::{EvalStop, Matchers};
use sqlite_items::Items;
use std::alloc::{AllocError, Global};
use std::marker::Model;
use std::sync::Arc;
use vtl_values::{Structure, Value};

/// An operand of a pair.
#[derive(Clone, Copy, Debug, PartialEq, Eq)]
pub enum Side {
    Left,
    Right,
}

/// How the points of two data sets of given structures meet under a scalar operator, by numbers that depend on the
/// structures alone. Contracts see the operator with these structures, which is well typed.
#[derive(Drop)]
pub struct PairPlan {
    operator: SharedOperator,
    left: Structure,
    right: Structure,
    structure: Structure,
    main: Side,
    partner_numbers: Items<u64>,
    result_numbers: Items<u64>,
    virals: Items<ViralPlaces>,
}

impl Model for PairPlan {
    ghost use Rattle.operator_meaning.specs.pairs.Pairs.{PairOn};
    ghost use Rattle.pair_eval.specs.Plans.{pair_of, pair_coded, IsPlan};

    ghost Value = { PairOn };

    ghost coded = { pair_coded };

    ghost view = { λ p. pair_of p.operator p.left p.right p.structure };

    ghost invariant = { λ p. IsPlan (pair_of p.operator p.left p.right p.structure) p.main p.partner_numbers p.result_numbers p.virals };
}

/// The measures of an operator on two data sets.
fn measures_of(operator: &DataSetOperator) -> &[CheckedMeasure]
    ensures { result.now ≡ plans.measures_of operator.now }
{
    match operator {
        DataSetOperator::Pair { measures } => measures.as_slice(),
        _ => &[],
    }
}

/// A point of this key and these values.
fn made(alloc: Global, key: &Key, rest: Items<Value>) -> Result<Evaluation, AllocError>
    ensures { IfOk result (IsEvaluation key.now false (Some rest)) }
{
    let point = Point {
        key: key.copy()?,
        rest,
    };
    Ok(Evaluation::Present(Arc::new(alloc, point)?))
}

impl PairPlan {
    /// The plan of an operator on data sets of these structures, which it takes.
    pub fn of(
        alloc: Global,
        operator: &SharedOperator,
        left: &Structure,
        right: &Structure,
        structure: &Structure,
    ) -> Result<PairPlan, AllocError>
        requires { IsTypedPair (plans.pair_of operator.now left.now right.now structure.now) }
        ensures { IfOk result (λ plan. plan ≡ plans.pair_of operator.now left.now right.now structure.now) }
    {
        let (ours, theirs) = (left.components(), right.components());
        let (side, main, partner) = if include(ours, theirs) {
            (Side::Left, ours, theirs)
        } else {
            (Side::Right, theirs, ours)
        };
        Ok(PairPlan {
            operator: operator.copy()?,
            left: left.copy()?,
            right: right.copy()?,
            structure: structure.copy()?,
            main: side,
            partner_numbers: numbers_between(alloc, main, partner)?,
            result_numbers: numbers_between(alloc, main, structure.components())?,
            virals: all_places(alloc, ours, theirs, structure.components())?,
        })
    }

    /// The operand whose points give the points of the result.
    pub fn main(&self) -> Side
        ensures side { result ≡ plans.main_side self.now }
        ensures typed { IsTypedPair self.now }
    {
        self.main
    }

    /// The numbers of the main operand's identifiers that the other operand has, in the other operand's order.
    pub fn partner_numbers(&self) -> &[u64]
        ensures { result.now ≡ plans.partner_numbers self.now }
    {
        self.partner_numbers.as_slice()
    }

    /// The key of the result at a key of the main operand. Where these are the same the key is shared.
    pub fn result_key(&self, alloc: Global, key: &Key) -> Result<Key, AllocError>
        ensures { IfOk result (λ of_result. of_result ≡ meant.result_key self.now key.now) }
    {
        key_at(alloc, self.result_numbers.as_slice(), key)
    }

    /// The key of the other operand at a key of the main operand. Where these are the same the key is shared.
    pub fn partner_key(&self, alloc: Global, key: &Key) -> Result<Key, AllocError>
        ensures { IfOk result (λ of_partner. of_partner ≡ meant.partner_key self.now key.now) }
    {
        key_at(alloc, self.partner_numbers.as_slice(), key)
    }

    /// What the operator makes, at this key of the result, of the points that the operands have there.
    pub fn evaluate<'a>(
        &'a self,
        alloc: Global,
        key: &Key,
        left: Option<&Arc<Point>>,
        right: Option<&Arc<Point>>,
        matchers: &mut Matchers<'a>,
    ) -> Result<Evaluation, AllocError>
        ensures { IfOk result (IsMade self.now key.now (option_copied left.entry) (option_copied right.entry)) }
    {
        match (left, right) {
            (Some(left), Some(right)) => self.evaluate_both(alloc, key, left, right, matchers),
            _ => Ok(Evaluation::Absent),
        }
    }

    /// What the operator makes of two points: the measures, and then the viral attributes.
    fn evaluate_both<'a>(
        &'a self,
        alloc: Global,
        key: &Key,
        left: &Point,
        right: &Point,
        matchers: &mut Matchers<'a>,
    ) -> Result<Evaluation, AllocError>
        ensures { IfOk result (IsEvaluation key.now (is_none (meant.pair_values self.now (left.now.key ++ left.now.rest) (right.now.key ++ right.now.rest))) (meant.pair_values self.now (left.now.key ++ left.now.rest) (right.now.key ++ right.now.rest))) }
    {
        let measures = measures_of(self.operator.get());
        match measure_values(alloc, measures, left, right, matchers) {
            Ok(mut values) => {
                push_virals(&mut values, self.virals.as_slice(), left, right)?;
                made(alloc, key, values)
            }
            Err(EvalStop::Range) => Ok(Evaluation::OutOfRange),
            Err(EvalStop::Memory) => Err(AllocError),
        }
    }
}
