// How the points of a conditional's operands meet.
ghost use Rattle.std.specs.Prelude.{◌≡◌, ◌<◌, false, List, Some, length, map, IfOk, IfSome};
ghost use Rattle.vtl_values.specs.declared.structure.Component.{Component as Column};
ghost use Rattle.std.specs.Option.{option_copied, option_map_or};
ghost use Rattle.point_sets.specs.DataSets.{entry_of};
ghost use Rattle.scalar_eval.specs.Stops.{IsMeant};
ghost use Rattle.scalar_meaning.specs.Logic as logic;
ghost use Rattle.scalar_meaning.specs.Rows.{point_row};
ghost use Rattle.clause_eval.specs.Evaluations.{IsEvaluation};
ghost use Rattle.clause_meaning.specs.Clauses.{values_on};
ghost use Rattle.data_set_trees.specs.checked.Operators.{an_operator};
ghost use Rattle.operator_meaning.specs.choices.Choices as meant;
ghost use Rattle.operator_meaning.specs.choices.Typed.{IsTypedChoice};
ghost use Rattle.choice_ops.specs.Plans as plans;

use crate::components::{all_key_numbers, all_places, measure_number};
use crate::keys::key_at;
use crate::values::{ViralPlaces, measure_values, value_with, viral_values};
use clause_eval::Evaluation;
use data_set_trees::{Branch, ChoiceMeasure, DataSetNode, DataSetOperator, SharedOperator};
use point_sets::{Key, Point};
use scalar_eval::{EvalStop, Matchers, PointRow};
use sqlite_items::Items;
use std::alloc::{AllocError, Global};
use std::marker::Model;
use std::sync::Arc;
use structured_sets::copy_all;
use vtl_values::{Component, Structure, Value};

/// The numbers of the values of a key of the condition in a key of an operand, and the other way round.
#[derive(Debug, Drop)]
pub(crate) struct KeyNumbers {
    pub(crate) to_condition: Items<u64>,
    pub(crate) from_condition: Items<u64>,
}

/// How the points of data sets of given structures meet under a conditional, by numbers that depend on the structures
/// alone. Contracts see the operator with these structures, which is well typed.
#[derive(Drop)]
pub(crate) struct ChoicePlan {
    operator: SharedOperator,
    operands: Items<Structure>,
    structure: Structure,
    keys: Items<KeyNumbers>,
    test: Option<usize>,
    virals: Items<ViralPlaces>,
}

impl Model for ChoicePlan {
    ghost use Rattle.data_set_trees.specs.checked.Operators.{an_operator, operator_coded, Operator};
    ghost use Rattle.choice_ops.specs.Plans.{choice_in, IsPlan};

    ghost Value = { Operator };

    ghost coded = { operator_coded };

    ghost view = { λ p. an_operator p.operator p.operands p.structure };

    ghost invariant = { λ p. IsPlan (choice_in (an_operator p.operator p.operands p.structure)) p.keys p.test p.virals };
}

fn measures_of(operator: &DataSetOperator) -> &[ChoiceMeasure]
    ensures { result.now ≡ plans.measures_in operator.now }
{
    match operator {
        DataSetOperator::Choice { measures, .. } => measures.as_slice(),
        _ => &[],
    }
}

fn number_if(number: usize, branch: Branch) -> Option<usize>
    ensures { result ≡ meant.number_if number branch }
{
    match branch {
        Branch::DataSet => Some(number),
        Branch::Scalar => None,
    }
}

fn count_with(branch: Branch) -> usize
    ensures { result ≡ meant.count_with branch }
{
    match branch {
        Branch::DataSet => 2,
        Branch::Scalar => 1,
    }
}

fn holds_of(operator: &DataSetOperator) -> Branch
    ensures { result ≡ plans.holds_in operator.now }
{
    match operator {
        DataSetOperator::Choice { holds, .. } => *holds,
        _ => Branch::Scalar,
    }
}

fn fails_of(operator: &DataSetOperator) -> Branch
    ensures { result ≡ plans.fails_in operator.now }
{
    match operator {
        DataSetOperator::Choice { fails, .. } => *fails,
        _ => Branch::Scalar,
    }
}

/// The number of the operand that is chosen, if it is a data set.
fn chosen_number(operator: &DataSetOperator, truth: bool) -> Option<usize>
    ensures { (operands : List (List Column)) (structure : List Column) → result ≡ meant.chosen_number (plans.choice_in (an_operator operator.now operands structure)) truth }
{
    if truth {
        number_if(1, holds_of(operator))
    } else {
        number_if(count_with(holds_of(operator)), fails_of(operator))
    }
}

/// The components of the operand with this number; a scalar has none.
fn components_of(operands: &[Structure], number: Option<usize>) -> &[Component]
    ensures { result.now ≡ plans.structure_of operands.now number }
{
    match number {
        Some(number) => match operands.get(number) {
            Some(structure) => structure.components(),
            None => &[],
        },
        None => &[],
    }
}

/// Whether the condition has this value and is true: it is neither false nor null.
fn holds(value: Option<&Value>) -> bool
    ensures { result ≡ option_map_or logic.holds (option_copied value.entry) false }
{
    matches!(value, Some(Value::Truth(true)))
}

/// The values of measures in the point that is chosen.
fn measures_on<'a>(
    alloc: Global,
    measures: &'a [ChoiceMeasure],
    truth: bool,
    point: &Point,
    matchers: &mut Matchers<'a>,
) -> Result<Items<Value>, EvalStop>
    ensures { IsMeant (values_on (point_row point.now.key point.now.rest) (map (meant.value_in truth) measures.now)) result }
{
    let row = PointRow {
        key: point.key.values(),
        rest: point.rest.as_slice(),
    };
    measure_values(alloc, measures, truth, &row, matchers)
}

/// A point of this key and these values.
fn made(alloc: Global, key: &Key, rest: Items<Value>) -> Result<Evaluation, AllocError>
    ensures { IfOk result (IsEvaluation key.now false (Some rest)) }
{
    let point = Point {
        key: key.copy()?,
        rest,
    };
    Ok(Evaluation::Present(Arc::new(alloc, point)?))
}

impl ChoicePlan {
    /// The plan of a node's operator, which is a conditional.
    pub(crate) fn of(alloc: Global, node: &DataSetNode) -> Result<ChoicePlan, AllocError>
        requires { IsTypedChoice (plans.choice_in (an_operator node.now.operator node.now.operands node.now.structure)) }
        ensures { IfOk result (λ plan. plan ≡ an_operator node.now.operator node.now.operands node.now.structure) }
    {
        let (operator, operands) = (node.operator.get(), node.operands.as_slice());
        let first = components_of(operands, Some(0));
        let holds = components_of(operands, chosen_number(operator, true));
        let fails = components_of(operands, chosen_number(operator, false));
        let virals = all_places(alloc, first, holds, fails, node.structure.components())?;
        Ok(ChoicePlan {
            operator: node.operator.copy()?,
            operands: copy_all(alloc, operands)?,
            structure: node.structure.copy()?,
            keys: all_key_numbers(alloc, first, operands)?,
            test: measure_number(first),
            virals,
        })
    }

    /// The structure of the result.
    pub(crate) fn structure(&self) -> &Structure
        ensures { result.now ≡ self.now.structure }
    {
        &self.structure
    }

    /// The key of the condition, and so of the result, at a key of an operand. Where these are the same the key is shared.
    pub(crate) fn condition_key(
        &self,
        alloc: Global,
        number: usize,
        key: &Key,
    ) -> Result<Key, AllocError>
        requires { number < length self.now.operands }
        ensures { IfOk result (λ of_condition. of_condition ≡ meant.condition_key (plans.choice_in self.now) number key.now) }
    {
        let numbers = &self.keys.as_slice()[number];
        key_at(alloc, numbers.to_condition.as_slice(), key)
    }

    /// The key of an operand at a key of the condition. Where these are the same the key is shared.
    pub(crate) fn operand_key(
        &self,
        alloc: Global,
        number: usize,
        key: &Key,
    ) -> Result<Key, AllocError>
        requires { number < length self.now.operands }
        ensures { IfOk result (λ of_operand. of_operand ≡ meant.operand_key (plans.choice_in self.now) number key.now) }
    {
        let numbers = &self.keys.as_slice()[number];
        key_at(alloc, numbers.from_condition.as_slice(), key)
    }

    /// Whether the condition is true in a point.
    pub(crate) fn is_true_in(&self, point: &Arc<Point>) -> bool
        ensures { result ≡ meant.is_true_in (plans.choice_in self.now) (plans.all_of (entry_of point.now)) }
    {
        holds(value_with(point, self.test))
    }

    /// The number of the operand that is chosen, if it is a data set.
    pub(crate) fn chosen_number(&self, truth: bool) -> Option<usize>
        ensures number { result ≡ meant.chosen_number (plans.choice_in self.now) truth }
        ensures within { IfSome result (λ number. number < length self.now.operands) }
    {
        chosen_number(self.operator.get(), truth)
    }

    /// The values of the measures in the point that is chosen, or in a scalar.
    fn measures<'a>(
        &'a self,
        alloc: Global,
        truth: bool,
        chosen: Option<&Arc<Point>>,
        matchers: &mut Matchers<'a>,
    ) -> Result<Items<Value>, EvalStop>
        ensures { IsMeant (values_on (point_row (plans.chosen_entry (option_copied chosen.entry)).0 (plans.chosen_entry (option_copied chosen.entry)).1) (map (meant.value_in truth) (plans.choice_in self.now).measures)) result }
    {
        let measures = measures_of(self.operator.get());
        match chosen {
            Some(point) => measures_on(alloc, measures, truth, point, matchers),
            None => {
                let row = PointRow {
                    key: &[],
                    rest: &[],
                };
                measure_values(alloc, measures, truth, &row, matchers)
            }
        }
    }

    /// What the condition's point and that of the branch, if it is a data set, make at this key.
    pub(crate) fn evaluate<'a>(
        &'a self,
        alloc: Global,
        key: &Key,
        truth: bool,
        own: &Arc<Point>,
        chosen: Option<&Arc<Point>>,
        matchers: &mut Matchers<'a>,
    ) -> Result<Evaluation, AllocError>
        ensures { IfOk result (plans.IsMade (plans.choice_in self.now) truth key.now (plans.all_of (entry_of own.now)) (plans.chosen_entry (option_copied chosen.entry))) }
    {
        match self.measures(alloc, truth, chosen, matchers) {
            Ok(mut values) => {
                let virals = self.virals.as_slice();
                values.append(viral_values(alloc, virals, truth, own, chosen)?)?;
                made(alloc, key, values)
            }
            Err(EvalStop::Range) => Ok(Evaluation::OutOfRange),
            Err(EvalStop::Memory) => Err(AllocError),
        }
    }
}
