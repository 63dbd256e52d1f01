// Values of points.
ghost use Rattle.std.specs.Prelude.{◌≡◌, ◌<◌, ◌++◌, ◌∷◌, [], length, map, nat_eq, position, slice_get, IfOk, IfSome};
ghost use Rattle.std.specs.Option.{option_copied};
ghost use Rattle.std.specs.Cmp.Lexicographic.{pointwise};
ghost use Rattle.vtl_values.specs.declared.value.Value.TheVariants.{Text};
ghost use Rattle.viral_attributes.specs.Combination as combination;
ghost use Rattle.point_sets.specs.DataSets.{entry_of};
ghost use Rattle.scalar_eval.specs.Stops.{IsMeant};
ghost use Rattle.clause_meaning.specs.Clauses.{values_on};
ghost use Rattle.operator_meaning.specs.pairs.Pairs.{codes_of};
ghost use Rattle.operator_meaning.specs.choices.Choices.{value_in};
ghost use Rattle.choice_ops.specs.Plans as plans;

use data_set_trees::ChoiceMeasure;
use point_sets::Point;
use scalar_eval::{EvalStop, Matchers, Row, eval};
use scalar_trees::CheckedExpr;
use sqlite_items::Items;
use std::alloc::{AllocError, Global};
use std::sync::Arc;
use vtl_values::{Codes, Value, Word};

/// The codes of a viral attribute of a result, and the numbers of its values in the condition and in both branches, where
/// they have it.
#[derive(Debug, Drop)]
pub(crate) struct ViralPlaces {
    pub(crate) codes: Codes,
    pub(crate) own: Option<usize>,
    pub(crate) holds: Option<usize>,
    pub(crate) fails: Option<usize>,
}

/// The value of a point with this number.
fn value_of(point: &Point, number: usize) -> Option<&Value>
    ensures { option_copied result ≡ slice_get (point.now.key ++ point.now.rest) number }
{
    let key = point.key.values();
    match key.get(number) {
        Some(value) => Some(value),
        None => point.rest.get(number - key.len()),
    }
}

/// The value of a point with the number that there may be.
pub(crate) fn value_with(point: &Arc<Point>, place: Option<usize>) -> Option<&Value>
    ensures { option_copied result ≡ plans.value_with (plans.all_of (entry_of point.now)) place }
{
    match place {
        Some(number) => value_of(point, number),
        None => None,
    }
}

/// The same of the point that is chosen; a scalar has none.
fn chosen_value(point: Option<&Arc<Point>>, place: Option<usize>) -> Option<&Value>
    ensures { option_copied result ≡ plans.value_with (plans.all_of (plans.chosen_entry (option_copied point.entry))) place }
{
    match point {
        Some(point) => value_with(point, place),
        None => None,
    }
}

impl ViralPlaces {
    /// The number in the branch that is chosen.
    fn chosen(&self, truth: bool) -> Option<usize>
        ensures { result ≡ plans.chosen_place truth self.now }
    {
        if truth { self.holds } else { self.fails }
    }
}

/// The values of viral attributes with these places, of the condition's point and of that of the branch that is chosen.
pub(crate) fn viral_values(
    alloc: Global,
    attributes: &[ViralPlaces],
    truth: bool,
    own: &Arc<Point>,
    chosen: Option<&Arc<Point>>,
) -> Result<Items<Value>, AllocError>
    ensures { IfOk result (λ values. values ≡ map (plans.value_of_places truth (plans.all_of (entry_of own.now)) (plans.all_of (plans.chosen_entry (option_copied chosen.entry)))) attributes.now) }
{
    let mut values = Items::new(alloc);
    for places in attributes {
        values.push(value_of_places(places, truth, own, chosen)?)?;
    }
    Ok(values)
}

/// The combination of the values that both points have, or the one that there is.
fn value_of_places(
    places: &ViralPlaces,
    truth: bool,
    own: &Arc<Point>,
    chosen: Option<&Arc<Point>>,
) -> Result<Value, AllocError>
    ensures { IfOk result (λ value. value ≡ plans.value_of_places truth (plans.all_of (entry_of own.now)) (plans.all_of (plans.chosen_entry (option_copied chosen.entry))) places.now) }
{
    let first = value_with(own, places.own);
    let second = chosen_value(chosen, places.chosen(truth));
    match (first, second) {
        (Some(a), Some(b)) => combined(listed(&places.codes), a, b),
        (Some(value), None) | (None, Some(value)) => value.copy(),
        (None, None) => Ok(Value::Null),
    }
}

/// The codes of a code list, the lowest rank first.
fn listed(codes: &Codes) -> &[Word]
    ensures { result.now ≡ codes_of codes.now }
{
    match codes {
        Codes::Any => &[],
        Codes::Listed(codes) => codes.as_slice(),
    }
}

/// The one of the higher rank, or null where both are null or no codes.
fn combined(codes: &[Word], a: &Value, b: &Value) -> Result<Value, AllocError>
    ensures { IfOk result (λ value. value ≡ combination.combined codes.now (a.now ∷ b.now ∷ [])) }
{
    let (first, second) = (rank(codes, a), rank(codes, b));
    if first == 0 && second == 0 {
        return Ok(Value::Null);
    }
    if first < second { b.copy() } else { a.copy() }
}

/// The rank of a value: a code's place in the list, from 1 on; null and what is no code stand below all codes.
fn rank(codes: &[Word], value: &Value) -> usize
    ensures { result ≡ combination.rank codes.now value.now }
{
    match value {
        Value::Text(code) => rank_of(codes, code),
        _ => 0,
    }
}

fn rank_of(codes: &[Word], code: &Word) -> usize
    ensures { result ≡ combination.rank codes.now (Text code.now) }
{
    match place_of(codes, code) {
        Some(place) => place + 1,
        None => 0,
    }
}

fn place_of(codes: &[Word], code: &Word) -> Option<usize>
    ensures place { result ≡ position (λ listed. pointwise nat_eq listed code.now) codes.now }
    ensures within { IfSome result (λ place. place < length codes.now) }
{
    codes.iter().position(|listed| listed == code)
}

/// What a measure is in the branch that is chosen.
fn chosen_measure(truth: bool, measure: &ChoiceMeasure) -> &CheckedExpr
    ensures { result.now ≡ value_in truth measure.now }
{
    if truth {
        &measure.holds
    } else {
        &measure.fails
    }
}

/// The values of measures in the branch that is chosen.
pub(crate) fn measure_values<'a, R: Row>(
    alloc: Global,
    measures: &'a [ChoiceMeasure],
    truth: bool,
    row: &R,
    matchers: &mut Matchers<'a>,
) -> Result<Items<Value>, EvalStop>
    ensures { IsMeant (values_on (R.values row.now) (map (value_in truth) measures.now)) result }
{
    let mut values = Items::new(alloc);
    for measure in measures {
        values.push(eval(alloc, chosen_measure(truth, measure), row, matchers)?)?;
    }
    Ok(values)
}
