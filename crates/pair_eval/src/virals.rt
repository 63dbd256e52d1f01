// Values of viral attributes.
ghost use Rattle.std.specs.Prelude.{◌≡◌, ◌<◌, ◌++◌, ◌∷◌, [], length, map, nat_eq, position, IfOk, IfSome, OnOk};
ghost use Rattle.std.specs.Option.{option_copied};
ghost use Rattle.std.specs.Cmp.Lexicographic.{pointwise};
ghost use Rattle.vtl_values.specs.declared.value.Value.TheVariants.{Text};
ghost use Rattle.viral_attributes.specs.Combination as combination;
ghost use Rattle.operator_meaning.specs.pairs.Pairs.{codes_of};
ghost use Rattle.pair_eval.specs.Plans as plans;

use crate::row::value_of;
use point_sets::Point;
use sqlite_items::Items;
use std::alloc::AllocError;
use vtl_values::{Codes, Value, Word};

/// The codes of a viral attribute of a result, and the numbers of its values in both points, if they have it.
#[derive(Drop)]
pub(crate) struct ViralPlaces {
    pub(crate) codes: Codes,
    pub(crate) left: Option<u64>,
    pub(crate) right: Option<u64>,
}

/// Puts the values of viral attributes with these places, on two points, last.
pub(crate) fn push_virals(
    values: &mut Items<Value>,
    attributes: &[ViralPlaces],
    left: &Point,
    right: &Point,
) -> Result<(), AllocError>
    ensures { OnOk result (values.new ≡ values.old ++ map (plans.value_of_places (left.now.key ++ left.now.rest) (right.now.key ++ right.now.rest)) attributes.now) }
{
    for places in attributes {
        values.push(value_of_places(places, left, right)?)?;
    }
    Ok(())
}

/// The combination of the values that both points have, or the one that there is.
fn value_of_places(places: &ViralPlaces, left: &Point, right: &Point) -> Result<Value, AllocError>
    ensures { IfOk result (λ value. value ≡ plans.value_of_places (left.now.key ++ left.now.rest) (right.now.key ++ right.now.rest) places.now) }
{
    match (value_in(left, places.left), value_in(right, places.right)) {
        (Some(a), Some(b)) => combined(listed(&places.codes), a, b),
        (Some(value), None) | (None, Some(value)) => value.copy(),
        (None, None) => Ok(Value::Null),
    }
}

fn value_in(point: &Point, place: Option<u64>) -> Option<&Value>
    ensures { option_copied result ≡ plans.value_in (point.now.key ++ point.now.rest) place }
{
    match place {
        Some(number) => value_of(point, number),
        None => None,
    }
}

/// The codes of a code list, the lowest rank first.
fn listed(codes: &Codes) -> &[Word]
    ensures { result.now ≡ codes_of codes.now }
{
    match codes {
        Codes::Any => &[],
        Codes::Listed(codes) => codes.as_slice(),
    }
}

/// The value of the higher rank, the first where they have equal ranks, or null where neither is a code.
fn combined(codes: &[Word], a: &Value, b: &Value) -> Result<Value, AllocError>
    ensures { IfOk result (λ value. value ≡ combination.combined codes.now (a.now ∷ b.now ∷ [])) }
{
    let (first, second) = (rank(codes, a), rank(codes, b));
    if first == 0 && second == 0 {
        return Ok(Value::Null);
    }
    if first < second { b.copy() } else { a.copy() }
}

/// The rank of a value: a code's place in the list, from 1 on, and 0 for null and for what is no code.
fn rank(codes: &[Word], value: &Value) -> usize
    ensures { result ≡ combination.rank codes.now value.now }
{
    match value {
        Value::Text(code) => rank_of(codes, code),
        _ => 0,
    }
}

fn rank_of(codes: &[Word], code: &Word) -> usize
    ensures { result ≡ combination.rank codes.now (Text code.now) }
{
    match place_of(codes, code) {
        Some(place) => place + 1,
        None => 0,
    }
}

fn place_of(codes: &[Word], code: &Word) -> Option<usize>
    ensures place { result ≡ position (λ listed. pointwise nat_eq listed code.now) codes.now }
    ensures within { IfSome result (λ place. place < length codes.now) }
{
    codes.iter().position(|listed| listed == code)
}
