// Values of viral attributes.
ghost use Rattle.std.specs.Prelude.{◌≡◌, ◌<◌, ◌++◌, length, map, nat_eq, position, slice_get, unwrap_or, IfOk, IfSome, OnOk};
ghost use Rattle.std.specs.Option.{option_copied, option_map_or};
ghost use Rattle.std.specs.Cmp.Lexicographic.{pointwise};
ghost use Rattle.vtl_values.specs.declared.value.Value.TheVariants.{Null, Text};
ghost use Rattle.point_sets.specs.Changes.{values_of};
ghost use Rattle.structured_sets.specs.Fitting as fitting;
ghost use Rattle.viral_attributes.specs.Combination as combination;
ghost use Rattle.operator_meaning.specs.pairs.Pairs.{codes_of};
ghost use Rattle.join_eval.specs.Plans as plans;
ghost use Rattle.join_eval.specs.Made as made;

use crate::components::{gathered_of, others, viral_called};
use point_sets::Point;
use sqlite_items::Items;
use std::alloc::{AllocError, Global};
use std::sync::Arc;
use vtl_values::{Codes, Component, Role, Structure, Value, Word};

/// The codes of a viral attribute of a join, and the number of its value in a point of each operand, if it has it.
#[derive(Drop)]
pub(crate) struct ViralPlaces {
    pub(crate) codes: Codes,
    pub(crate) places: Items<Option<u64>>,
}

/// The components of each operand that are no identifiers.
fn all_others(alloc: Global, operands: &[Structure]) -> Result<Items<Items<Component>>, AllocError>
    ensures { IfOk result (λ all. all ≡ map fitting.others operands.now) }
{
    let mut all = Items::new(alloc);
    for operand in operands {
        all.push(others(alloc, operand.components())?)?;
    }
    Ok(all)
}

fn places_of(
    alloc: Global,
    rests: &[Items<Component>],
    component: &Component,
) -> Result<ViralPlaces, AllocError>
    ensures { IfOk result (λ places. places ≡ plans.viral_places_of rests.now component.now) }
{
    let mut places = Items::new(alloc);
    for rest in rests {
        places.push(viral_called(&component.name, rest.as_slice()))?;
    }
    Ok(ViralPlaces {
        codes: component.codes.copy()?,
        places,
    })
}

/// The places of the viral attributes of a join.
pub(crate) fn all_viral_places(
    alloc: Global,
    operands: &[Structure],
) -> Result<Items<ViralPlaces>, AllocError>
    ensures { IfOk result (λ all. all ≡ plans.viral_places operands.now) }
{
    let rests = all_others(alloc, operands)?;
    let attributes = gathered_of(alloc, Role::Viral, operands)?;
    let mut all = Items::new(alloc);
    for component in attributes.as_slice() {
        all.push(places_of(alloc, rests.as_slice(), component)?)?;
    }
    Ok(all)
}

fn value_at(values: &[Value], number: u64) -> Option<&Value>
    ensures { option_copied result ≡ slice_get values.now number }
{
    values.get(number as usize)
}

/// The value at a place that may be there, of a point that may be there.
fn value_there(place: Option<u64>, point: &Option<Arc<Point>>) -> Option<&Value>
    ensures { option_copied result ≡ made.value_there place (values_of point.now) }
{
    match (place, point) {
        (Some(number), Some(point)) => value_at(point.rest.as_slice(), number),
        _ => None,
    }
}

/// The codes of a code list, the lowest rank first.
fn listed(codes: &Codes) -> &[Word]
    ensures { result.now ≡ codes_of codes.now }
{
    match codes {
        Codes::Any => &[],
        Codes::Listed(codes) => codes.as_slice(),
    }
}

fn place_of(codes: &[Word], code: &Word) -> Option<usize>
    ensures place { result ≡ position (λ listed. pointwise nat_eq listed code.now) codes.now }
    ensures within { IfSome result (λ place. place < length codes.now) }
{
    codes.iter().position(|listed| listed == code)
}

fn rank_of(codes: &[Word], code: &Word) -> usize
    ensures { result ≡ combination.rank codes.now (Text code.now) }
{
    match place_of(codes, code) {
        Some(place) => place + 1,
        None => 0,
    }
}

/// The rank of a value that may be there: a code's place in the list, from 1 on, and 0 for null and for what is no code.
fn rank(codes: &[Word], value: Option<&Value>) -> usize
    ensures { result ≡ combination.rank codes.now (unwrap_or (option_copied value.entry) Null) }
{
    match value {
        Some(Value::Text(code)) => rank_of(codes, code),
        _ => 0,
    }
}

/// The value of the higher rank, the first where they have equal ranks. One that isn't there counts as null.
fn higher<'a>(codes: &[Word], a: Option<&'a Value>, b: Option<&'a Value>) -> Option<&'a Value>
    ensures { unwrap_or (option_copied result) Null ≡ made.higher codes.now (unwrap_or (option_copied a.entry) Null) (unwrap_or (option_copied b.entry) Null) }
{
    if rank(codes, a) < rank(codes, b) {
        b
    } else {
        a
    }
}

/// What the values of a viral attribute combine to that are there.
fn combined(attribute: &ViralPlaces, points: &[Option<Arc<Point>>]) -> Result<Value, AllocError>
    requires { length points.now ≡ length attribute.now.places }
    ensures { IfOk result (λ value. value ≡ made.combined_value (map values_of points.now) attribute.now) }
{
    let codes = listed(&attribute.codes);
    let mut best = None;
    for (i, place) in attribute.places.as_slice().iter().enumerate() {
        best = higher(codes, best, value_there(*place, &points[i]));
    }
    match best {
        Some(value) => value.copy(),
        None => Ok(Value::Null),
    }
}

/// Puts the values of the viral attributes last.
pub(crate) fn push_virals(
    values: &mut Items<Value>,
    attributes: &[ViralPlaces],
    points: &[Option<Arc<Point>>],
) -> Result<(), AllocError>
    requires { made.AreAsMany (length points.now) attributes.now }
    ensures { OnOk result (values.new ≡ values.old ++ map (made.combined_value (map values_of points.now)) attributes.now) }
{
    for attribute in attributes {
        values.push(combined(attribute, points)?)?;
    }
    Ok(())
}
