// Places in a walk.
ghost use Rattle.std.specs.Prelude.{◌≡◌, length, unwrap_or};
ghost use Rattle.std.specs.Option.{option_copied};
ghost use Rattle.vtl_values.specs.Order.{key_cmp, value_cmp};
ghost use Rattle.vtl_values.specs.declared.value.Value.TheVariants.{Null};
ghost use Rattle.held_index.specs.Walks.{component_of, part_key, item_cmp, order_cmp, walk_cmp, place_cmp, point_values};

use crate::want::{OrderItem, Want};
use point_sets::{Key, Point};
use std::cmp::Ordering;
use vtl_values::Value;

/// The value of a component, by its number; where there is none, it counts as null.
pub(crate) fn component_of(point: &Point, component: u64) -> Option<&Value>
    ensures { unwrap_or (option_copied result) Null ≡ component_of component (point_values point.now) }
{
    let key = point.key.values();
    let place = component as usize;
    if place < key.len() {
        sqlite_items::at(key, place)
    } else {
        sqlite_items::at(point.rest.as_slice(), place - key.len())
    }
}

/// The order of two points by one component, up.
fn compare_component(component: u64, one: &Point, other: &Point) -> Ordering
    ensures { result ≡ value_cmp (component_of component (point_values one.now)) (component_of component (point_values other.now)) }
{
    let null = Value::Null;
    let one = component_of(one, component).unwrap_or(&null);
    let other = component_of(other, component).unwrap_or(&null);
    one.order(other)
}

fn compare_item(item: &OrderItem, one: &Point, other: &Point) -> Ordering
    ensures { result ≡ item_cmp item.now (point_values one.now) (point_values other.now) }
{
    if item.descending {
        compare_component(item.component, other, one)
    } else {
        compare_component(item.component, one, other)
    }
}

fn compare_order(order: &[OrderItem], one: &Point, other: &Point) -> Ordering
    ensures { result ≡ order_cmp order.now (point_values one.now) (point_values other.now) }
{
    for item in order {
        let by_item = compare_item(item, one, other);
        if by_item.is_ne() {
            return by_item;
        }
    }
    Ordering::Equal
}

/// The order of the parts of two points.
fn compare_parts(components: &[u64], one: &Point, other: &Point) -> Ordering
    ensures { result ≡ key_cmp (part_key components.now (point_values one.now)) (part_key components.now (point_values other.now)) }
{
    for component in components {
        let by_component = compare_component(*component, one, other);
        if by_component.is_ne() {
            return by_component;
        }
    }
    Ordering::Equal
}

/// The order of a component's value and another value.
fn compare_value(point: &Point, component: u64, value: &Value) -> Ordering
    ensures { result ≡ value_cmp (component_of component (point_values point.now)) value.now }
{
    let null = Value::Null;
    component_of(point, component).unwrap_or(&null).order(value)
}

/// The order of the part of a point and another part.
fn compare_with_part(components: &[u64], point: &Point, part: &[Value]) -> Ordering
    ensures { result ≡ key_cmp (part_key components.now (point_values point.now)) part.now }
{
    let mut rest = part;
    for component in components {
        let Some((value, later)) = rest.split_first() else {
            return Ordering::Greater;
        };
        let by_component = compare_value(point, *component, value);
        if by_component.is_ne() {
            return by_component;
        }
        rest = later;
    }
    if rest.is_empty() {
        Ordering::Equal
    } else {
        Ordering::Less
    }
}

/// The order in which two points are walked.
pub(crate) fn compare_points(want: &Want, one: &Point, other: &Point) -> Ordering
    ensures { result ≡ walk_cmp want.now (point_values one.now) (point_values other.now) }
{
    let by_part = compare_parts(want.part.as_slice(), one, other);
    if by_part.is_ne() {
        return by_part;
    }
    let by_order = compare_order(want.order.as_slice(), one, other);
    if by_order.is_ne() {
        return by_order;
    }
    one.key.cmp(&other.key)
}

/// A place in a walk: that of a part, of the part that a point has, or of a point, whether or not it is held.
#[derive(Drop)]
pub(crate) enum Place<'a> {
    Part(&'a Key),
    PartOf(&'a Point),
    At(&'a Point),
}

impl<'a> Place<'a> {
    ghost use Rattle.held_index.specs.Places.{from_place};

    /// On which side of the place a point is.
    pub(crate) fn compare(&self, want: &Want, point: &Point) -> Ordering
        ensures { result ≡ from_place want.now self.now (point_values point.now) }
    {
        let components = want.part.as_slice();
        match self {
            Place::Part(part) => compare_with_part(components, point, part.values()),
            Place::PartOf(at) => compare_parts(components, point, at),
            Place::At(at) => compare_points(want, point, at),
        }
    }
}
