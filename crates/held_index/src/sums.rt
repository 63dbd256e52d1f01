// The sums that a walk keeps.
ghost use Rattle.std.specs.Prelude.{◌≡◌, ◌+◌, ◌^◌, ◌≤◌, IfOk, map};
ghost use Rattle.point_sets.specs.DataSets.{entry_of};
ghost use Rattle.held_index.specs.Walks.{component_of, point_values};
ghost use Rattle.held_index.specs.Sums.{sum_of_value, own_sums, add_sums, join_sums, FitsPoints, FitAll};

use crate::place::component_of;
use crate::want::SumOf;
use ordered_tree::{Measure, Reading};
use point_sets::Point;
use std::alloc::{AllocError, Global};
use std::marker::Model;
use vtl_values::Value;

/// A sum for each component that is summed; none where nothing is summed.
#[derive(Drop)]
pub(crate) struct Sums {
    all: Vec<SumOf>,
}

impl Model for Sums {
    ghost use Rattle.std.specs.Prelude.{List};
    ghost use Rattle.held_index.specs.declared.want.SumOf.{SumOf as One};

    ghost Value = { List One };

    ghost view = { λ sums. sums.all.items };
}

/// What a value adds: a number in millionths, and nothing where it is null.
fn sum_of_value(value: &Value) -> SumOf
    ensures is { result ≡ sum_of_value value.now }
    ensures fits { FitsPoints 1 result }
{
    match value {
        Value::Integer(integer) => SumOf {
            sum: integer.value as i128 * 1_000_000,
            found: 1,
        },
        Value::Number(number) => SumOf {
            sum: number.millionths,
            found: 1,
        },
        Value::Null | Value::Truth(_) | Value::Text(_) => SumOf { sum: 0, found: 0 },
    }
}

/// What a component of a point adds.
fn sum_of_component(point: &Point, component: u64) -> SumOf
    ensures is { result ≡ sum_of_value (component_of component (point_values point.now)) }
    ensures fits { FitsPoints 1 result }
{
    let null = Value::Null;
    sum_of_value(component_of(point, component).unwrap_or(&null))
}

impl Sums {
    /// What a point adds to the sums of these components.
    pub(crate) fn of_point(
        alloc: Global,
        point: &Point,
        components: &[u64],
    ) -> Result<Sums, AllocError>
        ensures are { IfOk result (λ sums. sums ≡ own_sums components.now (point_values point.now)) }
        ensures fit { IfOk result (λ sums. FitAll 1 sums) }
    {
        let mut all = Vec::new(alloc);
        for component in components {
            all.push(sum_of_component(point, *component))?;
        }
        Ok(Sums { all })
    }
}

/// The sum of two, each over so many points.
fn added(one: &SumOf, n: u64, other: &SumOf, m: u64) -> SumOf
    requires one { FitsPoints n one.now }
    requires other { FitsPoints m other.now }
    requires few { n + m ≤ 2 ^ 33 }
    ensures { result ≡ add_sums one.now other.now }
{
    SumOf {
        sum: one.sum + other.sum,
        found: one.found + other.found,
    }
}

/// The sums of two lists, place by place.
fn joined(
    alloc: Global,
    one: &[SumOf],
    n: u64,
    other: &[SumOf],
    m: u64,
) -> Result<Vec<SumOf>, AllocError>
    requires one { FitAll n one.now }
    requires other { FitAll m other.now }
    requires few { n + m ≤ 2 ^ 33 }
    ensures { IfOk result (λ all. all.items ≡ join_sums one.now other.now) }
{
    let mut all = Vec::new(alloc);
    let both = one.len().min(other.len());
    for i in 0..both {
        all.push(added(&one[i], n, &other[i], m))?;
    }
    all.extend_from_slice(&one[both..])?;
    all.extend_from_slice(&other[both..])?;
    Ok(all)
}

impl Measure for Sums {
    ghost use Rattle.std.specs.Prelude.{[]};
    ghost use Rattle.held_index.specs.Sums.{join_sums, FitAll};
    ghost use Rattle.held_index.specs.SumLaws.{join_sums-monoid, join_sums-fit};

    ghost nothing = { [] };

    ghost join = { join_sums };

    ghost fits = { FitAll };

    fn none(alloc: Global) -> Sums {
        Sums {
            all: Vec::new(alloc),
        }
    }

    fn around(
        alloc: Global,
        left: &Sums,
        before: u64,
        item: &Sums,
        right: &Sums,
        after: u64,
    ) -> Result<Sums, AllocError> {
        let rest = joined(alloc, &item.all, 1, &right.all, after)?;
        Ok(Sums {
            all: joined(alloc, &left.all, before, &rest, 1 + after)?,
        })
    }

    ghost monoid = { join_sums-monoid };

    ghost fitting = { join_sums-fit };
}

/// One of the sums that are kept.
#[derive(Drop)]
pub(crate) struct Which {
    pub(crate) which: u64,
}

impl Reading<Sums, SumOf> for Which {
    ghost use Rattle.held_index.specs.Sums.{sum_at, add_sums};
    ghost use Rattle.held_index.specs.SumLaws.{sum_at-join_sums};

    ghost of = { λ reading sums. sum_at reading.which sums };

    ghost join = { add_sums };

    fn none(&self) -> SumOf {
        SumOf { sum: 0, found: 0 }
    }

    fn read(&self, sums: &Sums) -> SumOf {
        match sums.all.get(self.which as usize) {
            None => self.none(),
            Some(sum) => *sum,
        }
    }

    fn around(&self, left: SumOf, before: u64, item: SumOf, right: SumOf, after: u64) -> SumOf {
        let rest = added(&item, 1, &right, after);
        added(&left, before, &rest, 1 + after)
    }

    ghost joined = { λ reading. sum_at-join_sums reading.which };
}
