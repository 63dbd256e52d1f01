// Aggregates on a data set, and the clause `aggr`.
ghost use Rattle.std.specs.Prelude.{◌≡◌, Ok, IfOk, IfErr};
ghost use Rattle.vtl_values.specs.Structures.{IsStructure};
ghost use Rattle.scalar_trees.specs.typing.Steps.{Refuses};
ghost use Rattle.data_set_trees.specs.aggregates.Aggregates as meant;
ghost use Rattle.data_set_trees.specs.aggregates.Results.{grouped};
ghost use Rattle.aggregate_typing.specs.Parts.{Answers};

use crate::groups::{condition_checked, condition_on, grouping_numbers, names_in, scope_of_groups};
use crate::items::{items_checked, items_of, takes_all};
use crate::parts::{Parts, parts_typed};
use data_set_trees::aggregates::CheckedAggregate;
use scalar_trees::typing::TypeStop;
use sqlite_items::Boxed;
use std::alloc::Global;
use vtl_syntax::words::AggregateFunction;
use vtl_syntax::{Groups, Item};
use vtl_values::{Component, Place};

fn aggregate_checked(
    alloc: Global,
    function: AggregateFunction,
    place: Place,
    groups: &Option<Boxed<Groups>>,
    components: &[Component],
) -> Result<CheckedAggregate, TypeStop>
    ensures { Answers (meant.aggregate_checked function place groups.now components.now) result }
{
    let grouping = grouping_numbers(alloc, groups, components)?;
    let items = items_of(alloc, function, components)?;
    let having = condition_on(alloc, grouping.as_slice(), groups, components)?;
    let parts = Parts {
        grouping,
        items,
        having,
    };
    let fit = takes_all(function, components);
    parts_typed(alloc, place, names_in(groups), fit, parts, components)
}

/// `sum(ds group by .. having ..)` and its like, where the data set has these components: one item for each measure, or for
/// `count` the number of points as `int_var`. The first fault of the condition at its place, or else at the call's:
/// `UnknownComponent` where a name of the grouping is that of no component, else `WrongType` where a measure isn't of a
/// kind that the aggregate takes or the condition is no boolean, else `WrongRole` where a name is that of no identifier,
/// else `NameTwice` where two components of the result would have one name, else `TooManyComponents` where it would have
/// more than 64. Or want of memory. It costs the size of the condition and the number of names, times that of components.
pub fn aggregate_typed(
    alloc: Global,
    function: AggregateFunction,
    place: Place,
    groups: &Option<Boxed<Groups>>,
    components: &[Component],
) -> Result<CheckedAggregate, TypeStop>
    ensures ok { IfOk result (λ a. meant.aggregate_checked function place groups.now components.now ≡ Ok a) }
    ensures err { IfErr result (Refuses (meant.aggregate_checked function place groups.now components.now)) }
    ensures structure { IsStructure components.now → IfOk result (λ a. IsStructure (grouped a components.now)) }
{
    aggregate_checked(alloc, function, place, groups, components)
}

fn aggr_checked(
    alloc: Global,
    place: Place,
    items: &[Item],
    groups: &Option<Boxed<Groups>>,
    components: &[Component],
) -> Result<CheckedAggregate, TypeStop>
    ensures { Answers (meant.aggr_checked place items.now groups.now components.now) result }
{
    let grouping = grouping_numbers(alloc, groups, components)?;
    let scope = scope_of_groups(alloc, grouping.as_slice(), components)?;
    let items = items_checked(alloc, &scope, items)?;
    let having = condition_checked(alloc, &scope, groups)?;
    let parts = Parts {
        grouping,
        items,
        having,
    };
    parts_typed(alloc, place, names_in(groups), true, parts, components)
}

/// `aggr items group by .. having ..` on a data set of these components. The first fault of the items' expressions, in
/// order, or else of the condition, at its place; or else at the clause's word, as those of `aggregate_typed`, but for the
/// kinds of measures. Or want of memory. It costs the size of the expressions and the number of names, times that of
/// components.
pub fn aggr_typed(
    alloc: Global,
    place: Place,
    items: &[Item],
    groups: &Option<Boxed<Groups>>,
    components: &[Component],
) -> Result<CheckedAggregate, TypeStop>
    ensures ok { IfOk result (λ a. meant.aggr_checked place items.now groups.now components.now ≡ Ok a) }
    ensures err { IfErr result (Refuses (meant.aggr_checked place items.now groups.now components.now)) }
    ensures structure { IsStructure components.now → IfOk result (λ a. IsStructure (grouped a components.now)) }
{
    aggr_checked(alloc, place, items, groups, components)
}
