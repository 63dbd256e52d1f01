// What groups, items and a condition come to together.
ghost use Rattle.std.specs.Prelude.{◌≡◌};
ghost use Rattle.data_set_trees.specs.aggregates.Aggregates as aggregates;
ghost use Rattle.aggregate_typing.specs.Parts as meant;
ghost use Rattle.aggregate_typing.specs.Parts.{Answers};
ghost use Rattle.data_set_trees.specs.declared.clauses.frame.Frame.{Frame};

use crate::results::unordered;
use clause_typing::{bare_number_of, demands, frame_of};
use data_set_trees::aggregates::{AggregateItem, CheckedAggregate};
use data_set_trees::clauses::Frame;
use operator_typing::wanted;
use result_components::{are_known, has_room, is_identifier, names_differ};
use scalar_trees::CheckedExpr;
use scalar_trees::typing::{Fault, TypeStop, Typed};
use sqlite_items::Items;
use std::alloc::Global;
use vtl_values::{Component, Kind, Place, Word};

/// The identifiers by which groups are formed, what is worked out on a group, and the condition, not yet seen to be a
/// boolean.
#[derive(Drop)]
pub(crate) struct Parts {
    pub(crate) grouping: Items<u64>,
    pub(crate) items: Items<AggregateItem>,
    pub(crate) having: Option<Typed>,
}

/// Whether a name is that of an identifier.
fn is_identifier_called(frame: &Frame, name: &Word) -> bool
    ensures { result ≡ meant.is_identifier_called frame.now name.now }
{
    match bare_number_of(frame, name) {
        Some(number) => is_identifier(frame, number),
        None => false,
    }
}

/// Whether groups may be formed by what is called so.
fn may_group(frame: &Frame, names: &[Word]) -> bool
    ensures { result ≡ meant.may_group frame.now names.now }
{
    names.iter().all(|name| is_identifier_called(frame, name))
}

/// The condition, if there is one, which has to be a boolean.
fn condition_typed(
    alloc: Global,
    place: Place,
    having: Option<Typed>,
) -> Result<Option<CheckedExpr>, TypeStop>
    ensures { Answers (aggregates.condition_typed place having) result }
{
    match having {
        Some(condition) => Ok(Some(wanted(alloc, place, Kind::Truth, condition)?)),
        None => Ok(None),
    }
}

/// Aggregates that may be formed, if the components that they give may stand together.
fn joined(
    alloc: Global,
    place: Place,
    may: bool,
    aggregate: CheckedAggregate,
    components: &[Component],
) -> Result<CheckedAggregate, TypeStop>
    ensures { Answers (meant.joined_if place may aggregate components.now) result }
{
    let all = unordered(alloc, &aggregate, components)?;
    let differ = names_differ(alloc, all.as_slice())?;
    let room = has_room(all.as_slice());
    demands(
        place,
        &[
            (may, Fault::WrongRole),
            (differ, Fault::NameTwice),
            (room, Fault::TooManyComponents),
        ],
    )?;
    Ok(aggregate)
}

/// Aggregates of these parts, where the grouping has these names. `fit` is whether the aggregate takes the measures.
pub(crate) fn parts_typed(
    alloc: Global,
    place: Place,
    names: &[Word],
    fit: bool,
    parts: Parts,
    components: &[Component],
) -> Result<CheckedAggregate, TypeStop>
    ensures { Answers (meant.parts_typed place names.now fit parts components.now) result }
{
    let frame = frame_of(alloc, components)?;
    let known = are_known(&frame, names);
    let may = may_group(&frame, names);
    demands(
        place,
        &[(known, Fault::UnknownComponent), (fit, Fault::WrongType)],
    )?;
    let Parts {
        grouping,
        items,
        having,
    } = parts;
    let having = condition_typed(alloc, place, having)?;
    let aggregate = CheckedAggregate {
        grouping,
        items,
        having,
    };
    joined(alloc, place, may, aggregate, components)
}
