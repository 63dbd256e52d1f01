// `unpivot`.
ghost use Rattle.std.specs.Prelude.{◌≡◌, true, Ok, IfOk, IfErr};
ghost use Rattle.scalar_trees.specs.WellTyped as kinds;
ghost use Rattle.scalar_trees.specs.typing.Steps.{Refuses};
ghost use Rattle.data_set_trees.specs.clauses.Clauses as meant;
ghost use Rattle.data_set_trees.specs.clauses.WellTyped.{is_well_typed};

use crate::after::{measure_kind, unpivoted};
use crate::demanded::{demands, has_room};
use crate::differ::names_differ;
use crate::numbers::has_role;
use data_set_trees::clauses::{CheckedClause, Frame};
use scalar_trees::typing::{Fault, TypeStop};
use std::alloc::Global;
use vtl_values::{Component, Kind, Place, Role, Word};

fn is_kind(kind: Kind, other: Kind) -> bool
    ensures { result ≡ kinds.is_kind kind other }
{
    kind == other
}

fn is_of_measure_kind(kind: Kind, component: &Component) -> bool
    ensures { result ≡ meant.is_of_measure_kind kind component.now }
{
    !has_role(Role::Measure, component) || is_kind(component.kind, kind)
}

/// Whether the measures are of one kind.
fn are_alike(components: &[Component]) -> bool
    ensures { result ≡ meant.are_alike components.now }
{
    let kind = measure_kind(components);
    components
        .iter()
        .all(|component| is_of_measure_kind(kind, component))
}

fn has_measure(components: &[Component]) -> bool
    ensures { result ≡ meant.has_measure components.now }
{
    components
        .iter()
        .any(|component| has_role(Role::Measure, component))
}

/// `unpivot identifier, measure`; `WrongType` where the measures are of several kinds, integer and number too, else
/// `WrongStructure` where there is none, else `NameTwice` where a name is the other one or that of a component that stays,
/// else `TooManyComponents` where the result would have more than 64, or want of memory. It costs the number of the
/// frame's components and names.
pub fn unpivot_typed(
    alloc: Global,
    place: Place,
    identifier: &Word,
    measure: &Word,
    frame: &Frame,
) -> Result<CheckedClause, TypeStop>
    ensures ok { IfOk result (λ clause. meant.unpivot_typed place identifier.now measure.now frame.now ≡ Ok clause) }
    ensures err { IfErr result (Refuses (meant.unpivot_typed place identifier.now measure.now frame.now)) }
    ensures typed { IfOk result (λ clause. is_well_typed frame.now clause ≡ true) }
{
    let after = unpivoted(alloc, identifier, measure, frame)?;
    let alike = are_alike(frame.components.as_slice());
    let some = has_measure(frame.components.as_slice());
    let once = names_differ(alloc, &after)?;
    let room = has_room(&after);
    demands(
        place,
        &[
            (alike, Fault::WrongType),
            (some, Fault::WrongStructure),
            (once, Fault::NameTwice),
            (room, Fault::TooManyComponents),
        ],
    )?;
    Ok(CheckedClause::Unpivot {
        identifier: identifier.copy()?,
        measure: measure.copy()?,
    })
}
