// `keep` and `drop`.
ghost use Rattle.std.specs.Prelude.{◌≡◌, not, true, Ok, IfOk, IfErr};
ghost use Rattle.vtl_values.specs.declared.kind.Role.TheVariants.{Identifier};
ghost use Rattle.scalar_trees.specs.typing.Steps.{Refuses};
ghost use Rattle.data_set_trees.specs.clauses.Frames.{has_role};
ghost use Rattle.data_set_trees.specs.clauses.After as after;
ghost use Rattle.data_set_trees.specs.clauses.Clauses as meant;
ghost use Rattle.data_set_trees.specs.clauses.WellTyped.{is_well_typed};

use crate::demanded::demands;
use crate::names::{are_known, numbers_named};
use crate::numbers::{always_stays, has_role};
use data_set_trees::clauses::{CheckedClause, Frame};
use scalar_trees::typing::{Fault, TypeStop};
use std::alloc::Global;
use vtl_syntax::expr::Comp;
use vtl_values::{Place, Role};

/// Whether the component with this number may go, where `keep` doesn't name it.
pub(crate) fn may_go(frame: &Frame, number: u64) -> bool
    ensures { result ≡ meant.passes_at (λ c. not (after.always_stays c)) frame.now number }
{
    match frame.components.get(number as usize) {
        Some(component) => !always_stays(component),
        None => false,
    }
}

fn may_keep(frame: &Frame, numbers: &[u64]) -> bool
    ensures { result ≡ meant.may_keep frame.now numbers.now }
{
    numbers.iter().all(|number| may_go(frame, *number))
}

/// `keep names`; `UnknownComponent` where a name is that of no component, else `WrongRole` where one is that of an
/// identifier or a viral attribute, or want of memory. A name that stands twice counts once. It costs the number of names
/// here times that in the frame.
pub fn keep_typed(
    alloc: Global,
    place: Place,
    names: &[Comp],
    frame: &Frame,
) -> Result<CheckedClause, TypeStop>
    ensures ok { IfOk result (λ clause. meant.keep_typed place names.now frame.now ≡ Ok clause) }
    ensures err { IfErr result (Refuses (meant.keep_typed place names.now frame.now)) }
    ensures typed { IfOk result (λ clause. is_well_typed frame.now clause ≡ true) }
{
    let components = numbers_named(alloc, frame, names)?;
    let known = are_known(frame, names);
    let fit = may_keep(frame, components.as_slice());
    demands(
        place,
        &[(known, Fault::UnknownComponent), (fit, Fault::WrongRole)],
    )?;
    Ok(CheckedClause::Keep { components })
}

/// Whether the component with this number is no identifier.
fn may_drop_at(frame: &Frame, number: u64) -> bool
    ensures { result ≡ meant.passes_at (λ c. not (has_role Identifier c)) frame.now number }
{
    match frame.components.get(number as usize) {
        Some(component) => !has_role(Role::Identifier, component),
        None => false,
    }
}

fn may_drop(frame: &Frame, numbers: &[u64]) -> bool
    ensures { result ≡ meant.may_drop frame.now numbers.now }
{
    numbers.iter().all(|number| may_drop_at(frame, *number))
}

/// `drop names`; `UnknownComponent` where a name is that of no component, else `WrongRole` where one is that of an
/// identifier, or want of memory. A name that stands twice counts once. It costs the number of names here times that in
/// the frame.
pub fn drop_typed(
    alloc: Global,
    place: Place,
    names: &[Comp],
    frame: &Frame,
) -> Result<CheckedClause, TypeStop>
    ensures ok { IfOk result (λ clause. meant.drop_typed place names.now frame.now ≡ Ok clause) }
    ensures err { IfErr result (Refuses (meant.drop_typed place names.now frame.now)) }
    ensures typed { IfOk result (λ clause. is_well_typed frame.now clause ≡ true) }
{
    let components = numbers_named(alloc, frame, names)?;
    let known = are_known(frame, names);
    let fit = may_drop(frame, components.as_slice());
    demands(
        place,
        &[(known, Fault::UnknownComponent), (fit, Fault::WrongRole)],
    )?;
    Ok(CheckedClause::Drop { components })
}
