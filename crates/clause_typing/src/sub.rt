// `sub`.
ghost use Rattle.std.specs.Prelude.{◌≡◌, true, Ok, IfOk, IfErr};
ghost use Rattle.vtl_values.specs.declared.kind.Role.TheVariants.{Identifier};
ghost use Rattle.scalar_trees.specs.typing.Steps.{Refuses};
ghost use Rattle.data_set_trees.specs.clauses.Frames as frames;
ghost use Rattle.data_set_trees.specs.clauses.Clauses as meant;
ghost use Rattle.data_set_trees.specs.clauses.WellTyped.{is_well_typed};

use crate::demanded::demands;
use crate::names::bare_number_of;
use crate::numbers::has_role;
use data_set_trees::clauses::{CheckedClause, CheckedSubItem, Frame};
use scalar_trees::typing::{Fault, TypeStop};
use scalar_trees::{agreed, any_kind, is_present, literal_kind};
use sqlite_items::Items;
use std::alloc::{AllocError, Global};
use vtl_syntax::expr::SubItem;
use vtl_values::{Component, Place, Role, Value};

fn are_known(frame: &Frame, items: &[SubItem]) -> bool
    ensures { result ≡ meant.are_known_items frame.now items.now }
{
    items
        .iter()
        .all(|item| bare_number_of(frame, &item.name).is_some())
}

fn checked(frame: &Frame, item: &SubItem) -> Result<Option<CheckedSubItem>, AllocError>
    ensures { IfOk result (λ checked. checked ≡ meant.sub_checked frame.now item.now) }
{
    match bare_number_of(frame, &item.name) {
        Some(component) => Ok(Some(CheckedSubItem {
            component,
            value: item.value.copy()?,
        })),
        None => Ok(None),
    }
}

fn all_checked(
    alloc: Global,
    frame: &Frame,
    items: &[SubItem],
) -> Result<Items<CheckedSubItem>, AllocError>
    ensures { IfOk result (λ checked. checked ≡ meant.subs_checked frame.now items.now) }
{
    let mut all = Items::new(alloc);
    for item in items {
        if let Some(item) = checked(frame, item)? {
            all.push(item)?;
        }
    }
    Ok(all)
}

/// Whether a value can be compared with those of the component.
fn is_comparable(value: &Value, component: &Component) -> bool
    ensures { result ≡ meant.is_comparable value.now component.now }
{
    agreed(any_kind(), &[Some(component.kind), literal_kind(value)]).is_some()
}

fn is_compared(frame: &Frame, item: &CheckedSubItem) -> bool
    ensures { result ≡ meant.passes_at (meant.is_comparable item.now.value) frame.now item.now.component }
{
    match frame.components.get(item.component as usize) {
        Some(component) => is_comparable(&item.value, component),
        None => false,
    }
}

fn are_comparable(frame: &Frame, items: &[CheckedSubItem]) -> bool
    ensures { result ≡ meant.are_comparable frame.now items.now }
{
    items.iter().all(|item| is_compared(frame, item))
}

fn is_identifier(frame: &Frame, item: &CheckedSubItem) -> bool
    ensures { result ≡ meant.passes_at (frames.has_role Identifier) frame.now item.now.component }
{
    match frame.components.get(item.component as usize) {
        Some(component) => has_role(Role::Identifier, component),
        None => false,
    }
}

fn are_identifiers(frame: &Frame, items: &[CheckedSubItem]) -> bool
    ensures { result ≡ meant.are_identifiers frame.now items.now }
{
    items.iter().all(|item| is_identifier(frame, item))
}

fn are_present(items: &[CheckedSubItem]) -> bool
    ensures { result ≡ meant.are_present items.now }
{
    items.iter().all(|item| is_present(&item.value))
}

/// `sub names and values`; `UnknownComponent` where a name is that of no component, else `WrongType` where a value can't
/// be compared with those of its component, else `WrongRole` where one is no identifier, else `BadConstant` where a value
/// is null, or want of memory. Integers and numbers can be compared with each other, and an identifier may stand twice. It
/// costs the number of items times that of the frame's names.
pub fn sub_typed(
    alloc: Global,
    place: Place,
    items: &[SubItem],
    frame: &Frame,
) -> Result<CheckedClause, TypeStop>
    ensures ok { IfOk result (λ clause. meant.sub_typed place items.now frame.now ≡ Ok clause) }
    ensures err { IfErr result (Refuses (meant.sub_typed place items.now frame.now)) }
    ensures typed { IfOk result (λ clause. is_well_typed frame.now clause ≡ true) }
{
    let checked = all_checked(alloc, frame, items)?;
    let known = are_known(frame, items);
    let found = checked.as_slice();
    let alike = are_comparable(frame, found);
    let fit = are_identifiers(frame, found);
    let present = are_present(found);
    demands(
        place,
        &[
            (known, Fault::UnknownComponent),
            (alike, Fault::WrongType),
            (fit, Fault::WrongRole),
            (present, Fault::BadConstant),
        ],
    )?;
    Ok(CheckedClause::Sub { items: checked })
}
