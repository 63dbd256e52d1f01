// `calc`.
ghost use Rattle.std.specs.Prelude.{◌≡◌, true, count_by, Ok, All, IfOk, IfErr};
ghost use Rattle.scalar_trees.specs.typing.Sound.{IsTyped};
ghost use Rattle.scalar_trees.specs.typing.Steps.{Refuses};
ghost use Rattle.data_set_trees.specs.clauses.After.{calculated};
ghost use Rattle.data_set_trees.specs.clauses.Clauses as meant;
ghost use Rattle.data_set_trees.specs.clauses.WellTyped.{is_of, is_well_typed, kinds_on};
ghost use Rattle.clause_typing.specs.Rooms as own;

use crate::choices::may_go;
use crate::demanded::{MOST_COMPONENTS, demands};
use crate::differ::targets_differ;
use crate::names::bare_number_of;
use data_set_trees::clauses::{CheckedClause, CheckedItem, Frame, Target};
use scalar_trees::typing::{Fault, TypeStop, Typed};
use sqlite_items::Items;
use std::alloc::{AllocError, Global};
use vtl_syntax::words::ItemRole;
use vtl_values::{Kind, Place, Role, Word};

/// What an item is put into: the component with this number, or else a new one of this name. Or want of memory.
pub fn target_of(number: Option<u64>, name: &Word) -> Result<Target, AllocError>
    ensures { IfOk result (λ target. target ≡ meant.target_of number name.now) }
{
    match number {
        Some(number) => Ok(Target::Old(number)),
        None => Ok(Target::New(name.copy()?)),
    }
}

/// The role of the component with this number, if there is one.
pub fn old_role(frame: &Frame, number: Option<u64>) -> Option<Role>
    ensures { result ≡ meant.old_role frame.now number }
{
    let number = number?;
    match frame.components.get(number as usize) {
        Some(component) => Some(component.role),
        None => None,
    }
}

/// The role of what an item is put into: the one that is stated, or else the one that the component had, or else measure.
pub fn role_of(stated: Option<ItemRole>, old: Option<Role>) -> Role
    ensures { result ≡ meant.role_of stated old }
{
    match stated {
        Some(ItemRole::Measure) => Role::Measure,
        Some(ItemRole::Attribute) => Role::Attribute,
        None => old.unwrap_or(Role::Measure),
    }
}

/// An item of `calc` by its head and its value, or want of memory. Its target is the component that the bare name stands
/// for, or else a new one; its role is the one that is stated, or else the target's, or else measure. As a whole item the
/// literal null is a string.
pub fn item_typed(
    frame: &Frame,
    stated: Option<ItemRole>,
    name: &Word,
    value: Typed,
) -> Result<CheckedItem, AllocError>
    ensures ok { IfOk result (λ item. item ≡ meant.item_typed frame.now stated name.now value) }
    ensures typed { IsTyped (kinds_on frame.now) value →
        IfOk result (λ item. is_of frame.now item.kind item.value ≡ true) }
{
    let number = bare_number_of(frame, name);
    Ok(CheckedItem {
        target: target_of(number, name)?,
        role: role_of(stated, old_role(frame, number)),
        kind: value.kind.unwrap_or(Kind::Text),
        value: value.into_tree(),
    })
}

fn may_be_target(frame: &Frame, target: &Target) -> bool
    ensures { result ≡ meant.may_be_target frame.now target.now }
{
    match target {
        Target::Old(number) => may_go(frame, *number),
        Target::New(_) => true,
    }
}

fn may_calculate(frame: &Frame, items: &[CheckedItem]) -> bool
    ensures { result ≡ meant.may_calculate frame.now items.now }
{
    items.iter().all(|item| may_be_target(frame, &item.target))
}

/// Whether an item is put into a new component.
fn is_new(item: &CheckedItem) -> bool
    ensures { result ≡ own.is_new item.now }
{
    match item.target {
        Target::Old(_) => false,
        Target::New(_) => true,
    }
}

/// The number of the new components.
fn count_new(items: &[CheckedItem]) -> usize
    ensures { result ≡ count_by own.is_new items.now }
{
    let mut new = 0;
    for item in items {
        if is_new(item) {
            new += 1;
        }
    }
    new
}

/// Whether the result may have as many components: those that there are, and the new ones.
fn has_room_for(frame: &Frame, items: &[CheckedItem]) -> bool
    ensures { result ≡ meant.has_room (calculated items.now frame.now) }
{
    match MOST_COMPONENTS.checked_sub(frame.components.len()) {
        Some(left) => count_new(items) <= left,
        None => false,
    }
}

/// `calc items`, of items that `item_typed` made of this frame; `WrongRole` where a target is an identifier or a viral
/// attribute, else `NameTwice` where two items have one target, else `TooManyComponents` where the result would have more
/// than 64, or want of memory. It costs the number of items.
pub fn calc_typed(
    alloc: Global,
    place: Place,
    items: Items<CheckedItem>,
    frame: &Frame,
) -> Result<CheckedClause, TypeStop>
    ensures ok { IfOk result (λ clause. meant.calc_typed place items frame.now ≡ Ok clause) }
    ensures err { IfErr result (Refuses (meant.calc_typed place items frame.now)) }
    ensures typed { All (meant.IsItemOf frame.now) items →
        All (λ i. is_of frame.now i.kind i.value ≡ true) items →
        IfOk result (λ clause. is_well_typed frame.now clause ≡ true) }
{
    let all = items.as_slice();
    let fit = may_calculate(frame, all);
    let once = targets_differ(alloc, all)?;
    let room = has_room_for(frame, all);
    demands(
        place,
        &[
            (fit, Fault::WrongRole),
            (once, Fault::NameTwice),
            (room, Fault::TooManyComponents),
        ],
    )?;
    Ok(CheckedClause::Calc { items })
}
