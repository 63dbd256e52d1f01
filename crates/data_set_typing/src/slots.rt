// What stands for the data sets among operands.
ghost use Rattle.std.specs.Prelude.{◌≡◌, drop, unwrap_or, slice_get, IfOk};
ghost use Rattle.data_set_trees.specs.Lifted as meant;
ghost use Rattle.data_set_typing.specs.Slots as own;

use data_set_parts::copies::copy_typed;
use data_set_parts::measures::stands;
use data_set_trees::Operand;
use scalar_trees::typing::{Slot, Typed};
use sqlite_items::Items;
use std::alloc::{AllocError, Global};

pub(crate) fn first_slot(slots: &[Option<Slot>]) -> Option<Slot>
    ensures { result ≡ own.first_slot slots.now }
{
    slots.first().copied().unwrap_or(None)
}

/// What is left for the operands after this one.
pub(crate) fn slots_after<'a>(slots: &'a [Option<Slot>], operand: &Operand) -> &'a [Option<Slot>]
    ensures { result.now ≡ own.slots_after slots.now operand.now }
{
    match operand {
        Operand::Scalar(_) => slots,
        Operand::DataSet(_) => { if slots.is_empty() { slots } else { &slots[1..] } }
    }
}

/// The operand, or what stands for it.
pub(crate) fn standing(
    alloc: Global,
    slots: &[Option<Slot>],
    operand: &Operand,
) -> Result<Typed, AllocError>
    ensures { IfOk result (λ t. t ≡ own.standing slots.now operand.now) }
{
    match operand {
        Operand::Scalar(typed) => copy_typed(alloc, typed),
        Operand::DataSet(_) => Ok(stands(first_slot(slots))),
    }
}

/// The operands, where these stand for the data sets among them, in their order. Or want of memory.
pub(crate) fn with_slots(
    alloc: Global,
    slots: &[Option<Slot>],
    operands: &[Operand],
) -> Result<Items<Typed>, AllocError>
    ensures { IfOk result (λ all. all ≡ meant.with_slots slots.now operands.now) }
{
    let mut all = Items::new(alloc);
    let mut left = slots;
    for operand in operands {
        all.push(standing(alloc, left, operand)?)?;
        left = slots_after(left, operand);
    }
    Ok(all)
}
