// `calc` with analytic items.
ghost use Rattle.std.specs.Prelude.{◌≡◌, map, All, Ok, IfOk, IfErr};
ghost use Rattle.vtl_values.specs.Structures.{IsStructure};
ghost use Rattle.scalar_trees.specs.typing.Steps.{Refuses};
ghost use Rattle.data_set_trees.specs.clauses.Frames.{frame_of};
ghost use Rattle.data_set_trees.specs.windows.Results as results;
ghost use Rattle.data_set_trees.specs.windows.Windows as meant;

use clause_typing::calc_typed;
use data_set_trees::clauses::{CheckedItem, Frame, Target};
use data_set_trees::windows::{AnalyticItem, CheckedWindow};
use scalar_trees::CheckedExpr;
use scalar_trees::typing::TypeStop;
use sqlite_items::Items;
use std::alloc::{AllocError, Global};
use vtl_values::{Place, Value};

fn copy_target(target: &Target) -> Result<Target, AllocError>
    ensures { IfOk result (λ copy. copy ≡ target.now) }
{
    Ok(match target {
        Target::Old(number) => Target::Old(*number),
        Target::New(name) => Target::New(name.copy()?),
    })
}

/// An item of a clause with the same target, role and kind.
fn as_item(item: &AnalyticItem) -> Result<CheckedItem, AllocError>
    ensures { IfOk result (λ plain. plain ≡ results.as_item item.now) }
{
    Ok(CheckedItem {
        target: copy_target(&item.target)?,
        role: item.role,
        kind: item.kind,
        value: CheckedExpr::Literal(Value::Null),
    })
}

/// The same of each, which is all that the components of a result go by.
pub(crate) fn as_items(
    alloc: Global,
    items: &[AnalyticItem],
) -> Result<Items<CheckedItem>, AllocError>
    ensures { IfOk result (λ plain. plain ≡ map results.as_item items.now) }
{
    let mut plain = Items::new(alloc);
    for item in items {
        plain.push(as_item(item)?)?;
    }
    Ok(plain)
}

/// `calc items`, of items that `scalar_item` and `analytic_item` made of this frame; `WrongRole` where a target is an
/// identifier or a viral attribute, else `NameTwice` where two items have one target, else `TooManyComponents` where the
/// result would have more than 64, or want of memory. On the frame of a structure the components after it are a structure.
/// It costs the number of items and the size of the frame.
pub fn calc_checked(
    alloc: Global,
    place: Place,
    items: Items<AnalyticItem>,
    frame: &Frame,
) -> Result<CheckedWindow, TypeStop>
    ensures ok { IfOk result (λ window. meant.calc_checked place items frame.now ≡ Ok window) }
    ensures err { IfErr result (Refuses (meant.calc_checked place items frame.now)) }
    ensures structure { frame.now ≡ frame_of frame.now.components → IsStructure frame.now.components →
        All (meant.IsItemOf frame.now) items →
        IfOk result (λ window. IsStructure (results.after window frame.now).components) }
{
    let plain = as_items(alloc, items.as_slice())?;
    calc_typed(alloc, place, plain, frame)?;
    Ok(CheckedWindow::Calc { items })
}
