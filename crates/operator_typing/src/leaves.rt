// Expressions without operands.
ghost use Rattle.std.specs.Prelude.{◌≡◌, true, Ok, IfOk, IfErr};
ghost use Rattle.scalar_trees.specs.WellTyped.{in_range};
ghost use Rattle.scalar_trees.specs.typing.Steps.{Refuses};
ghost use Rattle.scalar_trees.specs.typing.Scalars as meant;

use crate::operands::or_refused;
use scalar_trees::typing::{Fault, Slot, TypeStop, Typed};
use scalar_trees::{CheckedExpr, literal_kind};
use std::alloc::AllocError;
use vtl_values::{Place, Value};

/// A literal; null has no kind of its own. Or want of memory.
pub fn literal_typed(value: &Value) -> Result<Typed, AllocError>
    ensures typed { IfOk result (λ t. t ≡ meant.literal_typed value.now) }
    ensures range { in_range value.now ≡ true }
{
    let kind = literal_kind(value);
    Ok(Typed {
        tree: CheckedExpr::Literal(value.copy()?),
        kind,
    })
}

/// The component that a name stands for; else `UnknownComponent`.
pub fn component_typed(slot: Option<Slot>, place: Place) -> Result<Typed, TypeStop>
    ensures ok { IfOk result (λ t. meant.component_typed slot place ≡ Ok t) }
    ensures err { IfErr result (Refuses (meant.component_typed slot place)) }
{
    let slot = or_refused(slot, Fault::UnknownComponent, place)?;
    Ok(Typed {
        tree: CheckedExpr::Component(slot.number),
        kind: Some(slot.kind),
    })
}
