// Membership in sets of literals, and bounds.
ghost use Rattle.std.specs.Prelude.{◌≡◌, true, ◌∷◌, map, Ok, IfOk, IfErr, OnOk};
ghost use Rattle.std.specs.List.{list_all};
ghost use Rattle.scalar_trees.specs.Kinds as kinds;
ghost use Rattle.scalar_trees.specs.WellTyped.{in_range};
ghost use Rattle.scalar_trees.specs.WellTyped as trees;
ghost use Rattle.scalar_trees.specs.typing.Steps.{Refuses};
ghost use Rattle.scalar_trees.specs.typing.Scalars as meant;

use crate::operands::{boxed_widened, joint};
use scalar_trees::typing::{Fault, TypeStop, Typed, demand};
use scalar_trees::{CheckedExpr, any_kind, is_present, literal_kind, widened_value};
use sqlite_items::Items;
use std::alloc::{AllocError, Global};
use vtl_syntax::words::InSign;
use vtl_values::{Kind, Place, Value};

/// The kind of the operand and then those of the literals, or want of memory.
fn kinds_with(
    alloc: Global,
    operand: Option<Kind>,
    set: &[Value],
) -> Result<Items<Option<Kind>>, AllocError>
    ensures kinds { IfOk result (λ all. all ≡ operand ∷ map kinds.literal_kind set.now) }
    ensures range { OnOk result (list_all in_range set.now ≡ true) }
{
    let mut all = Items::new(alloc);
    all.push(operand)?;
    for value in set {
        all.push(literal_kind(value))?;
    }
    Ok(all)
}

/// The kind at which the operand and all literals agree; else `WrongType`, or want of memory.
fn set_kind(
    alloc: Global,
    place: Place,
    operand: Option<Kind>,
    set: &[Value],
) -> Result<Kind, TypeStop>
    ensures ok { IfOk result (λ kind. meant.joint place kinds.ANY (operand ∷ map kinds.literal_kind set.now) ≡ Ok kind) }
    ensures err { IfErr result (Refuses (meant.joint place kinds.ANY (operand ∷ map kinds.literal_kind set.now))) }
    ensures range { OnOk result (list_all in_range set.now ≡ true) }
{
    let all = kinds_with(alloc, operand, set)?;
    joint(place, any_kind(), all.as_slice())
}

fn all_present(set: &[Value]) -> bool
    ensures { result ≡ list_all trees.is_present set.now }
{
    set.iter().all(|value| is_present(value))
}

/// Literals where this kind is wanted, or want of memory.
fn widened_values(alloc: Global, wanted: Kind, set: &[Value]) -> Result<Items<Value>, AllocError>
    ensures { IfOk result (λ values. values ≡ map (kinds.widened_value wanted) set.now) }
{
    let mut values = Items::new(alloc);
    for value in set {
        values.push(widened_value(wanted, value)?)?;
    }
    Ok(values)
}

/// `a in {..}`, `a not_in {..}`; `WrongType` where the operand and the literals don't agree on a kind, else `BadConstant`
/// where a literal is null, or want of memory.
pub fn in_typed(
    alloc: Global,
    sign: InSign,
    set: &[Value],
    place: Place,
    operand: Typed,
) -> Result<Typed, TypeStop>
    ensures ok { IfOk result (λ t. meant.in_typed sign set.now place operand ≡ Ok t) }
    ensures err { IfErr result (Refuses (meant.in_typed sign set.now place operand)) }
    ensures range { OnOk result (list_all in_range set.now ≡ true) }
{
    let kind = set_kind(alloc, place, operand.kind, set)?;
    demand(all_present(set), Fault::BadConstant, place)?;
    let operand = boxed_widened(alloc, kind, operand)?;
    let set = widened_values(alloc, kind, set)?;
    Ok(Typed {
        tree: CheckedExpr::In { operand, sign, set },
        kind: Some(Kind::Truth),
    })
}

/// `between(a, low, high)`; `WrongType` where the operand and the bounds don't agree on a kind, or want of memory.
pub fn between_typed(
    alloc: Global,
    low: &Value,
    high: &Value,
    place: Place,
    operand: Typed,
) -> Result<Typed, TypeStop>
    ensures ok { IfOk result (λ t. meant.between_typed low.now high.now place operand ≡ Ok t) }
    ensures err { IfErr result (Refuses (meant.between_typed low.now high.now place operand)) }
    ensures low { in_range low.now ≡ true }
    ensures high { in_range high.now ≡ true }
{
    let all = [operand.kind, literal_kind(low), literal_kind(high)];
    let kind = joint(place, any_kind(), &all)?;
    let operand = boxed_widened(alloc, kind, operand)?;
    let low = widened_value(kind, low)?;
    let high = widened_value(kind, high)?;
    Ok(Typed {
        tree: CheckedExpr::Between { operand, low, high },
        kind: Some(Kind::Truth),
    })
}
