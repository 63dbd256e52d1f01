// Operators of which not all operands are evaluated, and functions of two operands.
ghost use Rattle.std.specs.Prelude.{◌≡◌, Ok, IfOk, IfErr};
ghost use Rattle.scalar_trees.specs.typing.Steps.{Refuses};
ghost use Rattle.scalar_trees.specs.typing.Scalars as meant;

use crate::operands::{agreeing, boxed_wanted};
use crate::tables::binary_typed;
use scalar_trees::typing::{TypeStop, Typed};
use scalar_trees::{BinaryOperator, CheckedExpr, any_kind};
use std::alloc::Global;
use vtl_syntax::words::BinaryFunction;
use vtl_values::{Kind, Place};

/// `nvl(a, b)`; `WrongType` where the two don't agree on a kind, or want of memory.
pub fn nvl_typed(
    alloc: Global,
    place: Place,
    first: Typed,
    second: Typed,
) -> Result<Typed, TypeStop>
    ensures ok { IfOk result (λ t. meant.nvl_typed place first second ≡ Ok t) }
    ensures err { IfErr result (Refuses (meant.nvl_typed place first second)) }
{
    let agreed = agreeing(alloc, place, any_kind(), first, second)?;
    Ok(Typed {
        tree: CheckedExpr::Nvl {
            first: agreed.left,
            second: agreed.right,
        },
        kind: Some(agreed.kind),
    })
}

/// A function of two operands; `WrongType` where they don't agree on a kind that it takes, or want of memory.
pub fn function_typed(
    alloc: Global,
    function: BinaryFunction,
    place: Place,
    left: Typed,
    right: Typed,
) -> Result<Typed, TypeStop>
    ensures ok { IfOk result (λ t. meant.function_typed function place left right ≡ Ok t) }
    ensures err { IfErr result (Refuses (meant.function_typed function place left right)) }
{
    match function {
        BinaryFunction::Mod => binary_typed(alloc, BinaryOperator::Mod, place, left, right),
        BinaryFunction::Nvl => nvl_typed(alloc, place, left, right),
        BinaryFunction::Instr => binary_typed(alloc, BinaryOperator::Instr, place, left, right),
    }
}

/// `if c then a else b`; `WrongType` where the condition is no boolean, or else the branches don't agree on a kind, or
/// want of memory.
pub fn if_typed(
    alloc: Global,
    place: Place,
    condition: Typed,
    holds: Typed,
    fails: Typed,
) -> Result<Typed, TypeStop>
    ensures ok { IfOk result (λ t. meant.if_typed place condition holds fails ≡ Ok t) }
    ensures err { IfErr result (Refuses (meant.if_typed place condition holds fails)) }
{
    let condition = boxed_wanted(alloc, place, Kind::Truth, condition)?;
    let agreed = agreeing(alloc, place, any_kind(), holds, fails)?;
    Ok(Typed {
        tree: CheckedExpr::If {
            condition,
            holds: agreed.left,
            fails: agreed.right,
        },
        kind: Some(agreed.kind),
    })
}
