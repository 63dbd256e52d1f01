// Operators that are rows of the tables of kinds.
ghost use Rattle.std.specs.Prelude.{◌≡◌, Ok, IfOk, IfErr};
ghost use Rattle.scalar_trees.specs.typing.Steps.{Refuses};
ghost use Rattle.scalar_trees.specs.typing.Scalars as meant;

use crate::operands::{agreeing, boxed_widened, joint};
use scalar_trees::typing::{TypeStop, Typed};
use scalar_trees::{
    BinaryOperator, CheckedExpr, UnaryOperator, binary_gives, binary_takes, sort_takes,
    unary_gives, unary_takes,
};
use std::alloc::Global;
use vtl_syntax::words::Sort;
use vtl_values::Place;

/// An operator of one operand; `WrongType` where it doesn't take the operand's kind, or want of memory.
pub fn unary_typed(
    alloc: Global,
    operator: UnaryOperator,
    place: Place,
    operand: Typed,
) -> Result<Typed, TypeStop>
    ensures ok { IfOk result (λ t. meant.unary_typed operator place operand ≡ Ok t) }
    ensures err { IfErr result (Refuses (meant.unary_typed operator place operand)) }
{
    let kind = joint(place, unary_takes(operator), &[operand.kind])?;
    let operand = boxed_widened(alloc, kind, operand)?;
    Ok(Typed {
        tree: CheckedExpr::Unary { operator, operand },
        kind: Some(unary_gives(operator, kind)),
    })
}

/// An operator of two operands; `WrongType` where they don't agree on a kind that it takes, or want of memory.
pub fn binary_typed(
    alloc: Global,
    operator: BinaryOperator,
    place: Place,
    left: Typed,
    right: Typed,
) -> Result<Typed, TypeStop>
    ensures ok { IfOk result (λ t. meant.binary_typed operator place left right ≡ Ok t) }
    ensures err { IfErr result (Refuses (meant.binary_typed operator place left right)) }
{
    let agreed = agreeing(alloc, place, binary_takes(operator), left, right)?;
    Ok(Typed {
        tree: CheckedExpr::Binary {
            operator,
            left: agreed.left,
            right: agreed.right,
        },
        kind: Some(binary_gives(operator, agreed.kind)),
    })
}

/// An argument or a result of the sort, which keeps its own kind; `WrongType` where it isn't of the sort, or want of
/// memory.
pub fn sort_typed(
    alloc: Global,
    sort: Sort,
    place: Place,
    operand: Typed,
) -> Result<Typed, TypeStop>
    ensures ok { IfOk result (λ t. meant.sort_typed sort place operand ≡ Ok t) }
    ensures err { IfErr result (Refuses (meant.sort_typed sort place operand)) }
{
    let kind = joint(place, sort_takes(sort), &[operand.kind])?;
    let operand = boxed_widened(alloc, kind, operand)?;
    Ok(Typed {
        tree: CheckedExpr::OfSort { sort, operand },
        kind: Some(kind),
    })
}
