// Rounding to digits.
ghost use Rattle.std.specs.Prelude.{◌≡◌, Ok, IfOk, IfErr};
ghost use Rattle.scalar_trees.specs.typing.Steps.{Refuses};
ghost use Rattle.scalar_trees.specs.typing.Scalars as meant;

use crate::operands::boxed_wanted;
use scalar_trees::typing::{Fault, TypeStop, Typed, demand};
use scalar_trees::{CheckedExpr, digits_fit, round_gives};
use std::alloc::Global;
use vtl_syntax::words::RoundFunction;
use vtl_values::{Integer, Kind, Place};

/// `round` and `trunc`; `WrongType` where the operand is no number, else `BadConstant` where the digits are beyond their
/// limits, or want of memory.
pub fn round_typed(
    alloc: Global,
    function: RoundFunction,
    digits: Option<Integer>,
    place: Place,
    operand: Typed,
) -> Result<Typed, TypeStop>
    ensures ok { IfOk result (λ t. meant.round_typed function digits place operand ≡ Ok t) }
    ensures err { IfErr result (Refuses (meant.round_typed function digits place operand)) }
{
    let operand = boxed_wanted(alloc, place, Kind::Number, operand)?;
    demand(digits_fit(&digits), Fault::BadConstant, place)?;
    Ok(Typed {
        kind: Some(round_gives(&digits)),
        tree: CheckedExpr::Round {
            function,
            operand,
            digits,
        },
    })
}
