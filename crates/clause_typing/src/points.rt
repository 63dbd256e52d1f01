// `filter`.
ghost use Rattle.std.specs.Prelude.{◌≡◌, true, Ok, IfOk, IfErr};
ghost use Rattle.scalar_trees.specs.typing.Sound.{IsTyped};
ghost use Rattle.scalar_trees.specs.typing.Steps.{Refuses};
ghost use Rattle.data_set_trees.specs.declared.clauses.frame.Frame.{Frame};
ghost use Rattle.data_set_trees.specs.clauses.Clauses as meant;
ghost use Rattle.data_set_trees.specs.clauses.WellTyped.{is_well_typed, kinds_on};

use data_set_trees::clauses::CheckedClause;
use operator_typing::wanted;
use scalar_trees::typing::{TypeStop, Typed};
use std::alloc::Global;
use vtl_values::{Kind, Place};

/// `filter condition`; `WrongType` where the condition is no boolean, which the literal null is, or want of memory.
pub fn filter_typed(
    alloc: Global,
    place: Place,
    condition: Typed,
) -> Result<CheckedClause, TypeStop>
    ensures ok { IfOk result (λ clause. meant.filter_typed place condition ≡ Ok clause) }
    ensures err { IfErr result (Refuses (meant.filter_typed place condition)) }
    ensures typed { (frame : Frame) → IsTyped (kinds_on frame) condition →
        IfOk result (λ clause. is_well_typed frame clause ≡ true) }
{
    let condition = wanted(alloc, place, Kind::Truth, condition)?;
    Ok(CheckedClause::Filter { condition })
}
