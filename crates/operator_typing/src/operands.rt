// Operands where kinds are wanted.
ghost use Rattle.std.specs.Prelude.{◌≡◌, Ok, IfOk, IfErr};
ghost use Rattle.scalar_trees.specs.typing.Steps as steps;
ghost use Rattle.scalar_trees.specs.typing.Steps.{Refuses};
ghost use Rattle.scalar_trees.specs.typing.Scalars as meant;

use scalar_trees::typing::{Fault, TypeStop, Typed};
use scalar_trees::{CheckedExpr, agreed};
use sqlite_items::Boxed;
use std::alloc::{AllocError, Global};
use vtl_values::{Kind, Place};

/// What is there; where nothing is, the fault.
pub(crate) fn or_refused<T: Copy>(
    value: Option<T>,
    fault: Fault,
    place: Place,
) -> Result<T, TypeStop>
    ensures ok { IfOk result (λ v. steps.or_refused value fault place ≡ Ok v) }
    ensures err { IfErr result (Refuses (steps.or_refused value fault place)) }
{
    match value {
        Some(value) => Ok(value),
        None => Err(TypeStop::at(fault, place)),
    }
}

/// An operand where this kind is wanted: there an integer becomes a number. Or want of memory.
pub fn widened(alloc: Global, wanted: Kind, operand: Typed) -> Result<CheckedExpr, AllocError>
    ensures { IfOk result (λ tree. tree ≡ meant.widened wanted operand) }
{
    match (wanted, operand.kind) {
        (Kind::Number, Some(Kind::Integer)) => Ok(CheckedExpr::Widened(Boxed::new(
            alloc,
            operand.into_tree(),
        )?)),
        _ => Ok(operand.into_tree()),
    }
}

/// The first of the kinds that an operator takes at which all operands may stand; else `WrongType`.
pub fn joint(place: Place, takes: &[Kind], kinds: &[Option<Kind>]) -> Result<Kind, TypeStop>
    ensures ok { IfOk result (λ kind. meant.joint place takes.now kinds.now ≡ Ok kind) }
    ensures err { IfErr result (Refuses (meant.joint place takes.now kinds.now)) }
{
    or_refused(agreed(takes, kinds), Fault::WrongType, place)
}

/// An operand of just this kind; else `WrongType`, or want of memory.
pub fn wanted(
    alloc: Global,
    place: Place,
    kind: Kind,
    operand: Typed,
) -> Result<CheckedExpr, TypeStop>
    ensures ok { IfOk result (λ tree. meant.wanted place kind operand ≡ Ok tree) }
    ensures err { IfErr result (Refuses (meant.wanted place kind operand)) }
{
    let kind = joint(place, &[kind], &[operand.kind])?;
    Ok(widened(alloc, kind, operand)?)
}

/// The same in its box.
pub(crate) fn boxed_wanted(
    alloc: Global,
    place: Place,
    kind: Kind,
    operand: Typed,
) -> Result<Boxed<CheckedExpr>, TypeStop>
    ensures ok { IfOk result (λ tree. meant.wanted place kind operand ≡ Ok tree) }
    ensures err { IfErr result (Refuses (meant.wanted place kind operand)) }
{
    let tree = wanted(alloc, place, kind, operand)?;
    Ok(Boxed::new(alloc, tree)?)
}

/// An operand where this kind is wanted, in its box, or want of memory.
pub(crate) fn boxed_widened(
    alloc: Global,
    wanted: Kind,
    operand: Typed,
) -> Result<Boxed<CheckedExpr>, AllocError>
    ensures { IfOk result (λ tree. tree ≡ meant.widened wanted operand) }
{
    let tree = widened(alloc, wanted, operand)?;
    Boxed::new(alloc, tree)
}

/// The same, where an operand is given.
pub fn wanted_if(
    alloc: Global,
    place: Place,
    kind: Kind,
    operand: Option<Typed>,
) -> Result<Option<Boxed<CheckedExpr>>, TypeStop>
    ensures ok { IfOk result (λ tree. meant.wanted_if place kind operand ≡ Ok tree) }
    ensures err { IfErr result (Refuses (meant.wanted_if place kind operand)) }
{
    match operand {
        Some(operand) => Ok(Some(boxed_wanted(alloc, place, kind, operand)?)),
        None => Ok(None),
    }
}

/// Two operands at the kind at which they agree.
#[derive(Drop)]
pub struct Agreed {
    pub kind: Kind,
    pub left: Boxed<CheckedExpr>,
    pub right: Boxed<CheckedExpr>,
}

/// Two operands at the first of the kinds at which both may stand; else `WrongType`, or want of memory.
pub fn agreeing(
    alloc: Global,
    place: Place,
    takes: &[Kind],
    left: Typed,
    right: Typed,
) -> Result<Agreed, TypeStop>
    ensures ok { IfOk result (λ agreed. meant.agreeing place takes.now left right ≡ Ok (record { kind = agreed.kind; left = agreed.left; right = agreed.right })) }
    ensures err { IfErr result (Refuses (meant.agreeing place takes.now left right)) }
{
    let kind = joint(place, takes, &[left.kind, right.kind])?;
    Ok(at_kind(alloc, kind, left, right)?)
}

/// Two operands where this kind is wanted, or want of memory.
fn at_kind(alloc: Global, kind: Kind, left: Typed, right: Typed) -> Result<Agreed, AllocError>
    ensures kind { IfOk result (λ agreed. agreed.kind ≡ kind) }
    ensures left { IfOk result (λ agreed. agreed.left ≡ meant.widened kind left) }
    ensures right { IfOk result (λ agreed. agreed.right ≡ meant.widened kind right) }
{
    let left = boxed_widened(alloc, kind, left)?;
    let right = boxed_widened(alloc, kind, right)?;
    Ok(Agreed { kind, left, right })
}
