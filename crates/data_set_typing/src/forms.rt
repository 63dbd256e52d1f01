// Scalar operators on their operands.
ghost use Rattle.std.specs.Prelude.{◌≡◌, ◌∷◌, [], Ok, Err, IfOk, IfErr, MatchOption};
ghost use Rattle.scalar_trees.specs.declared.typing.stop.TypeStop.TheVariants.{Refused};
ghost use Rattle.scalar_trees.specs.typing.Steps.{Refuses};
ghost use Rattle.data_set_trees.specs.Forms as meant;

use data_set_trees::Form;
use operator_typing::{
    between_typed, binary_typed, if_typed, in_typed, matches_typed, nvl_typed, replace_typed,
    round_typed, substr_typed, unary_typed,
};
use scalar_trees::typing::{Fault, TypeStop, Typed};
use sqlite_items::Items;
use std::alloc::Global;
use vtl_values::Place;

fn take_typed(operands: &mut Items<Typed>) -> Option<Typed>
    ensures { MatchOption result ((operands.old ≡ []) × (operands.new ≡ [])) (λ first. operands.old ≡ first ∷ operands.new) }
{
    if operands.len() == 0 {
        return None;
    }
    Some(operands.remove(0))
}

/// The grammar gives each operator its number of operands, so this doesn't come.
fn misplaced_one(place: Place, operand: Typed) -> Result<Typed, TypeStop>
    ensures { result ≡ Err (Refused (record { fault = Fault.WrongStructure; place = place })) }
{
    let _operand = operand;
    Err(TypeStop::at(Fault::WrongStructure, place))
}

fn misplaced_two(place: Place, first: Typed, second: Typed) -> Result<Typed, TypeStop>
    ensures { result ≡ Err (Refused (record { fault = Fault.WrongStructure; place = place })) }
{
    let _first = first;
    misplaced_one(place, second)
}

fn misplaced_three(
    place: Place,
    first: Typed,
    second: Typed,
    third: Typed,
) -> Result<Typed, TypeStop>
    ensures { result ≡ Err (Refused (record { fault = Fault.WrongStructure; place = place })) }
{
    let _first = first;
    misplaced_two(place, second, third)
}

fn formed_of_one(
    alloc: Global,
    form: &Form,
    place: Place,
    operand: Typed,
) -> Result<Typed, TypeStop>
    ensures ok { IfOk result (λ t. meant.formed form.now place (operand ∷ []) ≡ Ok t) }
    ensures err { IfErr result (Refuses (meant.formed form.now place (operand ∷ []))) }
{
    match form {
        Form::Unary(operator) => unary_typed(alloc, *operator, place, operand),
        Form::Binary(_) => misplaced_one(place, operand),
        Form::Nvl => misplaced_one(place, operand),
        Form::If => misplaced_one(place, operand),
        Form::In { sign, set } => in_typed(alloc, *sign, set.as_slice(), place, operand),
        Form::Between { low, high } => between_typed(alloc, low, high, place, operand),
        Form::Round { function, digits } => round_typed(alloc, *function, *digits, place, operand),
        Form::Substr => substr_typed(alloc, place, operand, None, None),
        Form::Replace => misplaced_one(place, operand),
        Form::Matches { pattern } => matches_typed(alloc, pattern, place, operand),
    }
}

fn formed_of_two(
    alloc: Global,
    form: &Form,
    place: Place,
    first: Typed,
    second: Typed,
) -> Result<Typed, TypeStop>
    ensures ok { IfOk result (λ t. meant.formed form.now place (first ∷ second ∷ []) ≡ Ok t) }
    ensures err { IfErr result (Refuses (meant.formed form.now place (first ∷ second ∷ []))) }
{
    match form {
        Form::Unary(_) => misplaced_two(place, first, second),
        Form::Binary(operator) => binary_typed(alloc, *operator, place, first, second),
        Form::Nvl => nvl_typed(alloc, place, first, second),
        Form::If => misplaced_two(place, first, second),
        Form::In { .. } => misplaced_two(place, first, second),
        Form::Between { .. } => misplaced_two(place, first, second),
        Form::Round { .. } => misplaced_two(place, first, second),
        Form::Substr => substr_typed(alloc, place, first, Some(second), None),
        Form::Replace => replace_typed(alloc, place, first, second, None),
        Form::Matches { .. } => misplaced_two(place, first, second),
    }
}

fn formed_if(
    alloc: Global,
    place: Place,
    condition: Typed,
    holds: Typed,
    fails: Typed,
    others: &[Typed],
) -> Result<Typed, TypeStop>
    ensures ok { IfOk result (λ t. meant.formed Form.If place (condition ∷ holds ∷ fails ∷ others.now) ≡ Ok t) }
    ensures err { IfErr result (Refuses (meant.formed Form.If place (condition ∷ holds ∷ fails ∷ others.now))) }
{
    match others {
        [] => if_typed(alloc, place, condition, holds, fails),
        _ => misplaced_three(place, condition, holds, fails),
    }
}

/// Of more operands the first three alone count, where the operator takes fewer than it is given.
fn formed_of_three(
    alloc: Global,
    form: &Form,
    place: Place,
    first: Typed,
    second: Typed,
    third: Typed,
    others: &[Typed],
) -> Result<Typed, TypeStop>
    ensures ok { IfOk result (λ t. meant.formed form.now place (first ∷ second ∷ third ∷ others.now) ≡ Ok t) }
    ensures err { IfErr result (Refuses (meant.formed form.now place (first ∷ second ∷ third ∷ others.now))) }
{
    match form {
        Form::Unary(_) => misplaced_three(place, first, second, third),
        Form::Binary(_) => misplaced_three(place, first, second, third),
        Form::Nvl => misplaced_three(place, first, second, third),
        Form::If => formed_if(alloc, place, first, second, third, others),
        Form::In { .. } => misplaced_three(place, first, second, third),
        Form::Between { .. } => misplaced_three(place, first, second, third),
        Form::Round { .. } => misplaced_three(place, first, second, third),
        Form::Substr => substr_typed(alloc, place, first, Some(second), Some(third)),
        Form::Replace => replace_typed(alloc, place, first, second, Some(third)),
        Form::Matches { .. } => misplaced_three(place, first, second, third),
    }
}

/// The operator on these operands, or its fault, or want of memory.
pub(crate) fn formed(
    alloc: Global,
    form: &Form,
    place: Place,
    mut operands: Items<Typed>,
) -> Result<Typed, TypeStop>
    ensures ok { IfOk result (λ t. meant.formed form.now place operands ≡ Ok t) }
    ensures err { IfErr result (Refuses (meant.formed form.now place operands)) }
{
    let Some(first) = take_typed(&mut operands) else {
        return Err(TypeStop::at(Fault::WrongStructure, place));
    };
    let Some(second) = take_typed(&mut operands) else {
        return formed_of_one(alloc, form, place, first);
    };
    let Some(third) = take_typed(&mut operands) else {
        return formed_of_two(alloc, form, place, first, second);
    };
    formed_of_three(
        alloc,
        form,
        place,
        first,
        second,
        third,
        operands.as_slice(),
    )
}

/// Whether the operator may stand on two data sets.
pub(crate) fn is_of_two(form: &Form) -> bool
    ensures { result ≡ meant.is_of_two form.now }
{
    match form {
        Form::Binary(_) => true,
        Form::Nvl => true,
        Form::Unary(_) => false,
        Form::If => false,
        Form::In { .. } => false,
        Form::Between { .. } => false,
        Form::Round { .. } => false,
        Form::Substr => false,
        Form::Replace => false,
        Form::Matches { .. } => false,
    }
}
