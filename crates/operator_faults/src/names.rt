// Names that are given twice.
ghost use Rattle.std.specs.Prelude.{◌≡◌, ℕ, List, [], IfOk};
ghost use Rattle.std.specs.Option.{option_copied};
ghost use Rattle.operator_faults.specs.Names as meant;

use crate::fault::{OperatorFault, PlacedFault};
use std::alloc::AllocError;
use vtl_syntax::{DefinedOperator, Param};
use vtl_values::Word;

/// What has a name.
pub(crate) trait Named {
    ghost name_of: { Self → List ℕ };

    fn name(&self) -> &Word
        ensures { result.now ≡ name_of self.now };
}

impl Named for DefinedOperator {
    ghost name_of = { λ o. o.name };

    fn name(&self) -> &Word {
        &self.name
    }
}

impl Named for Param {
    ghost name_of = { λ p. p.name };

    fn name(&self) -> &Word {
        &self.name
    }
}

/// Whether one of them has that name.
pub(crate) fn is_named<T: Named>(items: &[T], name: &Word) -> bool
    ensures { result ≡ meant.is_named T.name_of items.now name.now }
{
    for item in items {
        if item.name() == name {
            return true;
        }
    }
    false
}

/// The first whose name one before it has.
fn first_again<T: Named>(items: &[T]) -> Option<&T>
    ensures { option_copied result ≡ meant.again T.name_of [] items.now }
{
    for (i, item) in items.iter().enumerate() {
        if is_named(&items[..i], item.name()) {
            return Some(item);
        }
    }
    None
}

/// The fault of an operator that is defined twice.
pub(crate) fn defined_twice(
    operators: &[DefinedOperator],
) -> Result<Option<PlacedFault>, AllocError>
    ensures { IfOk result (λ fault. fault ≡ meant.defined_twice operators.now) }
{
    match first_again(operators) {
        Some(operator) => Ok(Some(PlacedFault {
            fault: OperatorFault::DefinedTwice(operator.name.copy()?),
            place: operator.place,
        })),
        None => Ok(None),
    }
}

/// The fault of a parameter that an operator has twice.
pub(crate) fn parameter_twice(
    operators: &[DefinedOperator],
) -> Result<Option<PlacedFault>, AllocError>
    ensures { IfOk result (λ fault. fault ≡ meant.parameter_twice operators.now) }
{
    for operator in operators {
        if let Some(fault) = twice_in(operator)? {
            return Ok(Some(fault));
        }
    }
    Ok(None)
}

fn twice_in(operator: &DefinedOperator) -> Result<Option<PlacedFault>, AllocError>
    ensures { IfOk result (λ fault. fault ≡ meant.twice_in operator.now) }
{
    match first_again(operator.params.as_slice()) {
        Some(param) => Ok(Some(PlacedFault {
            fault: OperatorFault::ParameterTwice(param.name.copy()?),
            place: param.place,
        })),
        None => Ok(None),
    }
}
