// Faults that are told together.
ghost use Rattle.std.specs.Prelude.{◌≡◌, Ok, IfOk, IfErr};
ghost use Rattle.scalar_trees.specs.typing.Steps.{Refuses};
ghost use Rattle.data_set_trees.specs.rules.Rules as meant;
ghost use Rattle.rule_typing.specs.Faults as parts;

use scalar_trees::typing::{Fault, TypeStop};
use vtl_values::Place;

/// The place of a fault in their order.
fn number_of(fault: Fault) -> u8
    ensures { result ≡ meant.fault_number fault }
{
    match fault {
        Fault::UnknownComponent => 1,
        Fault::WrongType => 2,
        Fault::WrongStructure => 3,
        Fault::WrongRole => 4,
        Fault::NameTwice => 5,
        Fault::TooManyComponents => 6,
        Fault::BadConstant => 7,
        Fault::BadPattern => 8,
        Fault::BadRuleset => 9,
    }
}

/// The first of two in the order of faults.
pub(crate) fn first_of(fault: Fault, other: Fault) -> Fault
    ensures { result ≡ parts.first_of fault other }
{
    if number_of(fault) <= number_of(other) {
        fault
    } else {
        other
    }
}

/// The same, where there are faults.
pub(crate) fn earlier(found: Option<Fault>, other: Option<Fault>) -> Option<Fault>
    ensures { result ≡ parts.earlier found other }
{
    match found {
        None => other,
        Some(fault) => match other {
            None => Some(fault),
            Some(other) => Some(first_of(fault, other)),
        },
    }
}

/// The first fault of what isn't met.
pub(crate) fn first_unmet(demanded: &[(bool, Fault)]) -> Option<Fault>
    ensures { result ≡ meant.first_fault (meant.unmet demanded.now) }
{
    let mut found = None;
    for (holds, fault) in demanded {
        if !*holds {
            found = earlier(found, Some(*fault));
        }
    }
    found
}

/// The fault at the word of the call, if there is one.
pub(crate) fn unless_faulty(place: Place, fault: Option<Fault>) -> Result<(), TypeStop>
    ensures ok { IfOk result (λ met. parts.unless_found place fault ≡ Ok met) }
    ensures err { IfErr result (Refuses (parts.unless_found place fault)) }
{
    match fault {
        None => Ok(()),
        Some(fault) => Err(TypeStop::at(fault, place)),
    }
}
