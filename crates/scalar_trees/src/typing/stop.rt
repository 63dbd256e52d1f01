// Why an expression has no type, and where.
ghost use Rattle.std.specs.Prelude.{◌≡◌, Ok, IfOk, IfErr};
ghost use Rattle.scalar_trees.specs.declared.typing.stop.TypeStop.TheVariants.{Memory};
ghost use Rattle.scalar_trees.specs.typing.Steps.{Refuses, demanded};

use std::alloc::{AllocError, AllocFailed};
use vtl_values::Place;

/// A fault of types, in the order in which those of one subexpression are told.
#[derive(Clone, Copy, Debug, PartialEq, Eq)]
pub enum Fault {
    UnknownComponent,
    WrongType,
    WrongStructure,
    WrongRole,
    NameTwice,
    TooManyComponents,
    BadConstant,
    BadPattern,
    BadRuleset,
}

/// A fault and where it stands.
#[derive(Clone, Copy, Debug, PartialEq, Eq)]
pub struct Refusal {
    pub fault: Fault,
    pub place: Place,
}

/// Why an expression has no type: a fault, or want of memory.
#[derive(Clone, Copy, Debug, PartialEq, Eq)]
pub enum TypeStop {
    Refused(Refusal),
    Memory,
}

impl TypeStop {
    ghost use Rattle.scalar_trees.specs.declared.typing.stop.TypeStop.TheVariants.{Refused};

    /// A fault at its place.
    pub fn at(fault: Fault, place: Place) -> TypeStop
        ensures { result ≡ Refused (record { fault = fault; place = place }) }
    {
        TypeStop::Refused(Refusal { fault, place })
    }
}

/// What is demanded at a place; else the fault.
pub fn demand(holds: bool, fault: Fault, place: Place) -> Result<(), TypeStop>
    ensures ok { IfOk result (λ met. demanded holds fault place ≡ Ok met) }
    ensures err { IfErr result (Refuses (demanded holds fault place)) }
{
    if holds {
        Ok(())
    } else {
        Err(TypeStop::at(fault, place))
    }
}

impl From<AllocError> for TypeStop {
    ghost from_gives = { λ _ stop. stop ≡ Memory };

    fn from(_error: AllocError) -> Self {
        TypeStop::Memory
    }
}

impl<T: Drop> From<AllocFailed<T>> for TypeStop {
    ghost from_gives = { λ _ stop. stop ≡ Memory };

    fn from(_error: AllocFailed<T>) -> Self {
        TypeStop::Memory
    }
}
