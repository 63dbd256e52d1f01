// What can be wrong with the graph of a script.
ghost use Rattle.std.specs.Prelude.{◌≡◌};
ghost use Rattle.script_graph.specs.declared.fault.GraphStop.TheVariants.{Memory};

use sqlite_items::Items;
use std::alloc::{AllocError, AllocFailed};
use vtl_values::{Place, Word};

/// A fault of names, or of statements that use each other.
#[derive(Drop)]
pub enum GraphFault {
    /// a statement or a ruleset repeats a name
    AssignedTwice,
    /// no input, result or ruleset of the wanted sort has that name
    Unknown(Word),
    /// a statement depends on itself, by way of these, itself first
    Cycle(Items<Word>),
}

/// A fault and where it stands.
#[derive(Drop)]
pub struct PlacedFault {
    pub fault: GraphFault,
    pub place: Place,
}

/// Why a script's statements have no order.
#[derive(Drop)]
pub enum GraphStop {
    /// the script has this fault, and none of an earlier kind or of that kind at an earlier place
    Fault(PlacedFault),
    /// want of memory
    Memory,
}

impl From<AllocError> for GraphStop {
    ghost from_gives = { λ _ stop. stop ≡ Memory };

    fn from(_: AllocError) -> Self {
        GraphStop::Memory
    }
}

impl<T: Drop> From<AllocFailed<T>> for GraphStop {
    ghost from_gives = { λ _ stop. stop ≡ Memory };

    fn from(_: AllocFailed<T>) -> Self {
        GraphStop::Memory
    }
}
