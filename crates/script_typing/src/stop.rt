// Why a script isn't typed.
ghost use Rattle.std.specs.Prelude.{◌≡◌};
ghost use Rattle.script_typing.specs.declared.stop.ScriptStop.TheVariants.{Memory};
ghost use Rattle.script_typing.specs.Stops.{of_graph, of_typing};

use scalar_trees::typing::{Refusal, TypeStop};
use script_graph::{GraphStop, PlacedFault};
use std::alloc::AllocError;

/// Why a script isn't typed.
#[derive(Drop)]
pub enum ScriptStop {
    /// the first fault of its names and uses
    Graph(PlacedFault),
    /// the first fault of the first ruleset that has one by itself, and else that of types of the first statement that has
    /// one; there is none of names and uses
    Refused(Refusal),
    /// want of memory
    Memory,
}

impl From<GraphStop> for ScriptStop {
    ghost from_gives = { λ graph stop. stop ≡ of_graph graph };

    fn from(stop: GraphStop) -> Self {
        match stop {
            GraphStop::Fault(placed) => ScriptStop::Graph(placed),
            GraphStop::Memory => ScriptStop::Memory,
        }
    }
}

impl From<TypeStop> for ScriptStop {
    ghost from_gives = { λ typing stop. stop ≡ of_typing typing };

    fn from(stop: TypeStop) -> Self {
        match stop {
            TypeStop::Refused(refusal) => ScriptStop::Refused(refusal),
            TypeStop::Memory => ScriptStop::Memory,
        }
    }
}

impl From<AllocError> for ScriptStop {
    ghost from_gives = { λ _ stop. stop ≡ Memory };

    fn from(_error: AllocError) -> Self {
        ScriptStop::Memory
    }
}
