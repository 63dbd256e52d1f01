// Why a tree has no delta.
use crate::fault::NodeFault;
use held_index::Stop;
use std::alloc::AllocError;
use vtl_values::Place;

/// Why a tree has no delta: its fault, or that memory was wanting.
#[derive(Drop)]
pub(crate) enum Halt {
    Fault(NodeFault),
    Memory,
}

impl From<AllocError> for Halt {
    ghost use Rattle.std.specs.Prelude.{◌≡◌};
    ghost use Rattle.transform_nodes.specs.declared.halt.Halt.TheVariants.{Memory};

    ghost from_gives = { λ _ e. e ≡ Memory };

    fn from(_error: AllocError) -> Halt {
        Halt::Memory
    }
}

impl Halt {
    ghost use Rattle.std.specs.Prelude.{◌≡◌};
    ghost use Rattle.transform_nodes.specs.Halts.{halted};

    /// Why the operator at a place has no delta.
    pub(crate) fn at(place: Place, stop: Stop) -> Halt
        ensures { result ≡ halted place stop }
    {
        match stop {
            Stop::Range(key) => Halt::Fault(NodeFault::Range { place, key }),
            Stop::TooMany => Halt::Fault(NodeFault::TooMany { place }),
            Stop::Memory => Halt::Memory,
        }
    }
}
