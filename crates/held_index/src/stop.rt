// Why a rule has no delta.
use point_sets::Key;
use std::alloc::{AllocError, AllocFailed};
use std::sync::Arc;

/// Why there is no delta.
#[derive(Debug, Drop)]
pub enum Stop {
    /// The least key at which an evaluation is out of range.
    Range(Arc<Key>),
    /// The result has more points than a data set may have.
    TooMany,
    Memory,
}

impl From<AllocError> for Stop {
    ghost use Rattle.std.specs.Prelude.{◌≡◌};
    ghost use Rattle.held_index.specs.declared.stop.Stop.TheVariants.{Memory};

    ghost from_gives = { λ _ e. e ≡ Memory };

    fn from(_error: AllocError) -> Stop {
        Stop::Memory
    }
}

impl<T: Drop> From<AllocFailed<T>> for Stop {
    ghost use Rattle.std.specs.Prelude.{◌≡◌};
    ghost use Rattle.held_index.specs.declared.stop.Stop.TheVariants.{Memory};

    ghost from_gives = { λ _ e. e ≡ Memory };

    fn from(_failed: AllocFailed<T>) -> Stop {
        Stop::Memory
    }
}
