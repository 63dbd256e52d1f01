// Why the reading of rows stops.

use crate::cause::Cause;
use std::alloc::{AllocError, AllocFailed};
use vtl_values::ReadStop;

/// A row is refused, or memory is wanting.
#[derive(Clone, Copy, Debug, PartialEq, Eq)]
pub enum RowStop {
    Refused(Cause),
    Memory,
}

impl From<Cause> for RowStop {
    ghost use Rattle.std.specs.Prelude.{◌≡◌};
    ghost use Rattle.revision_judge.specs.declared.stop.RowStop.{RowStop};

    ghost from_gives = { λ cause stop. stop ≡ RowStop.Refused cause };

    fn from(cause: Cause) -> Self {
        RowStop::Refused(cause)
    }
}

impl From<AllocError> for RowStop {
    ghost use Rattle.std.specs.Prelude.{◌≡◌};
    ghost use Rattle.revision_judge.specs.declared.stop.RowStop.{RowStop};

    ghost from_gives = { λ _ stop. stop ≡ RowStop.Memory };

    fn from(_error: AllocError) -> Self {
        RowStop::Memory
    }
}

impl<T: Drop> From<AllocFailed<T>> for RowStop {
    ghost use Rattle.std.specs.Prelude.{◌≡◌};
    ghost use Rattle.revision_judge.specs.declared.stop.RowStop.{RowStop};

    ghost from_gives = { λ _ stop. stop ≡ RowStop.Memory };

    fn from(_failed: AllocFailed<T>) -> Self {
        RowStop::Memory
    }
}

impl From<ReadStop> for RowStop {
    ghost use Rattle.std.specs.Prelude.{◌≡◌};
    ghost use Rattle.revision_judge.specs.Stops.{stop_of_text};

    ghost from_gives = { λ text_stop stop. stop ≡ stop_of_text text_stop };

    fn from(stop: ReadStop) -> Self {
        match stop {
            ReadStop::Bad(fault) => RowStop::Refused(Cause::BadText(fault)),
            ReadStop::Memory => RowStop::Memory,
        }
    }
}
