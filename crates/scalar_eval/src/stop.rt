// Why an evaluation gives no value.
use std::alloc::AllocError;
use vtl_decimals::Range;

/// Why an expression has no value, or wasn't worked out.
#[derive(Clone, Copy, Debug, PartialEq, Eq)]
pub enum EvalStop {
    /// The value is out of range.
    Range,
    /// Memory ran out.
    Memory,
}

impl From<Range> for EvalStop {
    ghost use Rattle.std.specs.Prelude.{◌≡◌};
    ghost use Rattle.scalar_eval.specs.declared.stop.EvalStop.TheVariants.{Range as out_of_range};

    ghost from_gives = { λ _ stop. stop ≡ out_of_range };

    fn from(_range: Range) -> EvalStop {
        EvalStop::Range
    }
}

impl From<AllocError> for EvalStop {
    ghost use Rattle.std.specs.Prelude.{◌≡◌};
    ghost use Rattle.scalar_eval.specs.declared.stop.EvalStop.TheVariants.{Memory};

    ghost from_gives = { λ _ stop. stop ≡ Memory };

    fn from(_error: AllocError) -> EvalStop {
        EvalStop::Memory
    }
}
