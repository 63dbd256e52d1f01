// Why there is no script.
use std::alloc::AllocError;
use vtl_tokens::Keyword;
use vtl_values::Place;

/// What is wrong with tokens that are no script.
#[derive(Clone, Copy, Debug, PartialEq, Eq)]
pub enum ParseFault {
    /// No script goes on with the token, or ends there.
    Expected,
    /// A script goes on with it only if it may have more levels.
    TooDeep,
    /// No script goes on with it, and it is a word of the whole language that is left out.
    LeftOut(Keyword),
    /// A script goes on with it only if it may have more operands, rules, statements or rulesets.
    TooMany,
}

/// Why no script was read: a fault and the place of its token or of the end; or want of memory.
#[derive(Clone, Copy, Debug, PartialEq, Eq)]
pub enum ParseStop {
    Fault(ParseFault, Place),
    Memory,
}

impl From<AllocError> for ParseStop {
    ghost use Rattle.std.specs.Prelude.{◌≡◌};
    ghost use Rattle.vtl_parser.specs.declared.stop.ParseStop.{ParseStop};

    ghost from_gives = { λ error stop. stop ≡ ParseStop.Memory };

    fn from(error: AllocError) -> Self {
        ParseStop::Memory
    }
}
