// Why a text has no tokens.
use std::alloc::AllocError;
use vtl_values::Place;

/// What stops a text from being cut into tokens.
#[derive(Clone, Copy, Debug, PartialEq, Eq)]
pub enum LexFault {
    /// No token and no comment begins so, or it holds bytes that aren't UTF-8, or it is a name of no characters.
    BadByte,
    /// A string, or a name in quotes, isn't closed.
    OpenString,
    OpenComment,
    /// A literal is out of range, or has a digit other than 0 after the sixth decimal.
    NumberTooLong,
}

/// Why the tokens of a text weren't made: a fault and the place of the first byte of what can't be read.
#[derive(Clone, Copy, Debug, PartialEq, Eq)]
pub enum LexStop {
    Fault(LexFault, Place),
    Memory,
}

/// Why a piece at the front of a text wasn't read.
#[derive(Clone, Copy, Debug, PartialEq, Eq)]
pub enum PieceStop {
    Bad(LexFault),
    Memory,
}

impl From<AllocError> for PieceStop {
    ghost use Rattle.std.specs.Prelude.{◌≡◌};
    ghost use Rattle.vtl_lexer.specs.declared.stop.PieceStop.{PieceStop};

    ghost from_gives = { λ error stop. stop ≡ PieceStop.Memory };

    fn from(error: AllocError) -> Self {
        PieceStop::Memory
    }
}

impl From<AllocError> for LexStop {
    ghost use Rattle.std.specs.Prelude.{◌≡◌};
    ghost use Rattle.vtl_lexer.specs.declared.stop.LexStop.{LexStop};

    ghost from_gives = { λ error stop. stop ≡ LexStop.Memory };

    fn from(error: AllocError) -> Self {
        LexStop::Memory
    }
}
