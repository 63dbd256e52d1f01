// Why reading stops.
use std::alloc::AllocError;

/// What is counted, and has a limit.
#[derive(Clone, Copy, Debug, PartialEq, Eq)]
pub enum Limit {
    /// The operands of a call after the second.
    Operands,
    /// The rules of a ruleset after the first.
    Rules,
    /// The parameters of an operator after the first.
    Parameters,
    Statements,
    Rulesets,
    Operators,
    /// The items of a list without a limit of its own, which are fewer than the tokens.
    Lists,
}

impl Limit {
    ghost use Rattle.std.specs.Prelude.{◌≡◌};
    ghost use Rattle.vtl_cursor.specs.Limits.{limits};
    ghost use Rattle.vtl_cursor.specs.Views.{limit_of};

    /// How many of them there may be.
    pub fn most(self) -> u64
        ensures { result ≡ limits (limit_of self) }
    {
        match self {
            Limit::Operands => 6,
            Limit::Rules => 255,
            Limit::Parameters => 15,
            Limit::Statements => 256,
            Limit::Rulesets => 64,
            Limit::Operators => 64,
            Limit::Lists => u64::MAX,
        }
    }
}

/// Why reading stops at a token, or at the end.
#[derive(Clone, Copy, Debug, PartialEq, Eq)]
pub enum Kind {
    /// No script of any limits goes on with it.
    Expected,
    /// It would be one level too many.
    TooDeep,
    /// It would be one too many of what is counted.
    TooMany(Limit),
}

/// Out of memory, or a fault at the first token that is left, or at the end.
#[derive(Clone, Copy, Debug, PartialEq, Eq)]
pub enum Stop {
    Memory,
    At(Kind),
}

impl From<AllocError> for Stop {
    ghost use Rattle.std.specs.Prelude.{◌≡◌};
    ghost use Rattle.vtl_cursor.specs.declared.stop.Stop.TheVariants.{Memory};

    ghost from_gives = { λ error stop. stop ≡ Memory };

    fn from(error: AllocError) -> Self {
        Stop::Memory
    }
}
