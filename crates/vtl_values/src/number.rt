// Numbers and integers, each within the range of its kind.
use std::marker::Model;

/// A number: a whole count of millionths, at most 10^21 of them either way. Contracts see it as that count.
#[derive(Clone, Copy, Debug, PartialEq, Eq, PartialOrd, Ord)]
pub struct Decimal {
    pub millionths: i128,
}

impl Model for Decimal {
    ghost use Rattle.std.specs.Prelude.{ℤ};

    ghost Value = { ℤ };

    ghost use Rattle.vtl_values.specs.Ranges.{IsNumber};

    ghost view = { λ d. d.millionths };

    ghost invariant = { λ d. IsNumber d.millionths };

    ghost inverse = { λ z. record { millionths = z } };
}

/// An integer, at most 10^15 either way. Contracts see it as the integer.
#[derive(Clone, Copy, Debug, PartialEq, Eq, PartialOrd, Ord)]
pub struct Integer {
    pub value: i64,
}

impl Model for Integer {
    ghost use Rattle.std.specs.Prelude.{ℤ};

    ghost Value = { ℤ };

    ghost use Rattle.vtl_values.specs.Ranges.{IsInteger};

    ghost view = { λ n. n.value };

    ghost invariant = { λ n. IsInteger n.value };

    ghost inverse = { λ z. record { value = z } };
}

impl Decimal {
    /// The largest number, in millionths.
    pub const MOST: u128 = 1_000_000_000_000_000_000_000;
}

impl Integer {
    /// The largest integer.
    pub const MOST: u64 = 1_000_000_000_000_000;
}
