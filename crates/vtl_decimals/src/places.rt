// Numbers cut or rounded at a decimal place, and the remainder that goes with the floor.
ghost use Rattle.std.specs.Prelude.{◌≡◌, ◌^◌, pos, neg_ℤ, ◌≤ℤ◌};
ghost use Rattle.vtl_decimals.specs.Arithmetic.{unit_of, rounding_of, truncation_of, ceiling_of, floor_of, remainder_of};

use crate::quotients::rounded_quotient;
use vtl_values::Decimal;

/// How many millionths one is.
const ONE: i128 = 1_000_000;

/// The first number less the second times the floor of their quotient: of the second's sign, and smaller. It is the
/// first for a zero second.
#[tactic(auto, unfolding(crate::specs::Arithmetic::floor_quotient))]
pub fn modulo(a: Decimal, b: Decimal) -> Decimal
    ensures { result ≡ remainder_of a b }
{
    let (x, y) = (a.millionths, b.millionths);
    let millionths = if y == 0 {
        x
    } else if y < 0 {
        -(-x).rem_euclid(-y)
    } else {
        x.rem_euclid(y)
    };
    Decimal { millionths }
}

/// The number to so many digits after the point (before it, where `digits` is negative), a half away from zero.
pub fn round(a: Decimal, digits: i32) -> Decimal
    requires from { neg_ℤ (pos 15) ≤ℤ digits }
    requires to { digits ≤ℤ pos 6 }
    ensures { result ≡ rounding_of a digits }
{
    let unit = unit_of(digits);
    Decimal {
        millionths: rounded_quotient(a.millionths, unit) * unit,
    }
}

/// The number to so many digits after the point (before it, where `digits` is negative), towards zero.
pub fn trunc(a: Decimal, digits: i32) -> Decimal
    requires from { neg_ℤ (pos 15) ≤ℤ digits }
    requires to { digits ≤ℤ pos 6 }
    ensures { result ≡ truncation_of a digits }
{
    let unit = unit_of(digits);
    Decimal {
        millionths: a.millionths / unit * unit,
    }
}

/// The least whole number that isn't less.
#[tactic(auto, unfolding(crate::specs::Arithmetic::floor_quotient))]
pub fn ceil(a: Decimal) -> Decimal
    ensures { result ≡ ceiling_of a }
{
    Decimal {
        millionths: -((-a.millionths).div_euclid(ONE) * ONE),
    }
}

/// The largest whole number that isn't more.
#[tactic(auto, unfolding(crate::specs::Arithmetic::floor_quotient))]
pub fn floor(a: Decimal) -> Decimal
    ensures { result ≡ floor_of a }
{
    Decimal {
        millionths: a.millionths.div_euclid(ONE) * ONE,
    }
}

/// How many millionths the last digit of `digits` counts.
fn unit_of(digits: i32) -> i128
    requires from { neg_ℤ (pos 15) ≤ℤ digits }
    requires to { digits ≤ℤ pos 6 }
    ensures { result ≡ pos (unit_of digits) }
{
    10i128.pow((6 - digits) as u32)
}
