// Sums and differences, which are exact.
ghost use Rattle.std.specs.Prelude.{◌≡◌};
ghost use Rattle.std.specs.Result.{result_ok};
ghost use Rattle.vtl_decimals.specs.Arithmetic.{number_of, sum_of, difference_of};

use crate::range::Range;
use vtl_values::Decimal;

/// How many millionths a number has at most, either way.
const MOST_MILLIONTHS: u128 = 1_000_000_000_000_000_000_000;

/// The sum of two numbers.
pub fn add(a: Decimal, b: Decimal) -> Result<Decimal, Range>
    ensures { result_ok result ≡ sum_of a b }
{
    total(a.millionths + b.millionths)
}

/// The first number less the second.
pub fn sub(a: Decimal, b: Decimal) -> Result<Decimal, Range>
    ensures { result_ok result ≡ difference_of a b }
{
    total(a.millionths - b.millionths)
}

/// The number of `sum` millionths, an exact sum of numbers.
#[tactic(auto, unfolding(crate::specs::Arithmetic::number_of))]
pub fn total(sum: i128) -> Result<Decimal, Range>
    ensures { result_ok result ≡ number_of sum }
{
    if sum.unsigned_abs() <= MOST_MILLIONTHS {
        Ok(Decimal { millionths: sum })
    } else {
        Err(Range)
    }
}
