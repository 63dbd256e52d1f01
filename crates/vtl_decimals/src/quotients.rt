// Products, quotients and means: exact, and then rounded once.
ghost use Rattle.std.specs.Prelude.{◌≡◌, ◌≢◌, ◌*◌, ◌^◌, ◌<◌, ◌≤◌, pos, neg_ℤ, nat_abs, if◌then◌else◌};
ghost use Rattle.std.specs.Result.{result_ok};
ghost use Rattle.vtl_values.specs.Ranges.{MOST_MILLIONTHS};
ghost use Rattle.vtl_decimals.specs.Arithmetic.{nearest, rounded_quotient, product_of, quotient_of, mean_of};

use crate::range::Range;
use crate::sums::total;
use vtl_values::Decimal;

/// How many millionths one is.
const ONE: u128 = 1_000_000;

/// The product of two numbers.
pub fn mul(a: Decimal, b: Decimal) -> Result<Decimal, Range>
    ensures { result_ok result ≡ product_of a b }
{
    let (x, y) = (a.millionths.unsigned_abs(), b.millionths.unsigned_abs());
    let size = x / ONE * y + nearest(x % ONE * y, ONE);
    total(signed(
        size,
        a.millionths.is_negative() != b.millionths.is_negative(),
    ))
}

/// The first number divided by the second; none for a zero divisor.
pub fn div(a: Decimal, b: Decimal) -> Result<Option<Decimal>, Range>
    ensures { result_ok result ≡ quotient_of a b }
{
    ratio(a, b.millionths)
}

/// The share of a number in an exact sum of `sum` millionths; none for a zero sum.
pub fn ratio(x: Decimal, sum: i128) -> Result<Option<Decimal>, Range>
    requires { nat_abs sum ≤ 10 ^ 27 }
    ensures { result_ok result ≡ quotient_of x sum }
{
    if sum == 0 {
        return Ok(None);
    }
    Ok(Some(total(rounded_quotient(x.millionths * ONE as i128, sum))?))
}

/// The mean of `count` numbers whose exact sum is `sum` millionths.
pub fn mean(sum: i128, count: u64) -> Decimal
    requires counted { 0 < count }
    requires summed { nat_abs sum ≤ count * MOST_MILLIONTHS }
    ensures { result ≡ mean_of sum count }
{
    Decimal {
        millionths: rounded_quotient(sum, count as i128),
    }
}

/// `a / b` to the nearest whole number, a half away from zero.
pub(crate) fn rounded_quotient(a: i128, b: i128) -> i128
    requires nonzero { b ≢ pos 0 }
    requires fits { nearest (nat_abs a) (nat_abs b) < 2 ^ 127 }
    ensures { result ≡ rounded_quotient a b }
{
    let size = nearest(a.unsigned_abs(), b.unsigned_abs());
    signed(size, a.is_negative() != b.is_negative())
}

/// `size / by` to the nearest whole number, a half upwards.
fn nearest(size: u128, by: u128) -> u128
    requires { 0 < by }
    ensures { result ≡ nearest size by }
{
    let (whole, rest) = (size / by, size % by);
    if rest >= by - rest { whole + 1 } else { whole }
}

/// The whole number of a size and a sign.
fn signed(size: u128, is_negative: bool) -> i128
    requires { size < 2 ^ 127 }
    ensures { result ≡ (if is_negative then neg_ℤ (pos size) else pos size) }
{
    if is_negative {
        -(size as i128)
    } else {
        size as i128
    }
}
