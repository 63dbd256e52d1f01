// What school arithmetic says of the definitions: of ranges, quotients, remainders, whole numbers and places.
ghost use Rattle.std.specs.Prelude.{◌≡◌, ◌≢◌, ◌*◌, ◌<◌, ◌≤◌, ℤ, pos, ◌+ℤ◌, ◌-ℤ◌, ◌*ℤ◌, ◌≤ℤ◌, ◌<ℤ◌, nat_abs, Some, None};
ghost use Rattle.vtl_values.specs.Ranges.{MOST_MILLIONTHS, IsNumber};
ghost use Rattle.vtl_decimals.specs.Arithmetic.{ONE, number_of, rounded_quotient, IsNearest, floor_quotient, remainder_of, unit_of, rounding_of, truncation_of, floor_of, ceiling_of};

/// A count of millionths is out of range exactly where it passes the greatest size, and else it is the number.
pub fn ranges()
    ensures within { (z : ℤ) → IsNumber z → number_of z ≡ Some z }
    ensures beyond { (z : ℤ) → MOST_MILLIONTHS < nat_abs z → number_of z ≡ None }
    ensures made { (z x : ℤ) → number_of z ≡ Some x → (x ≡ z) × IsNumber x }
{}

/// A rounded quotient is the one whole number that is nearest to the exact quotient, a half away from zero.
pub fn quotients()
    ensures nearest { (a b : ℤ) → b ≢ pos 0 → IsNearest a b (rounded_quotient a b) }
    ensures only { (a b q : ℤ) → b ≢ pos 0 → IsNearest a b q → q ≡ rounded_quotient a b }
{}

/// A remainder is what the floor of the quotient leaves; it lies between zero and the divisor, on the divisor's side.
pub fn remainders()
    ensures whole { (x y : ℤ) → y *ℤ floor_quotient x y +ℤ remainder_of x y ≡ x }
    ensures positive { (x y : ℤ) → pos 0 <ℤ y → (pos 0 ≤ℤ remainder_of x y) × (remainder_of x y <ℤ y) }
    ensures negative { (x y : ℤ) → y <ℤ pos 0 → (y <ℤ remainder_of x y) × (remainder_of x y ≤ℤ pos 0) }
    ensures zero { (x : ℤ) → remainder_of x (pos 0) ≡ x }
{}

/// A floor is less than one below a number, and a ceiling less than one above it.
pub fn whole_numbers()
    ensures floor { (a : ℤ) → (floor_of a ≤ℤ a) × (a <ℤ (floor_of a +ℤ pos ONE)) }
    ensures ceiling { (a : ℤ) → (a ≤ℤ ceiling_of a) × ((ceiling_of a -ℤ pos ONE) <ℤ a) }
{}

/// A rounded number is at most half a place away; a cut one is less than a place away, and no further from zero.
pub fn places()
    ensures rounded { (a digits : ℤ) → 2 * nat_abs (rounding_of a digits -ℤ a) ≤ unit_of digits }
    ensures cut { (a digits : ℤ) → nat_abs (a -ℤ truncation_of a digits) < unit_of digits }
    ensures not_further { (a digits : ℤ) → nat_abs (truncation_of a digits) ≤ nat_abs a }
{}
