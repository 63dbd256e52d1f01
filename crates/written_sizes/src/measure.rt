// Sums and products of weights, none of them above the limit.
ghost use Rattle.std.specs.Prelude.{◌≡◌, ◌-◌, ◌^◌, min};
ghost use Rattle.written_sizes.specs.Arithmetic as meant;

use crate::sizes::{own_expressions, own_levels};
use operator_faults::What;

/// What is counted: the expressions of an outline, or its levels and one more.
#[derive(Clone, Copy, PartialEq, Eq)]
pub enum Measure {
    Expressions,
    Levels,
}

const EXPRESSIONS: u64 = 1_000_001;

const DEPTH: u64 = 66;

/// The weight from which on all are too large.
fn limit(measure: Measure) -> u64
    ensures { result ≡ meant.limit measure }
{
    match measure {
        Measure::Expressions => EXPRESSIONS,
        Measure::Levels => DEPTH,
    }
}

/// The weight of two parts.
pub(crate) fn add(measure: Measure, a: u64, b: u64) -> u64
    ensures { result ≡ (meant.limited measure).add a b }
{
    let sum = match measure {
        Measure::Expressions => a.saturating_add(b),
        Measure::Levels => a.max(b),
    };
    sum.min(limit(measure))
}

/// The weight of a part that stands so many times, or so deep.
pub(crate) fn multiply(measure: Measure, a: u64, b: u64) -> u64
    ensures { result ≡ (meant.limited measure).multiply a b }
{
    let product = match measure {
        Measure::Expressions => a.saturating_mul(b),
        Measure::Levels => deeper(a, b),
    };
    product.min(limit(measure))
}

fn deeper(a: u64, b: u64) -> u64
    ensures { result ≡ min (meant.deep a b) (2 ^ 64 - 1) }
{
    if a == 0 || b == 0 {
        0
    } else {
        (a - 1).saturating_add(b)
    }
}

/// How often parts count that stand below.
pub(crate) fn factor(measure: Measure, what: &What) -> u64
    ensures { result ≡ meant.factor measure what.now }
{
    match measure {
        Measure::Expressions => 1,
        Measure::Levels => own_levels(what) + 1,
    }
}

/// What stands there without parts.
pub(crate) fn alone(measure: Measure, what: &What) -> u64
    ensures { result ≡ meant.alone measure what.now }
{
    match measure {
        Measure::Expressions => own_expressions(what),
        Measure::Levels => 1,
    }
}
