// Points have no measure.
use crate::point::Point;
use ordered_tree::{Measure, Measured};
use std::alloc::{AllocError, Global};

/// The measure of a tree in which nothing is summed.
#[derive(Clone, Copy, Debug, PartialEq, Eq)]
pub struct Unmeasured {}

const UNMEASURED: Unmeasured = Unmeasured {};

impl Measure for Unmeasured {
    ghost use Rattle.std.specs.Prelude.{⊤};
    ghost use Rattle.point_sets.specs.Unmeasured.{unmeasured, unmeasured-monoid, unmeasured-fits};

    ghost nothing = { unmeasured };

    ghost join = { λ a b. unmeasured };

    ghost fits = { λ n m. ⊤ };

    fn none(_alloc: Global) -> Unmeasured {
        Unmeasured {}
    }

    fn around(
        _alloc: Global,
        _left: &Unmeasured,
        _before: u64,
        _item: &Unmeasured,
        _right: &Unmeasured,
        _after: u64,
    ) -> Result<Unmeasured, AllocError> {
        Ok(Unmeasured {})
    }

    ghost monoid = { unmeasured-monoid };

    ghost fitting = { unmeasured-fits };
}

impl Measured<Unmeasured> for Point {
    ghost use Rattle.point_sets.specs.Unmeasured.{unmeasured};

    ghost of = { λ point. unmeasured };

    fn measure(&self) -> &Unmeasured {
        &UNMEASURED
    }
}
