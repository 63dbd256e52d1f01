// Measures, which add up.
ghost use Rattle.std.specs.Prelude.{◌≡◌, ℕ, ◌+◌, ◌≤◌, ◌^◌, IfOk};
ghost use Rattle.ordered_tree.specs.Measures.{MonoidLaws, FitLaws};

use std::alloc::{AllocError, Global};

/// What is known of a run of items, as a count or a sum: that of two runs, one after the other, is the two joined.
pub trait Measure {
    ghost nothing: { Self };

    ghost join: { Self → Self → Self };

    /// What a run of so many items can have.
    ghost fits: { ℕ → Self → Type 0 };

    fn none(alloc: Global) -> Self
        ensures { result ≡ nothing };

    /// The measure of one run, an item and another run.
    fn around(
        alloc: Global,
        left: &Self,
        before: u64,
        item: &Self,
        right: &Self,
        after: u64,
    ) -> Result<Self, AllocError>
        requires left { fits before left.now }
        requires item { fits 1 item.now }
        requires right { fits after right.now }
        requires few { before + after + 1 ≤ 2 ^ 32 }
        ensures { IfOk result (λ m. m ≡ join left.now (join item.now right.now)) };

    ghost monoid: { MonoidLaws nothing join };

    ghost fitting: { FitLaws nothing join fits };
}

/// An item that has a measure.
pub trait Measured<M: Measure> {
    ghost of: { Self → M };

    fn measure(&self) -> &M
        ensures is { result.now ≡ of self.now }
        ensures fits { M.fits 1 result.now };
}

/// One thing that measures tell, as one of several sums. It is read and joined without memory.
pub trait Reading<M: Measure, S> {
    ghost of: { Self → M → S };

    ghost join: { S → S → S };

    fn none(&self) -> S
        ensures { result ≡ of self.now M.nothing };

    fn read(&self, measure: &M) -> S
        ensures { result ≡ of self.now measure.now };

    /// What is read of one run, an item and another run.
    fn around(&self, left: S, before: u64, item: S, right: S, after: u64) -> S
        requires left { (m : M) × M.fits before m × (left ≡ of self.now m) }
        requires item { (m : M) × M.fits 1 m × (item ≡ of self.now m) }
        requires right { (m : M) × M.fits after m × (right ≡ of self.now m) }
        requires few { before + after + 1 ≤ 2 ^ 32 }
        ensures { result ≡ join left (join item right) };

    ghost joined: { (reading : Self) (a b : M) → of reading (M.join a b) ≡ join (of reading a) (of reading b) };
}
