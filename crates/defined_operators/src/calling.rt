// What a writer does with calls.

/// What becomes of the calls in a tree.
#[derive(Clone, Copy)]
pub(crate) enum Calling {
    /// the sorts of their operators are put to them
    Sorted,
    /// they stay; arguments that aren't used where so many calls are replaced are left out
    Kept(usize),
    /// they are replaced, so many inside each other
    Opened(usize),
}
