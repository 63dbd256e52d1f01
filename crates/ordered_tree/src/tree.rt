// Trees.
ghost use Rattle.std.specs.Prelude.{◌≡◌, ◌+◌, ◌<◌, ◌^◌, [], ◌∷◌, ◌++◌, length, IfOk, ◌≤◌, slice_get, slice_set, ◌-◌, ◌*◌, map, OnOk};
ghost use Rattle.std.specs.Arc.{arc_value};
ghost use Rattle.std.specs.Option.{option_copied, option_map};
ghost use Rattle.std.specs.List.{insert, remove, prefix_len};
ghost use Rattle.ordered_tree.specs.Lists.{listed, stretch, Parted};
ghost use Rattle.ordered_tree.specs.Measures.{total};
ghost use Rattle.ordered_tree.specs.Balance.{Balanced, NearlyBalanced, DoubleTurns};

use crate::measure::{Measure, Measured, Reading};
use crate::order::Probe;
use std::alloc::{AllocError, Global};
use std::marker::Model;
use std::sync::Arc;

/// A sequence of shared items. Contracts see it as the list of them.
#[cycle(tree)]
#[derive(Drop)]
pub struct Tree<T: Measured<M> + Drop, M: Measure + Drop> {
    root: Link<T, M>,
}

#[cycle(tree)]
#[derive(Drop)]
enum Link<T: Measured<M> + Drop, M: Measure + Drop> {
    Empty,
    At(Arc<Fork<T, M>>),
}

#[cycle(tree)]
#[derive(Drop)]
struct Fork<T: Measured<M> + Drop, M: Measure + Drop> {
    left: Tree<T, M>,
    item: Arc<T>,
    size: u64,
    total: M,
    right: Tree<T, M>,
}

impl<T: Measured<M> + Drop, M: Measure + Drop> Model for Tree<T, M> {
    ghost use Rattle.std.specs.Prelude.{List, length};

    ghost Value = { List T };

    ghost use Rattle.ordered_tree.specs.Items.{items, IsTree};

    ghost view = { λ a. items a.root };

    ghost invariant = { λ a. IsTree M.nothing M.join M.fits T.of a.root };

    ghost size = { length };

    ghost use Rattle.std.proofs.Common.{arith, length-append};

    ghost size_decreases = { λ a h. Prim.grind (arith, length-append) };
}

impl<T: Measured<M> + Drop, M: Measure + Drop> Tree<T, M> {
    /// No items.
    pub fn new() -> Tree<T, M>
        ensures { result ≡ [] }
    {
        Tree { root: Link::Empty }
    }

    /// How many items there are.
    pub fn len(&self) -> u64
        ensures { result ≡ length self.now }
    {
        match &self.root {
            Link::Empty => 0,
            Link::At(fork) => fork.size,
        }
    }

    /// An equal tree, which shares the nodes.
    pub fn copy(&self) -> Result<Tree<T, M>, AllocError>
        ensures { IfOk result (λ tree. tree ≡ self.now) }
    {
        match &self.root {
            Link::Empty => Ok(Tree { root: Link::Empty }),
            Link::At(fork) => Ok(Tree {
                root: Link::At(Arc::try_clone(fork)?),
            }),
        }
    }

    /// The item before which n others stand.
    pub fn nth(&self, n: u64) -> Option<&Arc<T>>
        ensures { option_map arc_value (option_copied result) ≡ slice_get self.now n }
    {
        match &self.root {
            Link::Empty => None,
            Link::At(fork) => {
                let before = fork.left.len();
                if n < before {
                    fork.left.nth(n)
                } else if n == before {
                    Some(&fork.item)
                } else {
                    fork.right.nth(n - before - 1)
                }
            }
        }
    }

    /// How many items are below the place that a probe looks for.
    pub fn place<P: Probe<T>>(&self, probe: &P) -> u64
        requires parted { Parted (P.test probe.now) self.now }
        ensures within { result ≤ length self.now }
        ensures place { result ≡ prefix_len (P.test probe.now) self.now }
    {
        let Link::At(fork) = &self.root else {
            return 0;
        };
        let fork: &Fork<T, M> = fork;
        let item: &T = &fork.item;
        if probe.is_below(item) {
            fork.left.len() + 1 + fork.right.place(probe)
        } else {
            fork.left.place(probe)
        }
    }

    /// What a reading tells of the items from one place up to another.
    pub fn read_between<S, R: Reading<M, S>>(&self, reading: &R, from: u64, to: u64) -> S
        requires from { from ≤ to }
        requires to { to ≤ length self.now }
        ensures value { result ≡ R.of reading.now (total M.nothing M.join T.of (stretch from to self.now)) }
        ensures fits { M.fits (to - from) (total M.nothing M.join T.of (stretch from to self.now)) }
    {
        let Link::At(fork) = &self.root else {
            return reading.none();
        };
        let fork: &Fork<T, M> = fork;
        let before = fork.left.len();
        if from == 0 && to == fork.size {
            reading.read(&fork.total)
        } else if to <= before {
            fork.left.read_between(reading, from, to)
        } else if from > before {
            fork.right
                .read_between(reading, from - before - 1, to - before - 1)
        } else {
            let later = to - before - 1;
            let left = fork.left.read_between(reading, from, before);
            let right = fork.right.read_between(reading, 0, later);
            let item: &T = &fork.item;
            let own = reading.read(item.measure());
            reading.around(left, before - from, own, right, later)
        }
    }

    /// Adds the items, in order.
    pub fn push_to(&self, all: &mut Vec<Arc<T>>) -> Result<(), AllocError>
        ensures { OnOk result (map arc_value all.new.items ≡ map arc_value all.old.items ++ self.now) }
    {
        let Link::At(fork) = &self.root else {
            return Ok(());
        };
        let fork: &Fork<T, M> = fork;
        fork.left.push_to(all)?;
        all.push(fork.item.clone()?)?;
        fork.right.push_to(all)
    }

    /// The tree with an item put in, before which n others stand.
    pub fn insert_at(&self, alloc: Global, n: u64, item: Arc<T>) -> Result<Tree<T, M>, AllocError>
        requires within { n ≤ length self.now }
        requires few { length self.now + 1 ≤ 2 ^ 32 }
        ensures { IfOk result (λ tree. tree ≡ insert self.now n (arc_value item)) }
    {
        let Link::At(fork) = &self.root else {
            return joined(alloc, Tree::new(), item, Tree::new());
        };
        let before = fork.left.len();
        if n <= before {
            let left = fork.left.insert_at(alloc, n, item)?;
            balanced(alloc, left, fork.item.clone()?, fork.right.copy()?)
        } else {
            let right = fork.right.insert_at(alloc, n - before - 1, item)?;
            balanced(alloc, fork.left.copy()?, fork.item.clone()?, right)
        }
    }

    /// The tree with another item in place of that before which n others stand.
    pub fn replace_at(&self, alloc: Global, n: u64, item: Arc<T>) -> Result<Tree<T, M>, AllocError>
        requires { n < length self.now }
        ensures { IfOk result (λ tree. tree ≡ slice_set self.now n (arc_value item)) }
    {
        let Link::At(fork) = &self.root else {
            unreachable!()
        };
        let before = fork.left.len();
        if n < before {
            let left = fork.left.replace_at(alloc, n, item)?;
            joined(alloc, left, fork.item.clone()?, fork.right.copy()?)
        } else if n == before {
            joined(alloc, fork.left.copy()?, item, fork.right.copy()?)
        } else {
            let right = fork.right.replace_at(alloc, n - before - 1, item)?;
            joined(alloc, fork.left.copy()?, fork.item.clone()?, right)
        }
    }

    /// The tree without the item before which n others stand.
    pub fn remove_at(&self, alloc: Global, n: u64) -> Result<Tree<T, M>, AllocError>
        requires { n < length self.now }
        ensures { IfOk result (λ tree. tree ≡ remove self.now n) }
    {
        let Link::At(fork) = &self.root else {
            unreachable!()
        };
        let before = fork.left.len();
        if n < before {
            let left = fork.left.remove_at(alloc, n)?;
            balanced(alloc, left, fork.item.clone()?, fork.right.copy()?)
        } else if n == before {
            glued(alloc, &fork.left, &fork.right)
        } else {
            let right = fork.right.remove_at(alloc, n - before - 1)?;
            balanced(alloc, fork.left.copy()?, fork.item.clone()?, right)
        }
    }

    /// The first item, and the tree without it.
    fn split_first(&self, alloc: Global) -> Result<Option<(Arc<T>, Tree<T, M>)>, AllocError>
        ensures { IfOk result (λ split. listed split ≡ self.now) }
    {
        let Link::At(fork) = &self.root else {
            return Ok(None);
        };
        match fork.left.split_first(alloc)? {
            None => Ok(Some((fork.item.clone()?, fork.right.copy()?))),
            Some((first, left)) => {
                let rest = balanced(alloc, left, fork.item.clone()?, fork.right.copy()?)?;
                Ok(Some((first, rest)))
            }
        }
    }

    /// The measure of all items, or the one given, which is that of none.
    fn total_or<'a>(&'a self, none: &'a M) -> &'a M
        requires none { none.now ≡ M.nothing }
        requires fits { M.fits 0 none.now }
        ensures total { result.now ≡ total M.nothing M.join T.of self.now }
        ensures fits { M.fits (length self.now) result.now }
    {
        match &self.root {
            Link::Empty => none,
            Link::At(fork) => &fork.total,
        }
    }
}

/// A tree of two that are balanced, and an item between them.
fn joined<T: Measured<M> + Drop, M: Measure + Drop>(
    alloc: Global,
    left: Tree<T, M>,
    item: Arc<T>,
    right: Tree<T, M>,
) -> Result<Tree<T, M>, AllocError>
    requires few { length left + length right + 1 ≤ 2 ^ 32 }
    requires balanced { Balanced (length left) (length right) }
    ensures { IfOk result (λ tree. tree ≡ left ++ arc_value item ∷ right) }
{
    let (before, after) = (left.len(), right.len());
    let none = M::none(alloc);
    let total = M::around(
        alloc,
        left.total_or(&none),
        before,
        item.measure(),
        right.total_or(&none),
        after,
    )?;
    Ok(Tree {
        root: Link::At(Arc::new(
            alloc,
            Fork {
                left,
                item,
                size: before + after + 1,
                total,
                right,
            },
        )?),
    })
}

/// A tree of two that were balanced before one of them had an item more or less, and an item between them.
fn balanced<T: Measured<M> + Drop, M: Measure + Drop>(
    alloc: Global,
    left: Tree<T, M>,
    item: Arc<T>,
    right: Tree<T, M>,
) -> Result<Tree<T, M>, AllocError>
    requires few { length left + length right + 1 ≤ 2 ^ 32 }
    requires near { NearlyBalanced (length left) (length right) }
    ensures { IfOk result (λ tree. tree ≡ left ++ arc_value item ∷ right) }
{
    let (before, after) = (left.len() + 1, right.len() + 1);
    if after > 3 * before {
        turned_left(alloc, left, item, &right)
    } else if before > 3 * after {
        turned_right(alloc, &left, item, right)
    } else {
        joined(alloc, left, item, right)
    }
}

/// The same where the right side is too heavy.
fn turned_left<T: Measured<M> + Drop, M: Measure + Drop>(
    alloc: Global,
    left: Tree<T, M>,
    item: Arc<T>,
    right: &Tree<T, M>,
) -> Result<Tree<T, M>, AllocError>
    requires few { length left + length right.now + 1 ≤ 2 ^ 32 }
    requires heavy { 3 * (length left + 1) < length right.now + 1 }
    requires near { length right.now + 1 ≤ 3 * (length left + 1) + 3 }
    ensures { IfOk result (λ tree. tree ≡ left ++ arc_value item ∷ right.now) }
{
    let Link::At(fork) = &right.root else {
        unreachable!()
    };
    if fork.left.len() + 1 < 2 * (fork.right.len() + 1) {
        let side = joined(alloc, left, item, fork.left.copy()?)?;
        joined(alloc, side, fork.item.clone()?, fork.right.copy()?)
    } else {
        turned_left_twice(alloc, left, item, &fork.left, &fork.item, &fork.right)
    }
}

/// The same where the middle is too heavy: its sides go to the two others.
fn turned_left_twice<T: Measured<M> + Drop, M: Measure + Drop>(
    alloc: Global,
    left: Tree<T, M>,
    item: Arc<T>,
    middle: &Tree<T, M>,
    other: &Arc<T>,
    right: &Tree<T, M>,
) -> Result<Tree<T, M>, AllocError>
    requires few { length left + length middle.now + length right.now + 2 ≤ 2 ^ 32 }
    requires wide { DoubleTurns (length left) (length middle.now) (length right.now) }
    ensures { IfOk result (λ tree. tree ≡ left ++ arc_value item ∷ (middle.now ++ arc_value other.now ∷ right.now)) }
{
    let Link::At(fork) = &middle.root else {
        unreachable!()
    };
    let before = joined(alloc, left, item, fork.left.copy()?)?;
    let after = joined(alloc, fork.right.copy()?, other.clone()?, right.copy()?)?;
    joined(alloc, before, fork.item.clone()?, after)
}

/// The same where the left side is too heavy.
fn turned_right<T: Measured<M> + Drop, M: Measure + Drop>(
    alloc: Global,
    left: &Tree<T, M>,
    item: Arc<T>,
    right: Tree<T, M>,
) -> Result<Tree<T, M>, AllocError>
    requires few { length left.now + length right + 1 ≤ 2 ^ 32 }
    requires heavy { 3 * (length right + 1) < length left.now + 1 }
    requires near { length left.now + 1 ≤ 3 * (length right + 1) + 3 }
    ensures { IfOk result (λ tree. tree ≡ left.now ++ arc_value item ∷ right) }
{
    let Link::At(fork) = &left.root else {
        unreachable!()
    };
    if fork.right.len() + 1 < 2 * (fork.left.len() + 1) {
        let side = joined(alloc, fork.right.copy()?, item, right)?;
        joined(alloc, fork.left.copy()?, fork.item.clone()?, side)
    } else {
        turned_right_twice(alloc, &fork.left, &fork.item, &fork.right, item, right)
    }
}

/// The same where the middle is too heavy: its sides go to the two others.
fn turned_right_twice<T: Measured<M> + Drop, M: Measure + Drop>(
    alloc: Global,
    left: &Tree<T, M>,
    other: &Arc<T>,
    middle: &Tree<T, M>,
    item: Arc<T>,
    right: Tree<T, M>,
) -> Result<Tree<T, M>, AllocError>
    requires few { length left.now + length middle.now + length right + 2 ≤ 2 ^ 32 }
    requires wide { DoubleTurns (length right) (length middle.now) (length left.now) }
    ensures { IfOk result (λ tree. tree ≡ (left.now ++ arc_value other.now ∷ middle.now) ++ arc_value item ∷ right) }
{
    let Link::At(fork) = &middle.root else {
        unreachable!()
    };
    let before = joined(alloc, left.copy()?, other.clone()?, fork.left.copy()?)?;
    let after = joined(alloc, fork.right.copy()?, item, right)?;
    joined(alloc, before, fork.item.clone()?, after)
}

/// The sides of a fork, without its item.
fn glued<T: Measured<M> + Drop, M: Measure + Drop>(
    alloc: Global,
    left: &Tree<T, M>,
    right: &Tree<T, M>,
) -> Result<Tree<T, M>, AllocError>
    requires few { length left.now + length right.now ≤ 2 ^ 32 }
    requires balanced { Balanced (length left.now) (length right.now) }
    ensures { IfOk result (λ tree. tree ≡ left.now ++ right.now) }
{
    match right.split_first(alloc)? {
        None => left.copy(),
        Some((item, rest)) => balanced(alloc, left.copy()?, item, rest),
    }
}
