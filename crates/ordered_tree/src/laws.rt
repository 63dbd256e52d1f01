// Laws of the shape of trees.
ghost use Rattle.std.specs.Prelude.{ℕ, List, length, ◌+◌, ◌*◌, ◌^◌, ◌≤◌};
ghost use Rattle.ordered_tree.specs.Balance.{IsSide, IsDescent};
ghost use Rattle.ordered_tree.specs.Items.{IsFork};
ghost use Rattle.ordered_tree.specs.declared.tree.Fork.{Fork};

use crate::measure::{Measure, Measured};

/// The sides of each fork have sizes that balance allows.
pub fn forks_are_balanced<T: Measured<M>, M: Measure>()
    ensures left { (fork : Fork T M) → IsFork M.nothing M.join M.fits T.of fork → IsSide fork.size (length fork.left) }
    ensures right { (fork : Fork T M) → IsFork M.nothing M.join M.fits T.of fork → IsSide fork.size (length fork.right) }
{}

/// So a descent from n items, each step to a side, meets at most as many forks as the logarithm of n + 1 to the base
/// 4/3.
pub fn descents_are_short()
    ensures { (n : ℕ) (sizes : List ℕ) → IsDescent n sizes → 4 ^ length sizes ≤ 3 ^ length sizes * (n + 1) }
{}
