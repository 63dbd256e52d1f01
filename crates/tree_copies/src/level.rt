// One level of a tree, made anew.
ghost use Rattle.std.specs.Prelude.{◌≡◌, IfOk};
ghost use Rattle.tree_copies.specs.Made.{made};
ghost use Rattle.tree_copies.specs.Parts.{MakesParts};
ghost use Rattle.tree_copies.specs.Shapes.{IsOther};

use crate::maker::{Maker, Naming};
use std::alloc::{AllocError, Global};
use vtl_syntax::Expr;

impl<W: Naming + Copy, F: Fn(Global, &W, &Expr) -> Result<Expr, AllocError> + Copy> Maker<
    '_,
    W,
    F,
> {
    /// The tree, which is no name and no call, with what `expression` makes of each expression in it, or want of memory.
    pub fn level(&self) -> Result<Expr, AllocError>
        requires makes { MakesParts self.now.tree.now (W.name self.now.by.now) (W.call self.now.by.now) (F.pre self.now.expression self.now.alloc self.now.by) (F.post self.now.expression self.now.alloc self.now.by) }
        requires other { IsOther self.now.tree.now }
        ensures { IfOk result (λ answer. answer ≡ made (W.name self.now.by.now) (W.call self.now.by.now) self.now.tree.now) }
    {
        match self.tree {
            Expr::If { .. } => self.more_parts(),
            Expr::Or { .. } => self.compared(),
            Expr::And { .. } => self.compared(),
            Expr::Compare { .. } => self.compared(),
            Expr::In { .. } => self.part_and_words(),
            Expr::Sum { .. } => self.combined(),
            Expr::Product { .. } => self.combined(),
            Expr::Signed { .. } => self.one_part(),
            Expr::Member { .. } => self.part_and_words(),
            Expr::Clause { .. } => self.more_parts(),
            Expr::Literal { .. } => self.leaf(),
            Expr::Name { .. } => unreachable!(),
            Expr::Bracket { .. } => self.one_part(),
            Expr::Unary { .. } => self.one_part(),
            Expr::Round { .. } => self.part_and_number(),
            Expr::Binary { .. } => self.combined(),
            Expr::Between { .. } => self.part_and_words(),
            Expr::MatchCharacters { .. } => self.part_and_words(),
            Expr::Substr { .. } => self.more_parts(),
            Expr::Replace { .. } => self.other_parts(),
            Expr::ExistsIn { .. } => self.two_data_sets(),
            Expr::Sets { .. } => self.other_parts(),
            Expr::Difference { .. } => self.two_data_sets(),
            Expr::Join { .. } => self.joined(),
            Expr::Aggregate { .. } => self.other_parts(),
            Expr::Window { .. } => self.part_and_window(),
            Expr::CountAll { .. } => self.leaf(),
            Expr::Offset { .. } => self.part_and_window(),
            Expr::Rank { .. } => self.leaf(),
            Expr::CheckDatapoint { .. } => self.checked(),
            Expr::Hierarchy { .. } => self.by_hierarchy(),
            Expr::CheckHierarchy { .. } => self.by_hierarchy(),
            Expr::Check { .. } => self.checked(),
            Expr::Time { .. } => self.one_part(),
            Expr::Timeshift { .. } => self.part_and_number(),
            Expr::FillTimeSeries { .. } => self.part_and_number(),
            Expr::CallOf { .. } => unreachable!(),
            Expr::Typed { .. } => self.one_part(),
        }
    }
}
