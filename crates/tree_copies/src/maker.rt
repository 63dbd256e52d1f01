// What makes one level of a tree anew, and the expressions inside.
ghost use Rattle.std.specs.Prelude.{◌≡◌, ◌<◌, IfOk, map};
ghost use Rattle.std.specs.Option.{option_map};
ghost use denote.Param.Weighed.{most};
ghost use Rattle.vtl_syntax.specs.declared.expr.Expr.{size-Expr};
ghost use Rattle.tree_copies.specs.Made.{made};
ghost use Rattle.tree_copies.specs.Parts.{MakesParts, if_some};

use sqlite_items::{Boxed, Items};
use std::alloc::{AllocError, Global};
use vtl_syntax::Expr;

/// What names and calls of defined operators become in a tree that is made anew.
pub trait Naming {
    ghost use Rattle.tree_copies.specs.Made.{Names, Calls};

    ghost name: { Self → Names };

    ghost call: { Self → Calls };
}

/// Makes one level of a tree anew; `expression` makes each expression that stands in it. So each function is proved by
/// itself, outside the recursion.
#[derive(Clone, Copy)]
pub struct Maker<'a, W, F> {
    pub alloc: Global,
    /// What tells what names and calls become.
    pub by: &'a W,
    /// The tree.
    pub tree: &'a Expr,
    /// Makes an expression that stands in the tree.
    pub expression: F,
}

impl<W: Naming + Copy, F: Fn(Global, &W, &Expr) -> Result<Expr, AllocError> + Copy> Maker<
    '_,
    W,
    F,
> {
    /// An expression that stands in the tree.
    fn part(&self, tree: &Expr) -> Result<Expr, AllocError>
        requires makes { MakesParts self.now.tree.now (W.name self.now.by.now) (W.call self.now.by.now) (F.pre self.now.expression self.now.alloc self.now.by) (F.post self.now.expression self.now.alloc self.now.by) }
        requires inside { size-Expr tree.now < size-Expr self.now.tree.now }
        ensures { IfOk result (λ answer. answer ≡ made (W.name self.now.by.now) (W.call self.now.by.now) tree.now) }
    {
        (self.expression)(self.alloc, self.by, tree)
    }

    pub(crate) fn boxed(&self, tree: &Boxed<Expr>) -> Result<Boxed<Expr>, AllocError>
        requires makes { MakesParts self.now.tree.now (W.name self.now.by.now) (W.call self.now.by.now) (F.pre self.now.expression self.now.alloc self.now.by) (F.post self.now.expression self.now.alloc self.now.by) }
        requires inside { size-Expr tree.now < size-Expr self.now.tree.now }
        ensures { IfOk result (λ answer. answer ≡ made (W.name self.now.by.now) (W.call self.now.by.now) tree.now) }
    {
        Boxed::new(self.alloc, self.part(tree.get())?)
    }

    pub(crate) fn optional(
        &self,
        tree: &Option<Boxed<Expr>>,
    ) -> Result<Option<Boxed<Expr>>, AllocError>
        requires makes { MakesParts self.now.tree.now (W.name self.now.by.now) (W.call self.now.by.now) (F.pre self.now.expression self.now.alloc self.now.by) (F.post self.now.expression self.now.alloc self.now.by) }
        requires inside { if_some size-Expr tree.now < size-Expr self.now.tree.now }
        ensures { IfOk result (λ answer. answer ≡ option_map (made (W.name self.now.by.now) (W.call self.now.by.now)) tree.now) }
    {
        match tree {
            Some(tree) => Ok(Some(self.boxed(tree)?)),
            None => Ok(None),
        }
    }

    /// Expressions that stand in the tree.
    pub fn each(&self, trees: &[Expr]) -> Result<Items<Expr>, AllocError>
        requires makes { MakesParts self.now.tree.now (W.name self.now.by.now) (W.call self.now.by.now) (F.pre self.now.expression self.now.alloc self.now.by) (F.post self.now.expression self.now.alloc self.now.by) }
        requires inside { most size-Expr trees.now < size-Expr self.now.tree.now }
        ensures { IfOk result (λ answer. answer ≡ map (made (W.name self.now.by.now) (W.call self.now.by.now)) trees.now) }
    {
        let mut answer = Items::new(self.alloc);
        for tree in trees {
            answer.push(self.part(tree)?)?;
        }
        Ok(answer)
    }
}
