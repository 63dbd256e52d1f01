// Expressions with two others in them, made anew.
ghost use Rattle.std.specs.Prelude.{◌≡◌, IfOk};
ghost use Rattle.tree_copies.specs.Made.{made};
ghost use Rattle.tree_copies.specs.Parts.{MakesParts};
ghost use Rattle.tree_copies.specs.Shapes.{shape_of, compared, combined, two_data_sets};

use crate::maker::{Maker, Naming};
use std::alloc::{AllocError, Global};
use vtl_syntax::Expr;

impl<W: Naming + Copy, F: Fn(Global, &W, &Expr) -> Result<Expr, AllocError> + Copy> Maker<
    '_,
    W,
    F,
> {
    /// Two expressions that give a truth.
    pub(crate) fn compared(&self) -> Result<Expr, AllocError>
        requires makes { MakesParts self.now.tree.now (W.name self.now.by.now) (W.call self.now.by.now) (F.pre self.now.expression self.now.alloc self.now.by) (F.post self.now.expression self.now.alloc self.now.by) }
        requires shape { shape_of self.now.tree.now ≡ compared }
        ensures { IfOk result (λ answer. answer ≡ made (W.name self.now.by.now) (W.call self.now.by.now) self.now.tree.now) }
    {
        match self.tree {
            Expr::Or {
                left,
                sign,
                right,
                place,
            } => Ok(Expr::Or {
                left: self.boxed(left)?,
                sign: *sign,
                right: self.boxed(right)?,
                place: *place,
            }),
            Expr::And { left, right, place } => Ok(Expr::And {
                left: self.boxed(left)?,
                right: self.boxed(right)?,
                place: *place,
            }),
            Expr::Compare {
                left,
                sign,
                right,
                place,
            } => Ok(Expr::Compare {
                left: self.boxed(left)?,
                sign: *sign,
                right: self.boxed(right)?,
                place: *place,
            }),
            _ => unreachable!(),
        }
    }

    /// Two expressions that give a number or a text.
    pub(crate) fn combined(&self) -> Result<Expr, AllocError>
        requires makes { MakesParts self.now.tree.now (W.name self.now.by.now) (W.call self.now.by.now) (F.pre self.now.expression self.now.alloc self.now.by) (F.post self.now.expression self.now.alloc self.now.by) }
        requires shape { shape_of self.now.tree.now ≡ combined }
        ensures { IfOk result (λ answer. answer ≡ made (W.name self.now.by.now) (W.call self.now.by.now) self.now.tree.now) }
    {
        match self.tree {
            Expr::Sum {
                left,
                sign,
                right,
                place,
            } => Ok(Expr::Sum {
                left: self.boxed(left)?,
                sign: *sign,
                right: self.boxed(right)?,
                place: *place,
            }),
            Expr::Product {
                left,
                sign,
                right,
                place,
            } => Ok(Expr::Product {
                left: self.boxed(left)?,
                sign: *sign,
                right: self.boxed(right)?,
                place: *place,
            }),
            Expr::Binary {
                function,
                left,
                right,
                place,
            } => Ok(Expr::Binary {
                function: *function,
                left: self.boxed(left)?,
                right: self.boxed(right)?,
                place: *place,
            }),
            _ => unreachable!(),
        }
    }

    /// Two data sets, of which points of the first stay.
    pub(crate) fn two_data_sets(&self) -> Result<Expr, AllocError>
        requires makes { MakesParts self.now.tree.now (W.name self.now.by.now) (W.call self.now.by.now) (F.pre self.now.expression self.now.alloc self.now.by) (F.post self.now.expression self.now.alloc self.now.by) }
        requires shape { shape_of self.now.tree.now ≡ two_data_sets }
        ensures { IfOk result (λ answer. answer ≡ made (W.name self.now.by.now) (W.call self.now.by.now) self.now.tree.now) }
    {
        match self.tree {
            Expr::ExistsIn {
                left,
                right,
                rows,
                place,
            } => Ok(Expr::ExistsIn {
                left: self.boxed(left)?,
                right: self.boxed(right)?,
                rows: *rows,
                place: *place,
            }),
            Expr::Difference {
                function,
                left,
                right,
                place,
            } => Ok(Expr::Difference {
                function: *function,
                left: self.boxed(left)?,
                right: self.boxed(right)?,
                place: *place,
            }),
            _ => unreachable!(),
        }
    }
}
