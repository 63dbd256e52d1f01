// Expressions with at most one other in them, made anew.
ghost use Rattle.std.specs.Prelude.{◌≡◌, IfOk};
ghost use Rattle.tree_copies.specs.Made.{made};
ghost use Rattle.tree_copies.specs.Parts.{MakesParts};
ghost use Rattle.tree_copies.specs.Shapes.{shape_of, no_part, one_part, part_and_number, part_and_words, part_and_window};

use crate::lists::copy_values;
use crate::maker::{Maker, Naming};
use crate::windows::copy_over;
use std::alloc::{AllocError, Global};
use vtl_syntax::Expr;

impl<W: Naming + Copy, F: Fn(Global, &W, &Expr) -> Result<Expr, AllocError> + Copy> Maker<
    '_,
    W,
    F,
> {
    /// An expression with no other in it.
    pub(crate) fn leaf(&self) -> Result<Expr, AllocError>
        requires shape { shape_of self.now.tree.now ≡ no_part }
        ensures { IfOk result (λ answer. answer ≡ made (W.name self.now.by.now) (W.call self.now.by.now) self.now.tree.now) }
    {
        match self.tree {
            Expr::Literal { value, place } => Ok(Expr::Literal {
                value: value.copy()?,
                place: *place,
            }),
            Expr::CountAll { place } => Ok(Expr::CountAll { place: *place }),
            Expr::Rank { over, place } => Ok(Expr::Rank {
                over: copy_over(self.alloc, over)?,
                place: *place,
            }),
            _ => unreachable!(),
        }
    }

    /// An expression with another in it.
    pub(crate) fn one_part(&self) -> Result<Expr, AllocError>
        requires makes { MakesParts self.now.tree.now (W.name self.now.by.now) (W.call self.now.by.now) (F.pre self.now.expression self.now.alloc self.now.by) (F.post self.now.expression self.now.alloc self.now.by) }
        requires shape { shape_of self.now.tree.now ≡ one_part }
        ensures { IfOk result (λ answer. answer ≡ made (W.name self.now.by.now) (W.call self.now.by.now) self.now.tree.now) }
    {
        match self.tree {
            Expr::Signed {
                sign,
                operand,
                place,
            } => Ok(Expr::Signed {
                sign: *sign,
                operand: self.boxed(operand)?,
                place: *place,
            }),
            Expr::Bracket { inner, place } => Ok(Expr::Bracket {
                inner: self.boxed(inner)?,
                place: *place,
            }),
            Expr::Unary {
                function,
                operand,
                place,
            } => Ok(Expr::Unary {
                function: *function,
                operand: self.boxed(operand)?,
                place: *place,
            }),
            Expr::Time {
                function,
                operand,
                place,
            } => Ok(Expr::Time {
                function: *function,
                operand: self.boxed(operand)?,
                place: *place,
            }),
            Expr::Typed { sort, expr, place } => Ok(Expr::Typed {
                sort: *sort,
                expr: self.boxed(expr)?,
                place: *place,
            }),
            _ => unreachable!(),
        }
    }

    /// The same, with a number or a span.
    pub(crate) fn part_and_number(&self) -> Result<Expr, AllocError>
        requires makes { MakesParts self.now.tree.now (W.name self.now.by.now) (W.call self.now.by.now) (F.pre self.now.expression self.now.alloc self.now.by) (F.post self.now.expression self.now.alloc self.now.by) }
        requires shape { shape_of self.now.tree.now ≡ part_and_number }
        ensures { IfOk result (λ answer. answer ≡ made (W.name self.now.by.now) (W.call self.now.by.now) self.now.tree.now) }
    {
        match self.tree {
            Expr::Round {
                function,
                operand,
                digits,
                place,
            } => Ok(Expr::Round {
                function: *function,
                operand: self.boxed(operand)?,
                digits: *digits,
                place: *place,
            }),
            Expr::Timeshift {
                operand,
                shift,
                place,
            } => Ok(Expr::Timeshift {
                operand: self.boxed(operand)?,
                shift: *shift,
                place: *place,
            }),
            Expr::FillTimeSeries {
                operand,
                span,
                place,
            } => Ok(Expr::FillTimeSeries {
                operand: self.boxed(operand)?,
                span: *span,
                place: *place,
            }),
            _ => unreachable!(),
        }
    }

    /// The same, with words or values.
    pub(crate) fn part_and_words(&self) -> Result<Expr, AllocError>
        requires makes { MakesParts self.now.tree.now (W.name self.now.by.now) (W.call self.now.by.now) (F.pre self.now.expression self.now.alloc self.now.by) (F.post self.now.expression self.now.alloc self.now.by) }
        requires shape { shape_of self.now.tree.now ≡ part_and_words }
        ensures { IfOk result (λ answer. answer ≡ made (W.name self.now.by.now) (W.call self.now.by.now) self.now.tree.now) }
    {
        match self.tree {
            Expr::In {
                left,
                sign,
                set,
                place,
            } => Ok(Expr::In {
                left: self.boxed(left)?,
                sign: *sign,
                set: copy_values(self.alloc, set.as_slice())?,
                place: *place,
            }),
            Expr::Member {
                operand,
                name,
                place,
            } => Ok(Expr::Member {
                operand: self.boxed(operand)?,
                name: name.copy()?,
                place: *place,
            }),
            Expr::Between {
                operand,
                low,
                high,
                place,
            } => Ok(Expr::Between {
                operand: self.boxed(operand)?,
                low: low.copy()?,
                high: high.copy()?,
                place: *place,
            }),
            Expr::MatchCharacters {
                operand,
                pattern,
                place,
            } => Ok(Expr::MatchCharacters {
                operand: self.boxed(operand)?,
                pattern: pattern.copy()?,
                place: *place,
            }),
            _ => unreachable!(),
        }
    }

    /// The same, with a window.
    pub(crate) fn part_and_window(&self) -> Result<Expr, AllocError>
        requires makes { MakesParts self.now.tree.now (W.name self.now.by.now) (W.call self.now.by.now) (F.pre self.now.expression self.now.alloc self.now.by) (F.post self.now.expression self.now.alloc self.now.by) }
        requires shape { shape_of self.now.tree.now ≡ part_and_window }
        ensures { IfOk result (λ answer. answer ≡ made (W.name self.now.by.now) (W.call self.now.by.now) self.now.tree.now) }
    {
        match self.tree {
            Expr::Window {
                function,
                operand,
                over,
                place,
            } => Ok(Expr::Window {
                function: *function,
                operand: self.boxed(operand)?,
                over: copy_over(self.alloc, over)?,
                place: *place,
            }),
            Expr::Offset {
                function,
                operand,
                offset,
                over,
                place,
            } => Ok(Expr::Offset {
                function: *function,
                operand: self.boxed(operand)?,
                offset: *offset,
                over: copy_over(self.alloc, over)?,
                place: *place,
            }),
            _ => unreachable!(),
        }
    }
}
