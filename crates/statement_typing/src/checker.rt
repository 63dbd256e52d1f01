// What types one level of an expression, and the expressions inside.
ghost use Rattle.std.specs.Prelude.{◌<◌, ◌∷◌, [], map};
ghost use denote.Param.Weighed.{most};
ghost use Rattle.vtl_syntax.specs.declared.expr.Expr.{size-Expr};
ghost use Rattle.vtl_syntax.specs.declared.expr.SubstrRange.{size-SubstrRange};
ghost use Rattle.expression_rules.specs.Expressions as meant;
ghost use Rattle.statement_typing.specs.Names.{naming_of};
ghost use Rattle.statement_typing.specs.Parts.{Answers, TypesParts, if_some, of_optional, of_range, of_optional_range};

use crate::names::Names;
use data_set_trees::Operand;
use scalar_trees::typing::TypeStop;
use sqlite_items::{Boxed, Items};
use std::alloc::Global;
use vtl_syntax::{Expr, SubstrRange};

/// Types one level of an expression; `expression` types each expression that stands in it. So each function is proved by
/// itself, outside the recursion.
#[derive(Clone, Copy)]
pub(crate) struct Checker<'a, 'n, F> {
    pub(crate) alloc: Global,
    /// What names stand for.
    pub(crate) names: &'a Names<'n>,
    pub(crate) tree: &'a Expr,
    /// Types an expression that stands in the tree.
    pub(crate) expression: F,
}

impl<F: Fn(Global, &Names<'_>, &Expr) -> Result<Operand, TypeStop> + Copy> Checker<'_, '_, F> {
    /// An expression that stands in the tree.
    fn part_of(&self, tree: &Expr) -> Result<Operand, TypeStop>
        requires types { TypesParts self.now.tree.now self.now.names (F.pre self.now.expression self.now.alloc) (F.post self.now.expression self.now.alloc) }
        requires inside { size-Expr tree.now < size-Expr self.now.tree.now }
        ensures { Answers (meant.typed (naming_of self.now.names.now) tree.now) result }
    {
        (self.expression)(self.alloc, self.names, tree)
    }

    /// The same in its box.
    pub(crate) fn part(&self, tree: &Boxed<Expr>) -> Result<Operand, TypeStop>
        requires types { TypesParts self.now.tree.now self.now.names (F.pre self.now.expression self.now.alloc) (F.post self.now.expression self.now.alloc) }
        requires inside { size-Expr tree.now < size-Expr self.now.tree.now }
        ensures { Answers (meant.typed (naming_of self.now.names.now) tree.now) result }
    {
        self.part_of(tree.get())
    }

    /// What it is in a box, to be held while others are typed.
    pub(crate) fn boxed(&self, tree: &Boxed<Expr>) -> Result<Boxed<Operand>, TypeStop>
        requires types { TypesParts self.now.tree.now self.now.names (F.pre self.now.expression self.now.alloc) (F.post self.now.expression self.now.alloc) }
        requires inside { size-Expr tree.now < size-Expr self.now.tree.now }
        ensures { Answers (meant.typed (naming_of self.now.names.now) tree.now) result }
    {
        let operand = self.part(tree)?;
        Ok(Boxed::new(self.alloc, operand)?)
    }

    /// One operand.
    pub(crate) fn one(&self, tree: &Boxed<Expr>) -> Result<Items<Operand>, TypeStop>
        requires types { TypesParts self.now.tree.now self.now.names (F.pre self.now.expression self.now.alloc) (F.post self.now.expression self.now.alloc) }
        requires inside { size-Expr tree.now < size-Expr self.now.tree.now }
        ensures { Answers (meant.all_typed (meant.typing tree.now ∷ []) (naming_of self.now.names.now)) result }
    {
        let mut operands = Items::from_vec(Vec::with_capacity(self.alloc, 1)?);
        operands.push(self.part(tree)?)?;
        Ok(operands)
    }

    /// Two operands, in order.
    pub(crate) fn two(
        &self,
        left: &Boxed<Expr>,
        right: &Boxed<Expr>,
    ) -> Result<Items<Operand>, TypeStop>
        requires types { TypesParts self.now.tree.now self.now.names (F.pre self.now.expression self.now.alloc) (F.post self.now.expression self.now.alloc) }
        requires left { size-Expr left.now < size-Expr self.now.tree.now }
        requires right { size-Expr right.now < size-Expr self.now.tree.now }
        ensures { Answers (meant.all_typed (meant.typing left.now ∷ meant.typing right.now ∷ []) (naming_of self.now.names.now)) result }
    {
        let mut operands = Items::from_vec(Vec::with_capacity(self.alloc, 2)?);
        operands.push(self.part(left)?)?;
        operands.push(self.part(right)?)?;
        Ok(operands)
    }

    /// An operand that may be left out.
    pub(crate) fn optional(&self, tree: &Option<Boxed<Expr>>) -> Result<Items<Operand>, TypeStop>
        requires types { TypesParts self.now.tree.now self.now.names (F.pre self.now.expression self.now.alloc) (F.post self.now.expression self.now.alloc) }
        requires inside { if_some size-Expr tree.now < size-Expr self.now.tree.now }
        ensures { Answers (meant.all_typed (of_optional tree.now) (naming_of self.now.names.now)) result }
    {
        match tree {
            Some(tree) => self.one(tree),
            None => Ok(Items::new(self.alloc)),
        }
    }

    /// The start of a range, and its length where it is given.
    fn start_and_length(&self, range: &SubstrRange) -> Result<Items<Operand>, TypeStop>
        requires types { TypesParts self.now.tree.now self.now.names (F.pre self.now.expression self.now.alloc) (F.post self.now.expression self.now.alloc) }
        requires inside { size-SubstrRange range.now < size-Expr self.now.tree.now }
        ensures { Answers (meant.all_typed (of_range range.now) (naming_of self.now.names.now)) result }
    {
        let mut operands = self.one(&range.start)?;
        operands.append(self.optional(&range.length)?)?;
        Ok(operands)
    }

    /// A range that may be left out.
    pub(crate) fn range(&self, range: &Option<SubstrRange>) -> Result<Items<Operand>, TypeStop>
        requires types { TypesParts self.now.tree.now self.now.names (F.pre self.now.expression self.now.alloc) (F.post self.now.expression self.now.alloc) }
        requires inside { if_some size-SubstrRange range.now < size-Expr self.now.tree.now }
        ensures { Answers (meant.all_typed (of_optional_range range.now) (naming_of self.now.names.now)) result }
    {
        match range {
            Some(range) => self.start_and_length(range),
            None => Ok(Items::new(self.alloc)),
        }
    }

    /// Operands, in order.
    pub(crate) fn each(&self, trees: &[Expr]) -> Result<Items<Operand>, TypeStop>
        requires types { TypesParts self.now.tree.now self.now.names (F.pre self.now.expression self.now.alloc) (F.post self.now.expression self.now.alloc) }
        requires inside { most size-Expr trees.now < size-Expr self.now.tree.now }
        ensures { Answers (meant.all_typed (map meant.typing trees.now) (naming_of self.now.names.now)) result }
    {
        let mut operands = Items::new(self.alloc);
        for tree in trees {
            operands.push(self.part_of(tree)?)?;
        }
        Ok(operands)
    }
}
