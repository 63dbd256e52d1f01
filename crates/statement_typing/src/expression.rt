// Expressions outside of clauses.
ghost use Rattle.std.specs.Prelude.{◌≡◌, Ok, IfOk, IfErr};
ghost use Rattle.scalar_trees.specs.typing.Steps.{Refuses};
ghost use Rattle.expression_rules.specs.Expressions.{typed};
ghost use Rattle.statement_typing.specs.Names.{naming_of};
ghost use Rattle.statement_typing.specs.Parts.{Answers};

use crate::checker::Checker;
use crate::names::Names;
use data_set_trees::Operand;
use scalar_trees::typing::TypeStop;
use std::alloc::Global;
use vtl_syntax::Expr;

fn types(alloc: Global, names: &Names<'_>, tree: &Expr) -> Result<Operand, TypeStop>
    ensures { Answers (typed (naming_of names.now) tree.now) result }
{
    let checker = Checker {
        alloc,
        names,
        tree,
        expression: types,
    };
    checker.level()
}

/// An expression outside of clauses: the data set or the scalar that it is; or its first fault at its place, or want of
/// memory. Operands are looked at first, in order, and then what is made of them.
pub fn check_expression(alloc: Global, names: &Names<'_>, tree: &Expr) -> Result<Operand, TypeStop>
    ensures ok { IfOk result (λ o. typed (naming_of names.now) tree.now ≡ Ok o) }
    ensures err { IfErr result (Refuses (typed (naming_of names.now) tree.now)) }
{
    types(alloc, names, tree)
}
