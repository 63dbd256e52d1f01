// `check` on a data set and its imbalance.
ghost use Rattle.std.specs.Prelude.{◌<◌, ◌∷◌};
ghost use Rattle.vtl_syntax.specs.declared.expr.Expr.{size-Expr};
ghost use Rattle.expression_rules.specs.Expressions as meant;
ghost use Rattle.expression_rules.specs.OnChecks.{check_typed};
ghost use Rattle.statement_typing.specs.Names.{naming_of};
ghost use Rattle.statement_typing.specs.Parts.{Answers, TypesParts, after_all, if_some, of_optional};

use crate::checker::Checker;
use crate::names::Names;
use data_set_trees::Operand;
use rule_typing::error_with;
use scalar_trees::typing::TypeStop;
use set_typing::check;
use sqlite_items::Boxed;
use std::alloc::Global;
use vtl_syntax::Expr;
use vtl_syntax::words::CheckOutput;
use vtl_values::{Integer, Place, Word};

impl<F: Fn(Global, &Names<'_>, &Expr) -> Result<Operand, TypeStop> + Copy> Checker<'_, '_, F> {
    /// `check(a errorcode .. errorlevel .. imbalance .. output)`
    pub(crate) fn check(
        &self,
        operand: &Boxed<Expr>,
        code: &Option<Word>,
        level: Option<Integer>,
        imbalance: &Option<Boxed<Expr>>,
        output: Option<CheckOutput>,
        place: Place,
    ) -> Result<Operand, TypeStop>
        requires types { TypesParts self.now.tree.now self.now.names (F.pre self.now.expression self.now.alloc) (F.post self.now.expression self.now.alloc) }
        requires operand { size-Expr operand.now < size-Expr self.now.tree.now }
        requires imbalance { if_some size-Expr imbalance.now < size-Expr self.now.tree.now }
        ensures { Answers (after_all (naming_of self.now.names.now) (meant.typing operand.now ∷ of_optional imbalance.now) (check_typed (record { code = code.now; level = level }) output place)) result }
    {
        let mut operands = self.one(operand)?;
        operands.append(self.optional(imbalance)?)?;
        let error = error_with(code, level)?;
        check(self.alloc, error, output, place, operands)
    }
}
