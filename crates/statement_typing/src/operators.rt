// Scalar operators on their operands.
ghost use Rattle.std.specs.Prelude.{◌<◌, ◌∷◌, []};
ghost use Rattle.vtl_syntax.specs.declared.expr.Expr.{size-Expr};
ghost use Rattle.vtl_syntax.specs.declared.expr.SubstrRange.{size-SubstrRange};
ghost use Rattle.data_set_trees.specs.declared.form.Form.TheVariants as form;
ghost use Rattle.expression_rules.specs.Expressions as meant;
ghost use Rattle.statement_typing.specs.Names.{naming_of};
ghost use Rattle.statement_typing.specs.Parts.{Answers, TypesParts, if_some, of_optional, of_optional_range};

use crate::checker::Checker;
use crate::forms::{between, in_set, matches};
use crate::names::Names;
use data_set_trees::{Form, Operand};
use data_set_typing::lifted;
use scalar_trees::typing::TypeStop;
use scalar_trees::{BinaryOperator, UnaryOperator};
use sqlite_items::Boxed;
use std::alloc::Global;
use vtl_syntax::words::{InSign, RoundFunction};
use vtl_syntax::{Expr, SubstrRange};
use vtl_values::{Integer, Place, Value, Word};

impl<F: Fn(Global, &Names<'_>, &Expr) -> Result<Operand, TypeStop> + Copy> Checker<'_, '_, F> {
    /// A scalar operator on one operand.
    fn on_one(&self, form: &Form, operand: &Boxed<Expr>, place: Place) -> Result<Operand, TypeStop>
        requires types { TypesParts self.now.tree.now self.now.names (F.pre self.now.expression self.now.alloc) (F.post self.now.expression self.now.alloc) }
        requires inside { size-Expr operand.now < size-Expr self.now.tree.now }
        ensures { Answers (meant.on_operands form.now place (meant.typing operand.now ∷ []) (naming_of self.now.names.now)) result }
    {
        let operands = self.one(operand)?;
        lifted(self.alloc, self.names.plans(), form, place, operands)
    }

    /// A scalar operator on two operands.
    pub(crate) fn on_two(
        &self,
        form: &Form,
        left: &Boxed<Expr>,
        right: &Boxed<Expr>,
        place: Place,
    ) -> Result<Operand, TypeStop>
        requires types { TypesParts self.now.tree.now self.now.names (F.pre self.now.expression self.now.alloc) (F.post self.now.expression self.now.alloc) }
        requires left { size-Expr left.now < size-Expr self.now.tree.now }
        requires right { size-Expr right.now < size-Expr self.now.tree.now }
        ensures { Answers (meant.on_operands form.now place (meant.typing left.now ∷ meant.typing right.now ∷ []) (naming_of self.now.names.now)) result }
    {
        let operands = self.two(left, right)?;
        lifted(self.alloc, self.names.plans(), form, place, operands)
    }

    /// An operator of one operand.
    pub(crate) fn unary(
        &self,
        operator: UnaryOperator,
        operand: &Boxed<Expr>,
        place: Place,
    ) -> Result<Operand, TypeStop>
        requires types { TypesParts self.now.tree.now self.now.names (F.pre self.now.expression self.now.alloc) (F.post self.now.expression self.now.alloc) }
        requires inside { size-Expr operand.now < size-Expr self.now.tree.now }
        ensures { Answers (meant.on_operands (form.Unary operator) place (meant.typing operand.now ∷ []) (naming_of self.now.names.now)) result }
    {
        self.on_one(&Form::Unary(operator), operand, place)
    }

    /// An operator of two operands.
    pub(crate) fn binary(
        &self,
        operator: BinaryOperator,
        left: &Boxed<Expr>,
        right: &Boxed<Expr>,
        place: Place,
    ) -> Result<Operand, TypeStop>
        requires types { TypesParts self.now.tree.now self.now.names (F.pre self.now.expression self.now.alloc) (F.post self.now.expression self.now.alloc) }
        requires left { size-Expr left.now < size-Expr self.now.tree.now }
        requires right { size-Expr right.now < size-Expr self.now.tree.now }
        ensures { Answers (meant.on_operands (form.Binary operator) place (meant.typing left.now ∷ meant.typing right.now ∷ []) (naming_of self.now.names.now)) result }
    {
        self.on_two(&Form::Binary(operator), left, right, place)
    }

    /// `a in {..}`, `a not_in {..}`
    pub(crate) fn in_set(
        &self,
        operand: &Boxed<Expr>,
        sign: InSign,
        set: &[Value],
        place: Place,
    ) -> Result<Operand, TypeStop>
        requires types { TypesParts self.now.tree.now self.now.names (F.pre self.now.expression self.now.alloc) (F.post self.now.expression self.now.alloc) }
        requires inside { size-Expr operand.now < size-Expr self.now.tree.now }
        ensures { Answers (meant.on_operands (form.In sign set.now) place (meant.typing operand.now ∷ []) (naming_of self.now.names.now)) result }
    {
        let form = in_set(self.alloc, sign, set)?;
        self.on_one(&form, operand, place)
    }

    /// `between(a, low, high)`
    pub(crate) fn between(
        &self,
        operand: &Boxed<Expr>,
        low: &Value,
        high: &Value,
        place: Place,
    ) -> Result<Operand, TypeStop>
        requires types { TypesParts self.now.tree.now self.now.names (F.pre self.now.expression self.now.alloc) (F.post self.now.expression self.now.alloc) }
        requires inside { size-Expr operand.now < size-Expr self.now.tree.now }
        ensures { Answers (meant.on_operands (form.Between low.now high.now) place (meant.typing operand.now ∷ []) (naming_of self.now.names.now)) result }
    {
        let form = between(low, high)?;
        self.on_one(&form, operand, place)
    }

    /// `round` and `trunc`.
    pub(crate) fn round(
        &self,
        function: RoundFunction,
        operand: &Boxed<Expr>,
        digits: Option<Integer>,
        place: Place,
    ) -> Result<Operand, TypeStop>
        requires types { TypesParts self.now.tree.now self.now.names (F.pre self.now.expression self.now.alloc) (F.post self.now.expression self.now.alloc) }
        requires inside { size-Expr operand.now < size-Expr self.now.tree.now }
        ensures { Answers (meant.on_operands (form.Round function digits) place (meant.typing operand.now ∷ []) (naming_of self.now.names.now)) result }
    {
        self.on_one(&Form::Round { function, digits }, operand, place)
    }

    /// `match_characters(a, "pattern")`
    pub(crate) fn matched(
        &self,
        operand: &Boxed<Expr>,
        pattern: &Word,
        place: Place,
    ) -> Result<Operand, TypeStop>
        requires types { TypesParts self.now.tree.now self.now.names (F.pre self.now.expression self.now.alloc) (F.post self.now.expression self.now.alloc) }
        requires inside { size-Expr operand.now < size-Expr self.now.tree.now }
        ensures { Answers (meant.on_operands (form.Matches pattern.now) place (meant.typing operand.now ∷ []) (naming_of self.now.names.now)) result }
    {
        let form = matches(pattern)?;
        self.on_one(&form, operand, place)
    }

    /// `substr(a, start, length)`
    pub(crate) fn substr(
        &self,
        operand: &Boxed<Expr>,
        range: &Option<SubstrRange>,
        place: Place,
    ) -> Result<Operand, TypeStop>
        requires types { TypesParts self.now.tree.now self.now.names (F.pre self.now.expression self.now.alloc) (F.post self.now.expression self.now.alloc) }
        requires operand { size-Expr operand.now < size-Expr self.now.tree.now }
        requires range { if_some size-SubstrRange range.now < size-Expr self.now.tree.now }
        ensures { Answers (meant.on_operands form.Substr place (meant.typing operand.now ∷ of_optional_range range.now) (naming_of self.now.names.now)) result }
    {
        let mut operands = self.one(operand)?;
        operands.append(self.range(range)?)?;
        lifted(
            self.alloc,
            self.names.plans(),
            &Form::Substr,
            place,
            operands,
        )
    }

    /// `replace(a, pattern, by)`
    pub(crate) fn replaced(
        &self,
        operand: &Boxed<Expr>,
        pattern: &Boxed<Expr>,
        by: &Option<Boxed<Expr>>,
        place: Place,
    ) -> Result<Operand, TypeStop>
        requires types { TypesParts self.now.tree.now self.now.names (F.pre self.now.expression self.now.alloc) (F.post self.now.expression self.now.alloc) }
        requires operand { size-Expr operand.now < size-Expr self.now.tree.now }
        requires pattern { size-Expr pattern.now < size-Expr self.now.tree.now }
        requires by { if_some size-Expr by.now < size-Expr self.now.tree.now }
        ensures { Answers (meant.on_operands form.Replace place (meant.typing operand.now ∷ meant.typing pattern.now ∷ of_optional by.now) (naming_of self.now.names.now)) result }
    {
        let mut operands = self.two(operand, pattern)?;
        operands.append(self.optional(by)?)?;
        lifted(
            self.alloc,
            self.names.plans(),
            &Form::Replace,
            place,
            operands,
        )
    }
}
