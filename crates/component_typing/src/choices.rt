// Conditionals, and operators on texts, sets and bounds.
ghost use Rattle.std.specs.Prelude.{◌≡◌, ◌<◌, option_and_then, Ok, IfOk, IfErr};
ghost use Rattle.std.specs.Option.{option_map};
ghost use Rattle.vtl_syntax.specs.declared.expr.Expr.{size-Expr};
ghost use Rattle.vtl_syntax.specs.declared.expr.SubstrRange.{size-SubstrRange};
ghost use Rattle.scalar_trees.specs.typing.Steps.{Refuses};
ghost use Rattle.scalar_trees.specs.typing.Scopes.{kinds_of};
ghost use Rattle.scalar_trees.specs.typing.Sound.{IsTypedIf};
ghost use Rattle.scalar_trees.specs.typing.Scalars as meant;
ghost use Rattle.component_typing.specs.Parts.{Answers, TypesParts, if_some, after_typed, after_optional, range_meaning, substr_meaning};

use crate::checker::Checker;
use operator_typing::{
    between_typed, if_typed, in_typed, matches_typed, replace_typed, substr_typed,
};
use scalar_trees::typing::{Basis, Scope, TypeStop, Typed};
use sqlite_items::Boxed;
use std::alloc::Global;
use vtl_syntax::words::InSign;
use vtl_syntax::{Expr, SubstrRange};
use vtl_values::{Place, Value, Word};

impl<F: Fn(Global, &Scope, Basis, &Expr) -> Result<Typed, TypeStop> + Copy> Checker<'_, F> {
    /// `if c then a else b`
    pub(crate) fn chosen(
        &self,
        condition: &Boxed<Expr>,
        holds: &Boxed<Expr>,
        fails: &Boxed<Expr>,
        place: Place,
    ) -> Result<Typed, TypeStop>
        requires types { TypesParts self.now.tree.now self.now.scope (F.pre self.now.expression self.now.alloc) (F.post self.now.expression self.now.alloc) }
        requires condition { size-Expr condition.now < size-Expr self.now.tree.now }
        requires holds { size-Expr holds.now < size-Expr self.now.tree.now }
        requires fails { size-Expr fails.now < size-Expr self.now.tree.now }
        ensures { Answers (kinds_of self.now.scope.now.columns self.now.basis) (after_typed self.now.scope.now self.now.basis condition.now (λ x. after_typed self.now.scope.now self.now.basis holds.now (λ y. after_typed self.now.scope.now self.now.basis fails.now (meant.if_typed place x y)))) result }
    {
        let condition = self.part(condition)?;
        let holds = self.part(holds)?;
        let fails = self.part(fails)?;
        if_typed(self.alloc, place, condition, holds, fails)
    }

    /// `a in {..}`, `a not_in {..}`
    pub(crate) fn in_set(
        &self,
        operand: &Boxed<Expr>,
        sign: InSign,
        set: &[Value],
        place: Place,
    ) -> Result<Typed, TypeStop>
        requires types { TypesParts self.now.tree.now self.now.scope (F.pre self.now.expression self.now.alloc) (F.post self.now.expression self.now.alloc) }
        requires inside { size-Expr operand.now < size-Expr self.now.tree.now }
        ensures { Answers (kinds_of self.now.scope.now.columns self.now.basis) (after_typed self.now.scope.now self.now.basis operand.now (meant.in_typed sign set.now place)) result }
    {
        let operand = self.part(operand)?;
        in_typed(self.alloc, sign, set, place, operand)
    }

    /// `between(a, low, high)`
    pub(crate) fn between(
        &self,
        operand: &Boxed<Expr>,
        low: &Value,
        high: &Value,
        place: Place,
    ) -> Result<Typed, TypeStop>
        requires types { TypesParts self.now.tree.now self.now.scope (F.pre self.now.expression self.now.alloc) (F.post self.now.expression self.now.alloc) }
        requires inside { size-Expr operand.now < size-Expr self.now.tree.now }
        ensures { Answers (kinds_of self.now.scope.now.columns self.now.basis) (after_typed self.now.scope.now self.now.basis operand.now (meant.between_typed low.now high.now place)) result }
    {
        let operand = self.part(operand)?;
        between_typed(self.alloc, low, high, place, operand)
    }

    /// `match_characters(a, "pattern")`
    pub(crate) fn matched(
        &self,
        operand: &Boxed<Expr>,
        pattern: &Word,
        place: Place,
    ) -> Result<Typed, TypeStop>
        requires types { TypesParts self.now.tree.now self.now.scope (F.pre self.now.expression self.now.alloc) (F.post self.now.expression self.now.alloc) }
        requires inside { size-Expr operand.now < size-Expr self.now.tree.now }
        ensures { Answers (kinds_of self.now.scope.now.columns self.now.basis) (after_typed self.now.scope.now self.now.basis operand.now (meant.matches_typed pattern.now place)) result }
    {
        let operand = self.part(operand)?;
        matches_typed(self.alloc, pattern, place, operand)
    }

    /// An expression that may be left out.
    fn optional(&self, tree: &Option<Boxed<Expr>>) -> Result<Option<Typed>, TypeStop>
        requires types { TypesParts self.now.tree.now self.now.scope (F.pre self.now.expression self.now.alloc) (F.post self.now.expression self.now.alloc) }
        requires inside { if_some size-Expr tree.now < size-Expr self.now.tree.now }
        ensures ok { IfOk result (λ t. meant.typed_if (option_map meant.meaning tree.now) self.now.scope.now self.now.basis ≡ Ok t) }
        ensures err { IfErr result (Refuses (meant.typed_if (option_map meant.meaning tree.now) self.now.scope.now self.now.basis)) }
        ensures typed { IfOk result (IsTypedIf (kinds_of self.now.scope.now.columns self.now.basis)) }
    {
        match tree {
            Some(tree) => Ok(Some(self.part(tree)?)),
            None => Ok(None),
        }
    }

    /// The start of a range, where it is given.
    fn start_of(&self, range: &Option<SubstrRange>) -> Result<Option<Typed>, TypeStop>
        requires types { TypesParts self.now.tree.now self.now.scope (F.pre self.now.expression self.now.alloc) (F.post self.now.expression self.now.alloc) }
        requires inside { if_some size-SubstrRange range.now < size-Expr self.now.tree.now }
        ensures ok { IfOk result (λ t. meant.typed_if (option_map (λ r. r.start) (option_map range_meaning range.now)) self.now.scope.now self.now.basis ≡ Ok t) }
        ensures err { IfErr result (Refuses (meant.typed_if (option_map (λ r. r.start) (option_map range_meaning range.now)) self.now.scope.now self.now.basis)) }
        ensures typed { IfOk result (IsTypedIf (kinds_of self.now.scope.now.columns self.now.basis)) }
    {
        match range {
            Some(range) => Ok(Some(self.part(&range.start)?)),
            None => Ok(None),
        }
    }

    /// The length of a range, where it is given.
    fn length_of(&self, range: &Option<SubstrRange>) -> Result<Option<Typed>, TypeStop>
        requires types { TypesParts self.now.tree.now self.now.scope (F.pre self.now.expression self.now.alloc) (F.post self.now.expression self.now.alloc) }
        requires inside { if_some size-SubstrRange range.now < size-Expr self.now.tree.now }
        ensures ok { IfOk result (λ t. meant.typed_if (option_and_then (λ r. r.length) (option_map range_meaning range.now)) self.now.scope.now self.now.basis ≡ Ok t) }
        ensures err { IfErr result (Refuses (meant.typed_if (option_and_then (λ r. r.length) (option_map range_meaning range.now)) self.now.scope.now self.now.basis)) }
        ensures typed { IfOk result (IsTypedIf (kinds_of self.now.scope.now.columns self.now.basis)) }
    {
        match range {
            Some(range) => self.optional(&range.length),
            None => Ok(None),
        }
    }

    /// `substr(a, start, length)`
    pub(crate) fn substr(
        &self,
        operand: &Boxed<Expr>,
        range: &Option<SubstrRange>,
        place: Place,
    ) -> Result<Typed, TypeStop>
        requires types { TypesParts self.now.tree.now self.now.scope (F.pre self.now.expression self.now.alloc) (F.post self.now.expression self.now.alloc) }
        requires operand { size-Expr operand.now < size-Expr self.now.tree.now }
        requires range { if_some size-SubstrRange range.now < size-Expr self.now.tree.now }
        ensures { Answers (kinds_of self.now.scope.now.columns self.now.basis) (substr_meaning self.now.scope.now self.now.basis operand.now range.now place) result }
    {
        let operand = self.part(operand)?;
        let start = self.start_of(range)?;
        let length = self.length_of(range)?;
        substr_typed(self.alloc, place, operand, start, length)
    }

    /// `replace(a, pattern, by)`
    pub(crate) fn replaced(
        &self,
        operand: &Boxed<Expr>,
        pattern: &Boxed<Expr>,
        by: &Option<Boxed<Expr>>,
        place: Place,
    ) -> Result<Typed, TypeStop>
        requires types { TypesParts self.now.tree.now self.now.scope (F.pre self.now.expression self.now.alloc) (F.post self.now.expression self.now.alloc) }
        requires operand { size-Expr operand.now < size-Expr self.now.tree.now }
        requires pattern { size-Expr pattern.now < size-Expr self.now.tree.now }
        requires by { if_some size-Expr by.now < size-Expr self.now.tree.now }
        ensures { Answers (kinds_of self.now.scope.now.columns self.now.basis) (after_typed self.now.scope.now self.now.basis operand.now (λ x. after_typed self.now.scope.now self.now.basis pattern.now (λ y. after_optional self.now.scope.now self.now.basis by.now (meant.replace_typed place x y)))) result }
    {
        let operand = self.part(operand)?;
        let pattern = self.part(pattern)?;
        let by = self.optional(by)?;
        replace_typed(self.alloc, place, operand, pattern, by)
    }
}
