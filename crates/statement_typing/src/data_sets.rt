// Operators on data sets alone, and conditionals.
ghost use Rattle.std.specs.Prelude.{◌<◌, ◌∷◌, [], map};
ghost use denote.Param.Weighed.{most};
ghost use Rattle.vtl_syntax.specs.declared.expr.Expr.{size-Expr};
ghost use Rattle.data_set_trees.specs.Members.{member_typed};
ghost use Rattle.data_set_trees.specs.Exists.{exists_typed};
ghost use Rattle.data_set_trees.specs.Sets.{sets_typed};
ghost use Rattle.expression_rules.specs.OnClauses as on;
ghost use Rattle.expression_rules.specs.Expressions as meant;
ghost use Rattle.statement_typing.specs.Names.{naming_of};
ghost use Rattle.statement_typing.specs.Parts.{Answers, TypesParts, after_one, after_all};

use crate::checker::Checker;
use crate::clauses::on_clause;
use crate::names::Names;
use crate::sorts::sorted;
use data_set_trees::{Operand, SetOperation};
use scalar_trees::typing::TypeStop;
use set_typing::{choice, exists, member, sets};
use sqlite_items::Boxed;
use std::alloc::Global;
use vtl_syntax::words::{ExistsRows, Sort};
use vtl_syntax::{Clause, Expr};
use vtl_values::{Place, Word};

impl<F: Fn(Global, &Names<'_>, &Expr) -> Result<Operand, TypeStop> + Copy> Checker<'_, '_, F> {
    /// `if c then a else b`
    pub(crate) fn chosen(
        &self,
        condition: &Boxed<Expr>,
        holds: &Boxed<Expr>,
        fails: &Boxed<Expr>,
        place: Place,
    ) -> Result<Operand, TypeStop>
        requires types { TypesParts self.now.tree.now self.now.names (F.pre self.now.expression self.now.alloc) (F.post self.now.expression self.now.alloc) }
        requires condition { size-Expr condition.now < size-Expr self.now.tree.now }
        requires holds { size-Expr holds.now < size-Expr self.now.tree.now }
        requires fails { size-Expr fails.now < size-Expr self.now.tree.now }
        ensures { Answers (after_all (naming_of self.now.names.now) (meant.typing condition.now ∷ meant.typing holds.now ∷ meant.typing fails.now ∷ []) (meant.choice_of place)) result }
    {
        let condition = self.boxed(condition)?;
        let holds = self.boxed(holds)?;
        let fails = self.part(fails)?;
        choice(
            self.alloc,
            place,
            condition.into_inner(),
            holds.into_inner(),
            fails,
        )
    }

    /// An argument or the result of a defined operator, which is of the sort.
    pub(crate) fn of_sort(
        &self,
        sort: Sort,
        operand: &Boxed<Expr>,
        place: Place,
    ) -> Result<Operand, TypeStop>
        requires types { TypesParts self.now.tree.now self.now.names (F.pre self.now.expression self.now.alloc) (F.post self.now.expression self.now.alloc) }
        requires inside { size-Expr operand.now < size-Expr self.now.tree.now }
        ensures { Answers (after_one (naming_of self.now.names.now) operand.now (meant.sorted sort place)) result }
    {
        let operand = self.part(operand)?;
        sorted(self.alloc, sort, place, operand)
    }

    /// `a#c`
    pub(crate) fn member(
        &self,
        operand: &Boxed<Expr>,
        name: &Word,
        place: Place,
    ) -> Result<Operand, TypeStop>
        requires types { TypesParts self.now.tree.now self.now.names (F.pre self.now.expression self.now.alloc) (F.post self.now.expression self.now.alloc) }
        requires inside { size-Expr operand.now < size-Expr self.now.tree.now }
        ensures { Answers (after_one (naming_of self.now.names.now) operand.now (member_typed name.now place)) result }
    {
        let operand = self.part(operand)?;
        member(self.alloc, name, place, operand)
    }

    /// `a [clause]`
    pub(crate) fn with_clause(
        &self,
        operand: &Boxed<Expr>,
        clause: &Boxed<Clause>,
    ) -> Result<Operand, TypeStop>
        requires types { TypesParts self.now.tree.now self.now.names (F.pre self.now.expression self.now.alloc) (F.post self.now.expression self.now.alloc) }
        requires inside { size-Expr operand.now < size-Expr self.now.tree.now }
        ensures { Answers (after_one (naming_of self.now.names.now) operand.now (on.on_clause clause.now)) result }
    {
        let operand = self.part(operand)?;
        on_clause(self.alloc, clause.get(), operand)
    }

    /// `exists_in(a, b, rows)`
    pub(crate) fn exists_in(
        &self,
        left: &Boxed<Expr>,
        right: &Boxed<Expr>,
        rows: Option<ExistsRows>,
        place: Place,
    ) -> Result<Operand, TypeStop>
        requires types { TypesParts self.now.tree.now self.now.names (F.pre self.now.expression self.now.alloc) (F.post self.now.expression self.now.alloc) }
        requires left { size-Expr left.now < size-Expr self.now.tree.now }
        requires right { size-Expr right.now < size-Expr self.now.tree.now }
        ensures { Answers (after_one (naming_of self.now.names.now) left.now (λ x. after_one (naming_of self.now.names.now) right.now (exists_typed rows place x))) result }
    {
        let left = self.boxed(left)?;
        let right = self.part(right)?;
        exists(self.alloc, rows, place, left.into_inner(), right)
    }

    /// A set operator on two data sets.
    pub(crate) fn two_sets(
        &self,
        operation: SetOperation,
        left: &Boxed<Expr>,
        right: &Boxed<Expr>,
        place: Place,
    ) -> Result<Operand, TypeStop>
        requires types { TypesParts self.now.tree.now self.now.names (F.pre self.now.expression self.now.alloc) (F.post self.now.expression self.now.alloc) }
        requires left { size-Expr left.now < size-Expr self.now.tree.now }
        requires right { size-Expr right.now < size-Expr self.now.tree.now }
        ensures { Answers (after_all (naming_of self.now.names.now) (meant.typing left.now ∷ meant.typing right.now ∷ []) (sets_typed operation place)) result }
    {
        let operands = self.two(left, right)?;
        sets(self.alloc, operation, place, operands)
    }

    /// A set operator on two data sets and others.
    pub(crate) fn several_sets(
        &self,
        operation: SetOperation,
        first: &Boxed<Expr>,
        second: &Boxed<Expr>,
        others: &[Expr],
        place: Place,
    ) -> Result<Operand, TypeStop>
        requires types { TypesParts self.now.tree.now self.now.names (F.pre self.now.expression self.now.alloc) (F.post self.now.expression self.now.alloc) }
        requires first { size-Expr first.now < size-Expr self.now.tree.now }
        requires second { size-Expr second.now < size-Expr self.now.tree.now }
        requires others { most size-Expr others.now < size-Expr self.now.tree.now }
        ensures { Answers (after_all (naming_of self.now.names.now) (meant.typing first.now ∷ meant.typing second.now ∷ map meant.typing others.now) (sets_typed operation place)) result }
    {
        let mut operands = self.two(first, second)?;
        operands.append(self.each(others)?)?;
        sets(self.alloc, operation, place, operands)
    }
}
