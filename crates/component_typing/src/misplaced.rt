// What stands for a data set, where a scalar is wanted: its operands are looked at for their faults, in order.
ghost use Rattle.std.specs.Prelude.{◌≡◌, ◌<◌, ◌∷◌, [], Ok, IfOk, IfErr, map};
ghost use Rattle.std.specs.Option.{option_map, option_to_list};
ghost use denote.Param.Weighed.{most};
ghost use Rattle.vtl_syntax.specs.declared.expr.Expr.{size-Expr};
ghost use Rattle.vtl_syntax.specs.declared.expr.JoinOperand.{size-JoinOperand};
ghost use Rattle.scalar_trees.specs.typing.Steps.{Refuses};
ghost use Rattle.scalar_trees.specs.typing.Scopes.{kinds_of};
ghost use Rattle.scalar_trees.specs.typing.Scalars as meant;
ghost use Rattle.component_typing.specs.Parts.{Answers, TypesParts, if_some};

use crate::checker::Checker;
use scalar_trees::typing::{Basis, Fault, Scope, TypeStop, Typed};
use sqlite_items::Boxed;
use std::alloc::Global;
use vtl_syntax::{Clause, Expr, JoinOperand};
use vtl_values::Place;

/// The place of a clause's word.
pub(crate) fn clause_place(clause: &Clause) -> Place
    ensures { result ≡ meant.place_of clause.now }
{
    match clause {
        Clause::Filter { place, .. } => *place,
        Clause::Calc { place, .. } => *place,
        Clause::Keep { place, .. } => *place,
        Clause::Drop { place, .. } => *place,
        Clause::Rename { place, .. } => *place,
        Clause::Sub { place, .. } => *place,
        Clause::Unpivot { place, .. } => *place,
        Clause::Aggr { place, .. } => *place,
    }
}

impl<F: Fn(Global, &Scope, Basis, &Expr) -> Result<Typed, TypeStop> + Copy> Checker<'_, F> {
    /// Expressions are looked at in order, up to the first fault.
    fn visit(&self, trees: &[Expr]) -> Result<(), TypeStop>
        requires types { TypesParts self.now.tree.now self.now.scope (F.pre self.now.expression self.now.alloc) (F.post self.now.expression self.now.alloc) }
        requires inside { most size-Expr trees.now < size-Expr self.now.tree.now }
        ensures ok { IfOk result (λ met. meant.visited (map meant.meaning trees.now) self.now.scope.now self.now.basis ≡ Ok met) }
        ensures err { IfErr result (Refuses (meant.visited (map meant.meaning trees.now) self.now.scope.now self.now.basis)) }
    {
        for tree in trees {
            self.visit_one(tree)?;
        }
        Ok(())
    }

    /// An operand of a join, for its faults alone.
    fn visit_operand(&self, operand: &JoinOperand) -> Result<(), TypeStop>
        requires types { TypesParts self.now.tree.now self.now.scope (F.pre self.now.expression self.now.alloc) (F.post self.now.expression self.now.alloc) }
        requires inside { size-JoinOperand operand.now < size-Expr self.now.tree.now }
        ensures ok { IfOk result (λ met. meant.visited (meant.operand_meaning operand.now ∷ []) self.now.scope.now self.now.basis ≡ Ok met) }
        ensures err { IfErr result (Refuses (meant.visited (meant.operand_meaning operand.now ∷ []) self.now.scope.now self.now.basis)) }
    {
        self.visit_one(operand.expr.get())
    }

    /// Operands of a join are looked at in order, up to the first fault.
    fn visit_operands(&self, operands: &[JoinOperand]) -> Result<(), TypeStop>
        requires types { TypesParts self.now.tree.now self.now.scope (F.pre self.now.expression self.now.alloc) (F.post self.now.expression self.now.alloc) }
        requires inside { most size-JoinOperand operands.now < size-Expr self.now.tree.now }
        ensures ok { IfOk result (λ met. meant.visited (map meant.operand_meaning operands.now) self.now.scope.now self.now.basis ≡ Ok met) }
        ensures err { IfErr result (Refuses (meant.visited (map meant.operand_meaning operands.now) self.now.scope.now self.now.basis)) }
    {
        for operand in operands {
            self.visit_operand(operand)?;
        }
        Ok(())
    }

    /// What is made of one data set.
    pub(crate) fn misplaced(&self, operand: &Boxed<Expr>, place: Place) -> Result<Typed, TypeStop>
        requires types { TypesParts self.now.tree.now self.now.scope (F.pre self.now.expression self.now.alloc) (F.post self.now.expression self.now.alloc) }
        requires inside { size-Expr operand.now < size-Expr self.now.tree.now }
        ensures { Answers (kinds_of self.now.scope.now.columns self.now.basis) (meant.misplaced (meant.meaning operand.now ∷ []) place self.now.scope.now self.now.basis) result }
    {
        self.part(operand)?;
        Err(TypeStop::at(Fault::WrongStructure, place))
    }

    /// What is made of two data sets.
    pub(crate) fn two_misplaced(
        &self,
        left: &Boxed<Expr>,
        right: &Boxed<Expr>,
        place: Place,
    ) -> Result<Typed, TypeStop>
        requires types { TypesParts self.now.tree.now self.now.scope (F.pre self.now.expression self.now.alloc) (F.post self.now.expression self.now.alloc) }
        requires left { size-Expr left.now < size-Expr self.now.tree.now }
        requires right { size-Expr right.now < size-Expr self.now.tree.now }
        ensures { Answers (kinds_of self.now.scope.now.columns self.now.basis) (meant.misplaced (meant.meaning left.now ∷ meant.meaning right.now ∷ []) place self.now.scope.now self.now.basis) result }
    {
        self.part(left)?;
        self.part(right)?;
        Err(TypeStop::at(Fault::WrongStructure, place))
    }

    /// What is made of two data sets and others.
    pub(crate) fn sets_misplaced(
        &self,
        first: &Boxed<Expr>,
        second: &Boxed<Expr>,
        others: &[Expr],
        place: Place,
    ) -> Result<Typed, TypeStop>
        requires types { TypesParts self.now.tree.now self.now.scope (F.pre self.now.expression self.now.alloc) (F.post self.now.expression self.now.alloc) }
        requires first { size-Expr first.now < size-Expr self.now.tree.now }
        requires second { size-Expr second.now < size-Expr self.now.tree.now }
        requires others { most size-Expr others.now < size-Expr self.now.tree.now }
        ensures { Answers (kinds_of self.now.scope.now.columns self.now.basis) (meant.misplaced (meant.meaning first.now ∷ meant.meaning second.now ∷ map meant.meaning others.now) place self.now.scope.now self.now.basis) result }
    {
        self.part(first)?;
        self.part(second)?;
        self.visit(others)?;
        Err(TypeStop::at(Fault::WrongStructure, place))
    }

    /// A join.
    pub(crate) fn join_misplaced(
        &self,
        first: &JoinOperand,
        second: &JoinOperand,
        others: &[JoinOperand],
        place: Place,
    ) -> Result<Typed, TypeStop>
        requires types { TypesParts self.now.tree.now self.now.scope (F.pre self.now.expression self.now.alloc) (F.post self.now.expression self.now.alloc) }
        requires first { size-JoinOperand first.now < size-Expr self.now.tree.now }
        requires second { size-JoinOperand second.now < size-Expr self.now.tree.now }
        requires others { most size-JoinOperand others.now < size-Expr self.now.tree.now }
        ensures { Answers (kinds_of self.now.scope.now.columns self.now.basis) (meant.misplaced (meant.operand_meaning first.now ∷ meant.operand_meaning second.now ∷ map meant.operand_meaning others.now) place self.now.scope.now self.now.basis) result }
    {
        self.part(&first.expr)?;
        self.part(&second.expr)?;
        self.visit_operands(others)?;
        Err(TypeStop::at(Fault::WrongStructure, place))
    }

    /// `check`, whose imbalance may be left out.
    pub(crate) fn check_misplaced(
        &self,
        operand: &Boxed<Expr>,
        imbalance: &Option<Boxed<Expr>>,
        place: Place,
    ) -> Result<Typed, TypeStop>
        requires types { TypesParts self.now.tree.now self.now.scope (F.pre self.now.expression self.now.alloc) (F.post self.now.expression self.now.alloc) }
        requires operand { size-Expr operand.now < size-Expr self.now.tree.now }
        requires imbalance { if_some size-Expr imbalance.now < size-Expr self.now.tree.now }
        ensures { Answers (kinds_of self.now.scope.now.columns self.now.basis) (meant.misplaced (meant.meaning operand.now ∷ option_to_list (option_map meant.meaning imbalance.now)) place self.now.scope.now self.now.basis) result }
    {
        match imbalance {
            Some(imbalance) => self.two_misplaced(operand, imbalance, place),
            None => self.misplaced(operand, place),
        }
    }

    /// A call of a defined operator.
    pub(crate) fn call_misplaced(&self, arguments: &[Expr], place: Place) -> Result<Typed, TypeStop>
        requires types { TypesParts self.now.tree.now self.now.scope (F.pre self.now.expression self.now.alloc) (F.post self.now.expression self.now.alloc) }
        requires inside { most size-Expr arguments.now < size-Expr self.now.tree.now }
        ensures { Answers (kinds_of self.now.scope.now.columns self.now.basis) (meant.misplaced (map meant.meaning arguments.now) place self.now.scope.now self.now.basis) result }
    {
        self.visit(arguments)?;
        Err(TypeStop::at(Fault::WrongStructure, place))
    }
}
