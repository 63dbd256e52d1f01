// Joins.
ghost use Rattle.std.specs.Prelude.{◌≡◌, ◌<◌, ◌∷◌, [], map, IfOk};
ghost use denote.Param.Weighed.{most};
ghost use Rattle.vtl_syntax.specs.declared.expr.Expr.{size-Expr};
ghost use Rattle.vtl_syntax.specs.declared.expr.JoinOperand.{size-JoinOperand};
ghost use Rattle.expression_rules.specs.Expressions as meant;
ghost use Rattle.data_set_trees.specs.Joins as joins;
ghost use Rattle.expression_rules.specs.JoinClauses as rules;
ghost use Rattle.statement_typing.specs.Joins as own;
ghost use Rattle.statement_typing.specs.Names.{naming_of};
ghost use Rattle.statement_typing.specs.Parts.{Answers, TypesParts};

use crate::checker::Checker;
use crate::clauses::clause_place;
use crate::names::Names;
use crate::points::point_checked;
use data_set_trees::Operand;
use data_set_trees::clauses::Frame;
use join_typing::{Placed, begin, copy_frame, finish, frame_left};
use scalar_trees::typing::TypeStop;
use sqlite_items::{Boxed, Items};
use std::alloc::{AllocError, Global};
use vtl_syntax::words::JoinFunction;
use vtl_syntax::{Clause, Expr, JoinOperand};
use vtl_values::{Place, Word};

/// The clauses inside a join so far, and what they leave.
#[derive(Drop)]
pub(crate) struct Inside {
    pub(crate) clauses: Items<Placed>,
    pub(crate) frame: Frame,
}

/// The clauses so far, and one more.
fn with_one(alloc: Global, clause: &Clause, so_far: Inside) -> Result<Inside, TypeStop>
    ensures { Answers (own.with_one clause.now so_far) result }
{
    let Inside { mut clauses, frame } = so_far;
    let checked = point_checked(alloc, clause, &frame)?;
    let frame = frame_left(alloc, &checked, frame)?;
    clauses.push(Placed {
        clause: checked,
        place: clause_place(clause),
    })?;
    Ok(Inside { clauses, frame })
}

fn with_optional(
    alloc: Global,
    clause: &Option<Boxed<Clause>>,
    so_far: Inside,
) -> Result<Inside, TypeStop>
    ensures { Answers (own.with_optional clause.now so_far) result }
{
    match clause {
        Some(clause) => with_one(alloc, clause.get(), so_far),
        None => Ok(so_far),
    }
}

/// The clauses inside a join.
#[derive(Clone, Copy)]
pub(crate) struct Clauses<'a> {
    pub(crate) filter: &'a Option<Boxed<Clause>>,
    pub(crate) calc: &'a Option<Boxed<Clause>>,
    pub(crate) keep: &'a Option<Boxed<Clause>>,
    pub(crate) rename: &'a Option<Boxed<Clause>>,
}

/// The clauses inside a join, each on what the one before it leaves.
fn walked(alloc: Global, clauses: Clauses<'_>, frame: Frame) -> Result<Inside, TypeStop>
    ensures { Answers (own.with_each clauses.entry.filter.now clauses.entry.calc.now clauses.entry.keep.now clauses.entry.rename.now (record { clauses = []; frame = frame })) result }
{
    let start = Inside {
        clauses: Items::new(alloc),
        frame,
    };
    let filtered = with_optional(alloc, clauses.filter, start)?;
    let calculated = with_optional(alloc, clauses.calc, filtered)?;
    let kept = with_optional(alloc, clauses.keep, calculated)?;
    with_optional(alloc, clauses.rename, kept)
}

/// A join on these operands under these aliases.
fn joined(
    alloc: Global,
    function: JoinFunction,
    place: Place,
    aliases: &[Option<Word>],
    operands: Items<Operand>,
    clauses: Clauses<'_>,
) -> Result<Operand, TypeStop>
    ensures { Answers (rules.join_typed function place aliases.now (own.clauses_in clauses.entry.filter.now clauses.entry.calc.now clauses.entry.keep.now clauses.entry.rename.now) operands) result }
{
    let join = begin(alloc, function, place, aliases, operands)?;
    let frame = copy_frame(alloc, &join.frame)?;
    let inside = walked(alloc, clauses, frame)?;
    finish(alloc, join, inside.clauses, &inside.frame)
}

fn own_name(tree: &Expr) -> Result<Option<Word>, AllocError>
    ensures { IfOk result (λ name. name ≡ joins.own_name tree.now) }
{
    match tree {
        Expr::Name { name, .. } => Ok(Some(name.copy()?)),
        _ => Ok(None),
    }
}

/// The alias of an operand, if it has one. Or want of memory.
fn alias_of(operand: &JoinOperand) -> Result<Option<Word>, AllocError>
    ensures { IfOk result (λ alias. alias ≡ joins.alias_of operand.now) }
{
    match &operand.alias {
        Some(alias) => Ok(Some(alias.copy()?)),
        None => own_name(operand.expr.get()),
    }
}

/// The aliases of the operands, in order. Or want of memory.
fn aliases_of(
    alloc: Global,
    first: &JoinOperand,
    second: &JoinOperand,
    others: &[JoinOperand],
) -> Result<Items<Option<Word>>, AllocError>
    ensures { IfOk result (λ aliases. aliases ≡ map joins.alias_of (first.now ∷ second.now ∷ others.now)) }
{
    let mut aliases = Items::new(alloc);
    aliases.push(alias_of(first)?)?;
    aliases.push(alias_of(second)?)?;
    for operand in others {
        aliases.push(alias_of(operand)?)?;
    }
    Ok(aliases)
}

impl<F: Fn(Global, &Names<'_>, &Expr) -> Result<Operand, TypeStop> + Copy> Checker<'_, '_, F> {
    /// An operand of a join.
    fn operand(&self, operand: &JoinOperand) -> Result<Operand, TypeStop>
        requires types { TypesParts self.now.tree.now self.now.names (F.pre self.now.expression self.now.alloc) (F.post self.now.expression self.now.alloc) }
        requires inside { size-JoinOperand operand.now < size-Expr self.now.tree.now }
        ensures { Answers (own.typing_of operand.now (naming_of self.now.names.now)) result }
    {
        self.part(&operand.expr)
    }

    /// The operands after the first ones, in order.
    fn further_operands(&self, others: &[JoinOperand]) -> Result<Items<Operand>, TypeStop>
        requires types { TypesParts self.now.tree.now self.now.names (F.pre self.now.expression self.now.alloc) (F.post self.now.expression self.now.alloc) }
        requires inside { most size-JoinOperand others.now < size-Expr self.now.tree.now }
        ensures { Answers (meant.all_typed (map own.typing_of others.now) (naming_of self.now.names.now)) result }
    {
        let mut operands = Items::new(self.alloc);
        for other in others {
            operands.push(self.operand(other)?)?;
        }
        Ok(operands)
    }

    /// The operands of a join, in order.
    fn operands(
        &self,
        first: &JoinOperand,
        second: &JoinOperand,
        others: &[JoinOperand],
    ) -> Result<Items<Operand>, TypeStop>
        requires types { TypesParts self.now.tree.now self.now.names (F.pre self.now.expression self.now.alloc) (F.post self.now.expression self.now.alloc) }
        requires first { size-JoinOperand first.now < size-Expr self.now.tree.now }
        requires second { size-JoinOperand second.now < size-Expr self.now.tree.now }
        requires others { most size-JoinOperand others.now < size-Expr self.now.tree.now }
        ensures { Answers (meant.all_typed (map own.typing_of (first.now ∷ second.now ∷ others.now)) (naming_of self.now.names.now)) result }
    {
        let mut operands = self.two(&first.expr, &second.expr)?;
        operands.append(self.further_operands(others)?)?;
        Ok(operands)
    }

    /// `inner_join(a as x, b as y, .. filter .. calc .. keep .. rename ..)` and its like
    pub(crate) fn join(
        &self,
        function: JoinFunction,
        first: &JoinOperand,
        second: &JoinOperand,
        others: &[JoinOperand],
        clauses: Clauses<'_>,
        place: Place,
    ) -> Result<Operand, TypeStop>
        requires types { TypesParts self.now.tree.now self.now.names (F.pre self.now.expression self.now.alloc) (F.post self.now.expression self.now.alloc) }
        requires first { size-JoinOperand first.now < size-Expr self.now.tree.now }
        requires second { size-JoinOperand second.now < size-Expr self.now.tree.now }
        requires others { most size-JoinOperand others.now < size-Expr self.now.tree.now }
        ensures { Answers (own.join_on (naming_of self.now.names.now) function place first.now second.now others.now (own.clauses_in clauses.entry.filter.now clauses.entry.calc.now clauses.entry.keep.now clauses.entry.rename.now)) result }
    {
        let operands = self.operands(first, second, others)?;
        let aliases = aliases_of(self.alloc, first, second, others)?;
        joined(
            self.alloc,
            function,
            place,
            aliases.as_slice(),
            operands,
            clauses,
        )
    }
}
