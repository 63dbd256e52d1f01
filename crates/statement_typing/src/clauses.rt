// A clause on an operand.
ghost use Rattle.std.specs.Prelude.{◌≡◌, Ok, IfOk, IfErr};
ghost use Rattle.vtl_syntax.specs.declared.expr.Clause.TheVariants as clause;
ghost use Rattle.scalar_trees.specs.typing.Scalars.{place_of};
ghost use Rattle.data_set_trees.specs.declared.operand.Operand.TheVariants as operands;
ghost use Rattle.expression_rules.specs.OnClauses as meant;
ghost use Rattle.statement_typing.specs.Parts.{Answers};

use crate::items::{calc_checked, filter_checked};
use crate::on_sets::{on_aggr, with_window};
use crate::points::point_checked;
use clause_typing::{drop_typed, frame_of, keep_typed, rename_typed, sub_typed, unpivot_typed};
use data_set_parts::clauses::with_clause;
use data_set_trees::clauses::{CheckedClause, Frame};
use data_set_trees::{DataSet, Operand};
use expression_rules::PointClause;
use scalar_trees::typing::{Fault, TypeStop};
use sqlite_items::Boxed;
use std::alloc::Global;
use vtl_syntax::Clause;
use vtl_values::Place;

/// The place of a clause's word.
pub(crate) fn clause_place(clause: &Clause) -> Place
    ensures { result ≡ place_of clause.now }
{
    match clause {
        Clause::Filter { place, .. } => *place,
        Clause::Calc { place, .. } => *place,
        Clause::Keep { place, .. } => *place,
        Clause::Drop { place, .. } => *place,
        Clause::Rename { place, .. } => *place,
        Clause::Sub { place, .. } => *place,
        Clause::Unpivot { place, .. } => *place,
        Clause::Aggr { place, .. } => *place,
    }
}

/// A clause on a frame that works on each point by itself, which `aggr` doesn't.
pub(crate) fn clause_checked(
    alloc: Global,
    clause: &Clause,
    frame: &Frame,
) -> Result<CheckedClause, TypeStop>
    ensures { Answers (meant.clause_checked clause.now frame.now) result }
{
    match clause {
        Clause::Filter { condition, place } => {
            filter_checked(alloc, condition.get(), *place, frame)
        }
        Clause::Calc { items, place } => calc_checked(alloc, items.as_slice(), *place, frame),
        Clause::Keep { components, place } => {
            keep_typed(alloc, *place, components.as_slice(), frame)
        }
        Clause::Drop { components, place } => {
            drop_typed(alloc, *place, components.as_slice(), frame)
        }
        Clause::Rename { renames, place } => rename_typed(alloc, *place, renames.as_slice(), frame),
        Clause::Sub { items, place } => sub_typed(alloc, *place, items.as_slice(), frame),
        Clause::Unpivot {
            identifier,
            measure,
            place,
        } => unpivot_typed(alloc, *place, identifier, measure, frame),
        Clause::Aggr { place, .. } => Err(TypeStop::at(Fault::WrongStructure, *place)),
    }
}

/// A clause that works on points, on a data set.
fn on_data_set(alloc: Global, clause: &Clause, set: Boxed<DataSet>) -> Result<Operand, TypeStop>
    ensures { Answers (meant.on_points clause.now (operands.DataSet set)) result }
{
    let frame = frame_of(alloc, set.get().structure.components())?;
    let place = clause_place(clause);
    match point_checked(alloc, clause, &frame)? {
        PointClause::Alone(checked) => {
            let set = with_clause(alloc, checked, place, set.into_inner())?;
            Ok(Operand::DataSet(set))
        }
        PointClause::Analytic(window) => Ok(with_window(alloc, window, place, set.into_inner())?),
    }
}

/// A clause that works on points.
fn on_points(alloc: Global, clause: &Clause, operand: Operand) -> Result<Operand, TypeStop>
    ensures { Answers (meant.on_points clause.now operand) result }
{
    match operand {
        Operand::Scalar(_) => Err(TypeStop::at(Fault::WrongStructure, clause_place(clause))),
        Operand::DataSet(set) => on_data_set(alloc, clause, Boxed::new(alloc, set)?),
    }
}

/// A clause on an operand, which has to be a data set. `WrongStructure` at the clause's word where it is a scalar; else
/// the first fault of the clause's expressions, in order, and then its own; or want of memory.
pub(crate) fn on_clause(
    alloc: Global,
    clause: &Clause,
    operand: Operand,
) -> Result<Operand, TypeStop>
    ensures { Answers (meant.on_clause clause.now operand) result }
{
    match clause {
        Clause::Aggr {
            items,
            groups,
            place,
        } => on_aggr(alloc, items.as_slice(), groups, *place, operand),
        Clause::Filter { .. }
        | Clause::Calc { .. }
        | Clause::Keep { .. }
        | Clause::Drop { .. }
        | Clause::Rename { .. }
        | Clause::Sub { .. }
        | Clause::Unpivot { .. } => on_points(alloc, clause, operand),
    }
}
