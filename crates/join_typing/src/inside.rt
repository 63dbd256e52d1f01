// Data sets in a join.
ghost use Rattle.std.specs.Prelude.{◌≡◌, ◌∷◌, ◌+◌, ◌<◌, ◌≤◌, [], true, map, length, IfOk, MatchOption};
ghost use Rattle.data_set_trees.specs.clauses.Clauses.{MOST_COMPONENTS};
ghost use Rattle.data_set_trees.specs.Components as parts;
ghost use Rattle.data_set_trees.specs.Joins as meant;
ghost use Rattle.expression_rules.specs.JoinClauses as rules;
ghost use Rattle.expression_rules.specs.PointClauses as clauses;
ghost use Rattle.data_set_trees.specs.Trees as trees;
ghost use Rattle.join_typing.specs.Inside.{FitInside, EachFits};
ghost use Rattle.join_typing.specs.Joining as own;

use crate::joining::Placed;
use data_set_parts::components::unlisted;
use data_set_parts::nodes::applied;
use data_set_parts::results::listed_unlisted;
use data_set_trees::clauses::Frame;
use data_set_trees::{DataSet, DataSetOperator};
use expression_rules::PointClause;
use sqlite_items::Items;
use std::alloc::{AllocError, Global};
use vtl_values::{Component, Structure, Word};

/// A number as the name of a component, in one character.
fn digit(alloc: Global, number: usize) -> Result<Word, AllocError>
    requires { number < 64 }
    ensures { IfOk result (λ name. name ≡ (48 + number) ∷ []) }
{
    let mut text = String::new(alloc);
    text.push((48 + number as u8) as char)?;
    Word::from_string(text)
}

fn numbered_one(
    alloc: Global,
    number: usize,
    component: &Component,
) -> Result<Component, AllocError>
    requires { number < 64 }
    ensures { IfOk result (λ made. made ≡ record (parts.unlisted component.now) { name = (48 + number) ∷ [] }) }
{
    let name = digit(alloc, number)?;
    Ok(unlisted(component)?.renamed(name))
}

/// The components without their code lists, called by their numbers. Or want of memory.
fn numbered(alloc: Global, components: &[Component]) -> Result<Vec<Component>, AllocError>
    requires { length components.now ≤ MOST_COMPONENTS }
    ensures { IfOk result (λ list. list.items ≡ meant.numbered 0 (map parts.unlisted components.now)) }
{
    let mut list = Vec::new(alloc);
    for (i, component) in components.iter().enumerate() {
        list.push(numbered_one(alloc, i, component)?)?;
    }
    Ok(list)
}

fn numbered_structure(alloc: Global, components: &[Component]) -> Result<Structure, AllocError>
    requires { FitInside components.now }
    ensures { IfOk result (λ structure. structure ≡ meant.numbered 0 (map parts.unlisted components.now)) }
{
    let list = numbered(alloc, components)?;
    Structure::of(alloc, list)
}

fn named_structure(alloc: Global, components: &[Component]) -> Result<Structure, AllocError>
    requires fit { FitInside components.now }
    requires differ { parts.names_differ components.now ≡ true }
    ensures { IfOk result (λ structure. structure ≡ map parts.unlisted components.now) }
{
    let list = listed_unlisted(alloc, components)?;
    Structure::of(alloc, list)
}

/// What a data set in a join has where these clauses follow. Or want of memory.
pub(crate) fn structure_before(
    alloc: Global,
    clauses: &[Placed],
    frame: &Frame,
) -> Result<Structure, AllocError>
    requires fits { EachFits (map own.placed clauses.now) frame.now }
    requires differ { own.DifferAtEnd (map own.placed clauses.now) frame.now }
    ensures { IfOk result (λ structure. structure ≡ rules.structure_before (map own.placed clauses.now) frame.now) }
{
    match clauses {
        [] => named_structure(alloc, frame.components.as_slice()),
        [_, ..] => numbered_structure(alloc, frame.components.as_slice()),
    }
}

/// What a clause leaves of a frame. Or want of memory. It costs the size of the frame and of what the clause works out.
pub fn frame_left(alloc: Global, clause: &PointClause, frame: Frame) -> Result<Frame, AllocError>
    ensures { IfOk result (λ after. after ≡ clauses.after clause.now frame) }
{
    match clause {
        PointClause::Alone(clause) => clause_typing::frame_after(alloc, clause, frame),
        PointClause::Analytic(window) => window_typing::frame_after(alloc, window, frame),
    }
}

fn operator_inside(clause: PointClause) -> DataSetOperator
    ensures { result ≡ clauses.operator_inside clause }
{
    match clause {
        PointClause::Alone(clause) => DataSetOperator::InJoin(clause),
        PointClause::Analytic(window) => DataSetOperator::WindowInJoin(window),
    }
}

fn take_clause(clauses: &mut Items<Placed>) -> Option<Placed>
    ensures { MatchOption result ((clauses.old ≡ []) × (clauses.new ≡ [])) (λ first. clauses.old ≡ first ∷ clauses.new) }
{
    if clauses.len() == 0 {
        return None;
    }
    Some(clauses.remove(0))
}

/// The clause on a data set of a join, which has this structure afterwards. Or want of memory.
fn in_join(
    alloc: Global,
    placed: Placed,
    set: DataSet,
    structure: Structure,
) -> Result<DataSet, AllocError>
    ensures { IfOk result (λ after. after ≡ trees.applied (clauses.operator_inside placed.clause) placed.place (set ∷ []) structure) }
{
    let Placed { clause, place } = placed;
    let mut sets = Items::new(alloc);
    sets.push(set)?;
    applied(alloc, operator_inside(clause), place, sets, structure)
}

/// The clauses on a data set of a join whose frame is this one. Or want of memory.
pub(crate) fn with_clauses(
    alloc: Global,
    mut clauses: Items<Placed>,
    mut frame: Frame,
    mut set: DataSet,
) -> Result<DataSet, AllocError>
    requires fits { EachFits (map own.placed clauses) frame }
    requires differ { own.DifferAtEnd (map own.placed clauses) frame }
    ensures { IfOk result (λ after. after ≡ rules.with_clauses (map own.placed clauses) frame set) }
{
    while let Some(placed) = take_clause(&mut clauses) {
        frame = frame_left(alloc, &placed.clause, frame)?;
        let structure = structure_before(alloc, clauses.as_slice(), &frame)?;
        set = in_join(alloc, placed, set, structure)?;
    }
    Ok(set)
}
