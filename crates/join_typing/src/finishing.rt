// A join with the clauses inside.
ghost use Rattle.std.specs.Prelude.{◌≡◌, map, true, Ok, IfOk, IfErr};
ghost use Rattle.scalar_trees.specs.typing.Steps.{Refuses};
ghost use Rattle.data_set_trees.specs.Components as parts;
ghost use Rattle.expression_rules.specs.JoinClauses as meant;
ghost use Rattle.join_typing.specs.Inside.{EachFits};
ghost use Rattle.join_typing.specs.Joining as own;

use crate::inside::{structure_before, with_clauses};
use crate::joining::{Joining, Placed};
use data_set_parts::components::names_differ;
use data_set_parts::nodes::applied;
use data_set_trees::clauses::Frame;
use data_set_trees::{DataSet, DataSetOperator, Operand};
use scalar_trees::typing::{Fault, TypeStop, demand};
use sqlite_items::Items;
use std::alloc::{AllocError, Global};

/// The join with its clauses, whose names differ at the end. Or want of memory.
fn joined(alloc: Global, join: Joining, clauses: Items<Placed>) -> Result<DataSet, AllocError>
    requires fits { EachFits (map own.placed clauses) join.frame }
    requires differ { own.DifferAtEnd (map own.placed clauses) join.frame }
    ensures { IfOk result (λ set. set ≡ own.joined_of join (map own.placed clauses)) }
{
    let Joining {
        function,
        place,
        sets,
        frame,
    } = join;
    let structure = structure_before(alloc, clauses.as_slice(), &frame)?;
    let set = applied(
        alloc,
        DataSetOperator::Join(function),
        place,
        sets,
        structure,
    )?;
    with_clauses(alloc, clauses, frame, set)
}

/// The join with these clauses inside, each of which fits, where `end` is what they leave. `NameTwice` at the join's word
/// where a name stands twice then, or want of memory. It costs the number of components for each clause, and their square.
pub fn finish(
    alloc: Global,
    join: Joining,
    clauses: Items<Placed>,
    end: &Frame,
) -> Result<Operand, TypeStop>
    requires fits { EachFits (map own.placed clauses) join.frame }
    requires ends { end.now ≡ meant.after_all (map own.placed clauses) join.frame }
    ensures ok { IfOk result (λ o. own.finished join (map own.placed clauses) ≡ Ok o) }
    ensures err { IfErr result (Refuses (own.finished join (map own.placed clauses))) }
{
    let differ = names_differ(end.components.as_slice());
    demand(differ, Fault::NameTwice, join.place)?;
    Ok(Operand::DataSet(joined(alloc, join, clauses)?))
}
