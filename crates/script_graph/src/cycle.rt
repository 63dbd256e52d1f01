// Statements that depend on themselves.
ghost use Rattle.std.specs.Prelude.{◌≡◌, ◌++◌, Some, length, IfOk, OnOk};
ghost use Rattle.std.specs.List.{flat_map};
ghost use Rattle.std.specs.Option.{option_and_then};
ghost use Rattle.shortest_cycles.specs.Paths.{HasNoCycle};
ghost use Rattle.shortest_cycles.specs.Cycles as found;
ghost use Rattle.script_graph.specs.Faults as meant;

use crate::fault::{GraphFault, PlacedFault};
use shortest_cycles::{Graph, first_cycle};
use sqlite_items::{Items, at};
use std::alloc::{AllocError, Global};
use vtl_syntax::Statement;
use vtl_values::Word;

fn put_name(
    statements: &[Statement],
    number: usize,
    out: &mut Items<Word>,
) -> Result<(), AllocError>
    ensures { OnOk result (out.new ≡ out.old ++ meant.name_at statements.now number) }
{
    match at(statements, number) {
        Some(statement) => out.push(statement.name.copy()?),
        None => Ok(()),
    }
}

/// The names to which those statements assign.
fn names_of(
    alloc: Global,
    statements: &[Statement],
    numbers: &[usize],
) -> Result<Items<Word>, AllocError>
    ensures { IfOk result (λ names. names ≡ flat_map (meant.name_at statements.now) numbers.now) }
{
    let mut names = Items::new(alloc);
    for number in numbers {
        put_name(statements, *number, &mut names)?;
    }
    Ok(names)
}

fn told(statements: &[Statement], start: usize, names: Items<Word>) -> Option<PlacedFault>
    ensures { result ≡ meant.told_at statements.now start names }
{
    statements.get(start).map(|statement| PlacedFault {
        fault: GraphFault::Cycle(names),
        place: statement.place,
    })
}

/// The fault of the first statement that depends on itself, if one does.
pub(crate) fn cycle_fault(
    alloc: Global,
    statements: &[Statement],
    graph: &Graph,
) -> Result<Option<PlacedFault>, AllocError>
    ensures { IfOk result (λ fault. fault ≡ option_and_then (meant.told statements.now) (found.first_cycle graph.now)) }
{
    let Some(cycle) = first_cycle(alloc, graph)? else {
        return Ok(None);
    };
    let names = names_of(alloc, statements, cycle.as_slice())?;
    match cycle.as_slice() {
        [] => Ok(None),
        [start, ..] => Ok(told(statements, *start, names)),
    }
}
