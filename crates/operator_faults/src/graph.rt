// Which operator calls which, and the operator whose body reaches its own call.
ghost use Rattle.std.specs.Prelude.{◌≡◌, ◌++◌, IfOk, OnOk};
ghost use Rattle.operator_faults.specs.Calls.{sites, all_sites};
ghost use Rattle.operator_faults.specs.Recursions as told;

use crate::fault::{OperatorFault, PlacedFault};
use crate::outline::{Outline, What};
use shortest_cycles::{Graph, first_cycle, put_once};
use sqlite_items::{Items, at};
use std::alloc::{AllocError, Global};
use vtl_syntax::DefinedOperator;
use vtl_values::Word;

/// The number of the first operator of that name.
pub fn number_of(operators: &[DefinedOperator], name: &Word) -> Option<usize>
    ensures { result ≡ told.number_of operators.now name.now }
{
    operators.iter().position(|operator| operator.name == *name)
}

/// Puts the number of the operator that is called there.
fn put_call(
    operators: &[DefinedOperator],
    what: &What,
    out: &mut Items<usize>,
) -> Result<(), AllocError>
    ensures { OnOk result (out.new ≡ told.put_call operators.now out.old what.now) }
{
    match what {
        What::Call(call) => match number_of(operators, &call.name) {
            Some(number) => put_once(number, out),
            None => Ok(()),
        },
        What::Name(_) => Ok(()),
        What::Plain => Ok(()),
        What::Level => Ok(()),
        What::Inside => Ok(()),
        What::InsideJoin => Ok(()),
    }
}

/// Puts the numbers of the operators that are called in the outline.
#[cycle(put)]
fn put_calls(
    operators: &[DefinedOperator],
    outline: &Outline,
    out: &mut Items<usize>,
) -> Result<(), AllocError>
    ensures { OnOk result (out.new ≡ told.put_sites operators.now out.old (sites outline.now)) }
{
    put_call(operators, &outline.what, out)?;
    put_all_calls(operators, outline.parts.as_slice(), out)
}

#[cycle(put)]
fn put_all_calls(
    operators: &[DefinedOperator],
    outlines: &[Outline],
    out: &mut Items<usize>,
) -> Result<(), AllocError>
    ensures { OnOk result (out.new ≡ told.put_sites operators.now out.old (all_sites outlines.now)) }
{
    for outline in outlines {
        put_calls(operators, outline, out)?;
    }
    Ok(())
}

/// Which operator calls which; `bodies` are the outlines of their bodies.
pub fn graph_of(
    alloc: Global,
    operators: &[DefinedOperator],
    bodies: &[Outline],
) -> Result<Graph, AllocError>
    ensures { IfOk result (λ graph. graph ≡ told.graph_of operators.now bodies.now) }
{
    let mut graph = Items::new(alloc);
    for body in bodies {
        let mut called = Items::new(alloc);
        put_calls(operators, body, &mut called)?;
        graph.push(called)?;
    }
    Ok(graph)
}

/// The names of those operators.
fn names_of(
    alloc: Global,
    operators: &[DefinedOperator],
    numbers: &[usize],
) -> Result<Items<Word>, AllocError>
    ensures { IfOk result (λ names. names ≡ told.names_of operators.now numbers.now) }
{
    let mut names = Items::new(alloc);
    for number in numbers {
        put_name(operators, *number, &mut names)?;
    }
    Ok(names)
}

fn put_name(
    operators: &[DefinedOperator],
    number: usize,
    out: &mut Items<Word>,
) -> Result<(), AllocError>
    ensures { OnOk result (out.new ≡ out.old ++ told.name_at operators.now number) }
{
    match at(operators, number) {
        Some(operator) => out.push(operator.name.copy()?),
        None => Ok(()),
    }
}

/// The fault of an operator whose body reaches its own call; `bodies` are the outlines of their bodies.
pub(crate) fn recursion(
    alloc: Global,
    operators: &[DefinedOperator],
    bodies: &[Outline],
) -> Result<Option<PlacedFault>, AllocError>
    ensures { IfOk result (λ found. found ≡ told.recursion operators.now bodies.now) }
{
    let graph = graph_of(alloc, operators, bodies)?;
    let Some(cycle) = first_cycle(alloc, &graph)? else {
        return Ok(None);
    };
    let names = names_of(alloc, operators, cycle.as_slice())?;
    match cycle.as_slice() {
        [] => Ok(None),
        [start, ..] => Ok(told_at(operators, *start, names)),
    }
}

fn told_at(operators: &[DefinedOperator], start: usize, names: Items<Word>) -> Option<PlacedFault>
    ensures { result ≡ told.told_at operators.now start names }
{
    operators.get(start).map(|operator| PlacedFault {
        fault: OperatorFault::Recursion(names),
        place: operator.place,
    })
}
