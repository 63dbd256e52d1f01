// Calls of defined operators that aren't right.
ghost use Rattle.std.specs.Prelude.{◌≡◌, find, IfOk};
ghost use Rattle.std.specs.Option.{option_copied, option_to_list};
ghost use Rattle.operator_faults.specs.Calls as meant;

use crate::fault::{OperatorFault, PlacedFault};
use crate::outline::{CallSite, Outline, What};
use crate::sketch::Sketch;
use std::alloc::AllocError;
use vtl_syntax::words::Sort;
use vtl_syntax::{DefinedOperator, Param};
use vtl_values::{Place, Word};

/// What can be wrong with a call.
#[derive(Clone, Copy, PartialEq, Eq)]
pub enum CallFault {
    /// it names no operator
    Unknown,
    /// it has another number of arguments
    Count,
    /// an argument of a scalar sort has a name in it, and the operator is of data sets
    Sort,
}

/// The first operator of that name.
pub fn operator_of<'a>(operators: &'a [DefinedOperator], name: &Word) -> Option<&'a DefinedOperator>
    ensures { option_copied result ≡ meant.operator_of operators.now name.now }
{
    for operator in operators {
        if operator.name == *name {
            return Some(operator);
        }
    }
    None
}

fn is_dataset(sort: Sort) -> bool
    ensures { result ≡ meant.is_dataset sort }
{
    match sort {
        Sort::Dataset => true,
        Sort::Integer => false,
        Sort::Number => false,
        Sort::Text => false,
        Sort::Truth => false,
    }
}

fn has_dataset(params: &[Param]) -> bool
    ensures { result ≡ meant.has_dataset params.now }
{
    for param in params {
        if is_dataset(param.sort) {
            return true;
        }
    }
    false
}

/// Whether the operator is of data sets.
fn is_of_sets(operator: &DefinedOperator) -> bool
    ensures { result ≡ meant.is_of_sets operator.now }
{
    let gives = match operator.returns {
        Some(sort) => is_dataset(sort),
        None => false,
    };
    gives || has_dataset(operator.params.as_slice())
}

/// Whether that argument has a name in it.
fn has_name(named: &[bool], argument: usize) -> bool
    ensures { result ≡ meant.has_name named.now argument }
{
    match named.get(argument) {
        Some(named) => *named,
        None => false,
    }
}

/// Whether a name stands where a scalar does.
fn names_scalar(params: &[Param], named: &[bool]) -> bool
    ensures { result ≡ meant.names_scalar named.now 0 params.now }
{
    for (i, param) in params.iter().enumerate() {
        if has_name(named, i) && !is_dataset(param.sort) {
            return true;
        }
    }
    false
}

/// Whether that is wrong with the call.
fn is_wrong(fault: CallFault, operators: &[DefinedOperator], call: &CallSite) -> bool
    ensures { result ≡ meant.is_wrong fault operators.now call.now }
{
    match operator_of(operators, &call.name) {
        Some(operator) => match fault {
            CallFault::Unknown => false,
            CallFault::Count => call.named.len() != operator.params.len(),
            CallFault::Sort => {
                is_of_sets(operator)
                    && names_scalar(operator.params.as_slice(), call.named.as_slice())
            }
        },
        None => fault == CallFault::Unknown,
    }
}

/// The first call in the outline with which that is wrong.
#[cycle(wrong)]
fn wrong_call<'a>(
    fault: CallFault,
    operators: &[DefinedOperator],
    outline: &'a Outline,
) -> Option<&'a CallSite>
    ensures { option_copied result ≡ find (meant.is_wrong fault operators.now) (meant.sites outline.now) }
{
    match own_wrong(fault, operators, &outline.what) {
        Some(call) => Some(call),
        None => first_wrong(fault, operators, outline.parts.as_slice()),
    }
}

/// The call itself, if that is wrong with it.
fn own_wrong<'a>(
    fault: CallFault,
    operators: &[DefinedOperator],
    what: &'a What,
) -> Option<&'a CallSite>
    ensures { option_copied result ≡ find (meant.is_wrong fault operators.now) (option_to_list (meant.own_call what.now)) }
{
    match own_call(what) {
        Some(call) if is_wrong(fault, operators, call) => Some(call),
        _ => None,
    }
}

fn own_call(what: &What) -> Option<&CallSite>
    ensures { option_copied result ≡ meant.own_call what.now }
{
    match what {
        What::Call(call) => Some(call),
        What::Name(_) => None,
        What::Plain => None,
        What::Level => None,
        What::Inside => None,
        What::InsideJoin => None,
    }
}

/// The first in the outlines.
#[cycle(wrong)]
fn first_wrong<'a>(
    fault: CallFault,
    operators: &[DefinedOperator],
    outlines: &'a [Outline],
) -> Option<&'a CallSite>
    ensures { option_copied result ≡ find (meant.is_wrong fault operators.now) (meant.all_sites outlines.now) }
{
    for outline in outlines {
        if let Some(call) = wrong_call(fault, operators, outline) {
            return Some(call);
        }
    }
    None
}

fn is_before(a: Place, b: Place) -> bool
    ensures { result ≡ meant.is_before a b }
{
    a.line < b.line || a.line == b.line && a.column < b.column
}

/// Which of the two stands first in the script.
fn earlier<'a>(a: Option<&'a CallSite>, b: Option<&'a CallSite>) -> Option<&'a CallSite>
    ensures { option_copied result ≡ meant.earlier (option_copied a.entry) (option_copied b.entry) }
{
    match (a, b) {
        (Some(a), Some(b)) => Some(if is_before(b.place, a.place) { b } else { a }),
        (Some(a), None) => Some(a),
        (None, b) => b,
    }
}

/// The first call in the script with which that is wrong.
fn first_call<'a>(
    fault: CallFault,
    operators: &[DefinedOperator],
    sketch: &'a Sketch,
) -> Option<&'a CallSite>
    ensures { option_copied result ≡ meant.first_call fault operators.now sketch.now }
{
    let in_statements = first_wrong(fault, operators, sketch.statements.as_slice());
    let in_rulesets = first_wrong(fault, operators, sketch.rulesets.as_slice());
    let in_bodies = first_wrong(fault, operators, sketch.bodies.as_slice());
    earlier(earlier(in_statements, in_rulesets), in_bodies)
}

/// The fault of a call with which that is wrong.
pub(crate) fn wrong_in_script(
    fault: CallFault,
    operators: &[DefinedOperator],
    sketch: &Sketch,
) -> Result<Option<PlacedFault>, AllocError>
    ensures { IfOk result (λ found. found ≡ meant.wrong_in_script fault operators.now sketch.now) }
{
    match first_call(fault, operators, sketch) {
        Some(call) => Ok(Some(PlacedFault {
            fault: told(fault, &call.name)?,
            place: call.place,
        })),
        None => Ok(None),
    }
}

fn told(fault: CallFault, name: &Word) -> Result<OperatorFault, AllocError>
    ensures { IfOk result (λ told. told ≡ meant.told fault name.now) }
{
    match fault {
        CallFault::Unknown => Ok(OperatorFault::UnknownOperator(name.copy()?)),
        CallFault::Count => Ok(OperatorFault::ArgumentCount),
        CallFault::Sort => Ok(OperatorFault::ArgumentSort),
    }
}
