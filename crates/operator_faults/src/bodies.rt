// Names in bodies that are no parameters.
ghost use Rattle.std.specs.Prelude.{◌≡◌, find, IfOk};
ghost use Rattle.std.specs.List.{flat_map};
ghost use Rattle.std.specs.Option.{option_copied, option_to_list};
ghost use Rattle.operator_faults.specs.Bodies as meant;

use crate::fault::{OperatorFault, PlacedFault};
use crate::names::is_named;
use crate::outline::{Outline, Site, What};
use std::alloc::AllocError;
use vtl_syntax::{DefinedOperator, Param};

/// The name, if one stands there.
fn own_name(what: &What) -> Option<&Site>
    ensures { option_copied result ≡ meant.own_name what.now }
{
    match what {
        What::Name(site) => Some(site),
        What::Call(_) => None,
        What::Plain => None,
        What::Level => None,
        What::Inside => None,
        What::InsideJoin => None,
    }
}

/// Whether names further in are those of components.
fn is_inside(what: &What) -> bool
    ensures { result ≡ meant.is_inside what.now }
{
    match what {
        What::Name(_) => false,
        What::Call(_) => false,
        What::Plain => false,
        What::Level => false,
        What::Inside => true,
        What::InsideJoin => true,
    }
}

/// The first name that stands as a data set and is no parameter.
#[cycle(free)]
fn free_name<'a>(params: &[Param], outline: &'a Outline) -> Option<&'a Site>
    ensures { option_copied result ≡ find (meant.is_free params.now) (meant.data_names outline.now) }
{
    match own_free(params, &outline.what) {
        Some(site) => Some(site),
        None => first_free(params, data_parts(outline)),
    }
}

/// The name itself, if it is no parameter.
fn own_free<'a>(params: &[Param], what: &'a What) -> Option<&'a Site>
    ensures { option_copied result ≡ find (meant.is_free params.now) (option_to_list (meant.own_name what.now)) }
{
    match own_name(what) {
        Some(site) if !is_named(params, &site.name) => Some(site),
        _ => None,
    }
}

/// The parts in which names stand as data sets.
fn data_parts(outline: &Outline) -> &[Outline]
    ensures { result.now ≡ meant.data_parts outline.now }
{
    if is_inside(&outline.what) {
        &[]
    } else {
        outline.parts.as_slice()
    }
}

/// The first in the outlines.
#[cycle(free)]
fn first_free<'a>(params: &[Param], outlines: &'a [Outline]) -> Option<&'a Site>
    ensures { option_copied result ≡ find (meant.is_free params.now) (flat_map meant.data_names outlines.now) }
{
    for outline in outlines {
        if let Some(site) = free_name(params, outline) {
            return Some(site);
        }
    }
    None
}

/// The fault of a name in a body that stands as a data set and is no parameter; `bodies` are the outlines of the
/// operators' bodies.
pub(crate) fn free_in_bodies(
    operators: &[DefinedOperator],
    bodies: &[Outline],
) -> Result<Option<PlacedFault>, AllocError>
    ensures { IfOk result (λ found. found ≡ meant.free_in_bodies bodies.now 0 operators.now) }
{
    for (i, operator) in operators.iter().enumerate() {
        if let Some(site) = free_at(operator, bodies, i) {
            return Ok(Some(PlacedFault {
                fault: OperatorFault::FreeName(site.name.copy()?),
                place: site.place,
            }));
        }
    }
    Ok(None)
}

/// The first such name in the body with that number, which is the operator's.
fn free_at<'a>(operator: &DefinedOperator, bodies: &'a [Outline], number: usize) -> Option<&'a Site>
    ensures { option_copied result ≡ meant.free_at operator.now bodies.now number }
{
    match bodies.get(number) {
        Some(body) => free_name(operator.params.as_slice(), body),
        None => None,
    }
}
