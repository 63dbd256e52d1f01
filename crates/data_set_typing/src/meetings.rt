// What two data sets have in common.
ghost use Rattle.std.specs.Prelude.{◌≡◌, zip, IfOk};
ghost use Rattle.std.specs.List.{list_any};
ghost use Rattle.data_set_trees.specs.Lifted as lifted;
ghost use Rattle.data_set_trees.specs.Pairs as meant;
ghost use Rattle.data_set_typing.specs.Meetings as own;

use data_set_parts::components::{identifiers, include};
use data_set_parts::measures::{copy_measure, is_called, namesake};
use data_set_trees::Measure;
use sqlite_items::{Items, at as measure_at};
use std::alloc::{AllocError, Global};
use vtl_values::{Component, Word};

/// Whether the identifiers of one include those of the other, or want of memory.
pub(crate) fn identifiers_agree(
    alloc: Global,
    components: &[Component],
    others: &[Component],
) -> Result<bool, AllocError>
    ensures { IfOk result (λ agree. agree ≡ meant.identifiers_agree components.now others.now) }
{
    let first = identifiers(alloc, components)?;
    let second = identifiers(alloc, others)?;
    Ok(include(first.as_slice(), second.as_slice()) || include(second.as_slice(), first.as_slice()))
}

/// Whether the measure at this place, if there is one, has the name of the other.
fn is_opposite(measure: &Measure, others: &[Measure], at: usize) -> bool
    ensures { result ≡ own.is_opposite others.now at measure.now }
{
    match measure_at(others, at) {
        Some(other) => is_called(&measure.name, other),
        None => false,
    }
}

/// Whether one of the others has the name of the measure. It looks first at the place where it most likely stands.
fn has_namesake(measure: &Measure, others: &[Measure], at: usize) -> bool
    ensures { result ≡ list_any (meant.is_called measure.now.name) others.now }
{
    if is_opposite(measure, others, at) {
        return true;
    }
    others.iter().any(|other| is_called(&measure.name, other))
}

fn are_among(measures: &[Measure], others: &[Measure]) -> bool
    ensures { result ≡ meant.are_among measures.now others.now }
{
    for (i, measure) in measures.iter().enumerate() {
        if !has_namesake(measure, others, i) {
            return false;
        }
    }
    true
}

/// Whether an operator that changes the basic type has one measure to stand on.
pub(crate) fn has_one_if(changed: &Option<Word>, measures: &[Measure]) -> bool
    ensures { result ≡ lifted.has_one_if changed.now measures.now }
{
    match changed {
        Some(_) => measures.len() == 1,
        None => true,
    }
}

/// Whether the names of measures are the same, or each data set has one where the basic type changes.
pub(crate) fn measures_agree(
    changed: &Option<Word>,
    measures: &[Measure],
    others: &[Measure],
) -> bool
    ensures { result ≡ meant.measures_agree changed.now measures.now others.now }
{
    match changed {
        Some(_) => has_one_if(changed, measures) && has_one_if(changed, others),
        None => are_among(measures, others) && are_among(others, measures),
    }
}

/// The measures of one name.
fn meeting_by_name(
    alloc: Global,
    measures: &[Measure],
    others: &[Measure],
) -> Result<Items<(Measure, Measure)>, AllocError>
    ensures { IfOk result (λ met. met ≡ own.met_by_name others.now measures.now) }
{
    let mut met = Items::new(alloc);
    for measure in measures {
        if let Some(other) = namesake(&measure.name, others)? {
            met.push((copy_measure(measure)?, other))?;
        }
    }
    Ok(met)
}

/// A measure with the one at this place, if there is one.
fn opposite(
    measure: &Measure,
    others: &[Measure],
    at: usize,
) -> Result<Option<(Measure, Measure)>, AllocError>
    ensures { IfOk result (λ pair. pair ≡ own.opposite others.now at measure.now) }
{
    match measure_at(others, at) {
        Some(other) => Ok(Some((copy_measure(measure)?, copy_measure(other)?))),
        None => Ok(None),
    }
}

/// The measures in their order.
fn meeting_in_order(
    alloc: Global,
    measures: &[Measure],
    others: &[Measure],
) -> Result<Items<(Measure, Measure)>, AllocError>
    ensures { IfOk result (λ met. met ≡ zip measures.now others.now) }
{
    let mut met = Items::new(alloc);
    for (i, measure) in measures.iter().enumerate() {
        if let Some(pair) = opposite(measure, others, i)? {
            met.push(pair)?;
        }
    }
    Ok(met)
}

/// Which measures meet: those of one name, or one and the other where the basic type changes. Or want of memory.
pub(crate) fn meeting(
    alloc: Global,
    changed: &Option<Word>,
    measures: &[Measure],
    others: &[Measure],
) -> Result<Items<(Measure, Measure)>, AllocError>
    ensures { IfOk result (λ met. met ≡ meant.meeting changed.now measures.now others.now) }
{
    match changed {
        Some(_) => meeting_in_order(alloc, measures, others),
        None => meeting_by_name(alloc, measures, others),
    }
}
