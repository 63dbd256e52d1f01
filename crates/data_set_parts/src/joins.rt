// The components of results.
ghost use Rattle.std.specs.Prelude.{◌≡◌, ◌++◌, true, filter, map, IfOk, OnOk};
ghost use Rattle.vtl_values.specs.declared.kind.Role.TheVariants as role;
ghost use Rattle.data_set_trees.specs.clauses.After as after;
ghost use Rattle.data_set_trees.specs.Components as meant;
ghost use Rattle.data_set_trees.specs.Pairs as pairs;
ghost use Rattle.data_set_parts.specs.Joins as own;

use crate::components::{further, of_role, unlisted};
use data_set_trees::clauses::CheckedMeasure;
use sqlite_items::Items;
use std::alloc::{AllocError, Global};
use vtl_values::{Codes, Component, Kind, Role, Word};

/// The components of this role of the first data set, and further ones of the second.
fn of_both(
    alloc: Global,
    role: Role,
    components: &[Component],
    others: &[Component],
) -> Result<Items<Component>, AllocError>
    ensures { IfOk result (λ found. found ≡ own.both role components.now others.now) }
{
    let mut found = of_role(alloc, role, components)?;
    let theirs = of_role(alloc, role, others)?;
    let more = further(alloc, found.as_slice(), theirs.as_slice())?;
    found.append(more)?;
    Ok(found)
}

/// A measure of this kind and name. Or want of memory.
pub fn made_measure(kind: Kind, name: &Word) -> Result<Component, AllocError>
    ensures { IfOk result (λ component. component ≡ after.made role.Measure kind name.now) }
{
    Ok(Component {
        name: name.copy()?,
        role: Role::Measure,
        kind,
        codes: Codes::Any,
    })
}

fn measure_components(
    alloc: Global,
    measures: &[CheckedMeasure],
) -> Result<Items<Component>, AllocError>
    ensures { IfOk result (λ all. all ≡ map pairs.measure_component measures.now) }
{
    let mut all = Items::new(alloc);
    for measure in measures {
        all.push(made_measure(measure.kind, &measure.name)?)?;
    }
    Ok(all)
}

/// Puts the components last, without their code lists.
fn push_unlisted(all: &mut Items<Component>, components: &[Component]) -> Result<(), AllocError>
    ensures { OnOk result (all.new ≡ all.old ++ map meant.unlisted components.now) }
{
    for component in components {
        all.push(unlisted(component)?)?;
    }
    Ok(())
}

/// Identifiers, which lose their code lists, measures, and viral attributes, in that order. Or want of memory.
pub fn by_parts(
    alloc: Global,
    identifiers: &[Component],
    measures: Items<Component>,
    virals: Items<Component>,
) -> Result<Items<Component>, AllocError>
    ensures { IfOk result (λ all. all ≡ own.by_parts identifiers.now measures virals) }
{
    let mut all = Items::new(alloc);
    push_unlisted(&mut all, identifiers)?;
    all.append(measures)?;
    all.append(virals)?;
    Ok(all)
}

/// The identifiers of the first data set and further ones of the second, these measures, and the viral attributes likewise.
/// Or want of memory.
pub fn joined(
    alloc: Global,
    measures: &[CheckedMeasure],
    components: &[Component],
    others: &[Component],
) -> Result<Items<Component>, AllocError>
    ensures { IfOk result (λ all. all ≡ pairs.joined measures.now components.now others.now) }
{
    let identifiers = of_both(alloc, Role::Identifier, components, others)?;
    let virals = of_both(alloc, Role::Viral, components, others)?;
    let measures = measure_components(alloc, measures)?;
    by_parts(alloc, identifiers.as_slice(), measures, virals)
}
