// The components of a data set.
ghost use Rattle.std.specs.Prelude.{◌≡◌, ◌≢◌, ◌≤◌, Ok, IfOk, IfErr, All, length, map, nat_le, count_by};
ghost use Rattle.std.specs.List.{list_any};
ghost use Rattle.serde_json.specs.View.{view};
ghost use Rattle.vtl_values.specs.Structures.{IsStructure, FitsCodes, place_of};
ghost use Rattle.structure_files.specs.Fits.{IsFit};
ghost use Rattle.structure_files.specs.Reading.{component_of, components_of, next_component, has_name, is_identifier};
ghost use Rattle.structure_files.specs.Refusals.{Refuses, one_by_one};

use crate::fields::{codes_in, kind_in, name_in, role_in};
use crate::stop::{Fault, Field, Path, StructureStop};
use serde_json::Value;
use std::alloc::Global;
use vtl_values::{Component, Role, Word};

/// The most data sets of a file, and the most components of a data set.
pub const MOST: usize = 64;

fn component_in(
    alloc: Global,
    set: u64,
    number: u64,
    value: &Value,
) -> Result<Component, StructureStop>
    ensures ok { IfOk result (λ component. component_of set number (view value.now) ≡ Ok component) }
    ensures err { IfErr result (Refuses (component_of set number (view value.now))) }
    ensures fit { IfOk result IsFit }
{
    let name = name_in(alloc, Path::ComponentField(set, number, Field::Name), value)?;
    let role = role_in(Path::ComponentField(set, number, Field::Role), value)?;
    let kind = kind_in(Path::ComponentField(set, number, Field::Kind), value)?;
    let codes = codes_in(
        alloc,
        Path::ComponentField(set, number, Field::Codes),
        role,
        kind,
        value,
    )?;
    Ok(Component {
        name,
        role,
        kind,
        codes,
    })
}

fn order(role: Role) -> u8
    ensures { result ≡ place_of role }
{
    match role {
        Role::Identifier => 0,
        Role::Measure => 1,
        Role::Attribute => 2,
        Role::Viral => 3,
    }
}

fn is_named(components: &[Component], name: &Word) -> bool
    ensures { result ≡ list_any (has_name name.now) components.now }
{
    components.iter().any(|component| component.name == *name)
}

fn has_identifier(components: &[Component]) -> bool
    ensures { result ≡ list_any is_identifier components.now }
{
    components
        .iter()
        .any(|component| order(component.role) == 0)
}

fn standing_before(components: &[Component], role: Role) -> usize
    ensures count { result ≡ count_by (λ other. nat_le (place_of other.role) (place_of role)) components.now }
    ensures within { result ≤ length components.now }
{
    components
        .iter()
        .filter(|other| order(other.role) <= order(role))
        .count()
}

fn with_component(
    alloc: Global,
    set: u64,
    components: Vec<Component>,
    value: &Value,
) -> Result<Vec<Component>, StructureStop>
    requires { IsStructure components.items }
    ensures ok { IfOk result (λ more. next_component set components.items (view value.now) ≡ Ok more.items) }
    ensures err { IfErr result (Refuses (next_component set components.items (view value.now))) }
    ensures structure { IfOk result (λ more. IsStructure more.items) }
{
    let number = components.len();
    if number >= MOST {
        return Err(StructureStop::at(Fault::TooMany, Path::Component(set, number as u64)));
    }
    let component = component_in(alloc, set, number as u64, value)?;
    if is_named(components.as_slice(), &component.name) {
        return Err(StructureStop::at(
            Fault::NameTwice,
            Path::ComponentField(set, number as u64, Field::Name),
        ));
    }
    let place = standing_before(components.as_slice(), component.role);
    let mut components = components;
    components.insert(place, component)?;
    Ok(components)
}

fn all_components(
    alloc: Global,
    set: u64,
    values: &[Value],
) -> Result<Vec<Component>, StructureStop>
    ensures ok { IfOk result (λ components. one_by_one (next_component set) (map view values.now) ≡ Ok components.items) }
    ensures err { IfErr result (Refuses (one_by_one (next_component set) (map view values.now))) }
    ensures structure { IfOk result (λ components. IsStructure components.items) }
{
    let mut components = Vec::new(alloc);
    for value in values {
        components = with_component(alloc, set, components, value)?;
    }
    Ok(components)
}

/// The components of the set with this number.
pub fn components_in(
    alloc: Global,
    set: u64,
    values: &[Value],
) -> Result<Vec<Component>, StructureStop>
    ensures ok { IfOk result (λ components. components_of set (map view values.now) ≡ Ok components.items) }
    ensures err { IfErr result (Refuses (components_of set (map view values.now))) }
    ensures structure { IfOk result (λ components. IsStructure components.items) }
{
    let components = all_components(alloc, set, values)?;
    if !has_identifier(components.as_slice()) {
        return Err(StructureStop::at(Fault::NoIdentifier, Path::Set(set)));
    }
    Ok(components)
}
