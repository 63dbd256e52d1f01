// The data sets of a file.
ghost use Rattle.std.specs.Prelude.{◌≡◌, None, Ok, IfOk, IfErr, is_some, map};
ghost use Rattle.serde_json.specs.View.{view};
ghost use Rattle.vtl_values.specs.Structures.{structure_of};
ghost use Rattle.structure_files.specs.Reading.{next_set, structures_of};
ghost use Rattle.structure_files.specs.Refusals.{Refuses, one_by_one};

use crate::components::{MOST, components_in};
use crate::fields::name_in;
use crate::json::{list_in, parsed};
use crate::stop::{Fault, Field, Path, StructureStop};
use serde_json::Value;
use std::alloc::Global;
use vtl_values::{Structure, Structures};

fn with_set(
    alloc: Global,
    structures: Structures,
    value: &Value,
) -> Result<Structures, StructureStop>
    ensures ok { IfOk result (λ more. next_set structures (view value.now) ≡ Ok more) }
    ensures err { IfErr result (Refuses (next_set structures (view value.now))) }
{
    let count = structures.len();
    if count >= MOST {
        return Err(StructureStop::at(Fault::TooMany, Path::Set(count as u64)));
    }
    let set = count as u64;
    let name = name_in(alloc, Path::SetField(set, Field::Name), value)?;
    if structures.get(&name).is_some() {
        return Err(StructureStop::at(Fault::NameTwice, Path::SetField(set, Field::Name)));
    }
    let Some(values) = list_in("components", value) else {
        return Err(StructureStop::at(Fault::MissingField, Path::SetField(set, Field::Components)));
    };
    let components = components_in(alloc, set, values)?;
    let mut structures = structures;
    structures.insert(name, Structure::of(alloc, components)?)?;
    Ok(structures)
}

fn all_sets(alloc: Global, values: &[Value]) -> Result<Structures, StructureStop>
    ensures ok { IfOk result (λ structures. one_by_one next_set (map view values.now) ≡ Ok structures) }
    ensures err { IfErr result (Refuses (one_by_one next_set (map view values.now))) }
{
    let mut structures = Structures::new(alloc);
    for value in values {
        structures = with_set(alloc, structures, value)?;
    }
    Ok(structures)
}

/// The structures of a file, or the first fault in the file's order.
pub fn read_structures(alloc: Global, bytes: &[u8]) -> Result<Structures, StructureStop>
    ensures ok { IfOk result (λ structures. structures_of bytes.now ≡ Ok structures) }
    ensures err { IfErr result (Refuses (structures_of bytes.now)) }
{
    let file = parsed(alloc, bytes)?;
    let Some(values) = list_in("datasets", &file) else {
        return Err(StructureStop::at(Fault::MissingField, Path::Datasets));
    };
    all_sets(alloc, values)
}
