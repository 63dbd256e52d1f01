// A structure file as JSON.
ghost use Rattle.std.specs.Prelude.{◌≡◌, Some, IfOk, IfErr, option_map, option_and_then, map};
ghost use Rattle.std.specs.Option.{option_copied};
ghost use Rattle.serde_json.specs.Find.{get};
ghost use Rattle.serde_json.specs.View.{view};
ghost use Rattle.structure_files.specs.Json.{json_of, as_list, text_in, list_in};
ghost use Rattle.structure_files.specs.Refusals.{Refuses, or_refused};
ghost use Rattle.structure_files.specs.declared.stop.Fault.TheVariants.{NotJson};
ghost use Rattle.structure_files.specs.declared.stop.Path.TheVariants.{Whole};

use crate::stop::{Fault, Path, StructureStop};
use serde_json::Value;
use std::alloc::Global;

/// The value that the bytes are.
pub fn parsed(alloc: Global, bytes: &[u8]) -> Result<Value, StructureStop>
    ensures ok { IfOk result (λ value. json_of bytes.now ≡ Some (view value)) }
    ensures err { IfErr result (Refuses (or_refused (json_of bytes.now) NotJson Whole)) }
{
    match Value::from_slice(alloc, bytes) {
        Ok(value) => Ok(value),
        Err(error) if error.is_memory() => Err(StructureStop::Memory),
        Err(_) => Err(StructureStop::at(Fault::NotJson, Path::Whole)),
    }
}

/// The text in a field.
pub fn text_in<'v>(field: &str, value: &'v Value) -> Option<&'v str>
    ensures { option_copied result ≡ text_in field.now (view value.now) }
{
    value.get(field).and_then(Value::as_str)
}

/// The values of a list.
pub fn as_list(value: &Value) -> Option<&[Value]>
    ensures { option_map (λ values. map view values.now) result ≡ as_list (view value.now) }
{
    match value.as_array() {
        Some(values) => Some(values.as_slice()),
        None => None,
    }
}

/// The list in a field.
pub fn list_in<'v>(field: &str, value: &'v Value) -> Option<&'v [Value]>
    ensures { option_map (λ values. map view values.now) result ≡ list_in field.now (view value.now) }
{
    match value.get(field) {
        Some(found) => as_list(found),
        None => None,
    }
}
