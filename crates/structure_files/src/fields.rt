// The fields of a component.
ghost use Rattle.std.specs.Prelude.{◌≡◌, ◌≢◌, ◌||◌, ◌==◌, IfOk, IfErr, map};
ghost use Rattle.std.specs.Char.{is_ascii_alphanumeric};
ghost use Rattle.std.specs.List.{list_all};
ghost use Rattle.serde_json.specs.View.{view};
ghost use Rattle.vtl_values.specs.Structures.{FitsCodes};
ghost use Rattle.vtl_values.specs.declared.kind.Role.TheVariants.{Viral};
ghost use Rattle.vtl_values.specs.declared.structure.Codes.TheVariants.{Any};
ghost use Rattle.structure_files.specs.Fields.{is_name, roles, kinds, meant_by, name_at, role_at, kind_at, next_code, codes_of, no_codes, codes_at};
ghost use Rattle.structure_files.specs.Refusals.{Refuses, one_by_one};

use crate::json::{as_list, text_in};
use crate::stop::{Fault, Path, StructureStop};
use serde_json::Value;
use std::alloc::Global;
use vtl_values::{CodeList, Codes, Kind, NewCodes, Role, Word};

fn is_name(text: &str) -> bool
    ensures { result ≡ is_name text.now }
{
    match text.as_bytes().split_first() {
        Some((first, others)) => first.is_ascii_alphabetic() && are_name_bytes(others),
        None => false,
    }
}

fn are_name_bytes(bytes: &[u8]) -> bool
    ensures { result ≡ list_all (λ c. is_ascii_alphanumeric c || (c == 95) || (c == 46)) bytes.now }
{
    bytes
        .iter()
        .all(|c| c.is_ascii_alphanumeric() || *c == b'_' || *c == b'.')
}

/// The field `name`.
pub fn name_in(alloc: Global, path: Path, value: &Value) -> Result<Word, StructureStop>
    ensures ok { IfOk result (λ name. name_at path (view value.now) ≡ Ok name) }
    ensures err { IfErr result (Refuses (name_at path (view value.now))) }
{
    let Some(text) = text_in("name", value) else {
        return Err(StructureStop::at(Fault::MissingField, path));
    };
    if !is_name(text) {
        return Err(StructureStop::at(Fault::BadName, path));
    }
    Ok(Word::from_str(alloc, text)?)
}

fn role_meant(text: &str) -> Option<Role>
    ensures { result ≡ meant_by roles text.now }
{
    match text {
        "identifier" => Some(Role::Identifier),
        "measure" => Some(Role::Measure),
        "attribute" => Some(Role::Attribute),
        "viral attribute" => Some(Role::Viral),
        _ => None,
    }
}

/// The field `role`.
pub fn role_in(path: Path, value: &Value) -> Result<Role, StructureStop>
    ensures ok { IfOk result (λ role. role_at path (view value.now) ≡ Ok role) }
    ensures err { IfErr result (Refuses (role_at path (view value.now))) }
{
    let Some(text) = text_in("role", value) else {
        return Err(StructureStop::at(Fault::MissingField, path));
    };
    role_meant(text).ok_or(StructureStop::at(Fault::BadRole, path))
}

fn kind_meant(text: &str) -> Option<Kind>
    ensures { result ≡ meant_by kinds text.now }
{
    match text {
        "integer" => Some(Kind::Integer),
        "number" => Some(Kind::Number),
        "string" => Some(Kind::Text),
        "boolean" => Some(Kind::Truth),
        _ => None,
    }
}

/// The field `type`.
pub fn kind_in(path: Path, value: &Value) -> Result<Kind, StructureStop>
    ensures ok { IfOk result (λ kind. kind_at path (view value.now) ≡ Ok kind) }
    ensures err { IfErr result (Refuses (kind_at path (view value.now))) }
{
    let Some(text) = text_in("type", value) else {
        return Err(StructureStop::at(Fault::MissingField, path));
    };
    kind_meant(text).ok_or(StructureStop::at(Fault::BadType, path))
}

fn with_code(
    alloc: Global,
    path: Path,
    codes: NewCodes,
    value: &Value,
) -> Result<NewCodes, StructureStop>
    ensures ok { IfOk result (λ more. next_code path codes (view value.now) ≡ Ok more) }
    ensures err { IfErr result (Refuses (next_code path codes (view value.now))) }
{
    let Some(text) = value.as_str() else {
        return Err(StructureStop::at(Fault::BadCodes, path));
    };
    let code = Word::from_str(alloc, text)?;
    codes
        .with(code)?
        .ok_or(StructureStop::at(Fault::BadCodes, path))
}

fn all_codes(alloc: Global, path: Path, values: &[Value]) -> Result<NewCodes, StructureStop>
    ensures ok { IfOk result (λ codes. one_by_one (next_code path) (map view values.now) ≡ Ok codes) }
    ensures err { IfErr result (Refuses (one_by_one (next_code path) (map view values.now))) }
{
    let mut codes = NewCodes::new(alloc);
    for value in values {
        codes = with_code(alloc, path, codes, value)?;
    }
    Ok(codes)
}

fn codes_of(alloc: Global, path: Path, kind: Kind, values: &[Value]) -> Result<Codes, StructureStop>
    ensures ok { IfOk result (λ listed. codes_of path kind (map view values.now) ≡ Ok listed) }
    ensures err { IfErr result (Refuses (codes_of path kind (map view values.now))) }
    ensures fit { IfOk result (λ listed. FitsCodes kind listed × (listed ≢ Any)) }
{
    let Kind::Text = kind else {
        return Err(StructureStop::at(Fault::BadCodes, path));
    };
    let codes = CodeList::of(alloc, all_codes(alloc, path, values)?)?;
    if codes.as_slice().is_empty() {
        return Err(StructureStop::at(Fault::BadCodes, path));
    }
    Ok(Codes::Listed(codes))
}

fn no_codes(path: Path, role: Role) -> Result<Codes, StructureStop>
    ensures ok { IfOk result (λ listed. no_codes path role ≡ Ok listed) }
    ensures err { IfErr result (Refuses (no_codes path role)) }
    ensures any { IfOk result (λ listed. (listed ≡ Any) × (role ≢ Viral)) }
{
    match role {
        Role::Viral => Err(StructureStop::at(Fault::BadCodes, path)),
        _ => Ok(Codes::Any),
    }
}

/// The field `codes`.
pub fn codes_in(
    alloc: Global,
    path: Path,
    role: Role,
    kind: Kind,
    value: &Value,
) -> Result<Codes, StructureStop>
    ensures ok { IfOk result (λ listed. codes_at path role kind (view value.now) ≡ Ok listed) }
    ensures err { IfErr result (Refuses (codes_at path role kind (view value.now))) }
    ensures fit { IfOk result (λ listed. FitsCodes kind listed) }
    ensures viral { IfOk result (λ listed. role ≡ Viral → listed ≢ Any) }
{
    let Some(found) = value.get("codes") else {
        return no_codes(path, role);
    };
    match as_list(found) {
        Some(values) => codes_of(alloc, path, kind, values),
        None => Err(StructureStop::at(Fault::MissingField, path)),
    }
}
