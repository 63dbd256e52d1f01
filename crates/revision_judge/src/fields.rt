// What the fields of a row give.
ghost use Rattle.std.specs.Prelude.{◌≡◌, ◌+◌, List, chars, IfOk, IfErr, Ok, not, IsTrue};
ghost use Rattle.std.specs.List.{list_any};
ghost use Rattle.std.specs.Option.{option_copied};
ghost use Rattle.vtl_values.specs.Texts.{same_text};
ghost use Rattle.structured_sets.specs.Fitting.{is_identifier, is_in_codes};
ghost use Rattle.revision_judge.specs.Fields as meant;
ghost use Rattle.revision_judge.specs.Fields.{field_or_empty, fitting, text_in, key_cells, rest_cells, key_fields};
ghost use Rattle.revision_judge.specs.Stops.{Refuses};

use crate::cause::Cause;
use crate::stop::RowStop;
use point_sets::RawField;
use sqlite_items::{Items, at};
use std::alloc::{AllocError, Global};
use vtl_values::{Codes, Component, Role, Value, Word, read_value};

fn is_identifier(component: &Component) -> bool
    ensures { result ≡ is_identifier component.now }
{
    match component.role {
        Role::Identifier => true,
        Role::Measure | Role::Attribute | Role::Viral => false,
    }
}

fn is_null(value: &Value) -> bool
    ensures { result ≡ meant.is_null value.now }
{
    match value {
        Value::Null => true,
        Value::Truth(_) | Value::Integer(_) | Value::Number(_) | Value::Text(_) => false,
    }
}

fn is_in_codes(codes: &Codes, value: &Value) -> bool
    ensures { result ≡ is_in_codes codes.now value.now }
{
    match (codes, value) {
        (Codes::Listed(codes), Value::Text(text)) => codes.contains(text),
        _ => true,
    }
}

fn written(field: &RawField) -> &str
    ensures { chars result.now ≡ text_in field.now }
{
    match field {
        RawField::Empty => "",
        RawField::Given(text) => text.as_str(),
    }
}

/// The text of a field; a field that is missing is empty.
fn text_in(field: Option<&RawField>) -> &str
    ensures { chars result.now ≡ text_in (field_or_empty (option_copied field.entry)) }
{
    match field {
        None => "",
        Some(field) => written(field),
    }
}

/// Why the component may not have the value.
fn check_fitting(component: &Component, value: &Value) -> Result<(), Cause>
    ensures ok { IfOk result (λ _. fitting component.now value.now ≡ Ok value.now) }
    ensures err { IfErr result (λ cause. fitting component.now value.now ≡ Err cause) }
{
    if is_identifier(component) && is_null(value) {
        return Err(Cause::NullIdentifier);
    }
    if !is_in_codes(&component.codes, value) {
        return Err(Cause::NotInCodes);
    }
    Ok(())
}

/// The value that a field gives to a component.
fn value_in(
    alloc: Global,
    component: &Component,
    field: Option<&RawField>,
) -> Result<Value, RowStop>
    ensures ok { IfOk result (λ value. meant.value_in (component.now, field_or_empty (option_copied field.entry)) ≡ Ok value) }
    ensures err { IfErr result (Refuses (meant.value_in (component.now, field_or_empty (option_copied field.entry)))) }
{
    let value = read_value(alloc, component.kind, text_in(field))?;
    check_fitting(component, &value)?;
    Ok(value)
}

/// How many of the components are identifiers, or how many are not.
fn count_of(components: &[Component], identifiers: bool) -> usize {
    components
        .iter()
        .filter(|component| is_identifier(*component) == identifiers)
        .count()
}

/// The values of a row's identifiers.
pub fn key_in(
    alloc: Global,
    components: &[Component],
    fields: &[RawField],
) -> Result<Vec<Value>, RowStop>
    ensures ok { IfOk result (λ values. meant.values_in (key_cells components.now fields.now) ≡ Ok values.items) }
    ensures err { IfErr result (Refuses (meant.values_in (key_cells components.now fields.now))) }
{
    let mut values = Vec::with_capacity(alloc, count_of(components, true))?;
    for (n, component) in components.iter().enumerate() {
        if is_identifier(component) {
            values.push(value_in(alloc, component, at(fields, n))?)?;
        }
    }
    Ok(values)
}

/// The values of a row's other components.
pub fn rest_in(
    alloc: Global,
    components: &[Component],
    fields: &[RawField],
) -> Result<Vec<Value>, RowStop>
    ensures ok { IfOk result (λ values. meant.values_in (rest_cells components.now fields.now) ≡ Ok values.items) }
    ensures err { IfErr result (Refuses (meant.values_in (rest_cells components.now fields.now))) }
{
    let mut values = Vec::with_capacity(alloc, count_of(components, false))?;
    for (n, component) in components.iter().enumerate() {
        if !is_identifier(component) {
            values.push(value_in(alloc, component, at(fields, n))?)?;
        }
    }
    Ok(values)
}

/// A field as it was written; a field that is missing is empty.
fn copy_field(field: Option<&RawField>) -> Result<RawField, AllocError>
    ensures { IfOk result (λ copied. copied ≡ field_or_empty (option_copied field.entry)) }
{
    match field {
        None => Ok(RawField::Empty),
        Some(field) => field.copy(),
    }
}

/// The fields of a row's identifiers, as they were written.
pub fn key_fields(
    alloc: Global,
    components: &[Component],
    fields: &[RawField],
) -> Result<Items<RawField>, AllocError>
    ensures { IfOk result (λ key. key ≡ key_fields components.now fields.now) }
{
    let mut key = Vec::new(alloc);
    for (n, component) in components.iter().enumerate() {
        if is_identifier(component) {
            key.push(copy_field(at(fields, n))?)?;
        }
    }
    Ok(Items::from_vec(key))
}
