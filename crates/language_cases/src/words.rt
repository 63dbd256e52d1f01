// Kinds, structures and faults of types as texts.
use anyhow::Result;
use scalar_trees::typing::Refusal;
use std::alloc::Global;
use vtl_values::{Component, Kind, Role, Structure};

/// The word of a kind, as a structure file has it.
pub fn kind_word(kind: Kind) -> &'static str {
    match kind {
        Kind::Integer => "integer",
        Kind::Number => "number",
        Kind::Text => "string",
        Kind::Truth => "boolean",
    }
}

fn role_word(role: Role) -> &'static str {
    match role {
        Role::Identifier => "identifier",
        Role::Measure => "measure",
        Role::Attribute => "attribute",
        Role::Viral => "viral",
    }
}

fn component(alloc: Global, component: &Component) -> Result<String> {
    let name = component.name.as_str();
    let (role, kind) = (role_word(component.role), kind_word(component.kind));
    Ok(format!(in alloc; "{name}:{role}:{kind}")?)
}

/// The components in their order, with blanks between them.
pub fn shown(alloc: Global, structure: &Structure) -> Result<String> {
    let mut text = String::new(alloc);
    for (i, part) in structure.components().iter().enumerate() {
        if i > 0 {
            text.push_str(" ")?;
        }
        text.push_str(component(alloc, part)?.as_str())?;
    }
    Ok(text)
}

/// A fault after the column of its place.
pub fn faulty(alloc: Global, refusal: Refusal) -> Result<String> {
    let (column, fault) = (refusal.place.column, refusal.fault);
    Ok(format!(in alloc; "{column} {fault:?}")?)
}
