// What `check` writes.
ghost use Rattle.std.specs.Prelude.{◌≡◌, ◌++◌, IfOk, OnOk};
ghost use Rattle.std.specs.List.{flat_map};
ghost use Rattle.commands.specs.Checking as meant;

use data_set_trees::checked::CheckedStatement;
use std::alloc::{AllocError, Global};
use vtl_values::{Component, Kind, Role};

fn role_word(role: Role) -> &'static [u8]
    ensures { result.now ≡ meant.role_word role }
{
    match role {
        Role::Identifier => b":identifier",
        Role::Measure => b":measure",
        Role::Attribute => b":attribute",
        Role::Viral => b":viral",
    }
}

fn kind_word(kind: Kind) -> &'static [u8]
    ensures { result.now ≡ meant.kind_word kind }
{
    match kind {
        Kind::Text => b":string",
        Kind::Integer => b":integer",
        Kind::Number => b":number",
        Kind::Truth => b":boolean",
    }
}

fn arrow(persistent: bool) -> &'static [u8]
    ensures { result.now ≡ meant.arrow persistent }
{
    if persistent { b" <-" } else { b" :=" }
}

/// Writes a blank and a component after the line.
fn push_component(line: &mut Vec<u8>, component: &Component) -> Result<(), AllocError>
    ensures { OnOk result (line.new.items ≡ line.old.items ++ meant.component_part component.now) }
{
    line.push(b' ')?;
    line.extend_from_slice(component.name.as_str().as_bytes())?;
    line.extend_from_slice(role_word(component.role))?;
    line.extend_from_slice(kind_word(component.kind))?;
    Ok(())
}

fn push_components(line: &mut Vec<u8>, components: &[Component]) -> Result<(), AllocError>
    ensures { OnOk result (line.new.items ≡ line.old.items ++ flat_map meant.component_part components.now) }
{
    for component in components {
        push_component(line, component)?;
    }
    Ok(())
}

/// Writes the line of a statement after the text.
fn push_statement(text: &mut Vec<u8>, statement: &CheckedStatement) -> Result<(), AllocError>
    ensures { OnOk result (text.new.items ≡ text.old.items ++ meant.statement_line statement.now) }
{
    text.extend_from_slice(statement.name.as_str().as_bytes())?;
    text.extend_from_slice(arrow(statement.persistent))?;
    push_components(text, statement.structure.components())?;
    text.push(b'\n')?;
    Ok(())
}

/// A line for each statement: its name, whether it is published, and for each component of its result a blank and the
/// component's name, role and kind (docs/formats.md, "Output").
pub(crate) fn structures_text(
    alloc: Global,
    statements: &[CheckedStatement],
) -> Result<Vec<u8>, AllocError>
    ensures { IfOk result (λ text. text.items ≡ flat_map meant.statement_line statements.now) }
{
    let mut text = Vec::new(alloc);
    for statement in statements {
        push_statement(&mut text, statement)?;
    }
    Ok(text)
}
