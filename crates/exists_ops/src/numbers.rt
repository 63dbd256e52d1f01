// The numbers of components.
ghost use Rattle.std.specs.Prelude.{◌≡◌, filter_map, IfOk};
ghost use Rattle.vtl_values.specs.declared.kind.Role.TheVariants.{Identifier, Viral};
ghost use Rattle.data_set_trees.specs.clauses.Frames as frames;
ghost use Rattle.exists_ops.specs.Parts as specs;

use sqlite_items::Items;
use std::alloc::{AllocError, Global};
use vtl_values::{Component, Role, Word};

/// The numbers, in a structure, of the identifiers that both operands have, as they stand in the second one.
pub fn numbers_in(
    alloc: Global,
    structure: &[Component],
    left: &[Component],
    right: &[Component],
) -> Result<Items<u64>, AllocError>
    ensures { IfOk result (λ numbers. numbers ≡ filter_map (specs.shared_number structure.now left.now) right.now) }
{
    let mut numbers = Items::new(alloc);
    for component in right {
        if let Some(number) = shared_number(structure, left, component) {
            numbers.push(number as u64)?;
        }
    }
    Ok(numbers)
}

/// The number, in a structure, of an identifier of the second operand that the first one has too.
fn shared_number(
    structure: &[Component],
    left: &[Component],
    component: &Component,
) -> Option<usize>
    ensures { result ≡ specs.shared_number structure.now left.now component.now }
{
    if is_identifier(component) && number_of(&component.name, left).is_some() {
        number_of(&component.name, structure)
    } else {
        None
    }
}

/// The number of the identifier of this name.
fn number_of(name: &Word, structure: &[Component]) -> Option<usize>
    ensures { result ≡ specs.number_of name.now structure.now }
{
    structure.iter().position(|component| is_identifier(component) && *name == component.name)
}

fn is_identifier(component: &Component) -> bool
    ensures { result ≡ frames.has_role Identifier component.now }
{
    component.role == Role::Identifier
}

/// The numbers of the viral attributes.
pub fn viral_numbers(alloc: Global, components: &[Component]) -> Result<Items<u64>, AllocError>
    ensures { IfOk result (λ numbers. numbers ≡ frames.numbers_of Viral components.now) }
{
    let mut numbers = Items::new(alloc);
    for (i, component) in components.iter().enumerate() {
        if component.role == Role::Viral {
            numbers.push(i as u64)?;
        }
    }
    Ok(numbers)
}
