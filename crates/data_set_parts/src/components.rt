// Parts of the structures of data sets.
ghost use Rattle.std.specs.Prelude.{◌≡◌, not, ◌||◌, filter, length, nat_eq, IfOk};
ghost use Rattle.std.specs.List.{list_any, list_all};
ghost use Rattle.std.specs.Cmp.Lexicographic.{pointwise};
ghost use Rattle.vtl_values.specs.Texts.{same_text};
ghost use Rattle.scalar_trees.specs.WellTyped as kinds;
ghost use Rattle.data_set_trees.specs.clauses.Frames as frames;
ghost use Rattle.data_set_trees.specs.Components as meant;

use data_set_trees::Measure;
use sqlite_items::Items;
use std::alloc::{AllocError, Global};
use vtl_values::{CodeList, Codes, Component, Kind, Role, Word};

fn is_role(role: Role, other: Role) -> bool
    ensures { result ≡ frames.is_role role other }
{
    role == other
}

/// Whether a component has this role.
pub fn has_role(role: Role, component: &Component) -> bool
    ensures { result ≡ frames.has_role role component.now }
{
    is_role(role, component.role)
}

/// What a component of a result is: it has no code list, viral attributes aside. Or want of memory.
pub fn unlisted(component: &Component) -> Result<Component, AllocError>
    ensures { IfOk result (λ c. c ≡ meant.unlisted component.now) }
{
    if has_role(Role::Viral, component) {
        return component.copy();
    }
    Ok(Component {
        name: component.name.copy()?,
        role: component.role,
        kind: component.kind,
        codes: Codes::Any,
    })
}

/// The components of this role, in their order.
pub fn of_role(
    alloc: Global,
    role: Role,
    components: &[Component],
) -> Result<Items<Component>, AllocError>
    ensures { IfOk result (λ found. found ≡ filter (frames.has_role role) components.now) }
{
    let mut found = Items::new(alloc);
    for component in components {
        if has_role(role, component) {
            found.push(component.copy()?)?;
        }
    }
    Ok(found)
}

/// The identifiers, in their order. Or want of memory.
pub fn identifiers(alloc: Global, components: &[Component]) -> Result<Items<Component>, AllocError>
    ensures { IfOk result (λ found. found ≡ meant.identifiers components.now) }
{
    of_role(alloc, Role::Identifier, components)
}

/// The viral attributes, in their order. Or want of memory.
pub fn virals(alloc: Global, components: &[Component]) -> Result<Items<Component>, AllocError>
    ensures { IfOk result (λ found. found ≡ meant.virals components.now) }
{
    of_role(alloc, Role::Viral, components)
}

fn numbered(number: u64, component: &Component) -> Result<Measure, AllocError>
    ensures { IfOk result (λ measure. measure ≡ meant.numbered number component.now) }
{
    Ok(Measure {
        number,
        name: component.name.copy()?,
        kind: component.kind,
    })
}

/// The measures with their numbers, in structure order, or want of memory.
pub fn measures(alloc: Global, components: &[Component]) -> Result<Items<Measure>, AllocError>
    ensures { IfOk result (λ found. found ≡ meant.measures components.now) }
{
    let mut found = Items::new(alloc);
    for (i, component) in components.iter().enumerate() {
        if has_role(Role::Measure, component) {
            found.push(numbered(i as u64, component)?)?;
        }
    }
    Ok(found)
}

/// Whether this is the name of the component.
pub fn has_name(name: &Word, component: &Component) -> bool
    ensures { result ≡ meant.has_name name.now component.now }
{
    *name == component.name
}

/// Whether one of the components has the name.
pub fn is_taken(name: &Word, components: &[Component]) -> bool
    ensures { result ≡ meant.is_taken name.now components.now }
{
    components.iter().any(|component| has_name(name, component))
}

/// The components whose names none of the others has, or want of memory.
pub fn further(
    alloc: Global,
    others: &[Component],
    components: &[Component],
) -> Result<Items<Component>, AllocError>
    ensures { IfOk result (λ found. found ≡ meant.further others.now components.now) }
{
    let mut found = Items::new(alloc);
    for component in components {
        if !is_taken(&component.name, others) {
            found.push(component.copy()?)?;
        }
    }
    Ok(found)
}

/// Whether no name stands twice.
pub fn names_differ(components: &[Component]) -> bool
    ensures { result ≡ meant.names_differ components.now }
{
    for (i, component) in components.iter().enumerate() {
        if is_taken(&component.name, &components[i + 1..]) {
            return false;
        }
    }
    true
}

/// Whether both are one kind.
pub fn is_kind(kind: Kind, other: Kind) -> bool
    ensures { result ≡ kinds.is_kind kind other }
{
    kind == other
}

/// Whether both have one name and one kind.
pub(crate) fn is_same(component: &Component, other: &Component) -> bool
    ensures { result ≡ meant.is_same component.now other.now }
{
    component.name == other.name && is_kind(component.kind, other.kind)
}

fn is_among(component: &Component, others: &[Component]) -> bool
    ensures { result ≡ list_any (meant.is_same component.now) others.now }
{
    others.iter().any(|other| is_same(component, other))
}

/// Whether each of the second ones is among the first ones.
pub fn include(components: &[Component], others: &[Component]) -> bool
    ensures { result ≡ meant.include components.now others.now }
{
    others.iter().all(|other| is_among(other, components))
}

fn same_code_lists(codes: &CodeList, others: &CodeList) -> bool
    ensures { result ≡ pointwise same_text codes.now others.now }
{
    codes.as_slice() == others.as_slice()
}

/// Whether both are one code list.
pub fn same_codes(codes: &Codes, others: &Codes) -> bool
    ensures { result ≡ meant.same_codes codes.now others.now }
{
    match (codes, others) {
        (Codes::Any, Codes::Any) => true,
        (Codes::Listed(codes), Codes::Listed(others)) => same_code_lists(codes, others),
        _ => false,
    }
}

/// Whether both have one name, role and kind, and one code list if they are viral attributes.
fn is_alike(component: &Component, other: &Component) -> bool
    ensures { result ≡ meant.is_alike component.now other.now }
{
    (is_same(component, other) && is_role(component.role, other.role))
        && (!has_role(Role::Viral, component) || same_codes(&component.codes, &other.codes))
}

fn has_alike(component: &Component, others: &[Component]) -> bool
    ensures { result ≡ list_any (meant.is_alike component.now) others.now }
{
    others.iter().any(|other| is_alike(component, other))
}

fn are_as_many(components: &[Component], others: &[Component]) -> bool
    ensures { result ≡ nat_eq (length components.now) (length others.now) }
{
    components.len() == others.len()
}

fn have_alikes(components: &[Component], others: &[Component]) -> bool
    ensures { result ≡ list_all (λ c. list_any (meant.is_alike c) others.now) components.now }
{
    components
        .iter()
        .all(|component| has_alike(component, others))
}

/// Whether both are of one structure, in whatever order.
pub fn are_alike(components: &[Component], others: &[Component]) -> bool
    ensures { result ≡ meant.are_alike components.now others.now }
{
    are_as_many(components, others) && have_alikes(components, others)
}

/// Whether two viral attributes have different names, or one code list.
fn go_together(viral: &Component, other: &Component) -> bool
    ensures { result ≡ (not (same_text viral.now.name other.now.name) || meant.same_codes viral.now.codes other.now.codes) }
{
    viral.name != other.name || same_codes(&viral.codes, &other.codes)
}

fn agrees(viral: &Component, others: &[Component]) -> bool
    ensures { result ≡ list_all (λ w. not (same_text viral.now.name w.name) || meant.same_codes viral.now.codes w.codes) others.now }
{
    others.iter().all(|other| go_together(viral, other))
}

fn agree(virals: &[Component], others: &[Component]) -> bool
    ensures { result ≡ list_all (λ v. list_all (λ w. not (same_text v.name w.name) || meant.same_codes v.codes w.codes) others.now) virals.now }
{
    virals.iter().all(|viral| agrees(viral, others))
}

/// Whether viral attributes of one name have one code list, or want of memory.
pub fn virals_agree(
    alloc: Global,
    components: &[Component],
    others: &[Component],
) -> Result<bool, AllocError>
    ensures { IfOk result (λ agree. agree ≡ meant.virals_agree components.now others.now) }
{
    let first = virals(alloc, components)?;
    let second = virals(alloc, others)?;
    Ok(agree(first.as_slice(), second.as_slice()))
}
