// Frames after a clause.
ghost use Rattle.std.specs.Prelude.{◌≡◌, filter, find, fold, map, option_map, not, IfOk, OnOk};
ghost use Rattle.vtl_values.specs.declared.kind.Role.TheVariants.{Measure};
ghost use Rattle.data_set_trees.specs.clauses.Frames as meant_frames;
ghost use Rattle.data_set_trees.specs.clauses.After as meant;

use crate::numbers::{
    has_role, numbers_by_role, numbers_kept, numbers_left, numbers_of_items, numbers_staying,
};
use crate::parts::{copy_name, nameless, picked};
use data_set_trees::clauses::{
    CheckedClause, CheckedItem, CheckedMeasure, CheckedRename, CheckedSubItem, Frame, Target,
};
use scalar_trees::typing::ScopeName;
use sqlite_items::Items;
use std::alloc::{AllocError, Global};
use vtl_values::{Codes, Component, Kind, Role, Word};

/// A component without a code list, or want of memory.
pub fn made(role: Role, kind: Kind, name: &Word) -> Result<Component, AllocError>
    ensures { IfOk result (λ component. component ≡ meant.made role kind name.now) }
{
    Ok(Component {
        name: name.copy()?,
        role,
        kind,
        codes: Codes::Any,
    })
}

/// A component more, under its bare name.
fn add(frame: &mut Frame, component: Component) -> Result<(), AllocError>
    ensures { OnOk result (frame.new ≡ meant_frames.added frame.old component) }
{
    let number = frame.components.len() as u64;
    frame.names.push(ScopeName {
        alias: None,
        name: component.name.copy()?,
        number,
    })?;
    frame.components.push(component)
}

/// The component with this number gets the role and the kind, and loses its code list.
fn change(frame: &mut Frame, number: u64, role: Role, kind: Kind) -> Result<(), AllocError>
    ensures { OnOk result (frame.new ≡ record frame.old { components = meant_frames.changed_at (λ c. meant.made role kind c.name) number frame.old.components }) }
{
    if let Some(component) = frame.components.get(number as usize) {
        let changed = made(role, kind, &component.name)?;
        frame.components.set(number as usize, changed);
    }
    Ok(())
}

/// What an item of `calc` is put into.
fn put(frame: &mut Frame, item: &CheckedItem) -> Result<(), AllocError>
    ensures { OnOk result (frame.new ≡ meant.with_item frame.old item.now) }
{
    match &item.target {
        Target::Old(number) => change(frame, *number, item.role, item.kind),
        Target::New(name) => {
            let component = made(item.role, item.kind, name)?;
            add(frame, component)
        }
    }
}

/// The targets of the items of a `calc`.
pub(crate) fn calculate(frame: &mut Frame, items: &[CheckedItem]) -> Result<(), AllocError>
    ensures { OnOk result (frame.new ≡ meant.calculated items.now frame.old) }
{
    for item in items {
        put(frame, item)?;
    }
    Ok(())
}

/// The names that aren't those of the component with this number.
fn other_names(
    alloc: Global,
    names: &[ScopeName],
    number: u64,
) -> Result<Items<ScopeName>, AllocError>
    ensures { IfOk result (λ others. others ≡ filter (λ n. not (meant.is_name_of number n)) names.now) }
{
    let mut others = Items::new(alloc);
    for name in names {
        if number != name.number {
            others.push(copy_name(name, name.number)?)?;
        }
    }
    Ok(others)
}

/// The component with this number gets another name.
fn change_name(frame: &mut Frame, number: u64, name: &Word) -> Result<(), AllocError>
    ensures { OnOk result (frame.new ≡ record frame.old { components = meant_frames.changed_at (λ c. record c { name = name.now }) number frame.old.components }) }
{
    if let Some(component) = frame.components.get(number as usize) {
        let mut changed = component.copy()?;
        changed.name = name.copy()?;
        frame.components.set(number as usize, changed);
    }
    Ok(())
}

/// A component has its new name alone.
fn rename(alloc: Global, frame: &mut Frame, renaming: &CheckedRename) -> Result<(), AllocError>
    ensures { OnOk result (frame.new ≡ meant.with_rename frame.old renaming.now) }
{
    let mut names = other_names(alloc, frame.names.as_slice(), renaming.component)?;
    names.push(ScopeName {
        alias: None,
        name: renaming.name.copy()?,
        number: renaming.component,
    })?;
    frame.names = names;
    change_name(frame, renaming.component, &renaming.name)
}

/// The components of a `rename` with their new names.
pub(crate) fn rename_all(
    alloc: Global,
    frame: &mut Frame,
    renames: &[CheckedRename],
) -> Result<(), AllocError>
    ensures { OnOk result (frame.new ≡ meant.renamed renames.now frame.old) }
{
    for renaming in renames {
        rename(alloc, frame, renaming)?;
    }
    Ok(())
}

fn first_measure_kind(components: &[Component]) -> Option<Kind>
    ensures { result ≡ option_map (λ c. c.kind) (find (meant_frames.has_role Measure) components.now) }
{
    components
        .iter()
        .find(|component| has_role(Role::Measure, component))
        .map(|component| component.kind)
}

/// The kind of the first measure; where there is none, a string.
pub(crate) fn measure_kind(components: &[Component]) -> Kind
    ensures { result ≡ meant.measure_kind components.now }
{
    first_measure_kind(components).unwrap_or(Kind::Text)
}

/// The identifiers and the viral attributes.
fn staying(alloc: Global, frame: &Frame) -> Result<Frame, AllocError>
    ensures { IfOk result (λ staying. staying ≡ meant.staying frame.now) }
{
    let numbers = numbers_staying(alloc, frame.components.as_slice())?;
    picked(alloc, numbers.as_slice(), frame)
}

/// What `unpivot` leaves, and the components that it makes, not yet by role.
pub(crate) fn unpivoted(
    alloc: Global,
    identifier: &Word,
    measure: &Word,
    frame: &Frame,
) -> Result<Frame, AllocError>
    ensures { IfOk result (λ after. after ≡ meant.unpivoted identifier.now measure.now frame.now) }
{
    let mut after = staying(alloc, frame)?;
    add(&mut after, made(Role::Identifier, Kind::Text, identifier)?)?;
    let kind = measure_kind(frame.components.as_slice());
    add(&mut after, made(Role::Measure, kind, measure)?)?;
    Ok(after)
}

/// A measure more, under its name.
fn add_measure(frame: &mut Frame, item: &CheckedMeasure) -> Result<(), AllocError>
    ensures { OnOk result (frame.new ≡ meant.with_measure frame.old item.now) }
{
    let component = made(Role::Measure, item.kind, &item.name)?;
    add(frame, component)
}

/// Measures more, in their order.
fn add_measures(frame: &mut Frame, items: &[CheckedMeasure]) -> Result<(), AllocError>
    ensures { OnOk result (frame.new ≡ fold meant.with_measure frame.old items.now) }
{
    for item in items {
        add_measure(frame, item)?;
    }
    Ok(())
}

/// What stays, and the measures that are worked out, not yet by role.
fn measured(alloc: Global, items: &[CheckedMeasure], frame: &Frame) -> Result<Frame, AllocError>
    ensures { IfOk result (λ after. after ≡ meant.measured items.now frame.now) }
{
    let mut after = staying(alloc, frame)?;
    add_measures(&mut after, items)?;
    Ok(after)
}

/// The components by role: identifiers, measures, attributes and then viral attributes, each in their order. Or want of
/// memory. It costs the number of names and components.
pub fn by_role(alloc: Global, frame: &Frame) -> Result<Frame, AllocError>
    ensures { IfOk result (λ ordered. ordered ≡ meant_frames.by_role frame.now) }
{
    let numbers = numbers_by_role(alloc, frame.components.as_slice())?;
    picked(alloc, numbers.as_slice(), frame)
}

/// The components after `calc`.
fn calculated(alloc: Global, items: &[CheckedItem], mut frame: Frame) -> Result<Frame, AllocError>
    ensures { IfOk result (λ after. after ≡ meant_frames.by_role (meant.calculated items.now frame)) }
{
    calculate(&mut frame, items)?;
    by_role(alloc, &frame)
}

/// The components that stay in `keep`, and those that are named.
fn kept(alloc: Global, named: &[u64], frame: &Frame) -> Result<Frame, AllocError>
    ensures { IfOk result (λ kept. kept ≡ meant_frames.kept (meant.is_kept named.now) frame.now) }
{
    let numbers = numbers_kept(alloc, named, frame.components.as_slice())?;
    picked(alloc, numbers.as_slice(), frame)
}

/// The components that aren't named.
fn left(alloc: Global, named: &[u64], frame: &Frame) -> Result<Frame, AllocError>
    ensures { IfOk result (λ left. left ≡ meant_frames.kept (meant.is_left named.now) frame.now) }
{
    let numbers = numbers_left(alloc, named, frame.components.as_slice())?;
    picked(alloc, numbers.as_slice(), frame)
}

/// The components with their new names.
fn renamed(alloc: Global, renames: &[CheckedRename], mut frame: Frame) -> Result<Frame, AllocError>
    ensures { IfOk result (λ after. after ≡ meant.renamed renames.now frame) }
{
    rename_all(alloc, &mut frame, renames)?;
    Ok(frame)
}

/// The components but for the identifiers of a `sub`.
fn without(alloc: Global, items: &[CheckedSubItem], frame: &Frame) -> Result<Frame, AllocError>
    ensures { IfOk result (λ after. after ≡ meant_frames.kept (meant.is_left (map (λ i. i.component) items.now)) frame.now) }
{
    let named = numbers_of_items(alloc, items)?;
    left(alloc, named.as_slice(), frame)
}

/// What a frame is after a checked clause: the components of the clause's result and their names, in which a component
/// that is worked out has no code list. Or want of memory. It costs the number of components and names in the frame and in
/// the clause; for `keep`, `drop`, `sub` and `rename` the one times the other.
pub fn frame_after(alloc: Global, clause: &CheckedClause, frame: Frame) -> Result<Frame, AllocError>
    ensures { IfOk result (λ after. after ≡ meant.after clause.now frame) }
{
    match clause {
        CheckedClause::Filter { .. } => Ok(frame),
        CheckedClause::Calc { items } => calculated(alloc, items.as_slice(), frame),
        CheckedClause::Keep { components } => kept(alloc, components.as_slice(), &frame),
        CheckedClause::Drop { components } => left(alloc, components.as_slice(), &frame),
        CheckedClause::Rename { renames } => renamed(alloc, renames.as_slice(), frame),
        CheckedClause::Sub { items } => without(alloc, items.as_slice(), &frame),
        CheckedClause::Unpivot {
            identifier,
            measure,
        } => {
            let frame = unpivoted(alloc, identifier, measure, &frame)?;
            by_role(alloc, &frame)
        }
        CheckedClause::Measures { items } => {
            let frame = measured(alloc, items.as_slice(), &frame)?;
            by_role(alloc, &frame)
        }
    }
}

/// The components that a checked clause leaves of a data set of these, in which one that is worked out has no code list. Or
/// want of memory. It costs the number of components and the size of the clause; for `keep`, `drop`, `sub` and `rename` the
/// one times the other.
pub fn components_after(
    alloc: Global,
    clause: &CheckedClause,
    components: &[Component],
) -> Result<Items<Component>, AllocError>
    ensures { IfOk result (λ after. after ≡ (meant.after clause.now (meant_frames.frame_of components.now)).components) }
{
    let frame = nameless(alloc, components)?;
    Ok(frame_after(alloc, clause, frame)?.into_components())
}
