// Frames after analytic operators.
ghost use Rattle.std.specs.Prelude.{◌≡◌, ◌++◌, map, IfOk};
ghost use Rattle.vtl_values.specs.declared.kind.Role.TheVariants.{Identifier, Viral};
ghost use Rattle.data_set_trees.specs.aggregates.Results.{with_numbers};
ghost use Rattle.data_set_trees.specs.clauses.After as clauses;
ghost use Rattle.data_set_trees.specs.clauses.Frames as frames;
ghost use Rattle.data_set_trees.specs.windows.Results as meant;

use crate::calc::as_items;
use clause_typing::{by_role, frame_of, made};
use data_set_trees::clauses::{CheckedClause, Frame};
use data_set_trees::windows::{AnalyticItem, AnalyticMeasure, CheckedWindow};
use result_components::{numbers_of, with_numbers};
use sqlite_items::Items;
use std::alloc::{AllocError, Global};
use vtl_values::{Component, Role};

/// The identifiers, and then the viral attributes.
fn staying(alloc: Global, components: &[Component]) -> Result<Items<Component>, AllocError>
    ensures { IfOk result (λ staying. staying ≡ with_numbers components.now (frames.numbers_of Identifier components.now ++ frames.numbers_of Viral components.now)) }
{
    let mut numbers = numbers_of(alloc, Role::Identifier, components)?;
    numbers.append(numbers_of(alloc, Role::Viral, components)?)?;
    with_numbers(alloc, components, numbers.as_slice())
}

/// What stays of these components, and then the measures that are worked out, not yet by role. Or want of memory.
pub(crate) fn unordered(
    alloc: Global,
    items: &[AnalyticMeasure],
    components: &[Component],
) -> Result<Items<Component>, AllocError>
    ensures { IfOk result (λ unordered. unordered ≡ meant.unordered items.now components.now) }
{
    let mut unordered = staying(alloc, components)?;
    for item in items {
        unordered.push(made(Role::Measure, item.kind, &item.name)?)?;
    }
    Ok(unordered)
}

/// The frame of a data set that has these measures in place of those that there are.
fn measured(
    alloc: Global,
    items: &[AnalyticMeasure],
    components: &[Component],
) -> Result<Frame, AllocError>
    ensures { IfOk result (λ after. after ≡ frames.by_role (frames.frame_of (meant.unordered items.now components.now))) }
{
    let unordered = unordered(alloc, items, components)?;
    let frame = frame_of(alloc, unordered.as_slice())?;
    by_role(alloc, &frame)
}

/// The frame after `calc`.
fn calculated(alloc: Global, items: &[AnalyticItem], frame: Frame) -> Result<Frame, AllocError>
    ensures { IfOk result (λ after. after ≡ frames.by_role (clauses.calculated (map meant.as_item items.now) frame)) }
{
    let items = as_items(alloc, items)?;
    clause_typing::frame_after(alloc, &CheckedClause::Calc { items }, frame)
}

/// The components of a data set that has these measures in place of those that there are.
fn measured_components(
    alloc: Global,
    items: &[AnalyticMeasure],
    components: &[Component],
) -> Result<Items<Component>, AllocError>
    ensures { IfOk result (λ after. after ≡ (frames.by_role (frames.frame_of (meant.unordered items.now components.now))).components) }
{
    let unordered = unordered(alloc, items, components)?;
    result_components::by_role(alloc, unordered.as_slice())
}

/// The components after `calc`.
fn calculated_components(
    alloc: Global,
    items: &[AnalyticItem],
    components: &[Component],
) -> Result<Items<Component>, AllocError>
    ensures { IfOk result (λ after. after ≡ (frames.by_role (clauses.calculated (map meant.as_item items.now) (frames.frame_of components.now))).components) }
{
    let items = as_items(alloc, items)?;
    clause_typing::components_after(alloc, &CheckedClause::Calc { items }, components)
}

/// The components after analytic operators on a data set of these, in which one that is worked out has no code list. Or want
/// of memory. It costs the number of components and of the items.
pub fn components_after(
    alloc: Global,
    window: &CheckedWindow,
    components: &[Component],
) -> Result<Items<Component>, AllocError>
    ensures { IfOk result (λ after. after ≡ (meant.after window.now (frames.frame_of components.now)).components) }
{
    match window {
        CheckedWindow::Measures { items } => {
            measured_components(alloc, items.as_slice(), components)
        }
        CheckedWindow::Calc { items } => calculated_components(alloc, items.as_slice(), components),
    }
}

/// What a frame is after analytic operators: the components of their result and the names of these, in which a component
/// that is worked out has no code list. Or want of memory. It costs the number of components and names in the frame and of
/// the items.
pub fn frame_after(alloc: Global, window: &CheckedWindow, frame: Frame) -> Result<Frame, AllocError>
    ensures { IfOk result (λ after. after ≡ meant.after window.now frame) }
{
    match window {
        CheckedWindow::Measures { items } => {
            measured(alloc, items.as_slice(), frame.components.as_slice())
        }
        CheckedWindow::Calc { items } => calculated(alloc, items.as_slice(), frame),
    }
}
