// Components that a clause names.
ghost use Rattle.std.specs.Prelude.{◌≡◌, ℕ, Option, None, map, filter_map, option_and_then, is_some, IfOk};
ghost use Rattle.std.specs.Option.{option_map};
ghost use Rattle.std.specs.List.{list_all};
ghost use Rattle.scalar_trees.specs.declared.typing.scope.Basis.TheVariants.{Point};
ghost use Rattle.scalar_trees.specs.typing.Scopes.{column_of, slot_at};
ghost use Rattle.data_set_trees.specs.clauses.Clauses as meant;

use data_set_trees::clauses::Frame;
use operator_typing::{bare_number, member_number};
use sqlite_items::Items;
use std::alloc::{AllocError, Global};
use vtl_syntax::expr::Comp;
use vtl_values::{Component, Word};

/// The number, where a component has it.
fn within(components: &[Component], number: u64) -> Option<u64>
    ensures { result ≡ option_map (λ s. s.number) (slot_at (map column_of components.now) Point number) }
{
    match components.get(number as usize) {
        Some(_) => Some(number),
        None => None,
    }
}

/// The number of the component that a bare name stands for, if it does.
pub fn bare_number_of(frame: &Frame, name: &Word) -> Option<u64>
    ensures { result ≡ meant.bare_number_of frame.now name.now }
{
    let number = bare_number(frame.names.as_slice(), name)?;
    within(frame.components.as_slice(), number)
}

/// The number of the component that `name` or `alias#name` stands for, if it does.
pub(crate) fn number_of(frame: &Frame, comp: &Comp) -> Option<u64>
    ensures { result ≡ meant.number_of frame.now comp.now }
{
    match &comp.component {
        None => bare_number_of(frame, &comp.name),
        Some(name) => {
            let number = member_number(frame.names.as_slice(), &comp.name, name)?;
            within(frame.components.as_slice(), number)
        }
    }
}

pub(crate) fn are_known(frame: &Frame, names: &[Comp]) -> bool
    ensures { result ≡ meant.are_known frame.now names.now }
{
    names.iter().all(|name| number_of(frame, name).is_some())
}

/// The numbers of the components that names stand for, or want of memory.
pub(crate) fn numbers_named(
    alloc: Global,
    frame: &Frame,
    names: &[Comp],
) -> Result<Items<u64>, AllocError>
    ensures { IfOk result (λ numbers. numbers ≡ meant.numbers_named frame.now names.now) }
{
    let mut numbers = Items::new(alloc);
    for name in names {
        if let Some(number) = number_of(frame, name) {
            numbers.push(number)?;
        }
    }
    Ok(numbers)
}
