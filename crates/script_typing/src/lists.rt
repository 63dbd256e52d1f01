// Lists of statements, as they are written and as they are typed.
ghost use Rattle.std.specs.Prelude.{◌≡◌, reverse, IfOk};
ghost use Rattle.script_typing.specs.States.{all_wait};
ghost use Rattle.script_typing.specs.Scripts as meant;

use crate::state::State;
use data_set_trees::checked::CheckedStatement;
use sqlite_items::{Boxed, Items};
use std::alloc::{AllocError, Global};
use vtl_syntax::Statement;

/// The same, the last one first.
fn last_first<T: Drop>(alloc: Global, mut items: Items<T>) -> Result<Items<T>, AllocError>
    ensures { IfOk result (λ turned. turned ≡ reverse items) }
{
    let mut turned = Items::new(alloc);
    while let Some(item) = items.pop() {
        turned.push(item)?;
    }
    Ok(turned)
}

/// These statements, none of which had its turn yet.
pub(crate) fn all_wait(
    alloc: Global,
    statements: Items<Statement>,
) -> Result<Items<State>, AllocError>
    ensures { IfOk result (λ states. states ≡ all_wait statements) }
{
    let mut turned = last_first(alloc, statements)?;
    let mut states = Items::new(alloc);
    while let Some(statement) = turned.pop() {
        states.push(State::Waits(Boxed::new(alloc, statement)?))?;
    }
    Ok(states)
}

/// The typed statements, up to the first that has no data set.
pub(crate) fn checked_in(
    alloc: Global,
    states: Items<State>,
) -> Result<Items<CheckedStatement>, AllocError>
    ensures { IfOk result (λ checked. checked ≡ meant.checked_in states) }
{
    let mut turned = last_first(alloc, states)?;
    let mut checked = Items::new(alloc);
    while let Some(state) = turned.pop() {
        match state {
            State::Has(statement) => checked.push(statement)?,
            State::Fails(_) => return Ok(checked),
            State::Waits(_) => return Ok(checked),
        }
    }
    Ok(checked)
}
