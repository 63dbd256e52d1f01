// The components that operators on time series give.
ghost use Rattle.std.specs.Prelude.{◌≡◌, ℕ, codes, IfOk};
ghost use Rattle.vtl_values.specs.declared.kind.Kind.TheVariants.{Text};
ghost use Rattle.vtl_values.specs.declared.kind.Role.TheVariants.{Measure};
ghost use Rattle.data_set_trees.specs.clauses.After as clauses;
ghost use Rattle.data_set_trees.specs.clauses.Frames as frames;
ghost use Rattle.data_set_trees.specs.declared.times.time.CheckedTime.TheVariants.{Of};
ghost use Rattle.data_set_trees.specs.times.Times as meant;

use clause_typing::made;
use data_set_trees::times::CheckedTime;
use result_components::{by_role, numbers_of, with_numbers, without_attributes};
use sqlite_items::Items;
use std::alloc::{AllocError, Global};
use vtl_syntax::words::TimeFunction;
use vtl_values::{Component, Kind, Role, Word};

fn duration_name(alloc: Global) -> Result<Word, AllocError>
    ensures { IfOk result (λ name. name ≡ codes "duration_var") }
{
    Word::from_str(alloc, "duration_var")
}

/// The letter of a period's frequency.
fn duration(alloc: Global) -> Result<Component, AllocError>
    ensures { IfOk result (λ letter. letter ≡ clauses.made Measure Text (codes "duration_var")) }
{
    let name = duration_name(alloc)?;
    made(Role::Measure, Kind::Text, &name)
}

/// Identifiers, viral attributes and the letter of the period's frequency, not yet by role.
pub(crate) fn with_duration(
    alloc: Global,
    components: &[Component],
) -> Result<Items<Component>, AllocError>
    ensures { IfOk result (λ found. found ≡ meant.with_duration components.now) }
{
    let mut numbers = numbers_of(alloc, Role::Identifier, components)?;
    numbers.append(numbers_of(alloc, Role::Viral, components)?)?;
    let mut found = with_numbers(alloc, components, numbers.as_slice())?;
    found.push(duration(alloc)?)?;
    Ok(found)
}

fn durations(alloc: Global, components: &[Component]) -> Result<Items<Component>, AllocError>
    ensures { IfOk result (λ after. after ≡ (frames.by_role (frames.frame_of (meant.with_duration components.now))).components) }
{
    let found = with_duration(alloc, components)?;
    by_role(alloc, found.as_slice())
}

fn after_function(
    alloc: Global,
    function: TimeFunction,
    components: &[Component],
) -> Result<Items<Component>, AllocError>
    ensures { IfOk result (λ after. (period : ℕ) → after ≡ meant.after (Of function period) components.now) }
{
    match function {
        TimeFunction::FlowToStock | TimeFunction::StockToFlow => {
            without_attributes(alloc, components)
        }
        TimeFunction::PeriodIndicator => durations(alloc, components),
    }
}

/// The components that a checked operator gives of those of its operand: all but plain attributes, and after
/// `period_indicator` the letter of the period's frequency in the place of the measures. Or want of memory. It costs the
/// number of components.
pub fn components_after(
    alloc: Global,
    time: &CheckedTime,
    components: &[Component],
) -> Result<Items<Component>, AllocError>
    ensures { IfOk result (λ after. after ≡ meant.after time.now components.now) }
{
    match time {
        CheckedTime::Of { function, .. } => after_function(alloc, *function, components),
        CheckedTime::Shift { .. } | CheckedTime::Fill { .. } => {
            without_attributes(alloc, components)
        }
    }
}
