// Measures of a data set.
ghost use Rattle.std.specs.Prelude.{◌≡◌, find, IfOk};
ghost use Rattle.data_set_trees.specs.Lifted as meant;
ghost use Rattle.data_set_trees.specs.Pairs as pairs;

use data_set_trees::Measure;
use scalar_trees::CheckedExpr;
use scalar_trees::typing::{Slot, Typed};
use std::alloc::AllocError;
use vtl_values::{Value, Word};

/// The measure as the component that it is.
pub fn slot_of(measure: &Measure) -> Slot
    ensures { result ≡ meant.slot_of measure.now }
{
    Slot {
        number: measure.number,
        kind: measure.kind,
    }
}

/// What stands for a data set: a component of it, or nothing, which agrees with everything, as null does.
pub fn stands(slot: Option<Slot>) -> Typed
    ensures { result ≡ meant.stands slot }
{
    match slot {
        Some(slot) => Typed {
            tree: CheckedExpr::Component(slot.number),
            kind: Some(slot.kind),
        },
        None => Typed {
            tree: CheckedExpr::Literal(Value::Null),
            kind: None,
        },
    }
}

/// Whether this is the measure's name.
pub fn is_called(name: &Word, measure: &Measure) -> bool
    ensures { result ≡ pairs.is_called name.now measure.now }
{
    *name == measure.name
}

/// An equal measure, or want of memory.
pub fn copy_measure(measure: &Measure) -> Result<Measure, AllocError>
    ensures { IfOk result (λ copy. copy ≡ measure.now) }
{
    Ok(Measure {
        number: measure.number,
        name: measure.name.copy()?,
        kind: measure.kind,
    })
}

/// The first measure of this name, if there is one. Or want of memory.
pub fn namesake(name: &Word, measures: &[Measure]) -> Result<Option<Measure>, AllocError>
    ensures { IfOk result (λ found. found ≡ find (pairs.is_called name.now) measures.now) }
{
    for measure in measures {
        if is_called(name, measure) {
            return Ok(Some(copy_measure(measure)?));
        }
    }
    Ok(None)
}
