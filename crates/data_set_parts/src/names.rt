// The names of measures that operators give.
ghost use Rattle.std.specs.Prelude.{◌≡◌, Some, IfOk};
ghost use Rattle.data_set_trees.specs.Components as meant;
ghost use Rattle.data_set_trees.specs.Lifted as lifted;

use crate::components::{identifiers, is_taken, virals};
use std::alloc::{AllocError, Global};
use vtl_values::{Component, Kind, Word};

fn bool_var(alloc: Global) -> Result<Word, AllocError>
    ensures { IfOk result (λ name. name ≡ meant.BOOL_VAR) }
{
    Word::from_str(alloc, "bool_var")
}

fn int_var(alloc: Global) -> Result<Word, AllocError>
    ensures { IfOk result (λ name. name ≡ meant.INT_VAR) }
{
    Word::from_str(alloc, "int_var")
}

fn num_var(alloc: Global) -> Result<Word, AllocError>
    ensures { IfOk result (λ name. name ≡ meant.NUM_VAR) }
{
    Word::from_str(alloc, "num_var")
}

fn string_var(alloc: Global) -> Result<Word, AllocError>
    ensures { IfOk result (λ name. name ≡ meant.STRING_VAR) }
{
    Word::from_str(alloc, "string_var")
}

/// The name of a measure of this kind that has no name of its own. Or want of memory.
pub fn name_of_kind(alloc: Global, kind: Kind) -> Result<Word, AllocError>
    ensures { IfOk result (λ name. name ≡ meant.name_of_kind kind) }
{
    match kind {
        Kind::Truth => bool_var(alloc),
        Kind::Integer => int_var(alloc),
        Kind::Number => num_var(alloc),
        Kind::Text => string_var(alloc),
    }
}

/// Whether no identifier and no viral attribute has the name. Or want of memory.
pub fn is_free(alloc: Global, name: &Word, components: &[Component]) -> Result<bool, AllocError>
    ensures { IfOk result (λ free. free ≡ lifted.is_free (Some name.now) components.now) }
{
    let mut staying = identifiers(alloc, components)?;
    staying.append(virals(alloc, components)?)?;
    Ok(!is_taken(name, staying.as_slice()))
}
