// Components that an operator names, and the name that one gives.
ghost use Rattle.std.specs.Prelude.{◌≡◌, codes, is_some, IfOk};
ghost use Rattle.std.specs.List.{list_all};
ghost use Rattle.vtl_values.specs.declared.kind.Role.TheVariants.{Identifier};
ghost use Rattle.data_set_trees.specs.clauses.Clauses as meant;
ghost use Rattle.data_set_trees.specs.clauses.Frames as frames;

use clause_typing::{bare_number_of, has_role};
use data_set_trees::clauses::Frame;
use std::alloc::{AllocError, Global};
use vtl_values::{Role, Word};

/// Whether each name stands for a component. It costs the number of names times that in the frame.
pub fn are_known(frame: &Frame, names: &[Word]) -> bool
    ensures { result ≡ list_all (λ name. is_some (meant.bare_number_of frame.now name)) names.now }
{
    names
        .iter()
        .all(|name| bare_number_of(frame, name).is_some())
}

/// Whether the component with this number is an identifier; where there is none it isn't.
pub fn is_identifier(frame: &Frame, number: u64) -> bool
    ensures { result ≡ meant.passes_at (frames.has_role Identifier) frame.now number }
{
    match frame.components.get(number as usize) {
        Some(component) => has_role(Role::Identifier, component),
        None => false,
    }
}

/// `int_var`, the name of the measure in which `count` on a data set has its numbers. Or want of memory.
pub fn int_var(alloc: Global) -> Result<Word, AllocError>
    ensures { IfOk result (λ name. name ≡ codes "int_var") }
{
    Word::from_str(alloc, "int_var")
}
