// What is asked of the components of an operand or a result.
ghost use Rattle.std.specs.Prelude.{◌≡◌, not, ◌||◌, is_some, [], ◌∷◌, Some, IfOk};
ghost use Rattle.vtl_values.specs.declared.kind.Role.TheVariants.{Measure};
ghost use Rattle.scalar_trees.specs.Kinds as kinds;
ghost use Rattle.data_set_trees.specs.aggregates.Aggregates as meant;
ghost use Rattle.data_set_trees.specs.clauses.Frames as frames;

use clause_typing::has_role;
use indexmap::IndexSet;
use scalar_trees::agreed;
use std::alloc::{AllocError, Global};
use vtl_values::{Component, Kind, Role};

/// Whether no two components have one name, or want of memory. It costs their number.
pub fn names_differ(alloc: Global, components: &[Component]) -> Result<bool, AllocError>
    ensures { IfOk result (λ differ. differ ≡ meant.names_differ components.now) }
{
    let mut seen = IndexSet::new(alloc);
    for component in components {
        let new = seen.insert(&component.name)?;
        if !new {
            return Ok(false);
        }
    }
    Ok(true)
}

const MOST_COMPONENTS: usize = 64;

/// Whether a result may have as many components: at most 64.
pub fn has_room(components: &[Component]) -> bool
    ensures { result ≡ meant.has_room components.now }
{
    components.len() <= MOST_COMPONENTS
}

/// Whether the component is no measure, or an integer or a number.
fn may_be_summed(component: &Component) -> bool
    ensures { result ≡ (not (frames.has_role Measure component.now) || is_some (kinds.agreed kinds.NUMERIC (Some component.now.kind ∷ []))) }
{
    !has_role(Role::Measure, component)
        || agreed(&[Kind::Integer, Kind::Number], &[Some(component.kind)]).is_some()
}

/// Whether all measures are integers or numbers. It costs the number of components.
pub fn are_numeric(components: &[Component]) -> bool
    ensures { result ≡ meant.are_numeric components.now }
{
    components.iter().all(|component| may_be_summed(component))
}
