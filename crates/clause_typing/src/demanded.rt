// What is demanded at a clause's word.
ghost use Rattle.std.specs.Prelude.{◌≡◌, nat_le, length, Ok, IfOk, IfErr};
ghost use Rattle.scalar_trees.specs.typing.Steps.{Refuses};
ghost use Rattle.data_set_trees.specs.clauses.Clauses as meant;

use data_set_trees::clauses::Frame;
use scalar_trees::typing::{Fault, TypeStop, demand};
use vtl_values::Place;

/// What is demanded at the word of a clause or a call, in the order of the faults: the fault of the first demand that isn't
/// met.
pub fn demands(place: Place, demands: &[(bool, Fault)]) -> Result<(), TypeStop>
    ensures ok { IfOk result (λ met. meant.demands place demands.now ≡ Ok met) }
    ensures err { IfErr result (Refuses (meant.demands place demands.now)) }
{
    for (holds, fault) in demands {
        demand(*holds, *fault, place)?;
    }
    Ok(())
}

pub(crate) const MOST_COMPONENTS: usize = 64;

/// Whether a result may have as many components: at most 64.
pub fn has_room(frame: &Frame) -> bool
    ensures { result ≡ meant.has_room frame.now }
{
    frame.components.len() <= MOST_COMPONENTS
}
