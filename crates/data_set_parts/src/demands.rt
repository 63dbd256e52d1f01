// What is demanded of operands.
ghost use Rattle.std.specs.Prelude.{◌≡◌, Ok, IfOk, IfErr};
ghost use Rattle.scalar_trees.specs.typing.Steps.{Refuses};
ghost use Rattle.data_set_trees.specs.clauses.Clauses as meant;

use scalar_trees::typing::{Fault, TypeStop, demand};
use vtl_values::Place;

/// The fault of the first demand that isn't met.
pub fn demands(place: Place, demands: &[(bool, Fault)]) -> Result<(), TypeStop>
    ensures ok { IfOk result (λ met. meant.demands place demands.now ≡ Ok met) }
    ensures err { IfErr result (Refuses (meant.demands place demands.now)) }
{
    for (holds, fault) in demands {
        demand(*holds, *fault, place)?;
    }
    Ok(())
}
