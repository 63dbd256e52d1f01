// Two answers of which both are wanted.
ghost use Rattle.std.specs.Prelude.{◌≡◌};
ghost use Rattle.script_graph.specs.Scopes.{is_before, first_stop, both_of};

use crate::fault::GraphStop;
use vtl_values::Place;

fn is_before(a: Place, b: Place) -> bool
    ensures { result ≡ is_before a b }
{
    a.line < b.line || a.line == b.line && a.column < b.column
}

/// Of two faults the one that stands first in the script, or want of memory.
fn first_stop(a: GraphStop, b: GraphStop) -> GraphStop
    ensures { result ≡ first_stop a b }
{
    match (a, b) {
        (GraphStop::Fault(a), GraphStop::Fault(b)) => {
            GraphStop::Fault(if is_before(b.place, a.place) { b } else { a })
        }
        _ => GraphStop::Memory,
    }
}

/// Both values, or the fault that stands first in the script.
pub(crate) fn both<A: Drop, B: Drop>(
    a: Result<A, GraphStop>,
    b: Result<B, GraphStop>,
) -> Result<(A, B), GraphStop>
    ensures { result ≡ both_of a b }
{
    match (a, b) {
        (Ok(a), Ok(b)) => Ok((a, b)),
        (Err(a), Err(b)) => Err(first_stop(a, b)),
        (Err(a), Ok(_)) => Err(a),
        (Ok(_), Err(b)) => Err(b),
    }
}
