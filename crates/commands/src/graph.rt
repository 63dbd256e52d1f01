// The lines of faults of a script's graph.
ghost use Rattle.std.specs.Prelude.{◌≡◌, IfOk};
ghost use Rattle.commands.specs.Ends.{Gives, IsRefusal};
ghost use Rattle.commands.specs.Scripts.{graph_line, refused_script};

use crate::operators::{named_line, names_line};
use crate::script::refused;
use crate::stop::Stop;
use script_graph::{GraphFault, PlacedFault};
use std::alloc::{AllocError, Global};

/// The end with the line of a fault of the graph.
pub(crate) fn refused_graph(alloc: Global, placed: &PlacedFault) -> Result<Stop, AllocError>
    ensures gives { IfOk result (λ stop. Gives stop (refused_script placed.now.place (graph_line placed.now.fault))) }
    ensures kind { IfOk result IsRefusal }
{
    let end = graph_line(alloc, &placed.fault)?;
    Ok(refused(alloc, placed.place, end.as_slice()))
}

fn graph_line(alloc: Global, fault: &GraphFault) -> Result<Vec<u8>, AllocError>
    ensures { IfOk result (λ end. end.items ≡ graph_line fault.now) }
{
    match fault {
        GraphFault::AssignedTwice => b"AssignedTwice\n".to_vec(alloc),
        GraphFault::Unknown(name) => named_line(alloc, b"Unknown ", name),
        GraphFault::Cycle(names) => names_line(alloc, b"Cycle ", names.as_slice()),
    }
}
