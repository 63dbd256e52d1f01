// The stage of the structures.
ghost use Rattle.std.specs.Prelude.{◌≡◌, IfOk, IfErr, Ok};
ghost use Rattle.commands.specs.Ends.{Gives, IsRefusal, Refuses};
ghost use Rattle.commands.specs.Structures.{fault_end, refused_structures, structures_in};

use crate::stop::{Ending, Stop};
use std::alloc::{AllocError, Global};
use structure_files::{Fault, Refusal, StructureStop, read_structures};
use vtl_values::Structures;

/// The structures that the bytes of a file give.
pub fn structures_in(alloc: Global, bytes: &[u8]) -> Result<Structures, Stop>
    ensures go { IfOk result (λ structures. structures_in bytes.now ≡ Ok structures) }
    ensures end { IfErr result (λ stop. Refuses stop (structures_in bytes.now)) }
    ensures kind { IfErr result IsRefusal }
{
    match read_structures(alloc, bytes) {
        Ok(structures) => Ok(structures),
        Err(StructureStop::Refused(refusal)) => Err(refused(alloc, &refusal)),
        Err(StructureStop::Memory) => Err(Stop::Memory),
    }
}

// The end with the line of structures that are refused.
fn refused(alloc: Global, refusal: &Refusal) -> Stop
    ensures gives { Gives result (refused_structures refusal.now) }
    ensures kind { IsRefusal result }
{
    match refused_line(alloc, refusal) {
        Ok(line) => Stop::Ended(Ending { status: 3, line }),
        Err(_) => Stop::Memory,
    }
}

fn refused_line(alloc: Global, refusal: &Refusal) -> Result<Vec<u8>, AllocError>
    ensures { IfOk result (λ line. line.items ≡ (refused_structures refusal.now).text) }
{
    let path = refusal.path.text(alloc)?;
    let mut line = b"structures ".to_vec(alloc)?;
    line.extend_from_slice(path.as_bytes())?;
    line.push(b' ')?;
    line.extend_from_slice(fault_end(refusal.fault))?;
    Ok(line)
}

fn fault_end(fault: Fault) -> &'static [u8]
    ensures { result.now ≡ fault_end fault }
{
    match fault {
        Fault::NotJson => b"NotJson\n",
        Fault::MissingField => b"MissingField\n",
        Fault::BadRole => b"BadRole\n",
        Fault::BadType => b"BadType\n",
        Fault::NameTwice => b"NameTwice\n",
        Fault::NoIdentifier => b"NoIdentifier\n",
        Fault::TooMany => b"TooMany\n",
        Fault::BadName => b"BadName\n",
        Fault::BadCodes => b"BadCodes\n",
    }
}
