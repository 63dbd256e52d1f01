// The script that is written out, or why there is none.
ghost use Rattle.std.specs.Prelude.{◌≡◌, ◌↔◌, [], Ok, IsTrue, IfOk, IfErr};
ghost use Rattle.written_sizes.specs.Rooms.{FitsAsItStands};
ghost use Rattle.defined_operators.specs.declared.expand.ExpandStop.TheVariants.{Memory};
ghost use Rattle.defined_operators.specs.Expanded as meant;
ghost use Rattle.defined_operators.specs.Expanded.{expanded, Tells};

use crate::scripts::written_out;
use operator_faults::faults::first_fault;
use operator_faults::{PlacedFault, Sketch};
use std::alloc::{AllocError, Global};
use vtl_syntax::Script;
use written_sizes::faults::size_fault;
use written_sizes::rooms::fits_as_it_stands;

/// Why a script isn't written out.
#[derive(Drop)]
pub enum ExpandStop {
    /// it has this fault, and none of an earlier kind or of that kind at an earlier place
    Fault(PlacedFault),
    /// want of memory
    Memory,
}

impl From<AllocError> for ExpandStop {
    ghost from_gives = { λ _ stop. stop ≡ Memory };

    fn from(_: AllocError) -> Self {
        ExpandStop::Memory
    }
}

/// Whether the script defines no operator, calls none, and is within the limits of size.
fn is_plain(script: &Script) -> bool
    ensures { IsTrue result ↔ ((script.now.operators ≡ []) × FitsAsItStands script.now) }
{
    script.operators.is_empty() && fits_as_it_stands(script)
}

/// The first fault of the script's operators, if there is one.
fn fault_of(alloc: Global, script: &Script) -> Result<Option<PlacedFault>, AllocError>
    ensures { IfOk result (λ fault. fault ≡ meant.first_fault script.now) }
{
    let sketch = Sketch::of(alloc, script)?;
    if let Some(fault) = first_fault(alloc, script, &sketch)? {
        return Ok(Some(fault));
    }
    size_fault(alloc, script, &sketch)
}

/// The script in which each call of a defined operator is replaced by the operator's body, with arguments for parameters;
/// it has no definition and no call.
///
/// # Errors
/// The first fault of the script's operators, exactly where there is one; else want of memory alone.
///
/// # Costs
/// A script that defines and calls no operator is gone over once, and given back. For any other, beside the written-out
/// script itself, for each operator a pass over the bodies of all. An argument is written once for a call, and isn't where
/// the operator doesn't use its parameter; it is copied to each place where it is used. Where there is a fault, nothing is
/// written.
pub fn expand(alloc: Global, script: Script) -> Result<Script, ExpandStop>
    ensures ok { IfOk result (λ written. expanded script ≡ Ok written) }
    ensures err { IfErr result (Tells (expanded script)) }
{
    if is_plain(&script) {
        return Ok(script);
    }
    if let Some(fault) = fault_of(alloc, &script)? {
        return Err(ExpandStop::Fault(fault));
    }
    Ok(written_out(alloc, &script)?)
}
