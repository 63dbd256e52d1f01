// The first fault that a script's text shows.
ghost use Rattle.std.specs.Prelude.{◌≡◌, IfOk};
ghost use Rattle.operator_faults.specs.Sketches.{sketch_of};
ghost use Rattle.operator_faults.specs.Faults as meant;

use crate::bodies::free_in_bodies;
use crate::calls::{CallFault, wrong_in_script};
use crate::fault::PlacedFault;
use crate::graph::recursion;
use crate::names::{defined_twice, parameter_twice};
use crate::sketch::Sketch;
use std::alloc::{AllocError, Global};
use vtl_syntax::{DefinedOperator, Script};

/// The first fault of the script's operators that its text shows, if there is one, or want of memory. `sketch` has the
/// script's outlines.
pub fn first_fault(
    alloc: Global,
    script: &Script,
    sketch: &Sketch,
) -> Result<Option<PlacedFault>, AllocError>
    requires { sketch.now ≡ sketch_of script.now }
    ensures { IfOk result (λ fault. fault ≡ meant.first_fault script.now) }
{
    let operators = script.operators.as_slice();
    if let Some(fault) = of_names(operators)? {
        return Ok(Some(fault));
    }
    if let Some(fault) = of_calls(operators, sketch)? {
        return Ok(Some(fault));
    }
    let bodies = sketch.bodies.as_slice();
    if let Some(fault) = free_in_bodies(operators, bodies)? {
        return Ok(Some(fault));
    }
    if let Some(fault) = recursion(alloc, operators, bodies)? {
        return Ok(Some(fault));
    }
    wrong_in_script(CallFault::Sort, operators, sketch)
}

fn of_names(operators: &[DefinedOperator]) -> Result<Option<PlacedFault>, AllocError>
    ensures { IfOk result (λ fault. fault ≡ meant.of_names operators.now) }
{
    if let Some(fault) = defined_twice(operators)? {
        return Ok(Some(fault));
    }
    parameter_twice(operators)
}

fn of_calls(
    operators: &[DefinedOperator],
    sketch: &Sketch,
) -> Result<Option<PlacedFault>, AllocError>
    ensures { IfOk result (λ fault. fault ≡ meant.of_calls operators.now sketch.now) }
{
    if let Some(fault) = wrong_in_script(CallFault::Unknown, operators, sketch)? {
        return Ok(Some(fault));
    }
    wrong_in_script(CallFault::Count, operators, sketch)
}
