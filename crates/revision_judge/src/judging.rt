// The judge.
ghost use Rattle.std.specs.Prelude.{IfOk};
ghost use Rattle.revision_judge.specs.Judging.{AreInputs, judged};
ghost use Rattle.revision_judge.specs.Shares.{StandsForJudgement};

use crate::ruling::Ruling;
use crate::tallies::Tallies;
use point_sets::{PointSet, Revision};
use std::alloc::{AllocError, Global};
use vtl_values::Structures;

/// What becomes of a revision, against a data set of each structure. Each row takes look-ups in sorted containers: n
/// rows and data sets of m points cost n times the logarithm of n + m. Data sets that no part names cost nothing.
pub fn judge(
    alloc: Global,
    structures: &Structures,
    inputs: &[PointSet],
    revision: &Revision,
) -> Result<Ruling, AllocError>
    requires { AreInputs structures.now inputs.now }
    ensures { IfOk result (λ ruling. StandsForJudgement inputs.now ruling (judged structures.now inputs.now revision.now)) }
{
    let mut tallies = Tallies::new(alloc);
    match tallies.take_parts(alloc, structures, inputs, revision.parts.as_slice())? {
        Some(refusal) => Ok(Ruling::Refused(refusal)),
        None => Ok(Ruling::Fit {
            shares: tallies.finish(alloc)?,
        }),
    }
}
