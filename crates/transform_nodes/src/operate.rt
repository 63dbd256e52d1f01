// The work of one operator.
ghost use Rattle.std.specs.Prelude.{◌≡◌, ◌+◌, ◌≤◌, ◌<◌, ◌&&◌, ℕ, List, IfOk, All, map, length, count_by, is_some, is_none};
ghost use Rattle.std.specs.Arc.{arc_value};
ghost use Rattle.data_model.specs.Deltas.{count_after};
ghost use Rattle.point_sets.specs.DataSets.{DataSet};
ghost use Rattle.operator_rules.specs.Rules.{reach_of, wanted_of};
ghost use Rattle.transform_nodes.specs.Runs.{planned, CanPlan, IsWork, WorksRight};
ghost use denote.Param.Send.{IsSync};

use crate::halt::Halt;
use data_model::POINT_LIMIT;
use data_model::steps::Steps;
use held_index::{DeltaRule, Held, Patch, Want};
use operator_rules::OperatorRule;
use point_sets::{Change, Delta};
use std::alloc::{AllocError, Global};
use std::sync::Arc;
use std::sync::ledger::Ledger;
use std::thread::Threads;
use vtl_values::Place;

/// The delta of an operator, what it will hold, and the number of points of its result.
#[derive(Drop)]
pub(crate) struct Worked {
    pub(crate) delta: Arc<Delta>,
    pub(crate) patches: Vec<Patch>,
    pub(crate) points: u64,
}

/// What the held operands will be after the news.
fn plan_all(
    alloc: Global,
    wants: &[Want],
    held: &[Held],
    news: &[Arc<Delta>],
) -> Result<Vec<Patch>, AllocError>
    requires held { length held.now ≡ length wants.now }
    requires below { All (λ w. w.operand < length news.now) wants.now }
    requires can { CanPlan wants.now held.now (map arc_value news.now) }
    ensures { IfOk result (λ patches. patches.items ≡ planned wants.now held.now (map arc_value news.now)) }
{
    let mut patches: Vec<Patch> = Vec::new(alloc);
    for (i, want) in wants.iter().enumerate() {
        let patch = held[i].plan(&news[want.operand as usize])?;
        patches.push(patch)?;
    }
    Ok(patches)
}

/// Works one operator out: its rule is asked once.
pub(crate) fn work<R: Threads + Sync, L: Ledger>(
    rt: &R,
    alloc: Global,
    rule: &OperatorRule,
    place: Place,
    held: &[Held],
    before: u64,
    news: &[Arc<Delta>],
    steps: &mut Steps<L>,
) -> Result<Worked, Halt>
    requires sync { IsSync R.row }
    requires held { length held.now ≡ length (wanted_of rule.now) }
    requires news { length news.now ≡ length rule.now.operands }
    requires few { before ≤ POINT_LIMIT }
    requires can { (zs ys : List DataSet) × IsWork rule.now held.now (map arc_value news.now) before zs ys }
    ensures right { WorksRight rule.now place held.now (map arc_value news.now) before result }
    ensures steps { steps.new ≤ steps.old + reach_of rule.now held.now (map arc_value news.now) }
{
    match rule.delta(rt, alloc, before, held, news, steps) {
        Ok(delta) => {
            let points = delta.count_after(before);
            let patches = plan_all(alloc, rule.wants(), held, news)?;
            match Arc::new(alloc, delta) {
                Ok(delta) => Ok(Worked {
                    delta,
                    patches,
                    points,
                }),
                Err(_) => Err(Halt::Memory),
            }
        }
        Err(stop) => Err(Halt::at(place, stop)),
    }
}
