// News are carried through a tree.
ghost use Rattle.std.specs.Prelude.{◌≡◌, ◌++◌, ◌∷◌, ◌+◌, [], IfOk, OnOk, map, length};
ghost use Rattle.std.specs.Arc.{arc_value};
ghost use Rattle.transform_nodes.specs.Reach.{AllStayWithin, StaysWithin};
ghost use Rattle.transform_nodes.specs.Trees.{IsFit, AllFit, counted, forgotten, all_forgotten, plain, plain_tree, plains_of};
ghost use Rattle.transform_nodes.specs.Runs.{CanRunTree, CanRunAll, RunsRight, RunAllRight};
ghost use denote.Param.Send.{IsSync};

use crate::halt::Halt;
use crate::node::{Child, OpTree};
use crate::operate::{Worked, work};
use data_model::steps::Steps;
use point_sets::Delta;
use std::alloc::{AllocError, Global};
use std::mem;
use std::sync::Arc;
use std::sync::ledger::Ledger;
use std::thread::Threads;

/// The delta of a tree, and how many points the results of all its operators have.
#[derive(Drop)]
pub(crate) struct Ran {
    pub(crate) delta: Arc<Delta>,
    pub(crate) points: u64,
}

/// The deltas of operands, and how many points the results of all their operators have.
#[derive(Drop)]
pub(crate) struct Gathered {
    pub(crate) news: Vec<Arc<Delta>>,
    pub(crate) points: u64,
}

impl Gathered {
    /// Adds what an operand came to.
    fn push(&mut self, ran: Ran) -> Result<(), AllocError>
        ensures news { OnOk result (self.new.news.items ≡ self.old.news.items ++ ran.delta ∷ []) }
        ensures points { OnOk result (self.new.points ≡ counted (self.old.points + ran.points)) }
    {
        let Ran { delta, points } = ran;
        self.news.push(delta)?;
        self.points = self.points.saturating_add(points);
        Ok(())
    }
}

impl OpTree {
    /// Keeps pending what this operator's work came to.
    fn keep(&mut self, worked: Worked, below: u64) -> Ran
        ensures tree { self.new ≡ record self.old { pending = worked.patches; pending_points = worked.points } }
        ensures delta { result.delta ≡ worked.delta }
        ensures points { result.points ≡ counted (below + worked.points) }
    {
        let Worked {
            delta,
            patches,
            points,
        } = worked;
        self.pending = patches;
        self.pending_points = points;
        Ran {
            delta,
            points: below.saturating_add(points),
        }
    }
}

/// Carries the sources' news through an operand.
#[cycle(run)]
pub(crate) fn run_child<R: Threads + Sync, L: Ledger>(
    rt: &R,
    alloc: Global,
    child: &mut Child,
    sources: &[Arc<Delta>],
    steps: &mut Steps<L>,
) -> Result<Ran, Halt>
    requires sync { IsSync R.row }
    requires fit { IsFit (length sources.now) (plain child.old) }
    requires can { CanRunTree (map arc_value sources.now) (plain child.old) }
    ensures kept { forgotten (plain child.new) ≡ forgotten (plain child.old) }
    ensures right { RunsRight (map arc_value sources.now) (plain child.old) (plain child.new) result }
    ensures steps { StaysWithin (map arc_value sources.now) (plain child.old) steps.old steps.new }
{
    match mem::replace(child, Child::Name(0)) {
        Child::Name(number) => {
            *child = Child::Name(number);
            let delta = sources[number as usize].clone()?;
            Ok(Ran { delta, points: 0 })
        }
        Child::Tree(mut tree) => {
            let result = run_tree(rt, alloc, &mut tree, sources, steps);
            *child = Child::Tree(tree);
            result
        }
    }
}

/// Carries the sources' news through an operator, its operands first.
#[cycle(run)]
fn run_tree<R: Threads + Sync, L: Ledger>(
    rt: &R,
    alloc: Global,
    tree: &mut OpTree,
    sources: &[Arc<Delta>],
    steps: &mut Steps<L>,
) -> Result<Ran, Halt>
    requires sync { IsSync R.row }
    requires fit { IsFit (length sources.now) (plain_tree tree.old) }
    requires can { CanRunTree (map arc_value sources.now) (plain_tree tree.old) }
    ensures kept { forgotten (plain_tree tree.new) ≡ forgotten (plain_tree tree.old) }
    ensures right { RunsRight (map arc_value sources.now) (plain_tree tree.old) (plain_tree tree.new) result }
    ensures steps { StaysWithin (map arc_value sources.now) (plain_tree tree.old) steps.old steps.new }
{
    let all = run_children(rt, alloc, &mut tree.children, sources, steps)?;
    let worked = work(
        rt,
        alloc,
        &tree.rule,
        tree.place,
        tree.held.as_slice(),
        tree.points,
        all.news.as_slice(),
        steps,
    )?;
    Ok(tree.keep(worked, all.points))
}

/// Carries the sources' news through the operands of an operator, from the first on.
#[cycle(run)]
fn run_children<R: Threads + Sync, L: Ledger>(
    rt: &R,
    alloc: Global,
    children: &mut Vec<Child>,
    sources: &[Arc<Delta>],
    steps: &mut Steps<L>,
) -> Result<Gathered, Halt>
    requires sync { IsSync R.row }
    requires fit { AllFit (length sources.now) (plains_of (map plain children.old.items)) }
    requires can { CanRunAll (map arc_value sources.now) (plains_of (map plain children.old.items)) }
    ensures kept { all_forgotten (plains_of (map plain children.new.items)) ≡ all_forgotten (plains_of (map plain children.old.items)) }
    ensures count { IfOk result (λ all. length all.news.items ≡ length children.old.items) }
    ensures right { RunAllRight (map arc_value sources.now) (map plain children.old.items) (map plain children.new.items) result }
    ensures steps { AllStayWithin (map arc_value sources.now) (plains_of (map plain children.old.items)) steps.old steps.new }
{
    let mut all = Gathered {
        news: Vec::new(alloc),
        points: 0,
    };
    for i in 0..children.len() {
        let ran = run_child(rt, alloc, &mut children[i], sources, steps)?;
        all.push(ran)?;
    }
    Ok(all)
}
