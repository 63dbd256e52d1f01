// What a node's run comes to.
ghost use Rattle.std.specs.Prelude.{◌≡◌, IfOk, length, map};
ghost use Rattle.std.specs.Arc.{arc_value};
ghost use Rattle.std.specs.List.{All};
ghost use Rattle.data_model.specs.Deltas.{apply, BeginsAt};
ghost use Rattle.transform_nodes.specs.Carrying.{page_after, with_set, CanRunNode, ComesOutRight, FinishesRight, IsStopped, PageBegins};
ghost use Rattle.transform_nodes.specs.Nodes.{HasSameParts};
ghost use Rattle.transform_nodes.specs.Reach.{StaysWithin};
ghost use Rattle.transform_nodes.specs.Trees.{forgotten, plain, IsFit};
ghost use denote.Param.Send.{IsSync};

use crate::carry::run_child;
use crate::fault::NodeFault;
use crate::halt::Halt;
use crate::node::Node;
use crate::work::Finish;
use data_model::steps::Steps;
use point_sets::Delta;
use release_text::Pages;
use std::alloc::{AllocError, Global};
use std::sync::Arc;
use std::sync::ledger::Ledger;
use std::thread::Threads;

/// Pages after a delta. Where nothing changes they are shared, and none is made.
fn changed(pages: &Pages, delta: &Delta) -> Result<Pages, AllocError>
    requires { BeginsAt delta.now pages.now.set }
    ensures { IfOk result (λ after. after ≡ with_set (apply delta.now pages.now.set) pages.now) }
{
    if delta.changes().is_empty() {
        return pages.copy();
    }
    pages.after(delta)
}

/// The pages after a delta.
fn pages_after(pages: &Option<Pages>, delta: &Delta) -> Result<Option<Pages>, AllocError>
    requires { PageBegins delta.now pages.now }
    ensures { IfOk result (λ after. after ≡ page_after delta.now pages.now) }
{
    match pages {
        None => Ok(None),
        Some(pages) => Ok(Some(changed(pages, delta)?)),
    }
}

/// Equal pages.
fn copy_pages(pages: &Option<Pages>) -> Result<Option<Pages>, AllocError>
    ensures { IfOk result (λ copy. copy ≡ pages.now) }
{
    match pages {
        None => Ok(None),
        Some(pages) => Ok(Some(pages.copy()?)),
    }
}

/// A delta, so many times.
fn copies(alloc: Global, delta: &Arc<Delta>, uses: u64) -> Result<Vec<Arc<Delta>>, AllocError>
    ensures count { IfOk result (λ deltas. length deltas.items ≡ uses) }
    ensures each { IfOk result (λ deltas. All (λ d. d ≡ arc_value delta.now) (map arc_value deltas.items)) }
{
    let mut deltas: Vec<Arc<Delta>> = Vec::new(alloc);
    for _use in 0..uses {
        let delta = delta.clone()?;
        deltas.push(delta)?;
    }
    Ok(deltas)
}

/// A fault, once to keep and once to tell, or giving up.
fn stopped(halt: Halt) -> Finish
    ensures { IsStopped halt result }
{
    match halt {
        Halt::Memory => Finish::GaveUp,
        Halt::Fault(NodeFault::TooMany { place }) => Finish::Fault {
            kept: NodeFault::TooMany { place },
            told: NodeFault::TooMany { place },
        },
        Halt::Fault(NodeFault::Range { place, key }) => match key.clone() {
            Ok(told) => Finish::Fault {
                kept: NodeFault::Range { place, key },
                told: NodeFault::Range { place, key: told },
            },
            Err(_) => Finish::GaveUp,
        },
    }
}

impl Node {
    /// Carries the news of the sources through a settled node. What comes of it is pending in the node.
    pub(crate) fn run<R: Threads + Sync, L: Ledger>(
        &mut self,
        rt: &R,
        alloc: Global,
        news: &[Arc<Delta>],
        steps: &mut Steps<L>,
    ) -> Finish
        requires sync { IsSync R.row }
        requires fit { IsFit (length news.now) (plain self.old.tree) }
        requires can { CanRunNode (map arc_value news.now) self.old }
        ensures parts { HasSameParts self.old self.new }
        ensures kept { forgotten (plain self.new.tree) ≡ forgotten (plain self.old.tree) }
        ensures pages { self.new.pages ≡ self.old.pages }
        ensures right { FinishesRight (map arc_value news.now) self.old self.new result }
        ensures steps { StaysWithin (map arc_value news.now) (plain self.old.tree) steps.old steps.new }
    {
        match self.work_out(rt, alloc, news, steps) {
            Ok(finish) => finish,
            Err(halt) => stopped(halt),
        }
    }

    fn work_out<R: Threads + Sync, L: Ledger>(
        &mut self,
        rt: &R,
        alloc: Global,
        news: &[Arc<Delta>],
        steps: &mut Steps<L>,
    ) -> Result<Finish, Halt>
        requires sync { IsSync R.row }
        requires fit { IsFit (length news.now) (plain self.old.tree) }
        requires can { CanRunNode (map arc_value news.now) self.old }
        ensures parts { HasSameParts self.old self.new }
        ensures kept { forgotten (plain self.new.tree) ≡ forgotten (plain self.old.tree) }
        ensures pages { self.new.pages ≡ self.old.pages }
        ensures right { ComesOutRight (map arc_value news.now) self.old self.new result }
        ensures steps { StaysWithin (map arc_value news.now) (plain self.old.tree) steps.old steps.new }
    {
        let ran = run_child(rt, alloc, &mut self.tree, news, steps)?;
        let pages = pages_after(&self.pages, &ran.delta)?;
        let pending = copy_pages(&pages)?;
        let deltas = copies(alloc, &ran.delta, self.uses)?;
        self.pending_pages = pending;
        Ok(Finish::Right {
            deltas,
            points: ran.points,
            pages,
        })
    }
}
