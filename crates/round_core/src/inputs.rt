// The input data sets of a production, and how they came from those of its last release.
ghost use Rattle.std.specs.Prelude.{◌≡◌, IfOk, OnOk, OnErr, List, length};
ghost use Rattle.std.specs.List.{All};
ghost use Rattle.std.specs.FinMap as finmap;
ghost use Rattle.point_sets.specs.DataSets.{DataSet};
ghost use Rattle.revision_judge.specs.Shares.{IsShare, AreShares};
ghost use Rattle.round_core.specs.Inputs.{ChangeKept, InputsKept, AreEmpty, Carries, Starts, AllCarry, AllBegin, AllClosed, HasInput, IsNext, AreNexts};

use crate::runs::Runs;
use point_sets::{Delta, PointSet, all_of, compose};
use revision_judge::Share;
use sqlite_items::Items;
use std::alloc::{AllocError, Global};
use std::sync::Arc;

/// How an input came to be: from what it was at the last release to what it was as the last round was opened, where
/// these differ, and from there to what it is now.
#[derive(Drop)]
pub struct InputChange {
    pub older: Option<Arc<Delta>>,
    pub newer: Runs,
}

/// The inputs of now, and how each came to be.
#[derive(Drop)]
pub struct Inputs {
    pub sets: Vec<PointSet>,
    pub changes: Vec<InputChange>,
}

/// What becomes of the input with this number: the data set after a revision, and how it came to be since the last round
/// was opened.
#[derive(Drop)]
pub struct Next {
    pub set: usize,
    pub value: PointSet,
    pub newer: Runs,
}

impl Inputs {
    /// Empty inputs.
    pub fn new(alloc: Global, many: usize) -> Result<Inputs, AllocError>
        ensures { IfOk result (AreEmpty many) }
    {
        let mut sets: Vec<PointSet> = Vec::new(alloc);
        let mut changes: Vec<InputChange> = Vec::new(alloc);
        for n in 0..many {
            let _ = n;
            let set = PointSet::new(alloc);
            sets.push(set)?;
            let change = unchanged(alloc);
            changes.push(change)?;
        }
        Ok(Inputs { sets, changes })
    }

    /// Puts the shares of a revision in place. Where memory is wanting for one of them, none is.
    pub fn take(&mut self, shares: Items<Share>) -> Result<(), AllocError>
        requires { All (λ share. HasInput self.old share.set) shares }
        ensures kept { (bases tos nows afters : List DataSet) → InputsKept bases tos nows self.old → AreShares nows afters shares → length afters ≡ length nows → OnOk result (InputsKept bases tos afters self.new) }
        ensures err { OnErr result (self.new ≡ self.old) }
    {
        let nexts = self.nexts(shares)?;
        self.put(nexts);
        Ok(())
    }

    /// What the shares make of their inputs.
    fn nexts(&self, shares: Items<Share>) -> Result<Vec<Next>, AllocError>
        requires { All (λ share. HasInput self.now share.set) shares }
        ensures numbers { IfOk result (λ nexts. All (λ next. HasInput self.now next.set) nexts.items) }
        ensures values { IfOk result (λ nexts. (bases tos nows afters : List DataSet) → InputsKept bases tos nows self.now → AreShares nows afters shares → AreNexts tos nows afters nexts.items) }
    {
        let mut nexts = Vec::new(*self.sets.allocator());
        let mut left = shares;
        while let Some(share) = left.pop() {
            nexts.push(self.next(share)?)?;
        }
        Ok(nexts)
    }

    /// What a share makes of its input.
    fn next(&self, share: Share) -> Result<Next, AllocError>
        requires { HasInput self.now share.set }
        ensures number { IfOk result (λ next. next.set ≡ share.set) }
        ensures value { IfOk result (λ next. (bases tos nows afters : List DataSet) → InputsKept bases tos nows self.now → IsShare nows afters share → IsNext tos afters next) }
    {
        let Share { set, delta } = share;
        let set = set as usize;
        let mut value = self.sets[set].copy()?;
        value.apply(&delta)?;
        let newer = self.changes[set].newer.and(delta)?;
        Ok(Next { set, value, newer })
    }

    /// Puts them in place.
    fn put(&mut self, nexts: Vec<Next>)
        requires { All (λ next. HasInput self.old next.set) nexts.items }
        ensures { (bases tos nows afters : List DataSet) → InputsKept bases tos nows self.old → AreNexts tos nows afters nexts.items → length afters ≡ length nows → InputsKept bases tos afters self.new }
    {
        for next in nexts {
            let Next { set, value, newer } = next;
            self.sets[set] = value;
            self.changes[set].newer = newer;
        }
    }

    /// The changes once a round is opened over the inputs of now.
    pub fn carried(&self) -> Result<Vec<InputChange>, AllocError>
        ensures { IfOk result (λ next. AllCarry self.now.changes.items next.items) }
    {
        let alloc = *self.sets.allocator();
        let mut next: Vec<InputChange> = Vec::new(alloc);
        let changes = self.changes.as_slice();
        for change in changes {
            next.push(carried(alloc, change)?)?;
        }
        Ok(next)
    }

    /// The changes of the first round of a script: each leads from no points to the input of now, and takes the time and
    /// the memory of all of them.
    pub fn from_nothing(&self) -> Result<Vec<InputChange>, AllocError>
        ensures { IfOk result (λ changes. AllBegin self.now.sets.items changes.items) }
    {
        let alloc = *self.sets.allocator();
        let mut changes: Vec<InputChange> = Vec::new(alloc);
        let sets = self.sets.as_slice();
        for set in sets {
            changes.push(started(alloc, all_of(alloc, set)?)?)?;
        }
        Ok(changes)
    }

    /// Takes the inputs of the last round for those of the last release.
    pub fn close(&mut self)
        ensures sets { self.new.sets ≡ self.old.sets }
        ensures changes { AllClosed self.old.changes.items self.new.changes.items }
    {
        for i in 0..self.changes.len() {
            let change = &mut self.changes[i];
            change.older = None;
        }
    }
}

/// The change once a round is opened over the input of now.
fn carried(alloc: Global, change: &InputChange) -> Result<InputChange, AllocError>
    ensures { IfOk result (Carries change.now) }
{
    let newer = change.newer.whole()?;
    match &change.older {
        Some(older) => started(alloc, compose(alloc, older, &newer)?),
        None => started(alloc, newer),
    }
}

/// A change up to now, and none from there.
fn started(alloc: Global, older: Delta) -> Result<InputChange, AllocError>
    ensures { IfOk result (Starts older) }
{
    Ok(InputChange {
        older: Some(Arc::new(alloc, older)?),
        newer: Runs::new(alloc),
    })
}

/// An empty input never changed.
fn unchanged(alloc: Global) -> InputChange
    ensures { ChangeKept finmap.empty finmap.empty finmap.empty result }
{
    InputChange {
        older: None,
        newer: Runs::new(alloc),
    }
}
