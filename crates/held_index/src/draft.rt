// Drafts of deltas.
ghost use Rattle.std.specs.Prelude.{◌≡◌, ◌≤◌, ◌&&◌, map, length, count_by, is_some, is_none, IfOk, OnOk, OnErr, Some, None, if◌then◌else◌};
ghost use Rattle.std.specs.Option.{IfSome};
ghost use Rattle.data_model.specs.Deltas.{count_after};
ghost use Rattle.data_model.specs.Outcomes.{lesser, settled};
ghost use Rattle.data_model.specs.Drafts as drafts;
ghost use Rattle.vtl_values.specs.Order.{key_cmp};
ghost use Rattle.point_sets.specs.DataSets.{HasKey};
ghost use Rattle.point_sets.specs.Changes.{values_eq, values_of};
ghost use Rattle.held_index.specs.Rules.{answer_of};

use crate::stop::Stop;
use data_model::POINT_LIMIT;
use point_sets::{Change, Delta, Key, Notes};
use std::alloc::{AllocError, Global};
use std::marker::Model;
use std::sync::Arc;

/// What a rule notes on the way to its answer: changes of the result, and the least key at which an evaluation is out
/// of range. Notes come in any order, and repeats do no harm.
pub struct Draft {
    changes: Notes,
    beyond: Option<Key>,
}

// Written out, so that who drops one calls this and doesn't go through what is in it.
impl Drop for Draft {
    fn drop(self) {
        let Draft {
            changes: _,
            beyond: _,
        } = self;
    }
}

impl Model for Draft {
    ghost use Rattle.held_index.specs.Drafts.{SetDraft, set_draft_coded};

    ghost Value = { SetDraft };

    ghost coded = { set_draft_coded };

    ghost view = { λ draft. record { changes = draft.changes; beyond = draft.beyond } };
}

impl Draft {
    /// Nothing noted yet.
    pub fn new(alloc: Global) -> Draft
        ensures { result ≡ drafts.nothing }
    {
        Draft {
            changes: Notes::new(alloc),
            beyond: None,
        }
    }

    /// Notes what a key of the result had and has. Where these are equal there is nothing to note.
    pub fn note(&mut self, change: Change) -> Result<(), AllocError>
        requires old { HasKey change.key change.old }
        requires new { HasKey change.key change.new }
        ensures ok { OnOk result (self.new ≡ drafts.note_value values_eq change.key (values_of change.old) (values_of change.new) self.old) }
        ensures err { OnErr result (self.new ≡ self.old) }
    {
        self.changes.note(change)
    }

    /// Notes that an evaluation at a key is out of range.
    pub fn note_beyond(&mut self, key: &Key) -> Result<(), AllocError>
        ensures ok { OnOk result (self.new ≡ drafts.note_beyond key.now self.old) }
        ensures err { OnErr result (self.new ≡ self.old) }
    {
        if !is_least(key, &self.beyond) {
            return Ok(());
        }
        self.beyond = Some(key.copy()?);
        Ok(())
    }

    /// The delta, or the fault, where the result had so many points before.
    pub fn finish(self, alloc: Global, before: u64) -> Result<Delta, Stop>
        requires { before ≤ POINT_LIMIT }
        ensures { IfSome (answer_of result) (λ answer. answer ≡ drafts.finished before self) }
    {
        let Draft { changes, beyond } = self;
        match beyond {
            Some(key) => Err(Stop::Range(Arc::new(alloc, key)?)),
            None => delta_of(alloc, changes, before),
        }
    }
}

/// The delta of what was noted, unless it leaves too many points.
fn delta_of(alloc: Global, changes: Notes, before: u64) -> Result<Delta, Stop>
    requires { before ≤ POINT_LIMIT }
    ensures { IfSome (answer_of result) (λ answer. answer ≡ settled None (count_after before changes) changes) }
{
    let delta = changes.finish(alloc)?;
    if delta.count_after(before) <= POINT_LIMIT {
        Ok(delta)
    } else {
        Err(Stop::TooMany)
    }
}

/// Whether no key that may be there is below the given one.
fn is_least(key: &Key, other: &Option<Key>) -> bool
    ensures { Some (lesser key_cmp key.now other.now) ≡ (if result then Some key.now else other.now) }
{
    match other {
        None => true,
        Some(other) => !other.cmp(key).is_lt(),
    }
}
