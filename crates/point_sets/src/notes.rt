// Changes noted in any order.
ghost use Rattle.std.specs.Prelude.{◌≡◌, map, IfOk, OnOk, OnErr};
ghost use Rattle.std.specs.FinMap as finmap;
ghost use Rattle.point_sets.specs.DataSets.{HasKey};
ghost use Rattle.point_sets.specs.Changes.{change_entry, values_of, with_change, AreChanges};
ghost use Rattle.point_sets.specs.Noted.{change_of, noted_entry, AreNoted};

use crate::delta::{Change, Delta, have_same_values};
use crate::key::Key;
use crate::point::Point;
use std::alloc::{AllocError, Global};
use std::collections::BTreeMap;
use std::marker::Model;
use std::sync::Arc;

/// What a key had, and what it has.
#[derive(Drop)]
struct Noted {
    old: Option<Arc<Point>>,
    new: Option<Arc<Point>>,
}

impl Noted {
    fn change_at(self, key: Key) -> Change
        ensures { result ≡ change_of (key, self) }
    {
        let Noted { old, new } = self;
        Change { key, old, new }
    }
}

/// Changes that are noted in any order; of two at one key the later counts. Contracts see the delta that they make.
#[derive(Drop)]
pub struct Notes {
    changes: BTreeMap<Key, Noted>,
}

impl Model for Notes {
    ghost use Rattle.point_sets.specs.Changes.{Changes, changes_coded};
    ghost use Rattle.point_sets.specs.Noted.{of_noted, AreNoted};

    ghost Value = { Changes };

    ghost coded = { changes_coded };

    ghost view = { λ notes. of_noted notes.changes.entries };

    ghost invariant = { λ notes. AreNoted notes.changes.entries };
}

impl Notes {
    /// Nothing noted yet.
    pub fn new(alloc: Global) -> Notes
        ensures { result ≡ finmap.empty }
    {
        Notes {
            changes: BTreeMap::new(alloc),
        }
    }

    /// Notes what a key had and has. Where these are equal there is nothing to note.
    pub fn note(&mut self, change: Change) -> Result<(), AllocError>
        requires old { HasKey change.key change.old }
        requires new { HasKey change.key change.new }
        ensures ok { OnOk result (self.new ≡ with_change self.old change.key (values_of change.old) (values_of change.new)) }
        ensures err { OnErr result (self.new ≡ self.old) }
    {
        let Change { key, old, new } = change;
        if have_same_values(&old, &new) {
            return Ok(());
        }
        self.changes.insert(key, Noted { old, new })?;
        Ok(())
    }

    /// The delta of what was noted.
    pub fn finish(self, alloc: Global) -> Result<Delta, AllocError>
        ensures { IfOk result (λ delta. delta ≡ self) }
    {
        let Notes { changes } = self;
        Ok(Delta::of(changes_of(alloc, changes)?))
    }
}

/// The changes that were noted, in the order of their keys.
fn changes_of(alloc: Global, mut noted: BTreeMap<Key, Noted>) -> Result<Vec<Change>, AllocError>
    requires { AreNoted noted.entries }
    ensures changes { IfOk result (λ changes. AreChanges changes.items) }
    ensures entries { IfOk result (λ changes. map change_entry changes.items ≡ map noted_entry noted.entries) }
{
    let mut changes = Vec::with_capacity(alloc, noted.len())?;
    while let Some((key, values)) = noted.pop_first() {
        changes.push(values.change_at(key))?;
    }
    Ok(changes)
}
