// The lock.
ghost use Rattle.std.specs.Prelude.{◌≡◌, ◌∷◌, ◌++◌, ◌+◌, ◌-◌, ◌*◌, ◌%◌, ◌<◌, ◌≤◌, ◌^◌, ◌↔◌, List, [], ℕ, true, false, length, drop, All, IfOk, IfErr, OnErr, OnOk, IsOk, Some, None};
ghost use Rattle.atomic_table.specs.Table.{Splits};
ghost use Rattle.turn_lock.specs.Calls.{StartsWith};
ghost use Rattle.turn_lock.specs.Pass.{Fits, IsSole};
ghost use Rattle.turn_lock.specs.Steps.{Finds, Continues, Takes, newcomer, joined, holding, looked, given, split_left, split_right};

use crate::growing::Growing;
use crate::pass::Pass;
use crate::rule::{Compare, Cut, Give, Look, Merge, Share, Turn, View};
use atomic_table::{Seat, Table};
use std::alloc::{AllocError, Global};
use std::marker::{Brand, Model};
use std::snapshot::Snapshot;
use std::sync::Wait;
use thiserror::Error;

// A sleep compares 32 bits.
const LOW: u64 = 0xffff_ffff;

type LockTable<S> = Table<
    Option<S>,
    View<<S as Growing>::Entry, <S as Growing>::Ground>,
    Snapshot<S>,
    Turn,
    Global,
>;

/// The turn was taken: the call's one look found this word, which is odd. Halved and rounded down, it is the number of entries that were last
/// given back.
#[derive(Clone, Copy, Debug, Drop, PartialEq, Eq, Error)]
#[error("the turn is taken, by the word {word}")]
pub struct Busy {
    pub word: u64,
}

/// The pass owns only this many unused numbers: too few for a new pass and its share.
#[derive(Clone, Copy, Debug, Drop, PartialEq, Eq, Error)]
#[error("the pass owns only {left} unused numbers")]
pub struct NoNumbers {
    pub left: u64,
}

/// A value that one pass at a time may take. Contracts see it as its table and the ground of the value over which it was made.
#[derive(Drop)]
pub struct TurnLock<S: Growing> {
    table: LockTable<S>,
}

impl<S: Growing> Model for TurnLock<S> {
    ghost use Rattle.std.specs.Prelude.{◌≡◌};
    ghost use Rattle.turn_lock.specs.Pass.{Lock};

    ghost Value = { Lock S.Ground };

    ghost view = { λ l. record { table = l.table.shared.table_id; ground = S.ground l.table.shared.key.value } };

    ghost invariant = { λ l. (l.table.shared.table_id.words ≡ 1) × (l.table.shared.table_id.slots ≡ 1) };
}

impl<S: Growing> TurnLock<S> {
    /// A lock over the value, and its first pass, which has all numbers from 0 to 1,000,000,000. On want of memory the value is dropped.
    pub fn new(alloc: Global, value: S) -> Result<(TurnLock<S>, Pass<S>), AllocError>
    where
        S: Drop,
        requires first { All (λ e. S.caller e ≡ 0) (S.journal value) }
        requires room { length (S.journal value) < 2 ^ 62 }
        ensures lock { IfOk result (λ r. r.0.ground ≡ S.ground value) }
        ensures fits { IfOk result (λ r. Fits r.0 r.1) }
        ensures pass { IfOk result
            (λ r. r.1.knows ≡ newcomer (S.ground value) (S.journal value)) }
        ensures sole { IfOk result (λ r. IsSole r.1.knows) }
    {
        let about = Snapshot::of(&value);
        let entries = value.entries();
        let mut slots = Vec::new(alloc);
        slots.push(Some(value))?;
        let Ok((table, seat)) = Table::new(alloc, &[2 * entries], slots, &about) else {
            return Err(AllocError);
        };
        let pass = Pass {
            seat,
            number: 0,
            unused: 1,
            left: 1_000_000_000,
        };
        Ok((TurnLock { table }, pass))
    }

    /// Makes one look, and has the turn and the value where the turn was free. Until `put`, the lock is without its value.
    pub fn try_take(&self, pass: &mut Pass<S>) -> Result<S, Busy>
        requires fits { Fits self.now pass.old }
        requires idle { pass.old.knows.holds ≡ false }
        ensures fits { Fits self.now pass.new }
        ensures found { IfOk result
            (λ value. Finds S.journal S.caller S.ground self.now.ground pass.old.knows value) }
        ensures taken { IfOk result
            (λ value. (word : ℕ) × (word % 2 ≡ 0)
            × (pass.new.knows ≡ holding word (S.journal value) pass.old.knows)) }
        ensures busy { IfErr result
            (λ b. (b.word % 2 ≡ 1) × (pass.new.knows ≡ looked b.word pass.old.knows)) }
    {
        let found = self.table.shared.fetch_or::<Look>(&mut pass.seat, 0, 1);
        if found % 2 != 0 {
            return Err(Busy { word: found });
        }
        match self.table.shared.exchange(&mut pass.seat, 0, None) {
            Some(value) => Ok(value),
            None => unreachable!(),
        }
    }

    /// Takes the turn once it is free. The promise holds if the call returns: it waits for as long as others have the turn.
    pub fn take<R: Wait>(&self, rt: &R, pass: &mut Pass<S>) -> S
        requires fits { Fits self.now pass.old }
        requires idle { pass.old.knows.holds ≡ false }
        ensures fits { Fits self.now pass.new }
        ensures found { Finds S.journal S.caller S.ground self.now.ground pass.old.knows result }
        ensures taken { Takes (S.journal result) pass.old.knows pass.new.knows }
    {
        for _ in rt.forever() {
            match self.try_take(pass) {
                Ok(value) => return value,
                Err(busy) => self.table.shared.park(rt, 0, (busy.word & LOW) as u32),
            }
        }
        unreachable!()
    }

    /// Gives the turn back, with a value whose journal is the one that was found and perhaps further entries of the pass's number.
    pub fn put(&self, pass: &mut Pass<S>, value: S)
        requires fits { Fits self.now pass.old }
        requires turn { pass.old.knows.holds ≡ true }
        requires ground { S.ground value ≡ self.now.ground }
        requires journal { Continues S.caller pass.old.knows (S.journal value) }
        requires room { length (S.journal value) < 2 ^ 62 }
        ensures fits { Fits self.now pass.new }
        ensures back { pass.new.knows ≡ given (S.journal value) pass.old.knows }
    {
        let entries = value.entries();
        match self.table.shared.exchange(&mut pass.seat, 0, Some(value)) {
            None => (),
            Some(_other) => unreachable!(),
        }
        self.table
            .shared
            .store::<Give>(&mut pass.seat, 0, 2 * entries);
        self.table.shared.wake_one(0);
    }

    /// Makes a pass with the first unused number of this one, which owns the next `share` numbers and has seen as much.
    pub fn split_pass(&self, pass: &mut Pass<S>, share: u64) -> Result<Pass<S>, NoNumbers>
        requires fits { Fits self.now pass.old }
        requires idle { pass.old.knows.holds ≡ false }
        ensures fits { Fits self.now pass.new }
        ensures enough { IsOk result ↔ (share < pass.old.knows.left) }
        ensures new_fits { IfOk result (λ new. Fits self.now new) }
        ensures ok { OnOk result (pass.new.knows ≡ split_left share pass.old.knows) }
        ensures new { IfOk result (λ new. new.knows ≡ split_right share pass.old.knows) }
        ensures left { IfErr result (λ e. e.left ≡ pass.old.knows.left) }
        ensures err { OnErr result (pass.new ≡ pass.old) }
    {
        if pass.left <= share {
            return Err(NoNumbers { left: pass.left });
        }
        let seat = cut::<S, Brand>(&self.table, &mut pass.seat, share);
        let new = Pass {
            seat,
            number: pass.unused,
            unused: pass.unused + 1,
            left: share,
        };
        pass.unused += share + 1;
        pass.left -= share + 1;
        Ok(new)
    }

    /// Joins the second pass into the first, which keeps the longer of what both have seen, and the entries of both numbers.
    /// The unused numbers of the second are never used.
    pub fn join_pass(&self, into: &mut Pass<S>, from: Pass<S>)
        requires fits { Fits self.now into.old }
        requires from_fits { Fits self.now from }
        requires idle { into.old.knows.holds ≡ false }
        requires from_idle { from.knows.holds ≡ false }
        ensures fits { Fits self.now into.new }
        ensures joined { into.new.knows ≡ joined into.old.knows from.knows }
        ensures old { StartsWith into.new.knows.seen into.old.knows.seen }
        ensures other { StartsWith into.new.knows.seen from.knows.seen }
    {
        let seat = from.into_seat();
        self.table.shared.join_seat::<Merge>(&mut into.seat, seat);
        self.table.shared.load::<Compare>(&mut into.seat, 0);
    }

    /// Takes the turn for good, as `take` does, and gives out the value. It may wait forever too.
    pub fn finish<R: Wait>(self, rt: &R, pass: Pass<S>) -> S
    where
        S: Drop,
        requires fits { Fits self pass }
        requires idle { pass.knows.holds ≡ false }
        ensures { Finds S.journal S.caller S.ground self.ground pass.knows result }
    {
        let mut pass = pass;
        self.take(rt, &mut pass)
    }
}

// The split of a seat, which gives away one number and `share` more.
fn cut<S: Growing, N: Share>(
    table: &LockTable<S>,
    seat: &mut Seat<Option<S>, View<S::Entry, S::Ground>>,
    share: u64,
) -> Seat<Option<S>, View<S::Entry, S::Ground>>
    requires share { share ≡ N.share }
    requires fits { (seat.old.table_id ≡ table.now.shared.table_id)
        × (table.now.shared.table_id.words ≡ 1) }
    requires live { seat.old.me.0.live ≡ true }
    requires idle { seat.old.me.0.holds ≡ false }
    requires enough { share < seat.old.me.0.left }
    ensures seat { (seat.new.table_id ≡ seat.old.table_id)
        × (seat.new.me ≡ (split_left share seat.old.me.0, seat.old.me.1)) }
    ensures new { (result.table_id ≡ seat.old.table_id)
        × (result.me ≡ (split_right share seat.old.me.0, [])) }
{
    let _ = share;
    table.shared.split_seat::<Cut<N>>(seat)
}
