// Which statements are ready, and how a round goes on.
ghost use Rattle.std.specs.Prelude.{◌≡◌, ◌≢◌, ◌<◌, ◌≤◌, ◌↔◌, ℕ, true, false, IfSome, IsTrue, None, Some, length, take, count_by, slice_get, slice_index_or};
ghost use Rattle.std.specs.List.{All};
ghost use Rattle.round_core.specs.Slots.{ThereIn, ReadyIn, EachSlot, IsFaultFree, FirstWrong, AllStill, EndsSo, FirstReadyIn, is_out, points_in_all};
ghost use Rattle.round_core.specs.Kept.{NoneWaits};
ghost use Rattle.round_core.specs.Answers.{told};

use crate::slot::{Slot, Stage};
use data_set_trees::Source;

/// The most points of the results of all operators of a script together.
const POINTS_LIMIT: u64 = 6_000_000;

/// How a round goes on: some statement is out or ready; one was given up; a statement has the first fault; the
/// operators' results have too many points; or the round has its release.
#[derive(Debug, Drop)]
pub enum End {
    GoesOn,
    Dropped,
    Fault(usize),
    Total(u64),
    Published,
}

/// Whether the source is an input, or a result that came back with a data set.
fn is_there(slots: &[Slot], source: Source) -> bool
    ensures { IsTrue result ↔ ThereIn slots.now source }
{
    match source {
        Source::Input(_) => true,
        Source::Result(i) => {
            if slots.len() <= i as usize {
                return false;
            }
            let slot = &slots[i as usize];
            match &slot.stage {
                Stage::Right { .. } => true,
                _ => false,
            }
        }
    }
}

/// Whether all of the sources are there.
fn all_there(slots: &[Slot], sources: &[Source]) -> bool
    ensures { IsTrue result ↔ All (ThereIn slots.now) sources.now }
{
    for source in sources {
        if !is_there(slots, *source) {
            return false;
        }
    }
    true
}

/// Whether the statement may be handed out.
fn is_ready(slots: &[Slot], i: usize) -> bool
    requires { i < length slots.now }
    ensures { IsTrue result ↔ ReadyIn slots.now i }
{
    let slot = &slots[i];
    match &slot.stage {
        Stage::Waiting => all_there(slots, slot.sources.as_slice()),
        _ => false,
    }
}

/// The first of the listed statements that may be handed out.
pub fn first_ready(slots: &[Slot], order: &[u64]) -> Option<u64>
    requires { All (λ i. i < length slots.now) order.now }
    ensures found { IfSome result (FirstReadyIn slots.now order.now) }
    ensures none { result ≡ None → All (λ i. ¬ (ReadyIn slots.now i)) order.now }
{
    for i in order {
        if is_ready(slots, *i as usize) {
            return Some(*i);
        }
    }
    None
}

/// How many of the listed statements don't wait, from the first one on to one that does. Those before `from` don't.
pub fn passed_over(slots: &[Slot], order: &[u64], from: usize) -> usize
    requires below { All (λ i. i < length slots.now) order.now }
    requires passed { NoneWaits slots.now (take from order.now) }
    ensures passed { NoneWaits slots.now (take result order.now) }
    ensures stops { (i : ℕ) → slice_get order.now result ≡ Some i → (d : Slot) → (slice_index_or slots.now i d).stage ≡ Stage.Waiting }
{
    let mut passed = from;
    while passed < order.len() && !slots[order[passed] as usize].waits() {
        passed += 1;
    }
    passed
}

/// How many statements are out.
pub fn count_out(slots: &[Slot]) -> u64
    ensures { result ≡ count_by is_out slots.now }
{
    let mut count: usize = 0;
    for slot in slots {
        if slot.is_out() {
            count += 1;
        }
    }
    count as u64
}

/// Whether a statement is out.
fn any_out(slots: &[Slot]) -> bool
    ensures { (result ≡ false) ↔ EachSlot (λ i slot. slot.stage ≢ Stage.Out) slots.now }
{
    for slot in slots {
        if let Stage::Out = &slot.stage {
            return true;
        }
    }
    false
}

/// The first slot with a fault.
fn first_wrong(slots: &[Slot]) -> Option<usize>
    ensures found { IfSome result (FirstWrong slots.now) }
    ensures none { result ≡ None → EachSlot (λ i slot. IsFaultFree slot) slots.now }
{
    for (i, slot) in slots.iter().enumerate() {
        if let Stage::Wrong { .. } = &slot.stage {
            return Some(i);
        }
    }
    None
}

/// The points of all.
fn all_points(slots: &[Slot]) -> u64
    ensures { result ≡ told (points_in_all slots.now) }
{
    let mut all: u64 = 0;
    for slot in slots {
        if let Stage::Right { points, .. } = &slot.stage {
            all = all.saturating_add(*points);
        }
    }
    all
}

/// Whether a statement may be handed out.
fn any_ready(slots: &[Slot]) -> bool
    ensures some { result ≡ true → (i : ℕ) × ReadyIn slots.now i }
    ensures none { result ≡ false → (i : ℕ) → ¬ (ReadyIn slots.now i) }
{
    for i in 0..slots.len() {
        if is_ready(slots, i) {
            return true;
        }
    }
    false
}

/// Whether no statement is out or ready.
fn is_still(slots: &[Slot]) -> bool
    ensures still { result ≡ true → AllStill slots.now }
    ensures moves { result ≡ false → ¬ (AllStill slots.now) }
{
    if any_out(slots) {
        return false;
    }
    if any_ready(slots) {
        return false;
    }
    true
}

/// How a round ends where no statement has a fault.
fn end_by_points(points: u64) -> End
    ensures few { points ≤ POINTS_LIMIT → result ≡ End.Published }
    ensures many { POINTS_LIMIT < points → result ≡ End.Total points }
{
    if points <= POINTS_LIMIT {
        End::Published
    } else {
        End::Total(points)
    }
}

/// How a round goes on with these slots.
pub fn end_of(slots: &[Slot], spoiled: bool) -> End
    ensures { EndsSo slots.now spoiled result }
{
    if !is_still(slots) {
        return End::GoesOn;
    }
    if spoiled {
        return End::Dropped;
    }
    match first_wrong(slots) {
        Some(i) => End::Fault(i),
        None => end_by_points(all_points(slots)),
    }
}
