//! A lock over a small log stands in for the value that a program would keep in it.
ghost use Rattle.std.specs.Prelude.{◌≡◌, ◌≤◌, ◌<◌, ◌^◌, ◌++◌, ◌∷◌, [], true, false, if◌then◌else◌, is_ok, vec_len};
ghost use Rattle.turn_lock.specs.Pass.{Fits};
ghost use denote.Param.Send.{IsSync};

use super::*;
use std::alloc::{AllocError, Global};
use std::sync::Wait;
use std::test::Fail;
use std::thread::{Threads, join};

const FULL: usize = 100_000;

const ROUNDS: usize = 40;

#[derive(Clone, Copy, Debug, PartialEq, Eq)]
struct Entry {
    by: u64,
    place: u64,
}

/// A value that only keeps a journal.
#[derive(Drop)]
struct Log {
    entries: Vec<Entry>,
    limit: u64,
}

impl Growing for Log {
    type Entry = Entry;

    type Ground = u64;

    ghost journal = { λ log. log.entries.items };

    ghost caller = { λ e. e.by };

    ghost ground = { λ log. log.limit };

    fn entries(&self) -> u64 {
        self.entries.len() as u64
    }
}

impl Log {
    fn new(alloc: Global) -> Log
        ensures { result.entries.items ≡ [] }
    {
        Log {
            entries: Vec::new(alloc),
            limit: 9,
        }
    }

    fn add(&mut self, by: u64) -> Result<(), AllocError>
        ensures limit { self.new.limit ≡ self.old.limit }
        ensures entries { self.new.entries.items
            ≡ self.old.entries.items ++ (if is_ok result then record { by = by; place = vec_len self.old.entries } ∷ [] else []) }
        ensures room { vec_len self.old.entries < 2 ^ 62 → vec_len self.new.entries < 2 ^ 62 }
    {
        if self.entries.len() >= FULL {
            return Err(AllocError);
        }
        let place = self.entries.len() as u64;
        self.entries.push(Entry { by, place })?;
        Ok(())
    }
}

// One entry more, and the turn is given back.
fn put_one(lock: &TurnLock<Log>, pass: &mut Pass<Log>, mut log: Log) -> Result<(), AllocError>
    requires fits { Fits lock.now pass.old }
    requires turn { pass.old.knows.holds ≡ true }
    requires ground { log.limit ≡ lock.now.ground }
    requires found { log.entries.items ≡ pass.old.knows.found }
    requires room { vec_len log.entries < 2 ^ 62 }
    ensures fits { Fits lock.now pass.new }
    ensures idle { pass.new.knows.holds ≡ false }
{
    let added = log.add(pass.number());
    lock.put(pass, log);
    added
}

fn one_turn<R: Wait>(rt: &R, lock: &TurnLock<Log>, pass: &mut Pass<Log>) -> Result<(), AllocError>
    requires fits { Fits lock.now pass.old }
    requires idle { pass.old.knows.holds ≡ false }
    ensures fits { Fits lock.now pass.new }
    ensures idle { pass.new.knows.holds ≡ false }
{
    let log = lock.take(rt, pass);
    put_one(lock, pass, log)
}

fn rounds<R: Wait>(rt: &R, lock: &TurnLock<Log>, pass: &mut Pass<Log>)
    requires fits { Fits lock.now pass.old }
    requires idle { pass.old.knows.holds ≡ false }
    ensures fits { Fits lock.now pass.new }
    ensures idle { pass.new.knows.holds ≡ false }
{
    for _ in 0..ROUNDS {
        let _ = one_turn(rt, lock, pass);
    }
}

/// The pass and others, as many as `share` if that is one less than a power of two, take turns in threads of their own, and are joined.
fn spread<R: Threads + Wait + Sync>(
    rt: &R,
    lock: &TurnLock<Log>,
    pass: Pass<Log>,
    share: u64,
) -> Pass<Log>
    requires fits { Fits lock.now pass }
    requires idle { pass.knows.holds ≡ false }
    requires enough { share ≤ pass.knows.left }
    ensures fits { Fits lock.now result }
    ensures idle { result.knows.holds ≡ false }
{
    let mut pass = pass;
    if share == 0 {
        rounds(rt, lock, &mut pass);
        return pass;
    }
    let half = (share - 1) / 2;
    let Ok(other) = lock.split_pass(&mut pass, half) else {
        unreachable!()
    };
    let (mut first, second) = join(
        rt,
        move || -> Pass<Log>
            requires { IsSync R.row × Fits lock.now pass × (pass.knows.holds ≡ false) × (half ≤ pass.knows.left) }
            ensures { Fits lock.entry.now result × (result.knows.holds ≡ false) }
        { spread(rt, lock, pass, half) },
        move || -> Pass<Log>
            requires { IsSync R.row × Fits lock.now other × (other.knows.holds ≡ false) × (half ≤ other.knows.left) }
            ensures { Fits lock.entry.now result × (result.knows.holds ≡ false) }
        { spread(rt, lock, other, half) },
    );
    lock.join_pass(&mut first, second);
    first
}

#[test]
fn answers_by_a_look(rt: HostRuntime) -> Result<(), Fail> {
    let (lock, mut first) = TurnLock::new(rt.alloc(), Log::new(rt.alloc()))?;
    let refused = lock.split_pass(&mut first, 1_000_000_000);
    assert_eq!(rt;
        refused.err(),
        Some(NoNumbers {
            left: 1_000_000_000
        })
    );
    let Ok(mut second) = lock.split_pass(&mut first, 0) else {
        unreachable!()
    };
    assert_eq!(rt; (first.number(), second.number()), (0, 1));
    let log = lock.take(&rt, &mut first);
    assert_eq!(rt; lock.try_take(&mut second).err(), Some(Busy { word: 1 }));
    put_one(&lock, &mut first, log)?;
    let log = lock.try_take(&mut second).ok().ok_or("the turn is free")?;
    assert_eq!(rt;
        log.entries.as_slice(),
        [Entry { by: 0, place: 0 }].as_slice()
    );
    Ok(())
}

#[test]
fn threads_take_turns(rt: HostRuntime) -> Result<(), Fail> {
    for passes in [2, 8] {
        let (lock, first) = TurnLock::new(rt.alloc(), Log::new(rt.alloc()))?;
        let all = spread(&rt, &lock, first, passes - 1);
        let log = lock.finish(&rt, all);
        assert_eq!(rt; log.entries.len(), passes as usize * ROUNDS);
        for (at, entry) in log.entries.iter().enumerate() {
            assert_eq!(rt; entry.place, at as u64);
        }
        for number in 0..passes {
            let own = log.entries.iter().filter(|e| e.by == number).count();
            assert_eq!(rt; own, ROUNDS, "by {number}");
        }
    }
    Ok(())
}
