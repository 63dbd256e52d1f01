// Shelves and sinks in memory: they tell what they hold, and fail at the calls that they are told.
ghost use Rattle.std.specs.Prelude.{◌≡◌, ◌<◌, ◌≤◌, ◌⊎◌, ◌↔◌, ℕ, List, Some, None, length, IsTrue, IsNone, IsOk, IfOk, IfErr, IfSome, OnErr, IsErrOf, IsErr};
ghost use Rattle.outside.specs.Counts.{Rose};
ghost use Rattle.outside.specs.Memory.{bytes_at, counted, IsToFail, IsFailingRead, faults_after_read, faults_after_write, shelf_view, sink_view, sure_view};
ghost use Rattle.outside.specs.Shelves.{Told, IfTooLong, kept_of, last_of};
ghost use Rattle.outside.specs.Sinks.{Wrote};

use crate::shelf::{Shelf, ShelfStop};
use crate::sink::{Sink, SinkStop};
use std::alloc::Global;
use std::collections::BTreeMap;
use vtl_values::Word;

/// Files in memory. The calls are counted from 0, and those in `fail_at` fail, as does a read of a name that isn't there.
#[derive(Drop)]
pub struct MemoryShelf {
    pub files: BTreeMap<Word, Vec<u8>>,
    pub calls: u64,
    pub fail_at: Vec<u64>,
    pub faults: u64,
    pub last: Word,
    pub kept: u64,
}

// Whether the call with this number is one of those that fail.
fn is_to_fail(fail_at: &Vec<u64>, call: u64) -> bool
    ensures { IsTrue result ↔ IsToFail fail_at.now call }
{
    fail_at.contains(&call)
}

// The bytes under a name, unless the read is to fail.
fn found<'a>(files: &'a BTreeMap<Word, Vec<u8>>, fails: bool, name: &Word) -> Option<&'a Vec<u8>>
    ensures some { IfSome result (λ bytes. bytes_at files.now name.now ≡ Some bytes.now.items) }
    ensures none { IsNone result ↔ (IsTrue fails ⊎ (bytes_at files.now name.now ≡ None)) }
{
    if fails {
        return None;
    }
    files.get(name)
}

impl Shelf for MemoryShelf {
    ghost view = { shelf_view };

    fn read(&mut self, alloc: Global, name: &Word, limit: u64) -> Result<Vec<u8>, ShelfStop>
        // The clauses of every shelf.
        ensures files { (shelf_view self.new).files ≡ (shelf_view self.old).files }
        ensures later { self.old.faults ≤ self.new.faults }
        ensures within { IfOk result (λ bytes. length bytes.items ≤ limit) }
        ensures bytes { IfOk result (λ bytes. Told (shelf_view self.old).files
            (λ files. files name.now ≡ Some bytes.items)) }
        ensures rose { IsErrOf result ShelfStop.Failed → Rose self.old.faults self.new.faults }
        ensures last { IsErrOf result ShelfStop.Failed → self.new.last ≡ name.now }
        ensures last_kept { self.new.last ≡ last_of result name.now self.old.last }
        ensures kept { self.new.kept ≡ kept_of result }
        ensures long { IfErr result (IfTooLong (λ n. limit < n)) }
        ensures told_long { IfErr result (IfTooLong (λ n. Told (shelf_view self.old).files
            (λ files. (bytes : List ℕ) × (files name.now ≡ Some bytes) × (length bytes ≡ n)))) }

        // It fails exactly at its numbered calls and where there is nothing under the name, each time counted once.
        ensures calls { self.new.calls ≡ counted self.old.calls }
        ensures numbers { self.new.fail_at ≡ self.old.fail_at }
        ensures failed { IsErrOf result ShelfStop.Failed → IsFailingRead self.old name.now }
        ensures fails { IsFailingRead self.old name.now → IsErrOf result ShelfStop.Failed ⊎ IsErrOf result ShelfStop.Memory }
        ensures faults { self.new.faults ≡ faults_after_read result self.old.faults }
    {
        let call = self.calls;
        self.calls = self.calls.saturating_add(1);
        self.kept = 0;
        let Ok(last) = name.copy() else {
            return Err(ShelfStop::Memory);
        };
        match found(&self.files, is_to_fail(&self.fail_at, call), name) {
            Some(bytes) => {
                let length = bytes.len() as u64;
                if length > limit {
                    self.kept = length;
                    return Err(ShelfStop::TooLong(length));
                }
                match bytes.to_vec(alloc) {
                    Ok(bytes) => Ok(bytes),
                    Err(_) => Err(ShelfStop::Memory),
                }
            }
            None => {
                self.faults = self.faults.saturating_add(1);
                self.last = last;
                Err(ShelfStop::Failed)
            }
        }
    }
}

/// A sink that keeps what it takes. The calls are counted from 0, and those in `fail_at` fail and take nothing.
#[derive(Drop)]
pub struct MemorySink {
    pub taken: Vec<u8>,
    pub calls: u64,
    pub fail_at: Vec<u64>,
    pub faults: u64,
}

impl Sink for MemorySink {
    ghost view = { sink_view };

    fn write(&mut self, bytes: &[u8]) -> Result<(), SinkStop>
        ensures wrote { Wrote (sink_view self.old) (sink_view self.new) result bytes.now }

        // It fails exactly at its numbered calls, each counted once, and takes nothing where it stops.
        ensures calls { self.new.calls ≡ counted self.old.calls }
        ensures numbers { self.new.fail_at ≡ self.old.fail_at }
        ensures failed { IsErrOf result SinkStop.Failed ↔ IsToFail self.old.fail_at self.old.calls }
        ensures faults { self.new.faults ≡ faults_after_write result self.old.faults }
        ensures nothing { OnErr result (self.new.taken.items ≡ self.old.taken.items) }
    {
        let call = self.calls;
        self.calls = self.calls.saturating_add(1);
        if is_to_fail(&self.fail_at, call) {
            self.faults = self.faults.saturating_add(1);
            return Err(SinkStop::Failed);
        }
        match self.taken.extend_from_slice(bytes) {
            Ok(()) => Ok(()),
            Err(_) => Err(SinkStop::Memory),
        }
    }
}

/// A sink that keeps what it takes and stops for want of memory alone.
#[derive(Drop)]
pub struct SureSink {
    pub taken: Vec<u8>,
}

impl Sink for SureSink {
    ghost view = { sure_view };

    fn write(&mut self, bytes: &[u8]) -> Result<(), SinkStop> {
        match self.taken.extend_from_slice(bytes) {
            Ok(()) => Ok(()),
            Err(_) => Err(SinkStop::Memory),
        }
    }
}
