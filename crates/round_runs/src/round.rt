// Rounds that one caller runs alone.
ghost use Rattle.std.specs.Prelude.{◌≡◌, ◌≢◌, ◌<◌, ℕ, false};
ghost use Rattle.std.specs.Thread.{IsSync};
ghost use Rattle.round_core.specs.Seen.{Seen, state_in, opened};
ghost use Rattle.round_runs.specs.Rounds.{IsOpen, IsOpened, GivesNext, RunsRound, RunsWhole, newly_open, end_given, not_opened};

use data_model::steps::Steps;
use round_core::{Full, Given, OpenStop, Production, ScriptFault};
use std::alloc::Global;
use std::marker::{Brand, Sync};
use std::sync::ledger::{Blank, Ledger};
use std::thread::Threads;

/// How a round ended, or why none was opened.
#[derive(Debug, Drop)]
pub enum RoundEnd {
    /// There is nothing to be worked out beside what the last round had, with so many accepted revisions.
    NothingNew(u64),
    /// Its entries don't fit any more.
    Full(Full),
    /// With the release of this number.
    Published(u64),
    /// With the script's fault.
    Failed(ScriptFault),
    /// Memory was wanting for opening it, or for one of its statements: then it was dropped.
    Memory,
}

// Claims the next statement, runs it and gives it back.
fn run_next<R: Threads + Sync, L: Ledger>(
    rt: &R,
    alloc: Global,
    production: &mut Production,
    by: u64,
    steps: &mut Steps<L>,
) -> Given
    requires open_round { IsOpen production.old }
    requires sync { IsSync R.row }
    ensures { GivesNext production.old by result production.new }
{
    // Called for its clause: the journal is legal.
    let _ = production.journal();
    let work = production.claim(by).unwrap();
    let given = production.give(by, work.run(rt, alloc, steps));
    // Again, after the round's step.
    let _ = production.journal();
    given
}

/// Runs the open round to its end: each statement is claimed, run and given back, in the script's order.
pub fn run_round<R: Threads + Sync, L: Ledger>(
    rt: &R,
    alloc: Global,
    production: &mut Production,
    by: u64,
    steps: &mut Steps<L>,
) -> Given
    requires open_round { IsOpen production.old }
    requires sync { IsSync R.row }
    ensures { RunsRound production.old by result production.new }
{
    'works: loop {
        match run_next(rt, alloc, production, by, steps) {
            Given::Counted => {}
            end => return end,
        }
    }
}

// Runs the open round with a counter of its own.
fn run_uncounted<R: Threads + Sync, L: Ledger>(
    rt: &R,
    alloc: Global,
    production: &mut Production,
    by: u64,
    blank: Blank,
) -> Given
    requires open_round { IsOpen production.old }
    requires sync { IsSync R.row }
    requires name { blank.name ≡ L.name }
    requires parts { (blank.parts ≡ L.parts) × (0 < L.parts) }
    ensures { RunsRound production.old by result production.new }
{
    let mut steps = Steps::<L>::new(blank);
    run_round(rt, alloc, production, by, &mut steps)
}

// Runs the round that was opened. Where its script has no statements it is published already.
fn run_opened<R: Threads + Sync>(
    rt: &R,
    alloc: Global,
    production: &mut Production,
    by: u64,
) -> Given
    requires open_round { IsOpened production.old by }
    requires sync { IsSync R.row }
    ensures { (before : Seen) → production.old ≡ opened before by → RunsRound (newly_open before by) by result production.new }
{
    if !production.is_open() {
        return Given::Published(production.latest().number);
    }
    run_uncounted::<R, Brand>(rt, alloc, production, by, Blank::new(1))
}

// The end of a round that was run.
fn end_given(given: Given) -> RoundEnd
    requires { given ≢ Given.Counted }
    ensures { result ≡ end_given given }
{
    match given {
        Given::Counted => unreachable!(),
        Given::Published(number) => RoundEnd::Published(number),
        Given::Failed(fault) => RoundEnd::Failed(fault),
        Given::Dropped => RoundEnd::Memory,
    }
}

// Why no round was opened.
fn not_opened(stop: OpenStop) -> RoundEnd
    requires { (rounds : ℕ) → stop ≢ OpenStop.Running rounds }
    ensures { result ≡ not_opened stop }
{
    match stop {
        OpenStop::NothingNew(accepted) => RoundEnd::NothingNew(accepted),
        OpenStop::Full(full) => RoundEnd::Full(full),
        OpenStop::Memory => RoundEnd::Memory,
        OpenStop::Running(_) => unreachable!(),
    }
}

/// Opens a round of the newest script over all accepted revisions, and runs it to its end.
pub fn run_whole<R: Threads + Sync>(
    rt: &R,
    alloc: Global,
    production: &mut Production,
    by: u64,
) -> RoundEnd
    requires rests { (state_in production.old).running ≡ false }
    requires sync { IsSync R.row }
    ensures { RunsWhole production.old by result production.new }
{
    match production.open_round(by) {
        Ok(_) => end_given(run_opened(rt, alloc, production, by)),
        Err(stop) => not_opened(stop),
    }
}
