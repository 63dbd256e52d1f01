// Callers that claim a statement, work it out and give it back.
ghost use Rattle.std.specs.Prelude.{◌≡◌, ◌<◌, IfOk, OnErr};
ghost use Rattle.round_core.specs.Seen.{seen_with};
ghost use Rattle.transform_nodes.specs.Nodes.{CanRun};
ghost use Rattle.round_journal.specs.Journals.{State};
ghost use Rattle.round_journal.specs.Stands.{WorkStands, DoneStands};
ghost use Rattle.round_journal.specs.declared.entry.What.TheVariants.{Judged};
ghost use Rattle.round_journal.specs.declared.verdict.Verdict.{Verdict as Verdicts};

use built_scripts::CheckedScript;
use data_model::steps::Steps;
use point_sets::Revision;
use round_core::{ClaimStop, Given, Production, RescriptStop, SubmitStop};
use round_journal::Verdict;
use std::alloc::Global;
use std::marker::{Brand, Sync};
use std::sync::ledger::{Blank, Ledger};
use std::thread::Threads;
use transform_nodes::{Done, Work};

/// Why a turn came to nothing.
#[derive(Debug, Drop)]
pub enum TurnStop {
    Claim(ClaimStop),
    Submit(SubmitStop),
    Rescript(RescriptStop),
    Unexpected,
}

impl From<ClaimStop> for TurnStop {
    fn from(stop: ClaimStop) -> Self {
        TurnStop::Claim(stop)
    }
}

impl From<SubmitStop> for TurnStop {
    fn from(stop: SubmitStop) -> Self {
        TurnStop::Submit(stop)
    }
}

impl From<RescriptStop> for TurnStop {
    fn from(stop: RescriptStop) -> Self {
        TurnStop::Rescript(stop)
    }
}

// Runs a work whose steps nobody counts.
fn run_work<R: Threads + Sync, L: Ledger>(rt: &R, alloc: Global, blank: Blank, work: Work) -> Done
    requires stands { CanRun work }
    requires name { blank.name ≡ L.name }
    requires parts { (blank.parts ≡ L.parts) × (0 < L.parts) }
    ensures statement { result.statement ≡ work.statement }
    ensures stands { (state : State) → WorkStands state work → DoneStands state result }
{
    let mut steps = Steps::<L>::new(blank);
    work.run(rt, alloc, &mut steps)
}

/// A caller claims a statement, runs it and gives it back.
pub fn take_turn<R: Threads + Sync>(
    rt: &R,
    alloc: Global,
    production: &mut Production,
    by: u64,
) -> Result<Given, TurnStop>
    ensures { production.new.script ≡ production.old.script }
{
    let work = production.claim(by)?;
    let done = run_work::<R, Brand>(rt, alloc, Blank::new(1), work);
    Ok(production.give(by, done))
}

// While a statement is out another caller finds none that is ready, and a third one's revision is judged.
fn judge_meanwhile(production: &mut Production, news: Revision) -> Result<(), TurnStop>
    ensures judged { IfOk result (λ _. (v : Verdicts) × (production.new ≡ seen_with production.old 3 (Judged news v))) }
    ensures script { production.new.script ≡ production.old.script }
{
    let Err(ClaimStop::NoneReady { out: 1 }) = give_up(production, 2) else {
        return Err(TurnStop::Unexpected);
    };
    let Verdict::Accepted(2) = production.judge_one(3, news)? else {
        return Err(TurnStop::Unexpected);
    };
    Ok(())
}

/// The same. While the statement is out another caller finds none that is ready, and a third one's revision is judged.
pub fn take_turn_with_news<R: Threads + Sync>(
    rt: &R,
    alloc: Global,
    production: &mut Production,
    by: u64,
    news: Revision,
) -> Result<Given, TurnStop>
    ensures { production.new.script ≡ production.old.script }
{
    let work = production.claim(by)?;
    judge_meanwhile(production, news)?;
    // Called for its clause, that the journal is legal.
    let _ = production.journal();
    let done = run_work::<R, Brand>(rt, alloc, Blank::new(1), work);
    Ok(production.give(by, done))
}

/// The same, where another caller replaces the script while the statement is out.
pub fn take_turn_with_script<R: Threads + Sync>(
    rt: &R,
    alloc: Global,
    production: &mut Production,
    by: u64,
    script: CheckedScript,
) -> Result<Given, TurnStop>
    requires { script.inputs ≡ production.old.script.inputs }
    ensures { production.new.script ≡ production.old.script }
{
    let work = production.claim(by)?;
    production.rescript(2, script)?;
    // Called for its clause, that the journal is legal.
    let _ = production.journal();
    let done = run_work::<R, Brand>(rt, alloc, Blank::new(1), work);
    Ok(production.give(by, done))
}

/// A caller claims a statement and gives it up.
pub fn give_up(production: &mut Production, by: u64) -> Result<Given, ClaimStop>
    ensures script { production.new.script ≡ production.old.script }
    ensures err { OnErr result (production.new ≡ production.old) }
{
    let work = production.claim(by)?;
    Ok(production.give(by, work.give_up()))
}
