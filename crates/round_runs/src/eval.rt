// The command `eval`: its revisions, its round and its release.
ghost use Rattle.std.specs.Prelude.{◌≡◌, ◌≢◌, [], None, IfOk, OnOk};
ghost use Rattle.std.specs.Thread.{IsSync};
ghost use Rattle.round_core.specs.Answers.{full_for};
ghost use Rattle.round_core.specs.declared.limits.Full.{Full};
ghost use Rattle.round_runs.specs.Runs.{LIMITS, IsFew, JudgedSo, JudgesNext, RanSo, EndsSo, count_after};

use crate::lines::{fault_line, verdict_line};
use crate::round::{RoundEnd, run_whole};
use built_scripts::CheckedScript;
use point_sets::Revision;
use round_core::{ENTRY_LIMIT, FIELD_LIMIT, Limits, Production, SCRIPT_LIMIT, SubmitStop, Verdict};
use std::alloc::{AllocError, Global};
use std::marker::Sync;
use std::thread::Threads;

/// How a run ended: with the production's latest release, or with the line of a round that failed.
#[derive(Drop)]
pub enum End {
    Released,
    Failed(Vec<u8>),
}

/// A run that came to its end, with the lines of its verdicts.
#[derive(Drop)]
pub struct Ran {
    pub production: Production,
    pub lines: Vec<u8>,
    pub end: End,
}

/// How many revisions were accepted, and the lines of the verdicts.
#[derive(Drop)]
pub struct Verdicts {
    pub accepted: u64,
    pub lines: Vec<u8>,
}

// A production within the program's limits.
fn new_production(alloc: Global, script: CheckedScript) -> Result<Production, AllocError>
    ensures { IfOk result (λ p. p ≡ record { script = script; limits = LIMITS; journal = [] }) }
{
    let limits = Limits {
        entries: ENTRY_LIMIT,
        fields: FIELD_LIMIT,
        scripts: SCRIPT_LIMIT,
    };
    Production::new(alloc, script, limits)
}

// How many were accepted after a verdict more: an accepted revision's receipt is its number.
fn accepted_after(accepted: u64, verdict: &Verdict) -> u64
    ensures { result ≡ count_after accepted verdict.now }
{
    match verdict {
        Verdict::Accepted(receipt) => *receipt,
        Verdict::Refused { .. } => accepted,
    }
}

// Judges one revision more.
fn judge_next(
    alloc: Global,
    production: &mut Production,
    verdicts: &mut Verdicts,
    revision: Revision,
) -> Result<(), AllocError>
    requires { full_for production.old revision ≡ None }
    ensures { OnOk result (JudgesNext production.old verdicts.old revision production.new verdicts.new) }
{
    let verdict = match production.judge_one(0, revision) {
        Ok(verdict) => verdict,
        Err(SubmitStop::Memory) => return Err(AllocError),
        Err(SubmitStop::Full(_)) => unreachable!(),
    };
    verdicts.accepted = accepted_after(verdicts.accepted, &verdict);
    let line = verdict_line(alloc, &verdict)?;
    verdicts.lines.extend_from_slice(line.as_slice())
}

// Judges the revisions in their order.
fn judge_revisions(
    alloc: Global,
    production: &mut Production,
    revisions: Vec<Revision>,
) -> Result<Verdicts, AllocError>
    requires first { production.old ≡ record { script = production.old.script; limits = LIMITS; journal = [] } }
    requires few { IsFew revisions.items }
    ensures { IfOk result (λ verdicts. JudgedSo production.old.script revisions.items verdicts production.new) }
{
    let mut verdicts = Verdicts {
        accepted: 0,
        lines: Vec::new(alloc),
    };
    for revision in revisions {
        judge_next(alloc, production, &mut verdicts, revision)?;
    }
    Ok(verdicts)
}

// What a round comes to, of which the entries fit.
fn end_of_round(
    alloc: Global,
    production: &Production,
    accepted: u64,
    round: RoundEnd,
) -> Result<End, AllocError>
    requires { (full : Full) → round ≢ RoundEnd.Full full }
    ensures { IfOk result (EndsSo production.now.script accepted round) }
{
    match round {
        RoundEnd::NothingNew(_) | RoundEnd::Published(_) => Ok(End::Released),
        RoundEnd::Failed(fault) => {
            let line = fault_line(alloc, accepted, production.script(), &fault)?;
            Ok(End::Failed(line))
        }
        RoundEnd::Memory => Err(AllocError),
        RoundEnd::Full(_) => unreachable!(),
    }
}

/// Runs a script over revisions: each is judged, in order, and a round is run over the accepted ones. What is
/// written of it is what `eval` means (specs/Eval.antt).
pub fn eval<R: Threads + Sync>(
    rt: &R,
    alloc: Global,
    script: CheckedScript,
    revisions: Vec<Revision>,
) -> Result<Ran, AllocError>
    requires few { IsFew revisions.items }
    requires sync { IsSync R.row }
    ensures { IfOk result (RanSo script revisions.items) }
{
    let mut production = new_production(alloc, script)?;
    let verdicts = judge_revisions(alloc, &mut production, revisions)?;
    // Called for its clause: the statements are few.
    let _ = production.script().statements();
    // Called for its clause: the journal is legal.
    let _ = production.journal();
    let round = run_whole(rt, alloc, &mut production, 0);
    // Again, after the round.
    let _ = production.journal();
    let end = end_of_round(alloc, &production, verdicts.accepted, round)?;
    Ok(Ran {
        production,
        lines: verdicts.lines,
        end,
    })
}
