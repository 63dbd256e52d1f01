// Cases of rounds: calls of a production, one after the other, and its releases.
//
// A case is a script, the most entries and fields of the journal and the most scripts, and steps; or, after the word
// `structures`, those of a structure file for a script without statements. The steps are:
//
// - `["judge", BY, SET, ROWS, ..]`, a revision with a SET and ROWS for each of its parts. The rows stand between blanks:
//   after `+` one that puts, after `-` one that removes; with a number for ROWS the part puts so many points;
// - `["open", BY]`;
// - `["turn", BY]`: a caller claims a statement, works it out and gives it back. With SET and ROWS another caller finds
//   no statement to claim while this one is out, and a third one's revision is judged;
// - `["swap", BY, SCRIPT]`: a turn, while which another caller replaces the script;
// - `["give up", BY]`: a caller claims a statement and gives it up;
// - `["rescript", BY, SCRIPT]`;
// - `["rounds", BY, N]`: N times a revision puts the point x of A, to 1, 2 and so on, and a round of one statement is run;
// - `["release"]`, the latest release, `["release", NUMBER]` and `["holding", RECEIPT]`.
ghost use Rattle.std.specs.Prelude.{◌≡◌};

mod revisions;
mod scripts;
mod turns;

use crate::rounds::revisions::{one_row, revision_at};
use crate::rounds::scripts::{limits_at, of_script, of_structures, script_of};
use crate::rounds::turns::{give_up, take_turn, take_turn_with_news, take_turn_with_script};
use anyhow::{Result, bail};
use case_files::lines::{items, list_at, text_at};
use outside::SureSink;
use release_text::Release;
use round_core::{Given, NoRelease, Production, RescriptStop, SubmitStop};
use round_runs::lines::verdict_line;
use serde_json::Value as Json;
use std::alloc::Global;
use std::marker::Sync;
use std::str;
use std::thread::Threads;

// The number at this place of a step.
fn number_at(step: &[Json], at: usize) -> Result<u64> {
    match step.get(at).and_then(Json::as_u64) {
        Some(number) => Ok(number),
        None => bail!("no number at {at}"),
    }
}

fn caller(step: &[Json]) -> Result<u64> {
    number_at(step, 1)
}

fn judged(alloc: Global, production: &mut Production, step: &[Json]) -> Result<String>
    ensures { production.new.script ≡ production.old.script }
{
    let revision = revision_at(alloc, step)?;
    match production.judge_one(caller(step)?, revision) {
        Ok(verdict) => {
            let line = verdict_line(alloc, &verdict)?;
            let line = str::from_utf8(line.as_slice())?.trim_end();
            Ok(String::from_str(alloc, line)?)
        }
        Err(SubmitStop::Full(full)) => Ok(format!(in alloc; "full {full:?}")?),
        Err(SubmitStop::Memory) => bail!("out of memory"),
    }
}

fn opened(alloc: Global, production: &mut Production, step: &[Json]) -> Result<String>
    ensures { production.new.script ≡ production.old.script }
{
    match production.open_round(caller(step)?) {
        Ok(round) => Ok(format!(in alloc; "round {round}")?),
        Err(stop) => Ok(format!(in alloc; "{stop:?}")?),
    }
}

fn given_text(alloc: Global, given: &Given) -> Result<String> {
    match given {
        Given::Counted => Ok(String::from_str(alloc, "counted")?),
        Given::Published(number) => Ok(format!(in alloc; "published {number}")?),
        Given::Failed(_) => Ok(String::from_str(alloc, "failed")?),
        Given::Dropped => Ok(String::from_str(alloc, "dropped")?),
    }
}

fn turned<R: Threads + Sync>(
    rt: &R,
    alloc: Global,
    production: &mut Production,
    step: &[Json],
) -> Result<String>
    ensures { production.new.script ≡ production.old.script }
{
    let by = caller(step)?;
    let given = match step.get(2) {
        Some(_) => {
            let news = revision_at(alloc, step)?;
            take_turn_with_news(rt, alloc, production, by, news)
        }
        None => take_turn(rt, alloc, production, by),
    };
    match given {
        Ok(given) => given_text(alloc, &given),
        Err(stop) => Ok(format!(in alloc; "{stop:?}")?),
    }
}

fn swapped<R: Threads + Sync>(
    rt: &R,
    alloc: Global,
    production: &mut Production,
    step: &[Json],
) -> Result<String>
    ensures { production.new.script ≡ production.old.script }
{
    let by = caller(step)?;
    let script = script_of(alloc, production.script().inputs(), text_at(step, 2)?)?;
    match take_turn_with_script(rt, alloc, production, by, script) {
        Ok(given) => given_text(alloc, &given),
        Err(stop) => Ok(format!(in alloc; "{stop:?}")?),
    }
}

fn given_up(alloc: Global, production: &mut Production, step: &[Json]) -> Result<String>
    ensures { production.new.script ≡ production.old.script }
{
    match give_up(production, caller(step)?) {
        Ok(given) => given_text(alloc, &given),
        Err(stop) => Ok(format!(in alloc; "{stop:?}")?),
    }
}

fn rescripted(alloc: Global, production: &mut Production, step: &[Json]) -> Result<String>
    ensures { production.new.script ≡ production.old.script }
{
    let script = script_of(alloc, production.script().inputs(), text_at(step, 2)?)?;
    match production.rescript(caller(step)?, script) {
        Ok(number) => Ok(format!(in alloc; "script {number}")?),
        Err(RescriptStop::Full(full)) => Ok(format!(in alloc; "full {full:?}")?),
        Err(RescriptStop::Memory) => bail!("out of memory"),
    }
}

// Opens one more round, in which x is this number.
fn open_next(alloc: Global, production: &mut Production, by: u64, number: u64) -> Result<()>
    ensures { production.new.script ≡ production.old.script }
{
    let row = format!(in alloc; "+x,{number}")?;
    let revision = one_row(alloc, "A", row.as_str())?;
    if production.judge_one(by, revision).is_err() || production.open_round(by).is_err() {
        bail!("no round {number}");
    }
    Ok(())
}

// One more round of one statement.
fn next_round<R: Threads + Sync>(
    rt: &R,
    alloc: Global,
    production: &mut Production,
    by: u64,
    number: u64,
) -> Result<String>
    ensures { production.new.script ≡ production.old.script }
{
    open_next(alloc, production, by, number)?;
    match take_turn(rt, alloc, production, by) {
        Ok(given) => given_text(alloc, &given),
        Err(stop) => Ok(format!(in alloc; "{stop:?}")?),
    }
}

fn run_rounds<R: Threads + Sync>(
    rt: &R,
    alloc: Global,
    production: &mut Production,
    step: &[Json],
) -> Result<String>
    ensures { production.new.script ≡ production.old.script }
{
    let (by, count) = (caller(step)?, number_at(step, 2)?);
    let mut last = String::new(alloc);
    for number in 0..count {
        last = next_round(rt, alloc, production, by, number.saturating_add(1))?;
    }
    Ok(last)
}

// The text of a release, on one line.
fn release_text(alloc: Global, release: &Release) -> Result<String> {
    let mut sink = SureSink {
        taken: Vec::new(alloc),
    };
    if release.write_to(&mut sink, Ok(())).is_err() {
        bail!("out of memory");
    }
    let text = str::from_utf8(sink.taken.as_slice())?.trim_end();
    Ok(text.replace(alloc, "\n", " / ")?)
}

fn released(alloc: Global, production: &Production, step: &[Json]) -> Result<String> {
    let Some(number) = step.get(1).and_then(Json::as_u64) else {
        return release_text(alloc, production.latest());
    };
    match production.release(number) {
        Ok(release) => release_text(alloc, release),
        Err(NoRelease::Gone(oldest)) => Ok(format!(in alloc; "gone {oldest}")?),
        Err(NoRelease::NotYet(latest)) => Ok(format!(in alloc; "not yet {latest}")?),
    }
}

fn held(alloc: Global, production: &Production, step: &[Json]) -> Result<String> {
    match production.holding(number_at(step, 1)?) {
        Ok(release) => release_text(alloc, release),
        Err(prefix) => Ok(format!(in alloc; "not yet prefix {prefix}")?),
    }
}

fn step_text<R: Threads + Sync>(
    rt: &R,
    alloc: Global,
    production: &mut Production,
    step: &[Json],
) -> Result<String>
    ensures { production.new.script ≡ production.old.script }
{
    match text_at(step, 0)? {
        "judge" => judged(alloc, production, step),
        "open" => opened(alloc, production, step),
        "turn" => turned(rt, alloc, production, step),
        "give up" => given_up(alloc, production, step),
        "rescript" => rescripted(alloc, production, step),
        "swap" => swapped(rt, alloc, production, step),
        "rounds" => run_rounds(rt, alloc, production, step),
        "release" => released(alloc, production, step),
        "holding" => held(alloc, production, step),
        step => bail!("no step {step}"),
    }
}

// Adds what a step answers.
fn and_answer(mut out: String, text: &str) -> Result<String> {
    if !out.is_empty() {
        out.push_str("; ")?;
    }
    out.push_str(text)?;
    Ok(out)
}

// What the steps answer, one after the other.
fn steps_text<R: Threads + Sync>(
    rt: &R,
    alloc: Global,
    production: &mut Production,
    steps: &[Json],
) -> Result<String> {
    let mut out = String::new(alloc);
    for step in steps {
        let text = step_text(rt, alloc, production, items(step)?)?;
        out = and_answer(out, text.as_str())?;
    }
    Ok(out)
}

// What the steps answer of this production.
fn run<R: Threads + Sync>(
    rt: &R,
    alloc: Global,
    mut production: Production,
    steps: &[Json],
) -> Result<String> {
    steps_text(rt, alloc, &mut production, steps)
}

/// What the steps of a case answer.
pub fn answer<R: Threads + Sync>(
    rt: &R,
    alloc: Global,
    call: &str,
    words: &[Json],
) -> Result<String> {
    if call == "structures" {
        let steps = list_at(words, 5)?;
        let limits = limits_at(words, 2)?;
        return run(
            rt,
            alloc,
            of_structures(alloc, words.get(1), limits)?,
            steps,
        );
    }
    let steps = list_at(words, 4)?;
    let limits = limits_at(words, 1)?;
    run(rt, alloc, of_script(alloc, call, limits)?, steps)
}
