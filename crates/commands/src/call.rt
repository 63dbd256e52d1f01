// The top call.
ghost use Rattle.std.specs.Prelude.{◌≡◌, ◌≢◌, ◌⊎◌, ℕ, map, string_bytes, Err, IsErr, IsErrAnd, IfOk, IfSome, IsSome, None};
ghost use Rattle.std.specs.Thread.{IsSync};
ghost use Rattle.std.specs.declared.vec.Vec.{Vec};
ghost use Rattle.std.specs.declared.alloc.Global.{Global};
ghost use Rattle.round_runs.specs.Journals.{Legal};
ghost use Rattle.outside.specs.Counts.{Rose};
ghost use Rattle.outside.specs.Shelves.{Told};
ghost use Rattle.round_runs.specs.Eval as meant;
ghost use Rattle.round_runs.specs.Eval.{behind};
ghost use Rattle.commands.specs.Ends.{Fault, Gives, HasCause, Stands, Did, EndedSo, IsEarly};
ghost use Rattle.commands.specs.Lines.{unread};
ghost use Rattle.commands.specs.Output.{output, ready, IsProductionOf};
ghost use Rattle.round_runs.specs.Runs.{IsFew, IsRunOf, IsSomeRun, IsAtRest, HasFault, WritesEnd};
ghost use Rattle.round_runs.specs.Answers.{Answer};
ghost use Rattle.commands.specs.Checking.{structures_told};
ghost use Rattle.commands.specs.Views.{run_of, status_of, HasFew, IsOfRun};
ghost use Rattle.commands.specs.Words.{command_of, files_named, Runs};

use crate::checking::structures_text;
use crate::forms::{EvalInput, Input, read_forms};
use crate::reading::read_files;
use crate::stop::Stop;
use crate::words::command_of;
use data_set_trees::checked::TypedScript;
use outside::{Gate, Shelf, Sink, SinkStop, put};
use round_runs::Production;
use round_runs::eval::{End, Ran, eval};
use std::alloc::Global;
use std::marker::Sync;
use std::sync::Wait;
use std::thread::Threads;

/// How a run of the program ended.
#[derive(Drop)]
pub struct Outcome {
    /// 0 where all went well; 1 for words that no command accepts, 2 for a file that can't be read or is too long, 3 for
    /// structures or a script that are refused, 4 for a feed that is refused and for what isn't built yet, 5 for a round that failed, 6 for a write that failed, 7 for want of memory.
    pub status: u8,
    /// Where a run of `eval` came to its end, the production that it ran on.
    pub production: Option<Production>,
}

impl Outcome {
    /// The status alone. The production is let go.
    pub fn into_status(self) -> u8
        ensures { result ≡ self.status }
    {
        let Outcome {
            status,
            production: _,
        } = self;
        status
    }
}

// All stages before the run.
fn gathered<S: Shelf>(alloc: Global, words: &Vec<String>, shelf: &mut S) -> Result<Input, Stop>
    ensures stage { Stands run_of (files_named (command_of (map string_bytes words.now.items)))
        (S.view shelf.old) (S.view shelf.new) result (ready (map string_bytes words.now.items)) }
    ensures few { IfOk result HasFew }
    ensures run { IfOk result (λ input. Runs (command_of (map string_bytes words.now.items)) → IsOfRun input) }
    ensures words { (end : Answer) → command_of (map string_bytes words.now.items) ≡ Err end → IsErrAnd result (λ stop. Gives stop end) }
    ensures untouched { IsErr (command_of (map string_bytes words.now.items)) → S.view shelf.new ≡ S.view shelf.old }
{
    let command = command_of(alloc, words)?;
    let bytes = read_files(alloc, shelf, &command)?;
    read_forms(alloc, &bytes)
}

// The status of a run that wrote so far.
fn status_after(written: Result<(), SinkStop>, status: u8) -> u8
    ensures { result ≡ status_of written status }
{
    match written {
        Ok(()) => status,
        Err(SinkStop::Failed) => 6,
        Err(SinkStop::Memory) => 7,
    }
}

// Writes the lines of a run, and then its end.
fn write_run<K: Sink>(out: &mut K, ran: &Ran) -> u8
    ensures did { (meant : Answer) → WritesEnd ran.now.production ran.now.end meant → Did (K.view out.old) (K.view out.new) (behind ran.now.lines.items meant) result }
    ensures write { result ≡ 6 → Rose (K.view out.old).faults (K.view out.new).faults }
    ensures cause { result ≢ 2 }
    ensures released { result ≡ 0 → ran.now.end ≡ End.Released }
    ensures failed { result ≡ 5 → (line : Vec ℕ Global) × (ran.now.end ≡ End.Failed line) }
{
    let written = put(out, Ok(()), ran.lines.as_slice());
    match &ran.end {
        End::Released => status_after(ran.production.latest().write_to(out, written), 0),
        End::Failed(line) => status_after(put(out, written, line.as_slice()), 5),
    }
}

// Writes the structures of a script's statements, and what became of the write.
fn write_structures<K: Sink>(alloc: Global, out: &mut K, script: &TypedScript) -> u8
    ensures did { Did (K.view out.old) (K.view out.new) (structures_told script.now) result }
    ensures write { result ≡ 6 → Rose (K.view out.old).faults (K.view out.new).faults }
    ensures status { (result ≡ 0) ⊎ (result ≡ 6) ⊎ (result ≡ 7) }
{
    match structures_text(alloc, script.statements()) {
        Ok(text) => status_after(out.write(&text), 0),
        Err(_) => 7,
    }
}

// The structures of a script are written; there is no production.
fn check<K: Sink>(alloc: Global, out: &mut K, script: &TypedScript) -> Outcome
    ensures did { Did (K.view out.old) (K.view out.new) (structures_told script.now) result.status }
    ensures write { result.status ≡ 6 → Rose (K.view out.old).faults (K.view out.new).faults }
    ensures status { (result.status ≡ 0) ⊎ (result.status ≡ 6) ⊎ (result.status ≡ 7) }
    ensures production { result.production ≡ None }
{
    Outcome {
        status: write_structures(alloc, out, script),
        production: None,
    }
}

// The run of a script over revisions. Its production is handed back where it came to its end.
fn run<R: Threads + Sync, K: Sink>(rt: &R, alloc: Global, out: &mut K, input: EvalInput) -> Outcome
    requires few { IsFew input.revisions.items }
    requires sync { IsSync R.row }
    ensures did { Did (K.view out.old) (K.view out.new) (meant.eval input.script input.revisions.items) result.status }
    ensures write { result.status ≡ 6 → Rose (K.view out.old).faults (K.view out.new).faults }
    ensures cause { result.status ≢ 2 }
    ensures production { IfSome result.production (IsRunOf input.script input.revisions.items) }
    ensures legal { IfSome result.production (λ p. Legal p.script p.journal) }
    ensures released { result.status ≡ 0 → IfSome result.production IsAtRest }
    ensures failed { result.status ≡ 5 → IfSome result.production HasFault }
    ensures handed_back { result.status ≢ 7 → IsSome result.production }
{
    match eval(rt, alloc, input.script, input.revisions) {
        Ok(ran) => {
            let status = write_run(out, &ran);
            Outcome {
                status,
                production: Some(ran.production),
            }
        }
        Err(_) => Outcome {
            status: 7,
            production: None,
        },
    }
}

// The outcome of a command that ended before its run.
fn ended<K: Sink>(out: &mut K, stop: Stop) -> Outcome
    requires { IsEarly stop }
    ensures did { EndedSo (K.view out.old) (K.view out.new) stop result.status }
    ensures write { result.status ≡ 6 → Rose (K.view out.old).faults (K.view out.new).faults }
    ensures production { result.production ≡ None }
{
    match stop {
        Stop::Ended(end) => Outcome {
            status: status_after(out.write(&end.line), end.status),
            production: None,
        },
        Stop::Memory => Outcome {
            status: 7,
            production: None,
        },
    }
}

/// Runs the program on its words, those after its name. It reads from the shelf, writes to the sink, and passes the
/// gate where the crew does.
///
/// Where the shelf tells its bytes, what is written and the status are those of `output` (specs/Output.antt), except
/// that a fault of the shelf is told by the line `read NAME` with status 2. At status 6, where the sink's count of
/// faults rose, and at 7, for want of memory, a prefix of the text is written.
pub fn run_vtlprod<R: AllocGlobal + Threads + Wait + Sync, S: Shelf, K: Sink, G: Gate>(
    rt: &R,
    words: &Vec<String>,
    shelf: &mut S,
    out: &mut K,
    gate: &G,
) -> Outcome
    // What is written, and the status.
    ensures output { Told (S.view shelf.old).files (λ files.
        Did (K.view out.old) (K.view out.new) (output (map string_bytes words.now.items) files) result.status
        ⊎ (Fault (files_named (command_of (map string_bytes words.now.items))) (S.view shelf.old) (S.view shelf.new)
        × Did (K.view out.old) (K.view out.new) (unread (S.view shelf.new).last) result.status)) }

    // Whatever the shelf tells: the causes of statuses 2 and 6, and the answer to words that name no command that is built.
    ensures read { HasCause (files_named (command_of (map string_bytes words.now.items)))
        (S.view shelf.old) (S.view shelf.new) result.status }
    ensures write { result.status ≡ 6 → Rose (K.view out.old).faults (K.view out.new).faults }
    ensures words { (end : Answer) → command_of (map string_bytes words.now.items) ≡ Err end →
        Did (K.view out.old) (K.view out.new) end result.status }
    ensures untouched { IsErr (command_of (map string_bytes words.now.items)) → S.view shelf.new ≡ S.view shelf.old }

    // Of the production that is handed back: it ran some script over some revisions, within the program's limits, and no
    // statement of its round was given up; its journal is legal. At status 0 its latest release stands on all accepted
    // revisions, on which the script is in bounds, and at status 5 the script has a fault on them. Where the shelf tells
    // its bytes, the script and the revisions are those of the files.
    ensures run { IfSome result.production IsSomeRun }
    ensures legal { IfSome result.production (λ p. Legal p.script p.journal) }
    ensures released { result.status ≡ 0 → IfSome result.production IsAtRest }
    ensures failed { result.status ≡ 5 → IfSome result.production HasFault }
    ensures production { Told (S.view shelf.old).files (λ files.
        IfSome result.production (IsProductionOf (ready (map string_bytes words.now.items) files))) }
    ensures handed_back { Runs (command_of (map string_bytes words.now.items)) →
        (result.status ≡ 0) ⊎ (result.status ≡ 5) → IsSome result.production }
{
    let _ = gate;
    let alloc = rt.alloc();
    match gathered(alloc, words, shelf) {
        Ok(Input::Check(script)) => check(alloc, out, &script),
        Ok(Input::Eval(input)) => run(rt, alloc, out, input),
        Err(stop) => ended(out, stop),
    }
}
