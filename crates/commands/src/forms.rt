// The stages of the files' contents.
ghost use Rattle.std.specs.Prelude.{◌≡◌, ◌≤◌, length, IfOk, IfErr, Ok};
ghost use Rattle.commands.specs.Ends.{IsRefusal, Refuses};
ghost use Rattle.commands.specs.Output.{forms_of, typed_in};
ghost use Rattle.commands.specs.Scripts.{built_of};
ghost use Rattle.round_runs.specs.Runs.{IsFew};
ghost use Rattle.commands.specs.Views.{command_bytes, run_of, script_bytes, script_in, AreOfRun, HasFew, IsOfRun};

use crate::feeds::revisions_in;
use crate::reading::{CommandBytes, SCRIPT_LIMIT, ScriptBytes};
use crate::script::typed_script;
use crate::stop::Stop;
use crate::structures::structures_in;
use crate::words::not_built;
use built_scripts::{CheckedScript, runnable};
use data_set_trees::checked::TypedScript;
use point_sets::Revision;
use std::alloc::Global;

/// What `eval` runs: a script, and the revisions of a feed.
#[derive(Drop)]
pub struct EvalInput {
    pub script: CheckedScript,
    pub revisions: Vec<Revision>,
}

/// What a command is done with.
#[derive(Drop)]
pub enum Input {
    Check(TypedScript),
    Eval(EvalInput),
}

/// The script with the structures of its statements. The structures of the inputs are looked at first.
fn read_typed(alloc: Global, bytes: &ScriptBytes) -> Result<TypedScript, Stop>
    requires { length bytes.now.script.items ≤ SCRIPT_LIMIT }
    ensures go { IfOk result (λ script. typed_in (script_bytes bytes.now) ≡ Ok script) }
    ensures end { IfErr result (λ stop. Refuses stop (typed_in (script_bytes bytes.now))) }
    ensures kind { IfErr result IsRefusal }
{
    let structures = structures_in(alloc, bytes.structures.as_slice())?;
    typed_script(alloc, structures, bytes.script.as_slice())
}

/// The script, where all its operators are built.
fn built(alloc: Global, script: TypedScript) -> Result<CheckedScript, Stop>
    ensures go { IfOk result (λ checked. built_of script ≡ Ok checked) }
    ensures end { IfErr result (λ stop. Refuses stop (built_of script)) }
    ensures kind { IfErr result IsRefusal }
{
    match runnable(script) {
        Some(script) => Ok(script),
        None => Err(not_built(alloc)),
    }
}

/// The script of a command, and for `eval` the revisions of the feed for its inputs.
pub fn read_forms(alloc: Global, bytes: &CommandBytes) -> Result<Input, Stop>
    requires { length (script_in bytes.now) ≤ SCRIPT_LIMIT }
    ensures go { IfOk result (λ input. forms_of (command_bytes bytes.now) ≡ Ok (run_of input)) }
    ensures few { IfOk result HasFew }
    ensures run { IfOk result (λ input. AreOfRun bytes.now → IsOfRun input) }
    ensures end { IfErr result (λ stop. Refuses stop (forms_of (command_bytes bytes.now))) }
    ensures kind { IfErr result IsRefusal }
{
    match bytes {
        CommandBytes::Check(bytes) => Ok(Input::Check(read_typed(alloc, bytes)?)),
        CommandBytes::Eval(bytes, feed) => {
            let script = built(alloc, read_typed(alloc, bytes)?)?;
            let revisions = revisions_in(alloc, script.inputs(), feed.as_slice())?;
            Ok(Input::Eval(EvalInput { script, revisions }))
        }
    }
}
