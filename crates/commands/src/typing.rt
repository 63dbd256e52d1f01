// The stage of a script's structures.
ghost use Rattle.std.specs.Prelude.{◌≡◌, ◌≤◌, length, IfOk, IfErr, Ok};
ghost use Rattle.commands.specs.Ends.{IsRefusal, Refuses};
ghost use Rattle.commands.specs.Scripts.{type_line, checked_structures};

use crate::graph::refused_graph;
use crate::script::refused;
use crate::stop::Stop;
use data_set_trees::checked::TypedScript;
use scalar_trees::typing::Fault;
use script_typing::{ScriptStop, check_script};
use std::alloc::Global;
use vtl_syntax::Script;
use vtl_values::Structures;

/// The script with the structures of its statements: no name is given twice or stands for nothing, no statement depends on
/// itself, and no ruleset and no statement has a fault of types.
pub fn structures_of(
    alloc: Global,
    script: Script,
    structures: Structures,
) -> Result<TypedScript, Stop>
    requires { length script.statements ≤ 256 }
    ensures go { IfOk result (λ typed. checked_structures structures script ≡ Ok typed) }
    ensures inputs { IfOk result (λ typed. typed.inputs ≡ structures) }
    ensures end { IfErr result (λ stop. Refuses stop (checked_structures structures script)) }
    ensures kind { IfErr result IsRefusal }
{
    match check_script(alloc, script, structures) {
        Ok(typed) => Ok(typed),
        Err(ScriptStop::Graph(placed)) => Err(refused_graph(alloc, &placed)?),
        Err(ScriptStop::Refused(refusal)) => {
            Err(refused(alloc, refusal.place, type_line(refusal.fault)))
        }
        Err(ScriptStop::Memory) => Err(Stop::Memory),
    }
}

fn type_line(fault: Fault) -> &'static [u8]
    ensures { result.now ≡ type_line fault }
{
    match fault {
        Fault::UnknownComponent => b"UnknownComponent\n",
        Fault::WrongType => b"WrongType\n",
        Fault::WrongStructure => b"WrongStructure\n",
        Fault::WrongRole => b"WrongRole\n",
        Fault::NameTwice => b"NameTwice\n",
        Fault::TooManyComponents => b"TooManyComponents\n",
        Fault::BadConstant => b"BadConstant\n",
        Fault::BadPattern => b"BadPattern\n",
        Fault::BadRuleset => b"BadRuleset\n",
    }
}
