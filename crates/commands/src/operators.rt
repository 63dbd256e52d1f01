// The stage of defined operators.
ghost use Rattle.std.specs.Prelude.{◌≡◌, ◌++◌, length, IfOk, IfErr, OnOk, Ok};
ghost use Rattle.defined_operators.specs.Expanded.{expanded};
ghost use Rattle.commands.specs.Ends.{IsRefusal, Refuses};
ghost use Rattle.commands.specs.Scripts.{named_line, names_line, with_commas, operator_line, told_written};

use crate::script::refused;
use crate::stop::Stop;
use defined_operators::expand::{ExpandStop, expand};
use operator_faults::OperatorFault;
use std::alloc::{AllocError, Global};
use vtl_syntax::Script;
use vtl_values::Word;

/// The script in which calls of defined operators are written out.
pub fn written_out(alloc: Global, script: Script) -> Result<Script, Stop>
    ensures go { IfOk result (λ written. told_written (expanded script) ≡ Ok written) }
    ensures as_many { IfOk result (λ written. length written.statements ≡ length script.statements) }
    ensures end { IfErr result (λ stop. Refuses stop (told_written (expanded script))) }
    ensures kind { IfErr result IsRefusal }
{
    match expand(alloc, script) {
        Ok(written) => Ok(written),
        Err(ExpandStop::Fault(placed)) => {
            let end = operator_line(alloc, &placed.fault)?;
            Err(refused(alloc, placed.place, end.as_slice()))
        }
        Err(ExpandStop::Memory) => Err(Stop::Memory),
    }
}

fn operator_line(alloc: Global, fault: &OperatorFault) -> Result<Vec<u8>, AllocError>
    ensures { IfOk result (λ end. end.items ≡ operator_line fault.now) }
{
    match fault {
        OperatorFault::DefinedTwice(name) => named_line(alloc, b"DefinedTwice ", name),
        OperatorFault::ParameterTwice(name) => named_line(alloc, b"ParameterTwice ", name),
        OperatorFault::UnknownOperator(name) => named_line(alloc, b"UnknownOperator ", name),
        OperatorFault::ArgumentCount => b"ArgumentCount\n".to_vec(alloc),
        OperatorFault::FreeName(name) => named_line(alloc, b"FreeName ", name),
        OperatorFault::Recursion(names) => names_line(alloc, b"Recursion ", names.as_slice()),
        OperatorFault::ArgumentSort => b"ArgumentSort\n".to_vec(alloc),
        OperatorFault::WrittenTooDeep => b"WrittenTooDeep\n".to_vec(alloc),
        OperatorFault::WrittenTooMany => b"WrittenTooMany\n".to_vec(alloc),
    }
}

/// A fault that tells a name, as the end of its line.
pub(crate) fn named_line(alloc: Global, fault: &[u8], name: &Word) -> Result<Vec<u8>, AllocError>
    ensures { IfOk result (λ end. end.items ≡ named_line fault.now name.now) }
{
    let mut line = fault.to_vec(alloc)?;
    line.extend_from_slice(name.as_str().as_bytes())?;
    line.push(b'\n')?;
    Ok(line)
}

/// A fault that tells the names of a cycle, as the end of its line.
pub(crate) fn names_line(alloc: Global, fault: &[u8], names: &[Word]) -> Result<Vec<u8>, AllocError>
    ensures { IfOk result (λ end. end.items ≡ names_line fault.now names.now) }
{
    let mut line = fault.to_vec(alloc)?;
    push_names(&mut line, names)?;
    line.push(b'\n')?;
    Ok(line)
}

// Writes the names with commas between them after the line.
fn push_names(line: &mut Vec<u8>, names: &[Word]) -> Result<(), AllocError>
    ensures { OnOk result (line.new.items ≡ line.old.items ++ with_commas names.now) }
{
    let Some((first, others)) = names.split_first() else {
        return Ok(());
    };
    line.extend_from_slice(first.as_str().as_bytes())?;
    for name in others {
        line.push(b',')?;
        line.extend_from_slice(name.as_str().as_bytes())?;
    }
    Ok(())
}
