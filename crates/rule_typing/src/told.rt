// What is told of a rule.
ghost use Rattle.std.specs.Prelude.{◌≡◌, decimal, IfOk};
ghost use Rattle.data_set_trees.specs.rules.Rules as meant;

use data_set_trees::rules::RuleError;
use std::alloc::{AllocError, Global};
use vtl_syntax::ruleset::FaultPart;
use vtl_values::{Integer, Word};

fn number_text(alloc: Global, number: u64) -> Result<Word, AllocError>
    ensures { IfOk result (λ text. text ≡ decimal number) }
{
    Word::from_string(format!(in alloc; "{number}")?)
}

/// What the rule at this place is called, or want of memory.
pub fn rule_name(alloc: Global, number: u64, stated: &Option<Word>) -> Result<Word, AllocError>
    ensures { IfOk result (λ name. name ≡ meant.rule_name number stated.now) }
{
    match stated {
        Some(name) => name.copy(),
        None => number_text(alloc, number),
    }
}

fn copy_code(code: &Option<Word>) -> Result<Option<Word>, AllocError>
    ensures { IfOk result (λ copy. copy ≡ code.now) }
{
    match code {
        Some(code) => Ok(Some(code.copy()?)),
        None => Ok(None),
    }
}

/// What is told by this code and level, or want of memory.
pub fn error_with(code: &Option<Word>, level: Option<Integer>) -> Result<RuleError, AllocError>
    ensures { IfOk result (λ error. error ≡ record { code = code.now; level = level }) }
{
    Ok(RuleError {
        code: copy_code(code)?,
        level,
    })
}

/// What is told where a rule is broken, or want of memory.
pub(crate) fn error_of(fault: &FaultPart) -> Result<RuleError, AllocError>
    ensures { IfOk result (λ error. error ≡ meant.error_of fault.now) }
{
    error_with(&fault.code, fault.level)
}
