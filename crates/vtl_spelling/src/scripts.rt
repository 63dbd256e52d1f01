// Scripts.
ghost use Rattle.std.specs.Prelude.{◌≡◌, ◌++◌, OnOk, IfOk};
ghost use Rattle.vtl_spelling.specs.Scripts.{arrow, statement_spelled, script_spelled};

use crate::kinds::{Spell, each};
use crate::trees::expr;
use std::alloc::{AllocError, Global};
use vtl_syntax::{Script, Statement};
use vtl_tokens::{Sign, TokenKind};

fn arrow(persistent: bool, out: &mut Vec<TokenKind>) -> Result<(), AllocError>
    ensures { OnOk result (out.new.items ≡ out.old.items ++ arrow persistent) }
{
    if persistent {
        Sign::Arrow.spell(out)
    } else {
        Sign::Assign.spell(out)
    }
}

impl Spell for Statement {
    ghost spelled = { statement_spelled };

    fn spell(&self, out: &mut Vec<TokenKind>) -> Result<(), AllocError> {
        self.name.spell(out)?;
        arrow(self.persistent, out)?;
        expr(&self.expr, out)?;
        Sign::Semicolon.spell(out)
    }
}

/// The kinds of the tokens that spell the script, its defined operators, its rulesets and then its statements, or want
/// of memory.
pub fn spell(alloc: Global, script: &Script) -> Result<Vec<TokenKind>, AllocError>
    ensures { IfOk result (λ kinds. kinds.items ≡ script_spelled script.now) }
{
    let mut out = Vec::new(alloc);
    each(script.operators.as_slice(), &mut out)?;
    each(script.rulesets.as_slice(), &mut out)?;
    each(script.statements.as_slice(), &mut out)?;
    Ok(out)
}
