// Defined operators.
ghost use Rattle.std.specs.Prelude.{◌≡◌, ◌++◌, OnOk};
ghost use Rattle.vtl_spelling.specs.Kinds.{optional};
ghost use Rattle.vtl_spelling.specs.Operators.{param_spelled, returns_spelled, defined_spelled, operator_spelled};

use crate::kinds::{Spell, both, push, separated, written};
use crate::trees::expr;
use std::alloc::AllocError;
use vtl_syntax::words::Sort;
use vtl_syntax::{DefinedOperator, Param};
use vtl_tokens::{Keyword, Sign, TokenKind};

impl Spell for Param {
    ghost spelled = { param_spelled };

    fn spell(&self, out: &mut Vec<TokenKind>) -> Result<(), AllocError> {
        self.name.spell(out)?;
        push(written(self.sort), out)
    }
}

fn returns(sort: &Option<Sort>, out: &mut Vec<TokenKind>) -> Result<(), AllocError>
    ensures { OnOk result (out.new.items ≡ out.old.items ++ optional returns_spelled sort.now) }
{
    let Some(sort) = sort else {
        return Ok(());
    };
    Keyword::Returns.spell(out)?;
    push(written(*sort), out)
}

/// What stands after `define`.
fn defined(operator: &DefinedOperator, out: &mut Vec<TokenKind>) -> Result<(), AllocError>
    ensures { OnOk result (out.new.items ≡ out.old.items ++ defined_spelled operator.now) }
{
    both(&Keyword::Operator, &operator.name, out)?;
    Sign::LeftParen.spell(out)?;
    separated(Sign::Comma, operator.params.as_slice(), out)?;
    Sign::RightParen.spell(out)?;
    returns(&operator.returns, out)?;
    Keyword::Is.spell(out)?;
    expr(&operator.body, out)?;
    both(&Keyword::End, &Keyword::Operator, out)
}

impl Spell for DefinedOperator {
    ghost spelled = { operator_spelled };

    fn spell(&self, out: &mut Vec<TokenKind>) -> Result<(), AllocError> {
        Keyword::Define.spell(out)?;
        defined(self, out)?;
        Sign::Semicolon.spell(out)
    }
}
