// What stands in a call behind its first operand, and in a set.
ghost use Rattle.std.specs.Prelude.{◌≡◌, ◌++◌, OnOk};
ghost use Rattle.vtl_spelling.specs.Kinds.{◌&◌, one, key, sig, comma, commas, open_paren, close_paren, optional, name, text as text_kind, integer as integer_kind, signed_integer};
ghost use Rattle.vtl_grammar.specs.Words.{exists_rows, rows_outputs, check_outputs, modes, hierarchy_inputs, hierarchy_outputs, check_inputs, fill_spans};
ghost use Rattle.vtl_spelling.specs.Words.{in_kind, written};
ghost use Rattle.vtl_spelling.specs.Parts.{literal_spelled, over_spelled};

use crate::kinds::{
    FormWord, Spell, both, chosen, integer, push, separated, text, worded, written,
};
use sqlite_items::Items;
use std::alloc::AllocError;
use vtl_syntax::Over;
use vtl_syntax::words::{
    CheckInput, CheckOutput, ExistsRows, FillSpan, HierarchyInput, HierarchyOutput, InSign, Mode,
    RowsOutput,
};
use vtl_tokens::{Keyword, Sign, TokenKind};
use vtl_values::{Integer, Value, Word};

pub(crate) fn in_set(
    sign: InSign,
    set: &Items<Value>,
    out: &mut Vec<TokenKind>,
) -> Result<(), AllocError>
    ensures { OnOk result (out.new.items ≡ out.old.items ++ (one (in_kind sign) & sig Sign.LeftBrace & commas literal_spelled set.now & sig Sign.RightBrace)) }
{
    push(sign.kind(), out)?;
    Sign::LeftBrace.spell(out)?;
    separated(Sign::Comma, set.as_slice(), out)?;
    Sign::RightBrace.spell(out)
}

pub(crate) fn digits(digits: &Option<Integer>, out: &mut Vec<TokenKind>) -> Result<(), AllocError>
    ensures { OnOk result (out.new.items ≡ out.old.items ++ (optional (λ z. comma & signed_integer z) digits.now & close_paren)) }
{
    match digits {
        Some(digits) => {
            both(&Sign::Comma, digits, out)?;
            Sign::RightParen.spell(out)
        }
        None => Sign::RightParen.spell(out),
    }
}

pub(crate) fn shift(shift: &Integer, out: &mut Vec<TokenKind>) -> Result<(), AllocError>
    ensures { OnOk result (out.new.items ≡ out.old.items ++ (comma & signed_integer shift.now & close_paren)) }
{
    both(&Sign::Comma, shift, out)?;
    Sign::RightParen.spell(out)
}

pub(crate) fn span(span: &Option<FillSpan>, out: &mut Vec<TokenKind>) -> Result<(), AllocError>
    ensures { OnOk result (out.new.items ≡ out.old.items ++ (optional (λ w. comma & one (written fill_spans w)) span.now & close_paren)) }
{
    match span {
        Some(span) => {
            Sign::Comma.spell(out)?;
            push(written(*span), out)?;
            Sign::RightParen.spell(out)
        }
        None => Sign::RightParen.spell(out),
    }
}

pub(crate) fn limits(low: &Value, high: &Value, out: &mut Vec<TokenKind>) -> Result<(), AllocError>
    ensures { OnOk result (out.new.items ≡ out.old.items ++ (comma & literal_spelled low.now & comma & literal_spelled high.now & close_paren)) }
{
    both(&Sign::Comma, low, out)?;
    both(&Sign::Comma, high, out)?;
    Sign::RightParen.spell(out)
}

pub(crate) fn pattern(pattern: &Word, out: &mut Vec<TokenKind>) -> Result<(), AllocError>
    ensures { OnOk result (out.new.items ≡ out.old.items ++ (comma & text_kind pattern.now & close_paren)) }
{
    Sign::Comma.spell(out)?;
    text(pattern, out)?;
    Sign::RightParen.spell(out)
}

pub(crate) fn rows(rows: &Option<ExistsRows>, out: &mut Vec<TokenKind>) -> Result<(), AllocError>
    ensures { OnOk result (out.new.items ≡ out.old.items ++ (optional (λ w. comma & one (written exists_rows w)) rows.now & close_paren)) }
{
    match rows {
        Some(rows) => {
            Sign::Comma.spell(out)?;
            push(written(*rows), out)?;
            Sign::RightParen.spell(out)
        }
        None => Sign::RightParen.spell(out),
    }
}

pub(crate) fn count_all(out: &mut Vec<TokenKind>) -> Result<(), AllocError>
    ensures { OnOk result (out.new.items ≡ out.old.items ++ (key Keyword.Count & open_paren & close_paren)) }
{
    both(&Keyword::Count, &Sign::LeftParen, out)?;
    Sign::RightParen.spell(out)
}

pub(crate) fn offset(
    offset: Integer,
    over: &Over,
    out: &mut Vec<TokenKind>,
) -> Result<(), AllocError>
    ensures { OnOk result (out.new.items ≡ out.old.items ++ (comma & integer_kind offset & over_spelled over.now & close_paren)) }
{
    Sign::Comma.spell(out)?;
    integer(offset, out)?;
    both(over, &Sign::RightParen, out)
}

pub(crate) fn rank(over: &Over, out: &mut Vec<TokenKind>) -> Result<(), AllocError>
    ensures { OnOk result (out.new.items ≡ out.old.items ++ (key Keyword.Rank & open_paren & over_spelled over.now & close_paren)) }
{
    both(&Keyword::Rank, &Sign::LeftParen, out)?;
    both(over, &Sign::RightParen, out)
}

pub(crate) fn datapoint_check(
    ruleset: &Word,
    output: &Option<RowsOutput>,
    out: &mut Vec<TokenKind>,
) -> Result<(), AllocError>
    ensures { OnOk result (out.new.items ≡ out.old.items ++ (comma & name «ruleset».now & optional (λ w. one (written rows_outputs w)) output.now & close_paren)) }
{
    both(&Sign::Comma, ruleset, out)?;
    chosen(output, out)?;
    Sign::RightParen.spell(out)
}

pub(crate) fn hierarchy(
    component: &Option<Word>,
    mode: &Option<Mode>,
    input: &Option<HierarchyInput>,
    output: &Option<HierarchyOutput>,
    out: &mut Vec<TokenKind>,
) -> Result<(), AllocError>
    ensures { OnOk result (out.new.items ≡ out.old.items ++ (optional (λ w. key Keyword.Rule & name w) component.now & optional (λ w. one (written modes w)) mode.now & optional (λ w. one (written hierarchy_inputs w)) input.now & optional (λ w. one (written hierarchy_outputs w)) output.now & close_paren)) }
{
    worded(Keyword::Rule, component, out)?;
    chosen(mode, out)?;
    chosen(input, out)?;
    chosen(output, out)?;
    Sign::RightParen.spell(out)
}

pub(crate) fn hierarchy_check(
    component: &Option<Word>,
    mode: &Option<Mode>,
    input: &Option<CheckInput>,
    output: &Option<RowsOutput>,
    out: &mut Vec<TokenKind>,
) -> Result<(), AllocError>
    ensures { OnOk result (out.new.items ≡ out.old.items ++ (optional (λ w. key Keyword.Rule & name w) component.now & optional (λ w. one (written modes w)) mode.now & optional (λ w. one (written check_inputs w)) input.now & optional (λ w. one (written rows_outputs w)) output.now & close_paren)) }
{
    worded(Keyword::Rule, component, out)?;
    chosen(mode, out)?;
    chosen(input, out)?;
    chosen(output, out)?;
    Sign::RightParen.spell(out)
}

fn code(code: &Option<Word>, out: &mut Vec<TokenKind>) -> Result<(), AllocError>
    ensures { OnOk result (out.new.items ≡ out.old.items ++ optional (λ t. key Keyword.Errorcode & text_kind t) code.now) }
{
    let Some(code) = code else {
        return Ok(());
    };
    Keyword::Errorcode.spell(out)?;
    text(code, out)
}

/// The code and the level of a fault.
pub(crate) fn fault(
    code: &Option<Word>,
    level: &Option<Integer>,
    out: &mut Vec<TokenKind>,
) -> Result<(), AllocError>
    ensures { OnOk result (out.new.items ≡ out.old.items ++ (optional (λ t. key Keyword.Errorcode & text_kind t) code.now & optional (λ z. key Keyword.Errorlevel & signed_integer z) level.now)) }
{
    self::code(code, out)?;
    worded(Keyword::Errorlevel, level, out)
}

pub(crate) fn check_output(
    output: &Option<CheckOutput>,
    out: &mut Vec<TokenKind>,
) -> Result<(), AllocError>
    ensures { OnOk result (out.new.items ≡ out.old.items ++ (optional (λ w. one (written check_outputs w)) output.now & close_paren)) }
{
    chosen(output, out)?;
    Sign::RightParen.spell(out)
}
