// How tokens are written.
ghost use Rattle.std.specs.Prelude.{◌≡◌, ◌++◌, OnOk, encode_utf8, string_bytes};
ghost use Rattle.vtl_printer.specs.Spellings.{has_name_shape, is_bare, name_text, between, doubled, number_literal, token_text};
ghost use Rattle.vtl_lexer.specs.Starts.{QUOTE};

use std::alloc::{AllocError, Global};
use std::fmt::Write;
use vtl_lexer::scan::word_len;
use vtl_tokens::{Keyword, TokenKind};
use vtl_values::{Decimal, Value, show_value};

/// Writes a token behind a text.
pub fn push_token(alloc: Global, text: &mut String, kind: &TokenKind) -> Result<(), AllocError>
    ensures { OnOk result (string_bytes text.new ≡ string_bytes text.old ++ token_text kind.now) }
{
    match kind {
        TokenKind::Name(name) => push_name(text, name.as_str()),
        TokenKind::Reserved(word) => text.push_str(word.text()),
        TokenKind::Text(content) => push_text(text, content.as_str()),
        TokenKind::Integer(integer) => Ok(write!(text, "{}", integer.value)?),
        TokenKind::Number(number) => push_number(alloc, text, *number),
        TokenKind::Sign(sign) => text.push_str(sign.text()),
        TokenKind::End => Ok(()),
    }
}

fn push_name(text: &mut String, name: &str) -> Result<(), AllocError>
    ensures { OnOk result (string_bytes text.new ≡ string_bytes text.old ++ name_text name.now) }
{
    if is_bare(name) {
        return text.push_str(name);
    }
    text.push('\'')?;
    text.push_str(name)?;
    text.push('\'')
}

/// The name needs no quotes.
fn is_bare(name: &str) -> bool
    ensures { result ≡ is_bare name.now }
{
    has_name_shape(name.as_bytes()) && Keyword::of(name).is_none()
}

/// A letter, then letters, digits, `_` and `.` to the end.
fn has_name_shape(name: &[u8]) -> bool
    ensures { result ≡ has_name_shape name.now }
{
    match name {
        [first, ..] => first.is_ascii_alphabetic() && word_len(name) == name.len(),
        [] => false,
    }
}

/// Writes a text in quotes.
fn push_text(text: &mut String, content: &str) -> Result<(), AllocError>
    ensures { OnOk result (string_bytes text.new ≡ string_bytes text.old ++ between QUOTE (doubled content.now)) }
{
    text.push('"')?;
    push_doubled(text, content)?;
    text.push('"')
}

/// Writes a text with each of its quotes twice.
fn push_doubled(text: &mut String, content: &str) -> Result<(), AllocError>
    ensures { OnOk result (string_bytes text.new ≡ string_bytes text.old ++ doubled content.now) }
{
    for c in content.chars() {
        push_twice_if_quote(text, c)?;
    }
    Ok(())
}

fn push_twice_if_quote(text: &mut String, c: char) -> Result<(), AllocError>
    ensures { OnOk result (string_bytes text.new ≡ string_bytes text.old ++ doubled (encode_utf8 c)) }
{
    if c == '"' {
        return text.push_str("\"\"");
    }
    text.push(c)
}

/// Writes a number with its decimals, or with one where it is whole.
fn push_number(alloc: Global, text: &mut String, number: Decimal) -> Result<(), AllocError>
    ensures { OnOk result (string_bytes text.new ≡ string_bytes text.old ++ number_literal number) }
{
    let shown = show_value(alloc, &Value::Number(number))?;
    text.push_str(shown.as_str())?;
    if number.millionths.unsigned_abs() % 1_000_000 == 0 {
        return text.push_str(".0");
    }
    Ok(())
}
