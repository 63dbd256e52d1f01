// Values as texts.
ghost use Rattle.std.specs.Prelude.{◌≡◌, ◌++◌, ◌<◌, ◌^◌, ◌∷◌, [], IfOk, OnOk, chars, string_bytes};
ghost use Rattle.vtl_values.specs.Numerals.{number_text, pointed, fraction_digits};
ghost use Rattle.vtl_values.specs.Texts.{needs_backslash, text_of};

use crate::number::Decimal;
use crate::value::Value;
use crate::word::Word;
use std::alloc::{AllocError, Global};
use std::fmt::Write;

/// The text that writes a value, or want of memory.
pub fn show_value(alloc: Global, value: &Value) -> Result<Word, AllocError>
    ensures { IfOk result (λ word. word ≡ text_of value.now) }
{
    let mut text = String::new(alloc);
    show_value_in(&mut text, value)?;
    Word::from_string(text)
}

/// Puts the text that writes a value in place of what stands in `text`, whose room is used again. At want of memory some
/// of it may stand there.
pub fn show_value_in(text: &mut String, value: &Value) -> Result<(), AllocError>
    ensures { OnOk result (chars (string_bytes text.new) ≡ text_of value.now) }
{
    text.clear();
    match value {
        Value::Null => {}
        Value::Truth(truth) => text.push_str(truth_word(*truth))?,
        Value::Integer(integer) => write!(text, "{}", integer.value)?,
        Value::Number(number) => show_number_in(text, *number)?,
        Value::Text(word) => show_text_in(text, word)?,
    }
    Ok(())
}

fn truth_word(truth: bool) -> &'static str
    ensures { chars result.now ≡ text_of (Value.Truth truth) }
{
    if truth { "true" } else { "false" }
}

fn show_text_in(text: &mut String, word: &Word) -> Result<(), AllocError>
    ensures { OnOk result (chars (string_bytes text.new) ≡ text_of (Value.Text word.now)) }
{
    let content = word.as_str();
    text.clear();
    if needs_backslash(content) {
        text.push('\\')?;
    }
    text.push_str(content)?;
    Ok(())
}

fn needs_backslash(content: &str) -> bool
    ensures { result ≡ needs_backslash (chars content.now) }
{
    content.is_empty() || content.starts_with('\\')
}

fn show_number_in(text: &mut String, number: Decimal) -> Result<(), AllocError>
    ensures { OnOk result (chars (string_bytes text.new) ≡ number_text number) }
{
    let magnitude = number.millionths.unsigned_abs();
    text.clear();
    if number.millionths < 0 {
        text.push('-')?;
    }
    write!(text, "{}", magnitude / 1_000_000)?;
    push_decimals(text, (magnitude % 1_000_000) as u32)?;
    Ok(())
}

/// Writes a point and decimals, if there are any.
fn push_decimals(text: &mut String, millionths: u32) -> Result<(), AllocError>
    requires { millionths < 10 ^ 6 }
    ensures { OnOk result (string_bytes text.new ≡ string_bytes text.old ++ pointed (fraction_digits 6 millionths)) }
{
    if millionths == 0 {
        return Ok(());
    }
    text.push('.')?;
    push_fraction(text, millionths)
}

/// Writes millionths as decimals, as far as the last that isn't 0.
fn push_fraction(text: &mut String, millionths: u32) -> Result<(), AllocError>
    requires { millionths < 10 ^ 6 }
    ensures { OnOk result (string_bytes text.new ≡ string_bytes text.old ++ fraction_digits 6 millionths) }
{
    let mut places = 6;
    let mut rest = millionths;
    while rest != 0 {
        places -= 1;
        let unit = 10u32.pow(places);
        text.push(char::from(b'0' + (rest / unit) as u8))?;
        rest %= unit;
    }
    Ok(())
}
