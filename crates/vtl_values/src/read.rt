// Values from texts.
ghost use Rattle.std.specs.Prelude.{◌≡◌, ◌≤◌, ◌<◌, ◌^◌, ◌↔◌, ℕ, ◌++◌, chars, replicate, take, position, IsTrue, SomeIff, IfOk, IfSome, is_some, Ok, Err, None, Some, if◌then◌else◌};
ghost use Rattle.std.specs.List.{before_first, after_first, list_all, list_any};
ghost use Rattle.std.specs.Char.{is_ascii_digit};
ghost use Rattle.std.specs.Option.{option_copied};
ghost use Rattle.std.specs.Str.Parse.{digits_value};
ghost use Rattle.vtl_values.specs.Ranges.{MOST_INTEGER, MOST_MILLIONTHS};
ghost use Rattle.vtl_values.specs.declared.read.BadText.{BadText as FaultOfText};
ghost use Rattle.vtl_values.specs.Numerals.{MINUS, ZERO, begins_with, without_first, is_digits, is_point, is_number, whole_of, decimals_of, is_too_fine, millionths_of, integer_of, number_of};
ghost use Rattle.vtl_values.specs.Texts.{BACKSLASH, truth_of, value_of};

use crate::kind::Kind;
use crate::number::{Decimal, Integer};
use crate::value::Value;
use crate::word::Word;
use std::alloc::{AllocError, Global};

/// Why a text is no value of its kind.
#[derive(Clone, Copy, Debug, PartialEq, Eq)]
pub enum BadText {
    NotANumber,
    /// A digit other than 0 stands after the sixth decimal.
    TooFine,
    OutOfRange,
    NotATruth,
    NotAnInteger,
}

/// Why a text wasn't read.
#[derive(Clone, Copy, Debug, PartialEq, Eq)]
pub enum ReadStop {
    Bad(BadText),
    Memory,
}

impl From<BadText> for ReadStop {
    ghost use Rattle.std.specs.Prelude.{◌≡◌};
    ghost use Rattle.vtl_values.specs.declared.read.ReadStop.{ReadStop};

    ghost from_gives = { λ fault stop. stop ≡ ReadStop.Bad fault };

    fn from(fault: BadText) -> Self {
        ReadStop::Bad(fault)
    }
}

impl From<AllocError> for ReadStop {
    ghost use Rattle.std.specs.Prelude.{◌≡◌};
    ghost use Rattle.vtl_values.specs.declared.read.ReadStop.{ReadStop};

    ghost from_gives = { λ error stop. stop ≡ ReadStop.Memory };

    fn from(error: AllocError) -> Self {
        ReadStop::Memory
    }
}

/// The value that a field of this kind means. Only a text wants memory.
pub fn read_value(alloc: Global, kind: Kind, text: &str) -> Result<Value, ReadStop>
    ensures ok { IfOk result (λ value. value_of kind (chars text.now) ≡ Ok value) }
    ensures bad { (fault : FaultOfText) → (result ≡ Err (ReadStop.Bad fault)) ↔ (value_of kind (chars text.now) ≡ Err fault) }
    ensures memory { result ≡ Err ReadStop.Memory → kind ≡ Kind.Text }
{
    if text.is_empty() {
        return Ok(Value::Null);
    }
    match kind {
        Kind::Integer => Ok(Value::Integer(read_integer(text.as_bytes())?)),
        Kind::Number => Ok(Value::Number(read_number(text.as_bytes())?)),
        Kind::Truth => Ok(Value::Truth(read_truth(text.as_bytes())?)),
        Kind::Text => Ok(Value::Text(Word::from_str(alloc, without_backslash(text))?)),
    }
}

fn without_backslash(text: &str) -> &str
    ensures { chars result.now ≡ without_first BACKSLASH (chars text.now) }
{
    text.strip_prefix('\\').unwrap_or(text)
}

fn read_truth(text: &[u8]) -> Result<bool, BadText>
    ensures { result ≡ truth_of text.now }
{
    match text {
        b"true" | b"1" => Ok(true),
        b"false" | b"0" => Ok(false),
        _ => Err(BadText::NotATruth),
    }
}

fn read_integer(text: &[u8]) -> Result<Integer, BadText>
    ensures { result ≡ integer_of text.now }
{
    let (negative, digits) = split_sign(text);
    if !is_digits(digits) {
        return Err(BadText::NotAnInteger);
    }
    let magnitude = digits_up_to(digits, Integer::MOST).ok_or(BadText::OutOfRange)? as i64;
    Ok(Integer {
        value: if negative { -magnitude } else { magnitude },
    })
}

fn read_number(text: &[u8]) -> Result<Decimal, BadText>
    ensures { result ≡ number_of text.now }
{
    let written = written_number(text).ok_or(BadText::NotANumber)?;
    if is_too_fine(written.decimals) {
        return Err(BadText::TooFine);
    }
    let magnitude = millionths(written.whole, written.decimals).ok_or(BadText::OutOfRange)? as i128;
    Ok(Decimal {
        millionths: if written.negative {
            -magnitude
        } else {
            magnitude
        },
    })
}

/// A number as it is written: its sign, the digits before the point, and those after it.
#[derive(Clone, Copy)]
struct Written<'a> {
    negative: bool,
    whole: &'a [u8],
    decimals: &'a [u8],
}

fn written_number(text: &[u8]) -> Option<Written<'_>>
    ensures found { is_some result ≡ is_number text.now }
    ensures negative { IfSome result (λ n. n.negative ≡ begins_with MINUS text.now) }
    ensures whole { IfSome result (λ n. n.whole.now ≡ whole_of text.now) }
    ensures decimals { IfSome result (λ n. n.decimals.now ≡ decimals_of text.now) }
{
    let (negative, digits) = split_sign(text);
    let (whole, decimals) = split_point(digits);
    if !is_digits(whole) {
        return None;
    }
    match decimals {
        None => Some(Written {
            negative,
            whole,
            decimals: &[],
        }),
        Some(decimals) if is_digits(decimals) => Some(Written {
            negative,
            whole,
            decimals,
        }),
        Some(_) => None,
    }
}

fn split_sign(text: &[u8]) -> (bool, &[u8])
    ensures negative { result.0 ≡ begins_with MINUS text.now }
    ensures digits { result.1.now ≡ without_first MINUS text.now }
{
    match text {
        [b'-', digits @ ..] => (true, digits),
        _ => (false, text),
    }
}

fn split_point(text: &[u8]) -> (&[u8], Option<&[u8]>)
    ensures whole { result.0.now ≡ before_first is_point text.now }
    ensures pointed { is_some result.1 ≡ list_any is_point text.now }
    ensures decimals { IfSome result.1 (λ decimals. decimals.now ≡ after_first is_point text.now) }
{
    match point_at(text) {
        Some(at) => (&text[..at], Some(&text[at + 1..])),
        None => (text, None),
    }
}

fn point_at(text: &[u8]) -> Option<usize>
    ensures { result ≡ position is_point text.now }
{
    text.iter().position(|b| *b == b'.')
}

fn is_digits(text: &[u8]) -> bool
    ensures { result ≡ is_digits text.now }
{
    !text.is_empty() && all_digits(text)
}

fn all_digits(text: &[u8]) -> bool
    ensures { result ≡ list_all is_ascii_digit text.now }
{
    text.iter().all(|b| b.is_ascii_digit())
}

fn is_too_fine(decimals: &[u8]) -> bool
    ensures { result ≡ is_too_fine decimals.now }
{
    decimals.iter().skip(6).any(|b| *b != b'0')
}

/// The millionths that the digits mean, unless they pass the largest number.
fn millionths(whole: &[u8], decimals: &[u8]) -> Option<u128>
    requires whole { IsTrue (list_all is_ascii_digit whole.now) }
    requires decimals { IsTrue (list_all is_ascii_digit decimals.now) }
    ensures { SomeIff result (millionths_of whole.now decimals.now ≤ MOST_MILLIONTHS) (millionths_of whole.now decimals.now) }
{
    let whole = digits_up_to(whole, 1_000_000_000_000_000)?;
    let millionths = u128::from(whole) * 1_000_000 + u128::from(first_six(decimals));
    (millionths <= Decimal::MOST).then_some(millionths)
}

/// The number that the first six decimals spell, filled up with zeros.
fn first_six(decimals: &[u8]) -> u32
    requires { IsTrue (list_all is_ascii_digit decimals.now) }
    ensures value { result ≡ digits_value 10 (take 6 (decimals.now ++ replicate 6 ZERO)) }
    ensures below { result < 10 ^ 6 }
{
    let mut value = 0;
    for place in 0..6 {
        let digit = decimals.get(place).copied().unwrap_or(b'0');
        value = value * 10 + u32::from(digit - b'0');
    }
    value
}

/// The number that the digits spell, unless it is larger than `most`.
fn digits_up_to(digits: &[u8], most: u64) -> Option<u64>
    requires digits { IsTrue (list_all is_ascii_digit digits.now) }
    requires room { most < 10 ^ 18 }
    ensures { SomeIff result (digits_value 10 digits.now ≤ most) (digits_value 10 digits.now) }
{
    let mut value = 0;
    for digit in digits {
        value = value * 10 + u64::from(digit - b'0');
        if value > most {
            return None;
        }
    }
    Some(value)
}
