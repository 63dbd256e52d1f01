// How far a piece goes.
ghost use Rattle.std.specs.Prelude.{◌≡◌, ◌≤◌, ◌<◌, ◌+◌, not, position, IsTrue, IfOk, IfSome, List, [], ◌∷◌, length, take, drop, find, is_some, nat_eq, Option, Some, None};
ghost use Rattle.std.specs.Char.{is_ascii_digit};
ghost use Rattle.std.specs.List.{position_or_len, starts_with};
ghost use Rattle.std.specs.Str.{is_utf8, IsAscii};
ghost use Rattle.vtl_tokens.specs.Signs.{sign_text};
ghost use Rattle.vtl_lexer.specs.Starts.{first_passes, is_name_byte};
ghost use Rattle.vtl_lexer.specs.Scans.{is_line_end, ends_name, is_point_byte, word_len, digits_len, has_decimals, is_close, before_close, string_at, string_byte, SIGNS, sign_of};

use std::alloc::{AllocError, Global};
use vtl_tokens::Sign;

fn is_name_byte(byte: u8) -> bool
    ensures { result ≡ is_name_byte byte }
{
    byte.is_ascii_alphanumeric() || byte == b'_' || byte == b'.'
}

/// How many bytes of a name the text begins with.
pub fn word_len(text: &[u8]) -> usize
    ensures len { result ≡ word_len text.now }
    ensures within { result ≤ length text.now }
{
    word_end(text).unwrap_or(text.len())
}

fn word_end(text: &[u8]) -> Option<usize>
    ensures { result ≡ position (λ b. not (is_name_byte b)) text.now }
{
    text.iter().position(|b| !is_name_byte(*b))
}

/// How many digits the text begins with.
pub fn digits_len(text: &[u8]) -> usize
    ensures len { result ≡ digits_len text.now }
    ensures within { result ≤ length text.now }
{
    digits_end(text).unwrap_or(text.len())
}

fn digits_end(text: &[u8]) -> Option<usize>
    ensures { result ≡ position (λ b. not (is_ascii_digit b)) text.now }
{
    text.iter().position(|b| !b.is_ascii_digit())
}

/// How many bytes stand before the first line end: all, where there is none.
pub fn line_len(text: &[u8]) -> usize
    ensures len { result ≡ position_or_len is_line_end text.now }
    ensures within { result ≤ length text.now }
{
    line_end(text).unwrap_or(text.len())
}

fn line_end(text: &[u8]) -> Option<usize>
    ensures { result ≡ position is_line_end text.now }
{
    text.iter().position(|b| *b == b'\n')
}

/// How many bytes of a name in quotes stand before what ends it.
pub fn quoted_len(text: &[u8]) -> usize
    ensures len { result ≡ position_or_len ends_name text.now }
    ensures within { result ≤ length text.now }
{
    quoted_end(text).unwrap_or(text.len())
}

fn quoted_end(text: &[u8]) -> Option<usize>
    ensures { result ≡ position ends_name text.now }
{
    text.iter().position(|b| *b == b'\'' || *b == b'\n')
}

/// A point and a digit follow the text's first digits, `whole` of them.
pub fn has_decimals(text: &[u8], whole: usize) -> bool
    requires whole { whole ≡ digits_len text.now }
    requires within { whole ≤ length text.now }
    ensures { result ≡ has_decimals text.now }
{
    match &text[whole..] {
        [b'.', second, ..] => second.is_ascii_digit(),
        _ => false,
    }
}

fn is_close(text: &[u8]) -> bool
    ensures close { result ≡ is_close text.now }
    ensures room { IsTrue result → 2 ≤ length text.now }
{
    match text {
        [b'*', b'/', ..] => true,
        _ => false,
    }
}

/// How many bytes stand before the first `*/`: all, where there is none.
pub fn before_close(text: &[u8]) -> usize
    ensures len { result ≡ before_close text.now }
    ensures within { result ≤ length text.now }
    ensures closed { result < length text.now → result + 2 ≤ length text.now }
{
    let mut at = 0;
    while at < text.len() && !is_close(&text[at..]) {
        at += 1;
    }
    at
}

/// The bytes of a string after its opening quote, and how many bytes spell them.
pub fn string_at(alloc: Global, text: &[u8]) -> Result<(Vec<u8>, usize), AllocError>
    ensures read { IfOk result (λ read. (read.0.items, read.1) ≡ string_at text.now) }
    ensures within { IfOk result (λ read. read.1 ≤ length text.now) }
{
    let mut bytes = Vec::new(alloc);
    let mut at = 0;
    while let Some((byte, len)) = string_byte(&text[at..]) {
        bytes.push(byte)?;
        at += len;
    }
    Ok((bytes, at))
}

/// The next byte of a string, and how many bytes spell it; none where the string is closed, or open at the end.
fn string_byte(text: &[u8]) -> Option<(u8, usize)>
    ensures { result ≡ string_byte text.now }
{
    match text {
        [b'"', b'"', ..] => Some((b'"', 2)),
        [] | [b'"', ..] => None,
        [byte, ..] => Some((*byte, 1)),
    }
}

/// All signs, those of two characters first.
const SIGNS: [Sign; 23] = [
    Sign::Arrow,
    Sign::Assign,
    Sign::Bars,
    Sign::NotEqual,
    Sign::AtMost,
    Sign::AtLeast,
    Sign::Semicolon,
    Sign::Comma,
    Sign::LeftParen,
    Sign::RightParen,
    Sign::LeftBracket,
    Sign::RightBracket,
    Sign::LeftBrace,
    Sign::RightBrace,
    Sign::Plus,
    Sign::Minus,
    Sign::Star,
    Sign::Slash,
    Sign::Equal,
    Sign::LessThan,
    Sign::GreaterThan,
    Sign::Hash,
    Sign::Colon,
];

/// The longest sign that the text begins with.
pub fn sign_of(text: &[u8]) -> Option<Sign>
    ensures sign { result ≡ sign_of text.now }
    ensures room { IfSome result (λ sign. (0 < length (sign_text sign)) × (length (sign_text sign) ≤ length text.now)) }
{
    first_sign(&SIGNS, text)
}

/// Whether the text begins so. Most texts don't, which their first byte tells.
fn begins_with(text: &[u8], front: &[u8]) -> bool
    ensures { result ≡ starts_with nat_eq text.now front.now }
{
    match (text, front) {
        ([byte, behind @ ..], [first, rest @ ..]) => *byte == *first && behind.starts_with(rest),
        _ => front.is_empty(),
    }
}

/// The first of the signs that the text begins with.
fn first_sign(signs: &[Sign], text: &[u8]) -> Option<Sign>
    ensures { result ≡ find (λ sign. starts_with nat_eq text.now (sign_text sign)) signs.now }
{
    signs
        .iter()
        .copied()
        .find(|sign| begins_with(text, sign.text().as_bytes()))
}

/// The bytes as a text, if they are UTF-8.
pub fn utf8(bytes: &[u8]) -> Option<&str>
    ensures found { is_some result ≡ is_utf8 bytes.now }
    ensures same { IfSome result (λ text. text.now ≡ bytes.now) }
{
    str::from_utf8(bytes).ok()
}

/// ASCII bytes as a text.
pub fn ascii(bytes: &[u8]) -> &str
    requires { IsAscii bytes.now }
    ensures { result.now ≡ bytes.now }
{
    str::from_utf8(bytes).unwrap()
}
