// The piece at the front of a text.
ghost use Rattle.std.specs.Prelude.{◌≡◌, ◌≤◌, ◌<◌, ◌+◌, ◌^◌, IsTrue, IfOk, Ok, Err, List, [], ◌∷◌, length, take, drop, chars, Some, None};
ghost use Rattle.std.specs.Char.{is_ascii_alphabetic, is_ascii_digit};
ghost use Rattle.std.specs.Result.{result_map_both};
ghost use Rattle.std.specs.Str.{IsAscii};
ghost use Rattle.vtl_tokens.specs.Keywords.{keyword_of};
ghost use Rattle.vtl_values.specs.Numerals.{integer_of, number_of};
ghost use Rattle.vtl_lexer.specs.Answers.{Gives};
ghost use Rattle.vtl_lexer.specs.Starts.{first_passes};
ghost use Rattle.vtl_lexer.specs.Scans.{digits_len, sign_of};
ghost use Rattle.vtl_lexer.specs.Literals.{numeral, literal_token, number_in, integer_in};
ghost use Rattle.vtl_lexer.specs.Pieces.{Piece, piece_of, line_comment, block_comment, quoted_name, text_piece, word_piece, literal_piece, word_kind, sign_piece};

use crate::scan::{
    ascii, before_close, digits_len, has_decimals, line_len, quoted_len, sign_of, string_at, utf8,
    word_len,
};
use crate::start::{Start, start_of};
use crate::stop::{LexFault, PieceStop};
use std::alloc::Global;
use vtl_tokens::{Keyword, TokenKind};
use vtl_values::{Decimal, Integer, Kind, ReadStop, Value, Word, read_value};

/// The token at the front of a text, or none where a blank or a comment stands there, and how many bytes it takes.
pub fn piece(alloc: Global, text: &[u8]) -> Result<(Option<TokenKind>, usize), PieceStop>
    requires { length text.now < 2 ^ 32 }
    ensures piece { Gives result (piece_of text.now) }
    ensures within { IfOk result (λ piece. (0 < piece.1) × (piece.1 ≤ length text.now)) }
{
    match start_of(text) {
        Start::Blank => Ok((None, 1)),
        Start::LineComment => line_comment(&text[2..]),
        Start::BlockComment => block_comment(&text[2..]),
        Start::QuotedName => quoted_name(alloc, &text[1..]),
        Start::Text => text_piece(alloc, &text[1..]),
        Start::Literal => literal(alloc, text),
        Start::Word => word(alloc, text),
        Start::Other => sign(text),
    }
}

/// A comment from after `//` to the line's end.
#[tactic(auto, unfolding(crate::specs::Pieces::line_comment))]
fn line_comment(behind: &[u8]) -> Result<(Option<TokenKind>, usize), PieceStop>
    requires { length behind.now < 2 ^ 32 }
    ensures piece { Gives result (line_comment behind.now) }
    ensures within { IfOk result (λ piece. (0 < piece.1) × (piece.1 ≤ length behind.now + 2)) }
{
    let len = line_len(behind);
    match utf8(&behind[..len]) {
        Some(_) => Ok((None, 2 + len)),
        None => Err(PieceStop::Bad(LexFault::BadByte)),
    }
}

/// A comment from after `/*` to the first `*/`.
#[tactic(auto, unfolding(crate::specs::Pieces::block_comment))]
fn block_comment(behind: &[u8]) -> Result<(Option<TokenKind>, usize), PieceStop>
    requires { length behind.now < 2 ^ 32 }
    ensures piece { Gives result (block_comment behind.now) }
    ensures within { IfOk result (λ piece. (0 < piece.1) × (piece.1 ≤ length behind.now + 2)) }
{
    let len = before_close(behind);
    match utf8(&behind[..len]) {
        None => Err(PieceStop::Bad(LexFault::BadByte)),
        Some(_) if len < behind.len() => Ok((None, 4 + len)),
        Some(_) => Err(PieceStop::Bad(LexFault::OpenComment)),
    }
}

/// A name from after a single quote to the next one in the line.
#[tactic(auto, unfolding(crate::specs::Pieces::quoted_name))]
fn quoted_name(alloc: Global, behind: &[u8]) -> Result<(Option<TokenKind>, usize), PieceStop>
    requires { length behind.now < 2 ^ 32 }
    ensures piece { Gives result (quoted_name behind.now) }
    ensures within { IfOk result (λ piece. (0 < piece.1) × (piece.1 ≤ length behind.now + 1)) }
{
    let len = quoted_len(behind);
    let Some(name) = utf8(&behind[..len]) else {
        return Err(PieceStop::Bad(LexFault::BadByte));
    };
    match &behind[len..] {
        [b'\'', ..] if len == 0 => Err(PieceStop::Bad(LexFault::BadByte)),
        [b'\'', ..] => Ok((Some(TokenKind::Name(Word::from_str(alloc, name)?)), 2 + len)),
        _ => Err(PieceStop::Bad(LexFault::OpenString)),
    }
}

/// A string from after a double quote to the next one that isn't doubled.
#[tactic(auto, unfolding(crate::specs::Pieces::text_piece))]
fn text_piece(alloc: Global, behind: &[u8]) -> Result<(Option<TokenKind>, usize), PieceStop>
    requires { length behind.now < 2 ^ 32 }
    ensures piece { Gives result (text_piece behind.now) }
    ensures within { IfOk result (λ piece. (0 < piece.1) × (piece.1 ≤ length behind.now + 1)) }
{
    let (bytes, len) = string_at(alloc, behind)?;
    match utf8(bytes.as_slice()) {
        None => Err(PieceStop::Bad(LexFault::BadByte)),
        Some(text) if len < behind.len() => {
            Ok((Some(TokenKind::Text(Word::from_str(alloc, text)?)), 2 + len))
        }
        Some(_) => Err(PieceStop::Bad(LexFault::OpenString)),
    }
}

/// A reserved word, or a name without quotes.
#[tactic(auto, unfolding(crate::specs::Pieces::word_piece))]
fn word(alloc: Global, text: &[u8]) -> Result<(Option<TokenKind>, usize), PieceStop>
    requires { IsTrue (first_passes is_ascii_alphabetic text.now) }
    ensures piece { Gives result (word_piece text.now) }
    ensures within { IfOk result (λ piece. (0 < piece.1) × (piece.1 ≤ length text.now)) }
{
    let len = word_len(text);
    let word = ascii(&text[..len]);
    match Keyword::of(word) {
        Some(keyword) => Ok((Some(TokenKind::Reserved(keyword)), len)),
        None => Ok((Some(TokenKind::Name(Word::from_str(alloc, word)?)), len)),
    }
}

/// A number, where a point and a digit follow the digits, or an integer.
#[tactic(auto, unfolding(crate::specs::Pieces::literal_piece))]
fn literal(alloc: Global, text: &[u8]) -> Result<(Option<TokenKind>, usize), PieceStop>
    requires { IsTrue (first_passes is_ascii_digit text.now) }
    ensures piece { Gives result (literal_piece text.now) }
    ensures within { IfOk result (λ piece. (0 < piece.1) × (piece.1 ≤ length text.now)) }
{
    let whole = digits_len(text);
    if !has_decimals(text, whole) {
        return integer_piece(alloc, &text[..whole]);
    }
    number_piece(alloc, &text[..whole + 1 + digits_len(&text[whole + 1..])])
}

fn number_piece(alloc: Global, text: &[u8]) -> Result<(Option<TokenKind>, usize), PieceStop>
    requires some { 0 < length text.now }
    requires ascii { IsAscii text.now }
    ensures piece { Gives result (literal_token TokenKind.Number (length text.now) (numeral (number_of text.now))) }
    ensures len { IfOk result (λ piece. piece.1 ≡ length text.now) }
{
    match number(alloc, ascii(text)) {
        Ok(number) => Ok((Some(TokenKind::Number(number)), text.len())),
        Err(stop) => Err(stop),
    }
}

fn integer_piece(alloc: Global, text: &[u8]) -> Result<(Option<TokenKind>, usize), PieceStop>
    requires some { 0 < length text.now }
    requires ascii { IsAscii text.now }
    ensures piece { Gives result (literal_token TokenKind.Integer (length text.now) (numeral (integer_of text.now))) }
    ensures len { IfOk result (λ piece. piece.1 ≡ length text.now) }
{
    match integer(alloc, ascii(text)) {
        Ok(integer) => Ok((Some(TokenKind::Integer(integer)), text.len())),
        Err(stop) => Err(stop),
    }
}

fn number(alloc: Global, text: &str) -> Result<Decimal, PieceStop>
    requires some { 0 < length text.now }
    requires ascii { IsAscii text.now }
    ensures { Gives result (numeral (number_of text.now)) }
{
    match read_value(alloc, Kind::Number, text) {
        Ok(value) => number_in(&value),
        Err(ReadStop::Bad(_)) => Err(PieceStop::Bad(LexFault::NumberTooLong)),
        Err(ReadStop::Memory) => Err(PieceStop::Memory),
    }
}

/// The number that a value is.
fn number_in(value: &Value) -> Result<Decimal, PieceStop>
    ensures { Gives result (number_in value.now) }
{
    match value {
        Value::Number(number) => Ok(*number),
        _ => Err(PieceStop::Bad(LexFault::NumberTooLong)),
    }
}

fn integer(alloc: Global, text: &str) -> Result<Integer, PieceStop>
    requires some { 0 < length text.now }
    requires ascii { IsAscii text.now }
    ensures { Gives result (numeral (integer_of text.now)) }
{
    match read_value(alloc, Kind::Integer, text) {
        Ok(value) => integer_in(&value),
        Err(ReadStop::Bad(_)) => Err(PieceStop::Bad(LexFault::NumberTooLong)),
        Err(ReadStop::Memory) => Err(PieceStop::Memory),
    }
}

/// The integer that a value is.
fn integer_in(value: &Value) -> Result<Integer, PieceStop>
    ensures { Gives result (integer_in value.now) }
{
    match value {
        Value::Integer(integer) => Ok(*integer),
        _ => Err(PieceStop::Bad(LexFault::NumberTooLong)),
    }
}

#[tactic(auto, unfolding(crate::specs::Pieces::sign_piece))]
fn sign(text: &[u8]) -> Result<(Option<TokenKind>, usize), PieceStop>
    ensures piece { Gives result (sign_piece (sign_of text.now)) }
    ensures within { IfOk result (λ piece. (0 < piece.1) × (piece.1 ≤ length text.now)) }
{
    match sign_of(text) {
        Some(sign) => Ok((Some(TokenKind::Sign(sign)), sign.text().len())),
        None => Err(PieceStop::Bad(LexFault::BadByte)),
    }
}
