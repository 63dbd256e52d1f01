// What a list of tokens is: its script, or its fault.
ghost use Rattle.std.specs.Prelude.{◌≡◌, ◌&&◌, IfOk, Some};
ghost use Rattle.vtl_grammar.specs.Reading.{halt};
ghost use Rattle.vtl_grammar.specs.Laws.{read_whole, with_rename, passes_last};
ghost use Rattle.vtl_cursor.specs.Views.{kind_of};
ghost use Rattle.vtl_tokens.specs.declared.keyword.Keyword.TheVariants as words;
ghost use Rattle.vtl_grammar.specs.LeftOut.{is_same_word, ends_with_group, is_left_out_at};
ghost use Rattle.vtl_grammar.specs.Parsed.{fault_of as fault_meant, word_in, unexpected, expected_or_left_out};
ghost use Rattle.vtl_lexer.specs.Tokens.{AreOfText};
ghost use Rattle.vtl_parser.specs.Parses.{IsAnswer, fault_of};

use crate::parsed::ParsedScript;
use crate::script::whole;
use crate::stop::{ParseFault, ParseStop};
use std::alloc::{AllocError, Global};
use vtl_cursor::{Cursor, Kind, Stop, is_same_word, is_word};
use vtl_tokens::{Keyword, Token, TokenKind};
use vtl_values::Place;

/// The script that the tokens of a text are, or the fault that they have and its place. The grammar is that of
/// `docs/language.md`, section "Grammar".
pub fn parse(alloc: Global, tokens: &[Token]) -> Result<ParsedScript, ParseStop>
    requires { AreOfText tokens.now }
    ensures { IsAnswer tokens.now result }
{
    let mut cursor = Cursor::new(tokens);
    match whole(alloc, &mut cursor) {
        Ok(script) => Ok(ParsedScript::of(script)),
        Err(Stop::Memory) => Err(ParseStop::Memory),
        Err(Stop::At(kind)) => {
            let read = tokens.len() - 1 - cursor.tokens.len();
            let fault = fault_at(alloc, &tokens[..read], &tokens[read..], kind)?;
            Err(ParseStop::Fault(fault, tokens[read].place))
        }
    }
}

/// The fault of reading that stops at the first token of the rest.
fn fault_at(
    alloc: Global,
    front: &[Token],
    rest: &[Token],
    kind: Kind,
) -> Result<ParseFault, AllocError>
    ensures { IfOk result (λ fault. fault_meant (kind_of kind) front.now rest.now ≡ fault_of fault) }
{
    match kind {
        Kind::Expected => unexpected(alloc, front, rest),
        Kind::TooDeep => Ok(ParseFault::TooDeep),
        Kind::TooMany(_) => Ok(ParseFault::TooMany),
    }
}

/// That something else is expected than the first token of the rest, or that this is a word that is left out.
fn unexpected(alloc: Global, front: &[Token], rest: &[Token]) -> Result<ParseFault, AllocError>
    ensures { IfOk result (λ fault. unexpected front.now rest.now ≡ fault_of fault) }
{
    match rest {
        [first, ..] => unexpected_token(alloc, front, first),
        [] => Ok(ParseFault::Expected),
    }
}

fn unexpected_token(alloc: Global, front: &[Token], token: &Token) -> Result<ParseFault, AllocError>
    ensures { IfOk result (λ fault. expected_or_left_out front.now token.now.place (word_in token.now.what) ≡ fault_of fault) }
{
    match &token.what {
        TokenKind::Reserved(word) => unexpected_word(alloc, front, *word, token.place),
        _ => Ok(ParseFault::Expected),
    }
}

fn unexpected_word(
    alloc: Global,
    front: &[Token],
    word: Keyword,
    place: Place,
) -> Result<ParseFault, AllocError>
    ensures { IfOk result (λ fault. expected_or_left_out front.now place (Some word) ≡ fault_of fault) }
{
    if is_left_out_at(alloc, word, front, place)? {
        return Ok(ParseFault::LeftOut(word));
    }
    Ok(ParseFault::Expected)
}

/// Whether the word is left out after these tokens.
fn is_left_out_at(
    alloc: Global,
    word: Keyword,
    front: &[Token],
    place: Place,
) -> Result<bool, AllocError>
    ensures { IfOk result (λ left_out. is_left_out_at word front.now place ≡ left_out) }
{
    if word.is_left_out() || is_all_of_group(word, front) {
        return Ok(true);
    }
    is_aggr_of_join(alloc, word, front, place)
}

fn is_all_of_group(word: Keyword, front: &[Token]) -> bool
    ensures { (is_same_word word words.All && ends_with_group front.now) ≡ result }
{
    is_same_word(word, Keyword::All) && ends_with_group(front)
}

fn ends_with_group(tokens: &[Token]) -> bool
    ensures { ends_with_group tokens.now ≡ result }
{
    match tokens.last() {
        Some(token) => is_word(&token.what, Keyword::Group),
        None => false,
    }
}

fn is_aggr_of_join(
    alloc: Global,
    word: Keyword,
    front: &[Token],
    place: Place,
) -> Result<bool, AllocError>
    ensures { IfOk result (λ left_out. (is_same_word word words.Aggr && passes_last (read_whole (with_rename front.now place))) ≡ left_out) }
{
    if !is_same_word(word, Keyword::Aggr) {
        return Ok(false);
    }
    passes_rename(alloc, front, place)
}

/// Whether reading passes the word `rename` after these tokens, or stops there at a limit alone.
fn passes_rename(alloc: Global, front: &[Token], place: Place) -> Result<bool, AllocError>
    ensures { IfOk result (λ passes. passes_last (read_whole (with_rename front.now place)) ≡ passes) }
{
    let tokens = with_rename(alloc, front, place)?;
    let mut cursor = Cursor {
        tokens: tokens.as_slice(),
    };
    match whole(alloc, &mut cursor) {
        Ok(_) => Ok(true),
        Err(Stop::Memory) => Err(AllocError),
        Err(Stop::At(kind)) => Ok(passes(kind, cursor.tokens)),
    }
}

/// Whether reading that stops there has passed the last token, or stops at a limit.
fn passes(kind: Kind, rest: &[Token]) -> bool
    ensures { passes_last (halt (kind_of kind) rest.now) ≡ result }
{
    match kind {
        Kind::Expected => rest.is_empty(),
        Kind::TooDeep | Kind::TooMany(_) => true,
    }
}

/// Copies of the tokens, and the word `rename` after them.
fn with_rename(alloc: Global, front: &[Token], place: Place) -> Result<Vec<Token>, AllocError>
    ensures { IfOk result (λ tokens. tokens.items ≡ with_rename front.now place) }
{
    let mut tokens = Vec::new(alloc);
    for token in front {
        tokens.push(token.copy()?)?;
    }
    tokens.push(Token {
        what: TokenKind::Reserved(Keyword::Rename),
        place,
    })?;
    Ok(tokens)
}
