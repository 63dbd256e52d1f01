// The tokens of a text.
ghost use Rattle.std.specs.Prelude.{◌≡◌, ◌≤◌, ◌<◌, ◌+◌, ◌^◌, ◌++◌, IfOk, OnOk, Ok, Err, List, [], ◌∷◌, length, take, drop, vec_len};
ghost use Rattle.vtl_values.specs.declared.place.Place.{Place as PlaceOf};
ghost use Rattle.vtl_lexer.specs.declared.stop.LexFault.{LexFault as FaultOf};
ghost use Rattle.vtl_lexer.specs.Places.{place_behind, place_after};
ghost use Rattle.vtl_lexer.specs.Texts.{tokens_in, joined, tokens_from, tokens_of};
ghost use Rattle.vtl_lexer.specs.Tokens.{AreOfText};

use crate::piece::piece;
use crate::shared::SharedNames;
use crate::stop::{LexFault, LexStop, PieceStop};
use std::alloc::{AllocError, Global};
use vtl_tokens::{Token, TokenKind};
use vtl_values::Place;

/// The tokens of a script, `End` after them; or the first fault from the left, with its place.
pub fn tokens(alloc: Global, text: &[u8]) -> Result<Vec<Token>, LexStop>
    requires { length text.now + 2 ≤ 2 ^ 32 }
    // The list that the text has.
    ensures ok { IfOk result (λ list. tokens_of text.now ≡ Ok list.items) }
    // Each of them is a token that texts have, but for the last, which is the end.
    ensures of_text { IfOk result (λ list. AreOfText list.items) }
    // The fault that it has in place of one.
    ensures fault { (fault : FaultOf) (place : PlaceOf) → result ≡ Err (LexStop.Fault fault place) → tokens_of text.now ≡ Err (fault, place) }
{
    let mut lexer = Lexer::new(alloc, text);
    while !lexer.rest.is_empty() {
        lexer.read_piece(alloc)?;
    }
    Ok(lexer.finish()?)
}

/// What is left of a text, where it begins, and the tokens before it.
#[derive(Drop)]
struct Lexer<'a> {
    rest: &'a [u8],
    place: Place,
    tokens: Vec<Token>,
    names: SharedNames,
    ghost line: { 1 ≤ place.line },
    ghost column: { 1 ≤ place.column },
    // No place in the rest passes the range of lines and columns.
    ghost room: { place.line + place.column + length rest.now ≤ 2 ^ 32 },
}

impl<'a> Lexer<'a> {
    fn new(alloc: Global, text: &'a [u8]) -> Lexer<'a>
        requires { length text.now + 2 ≤ 2 ^ 32 }
        ensures { joined result.tokens.items (tokens_from 0 result.place result.rest.now) ≡ tokens_of text.now }
    {
        Lexer {
            rest: text,
            place: Place { line: 1, column: 1 },
            tokens: Vec::new(alloc),
            names: SharedNames::new(alloc),
        }
    }

    /// Reads the piece at the front of the rest.
    fn read_piece(&mut self, alloc: Global) -> Result<(), LexStop>
        requires { 0 < length self.old.rest.now }
        ensures ok { OnOk result (joined self.new.tokens.items (tokens_from 0 self.new.place self.new.rest.now) ≡ joined self.old.tokens.items (tokens_from 0 self.old.place self.old.rest.now)) }
        ensures fault { (fault : FaultOf) (place : PlaceOf) → result ≡ Err (LexStop.Fault fault place) → tokens_from 0 self.old.place self.old.rest.now ≡ Err (fault, place) }
        ensures shorter { OnOk result (length self.new.rest.now < length self.old.rest.now) }
    {
        match piece(alloc, self.rest) {
            Ok((kind, len)) => {
                self.pass(kind, len)?;
                Ok(())
            }
            Err(PieceStop::Bad(fault)) => Err(LexStop::Fault(fault, self.place)),
            Err(PieceStop::Memory) => Err(LexStop::Memory),
        }
    }

    /// Keeps the token, and goes on after so many bytes.
    fn pass(&mut self, kind: Option<TokenKind>, len: usize) -> Result<(), AllocError>
        requires { len ≤ length self.old.rest.now }
        ensures tokens { OnOk result (self.new.tokens.items ≡ self.old.tokens.items ++ tokens_in self.old.place kind) }
        ensures place { OnOk result (self.new.place ≡ place_after self.old.place (take len self.old.rest.now)) }
        ensures rest { OnOk result (self.new.rest.now ≡ drop len self.old.rest.now) }
    {
        if let Some(what) = kind {
            self.tokens.push(Token {
                what: self.names.in_token(what)?,
                place: self.place,
            })?;
        }
        let (passed, rest) = self.rest.split_at(len);
        self.place = place_after(self.place, passed);
        self.rest = rest;
        Ok(())
    }

    /// The tokens, once nothing is left.
    fn finish(self) -> Result<Vec<Token>, AllocError>
        requires { length self.rest.now ≡ 0 }
        ensures { IfOk result (λ list. joined self.entry.tokens.items (tokens_from 0 self.entry.place self.entry.rest.now) ≡ Ok list.items) }
    {
        let mut tokens = self.tokens;
        tokens.push(Token {
            what: TokenKind::End,
            place: self.place,
        })?;
        Ok(tokens)
    }
}

/// The place after these bytes, where they begin at `place`.
fn place_after(place: Place, passed: &[u8]) -> Place
    requires line { 1 ≤ place.line }
    requires column { 1 ≤ place.column }
    requires room { place.line + place.column + length passed.now ≤ 2 ^ 32 }
    ensures place { result ≡ place_after place passed.now }
    ensures from_line { 1 ≤ result.line }
    ensures from_column { 1 ≤ result.column }
    ensures within { result.line + result.column ≤ place.line + place.column + length passed.now }
{
    let mut place = place;
    for byte in passed {
        place = place_behind(place, *byte);
    }
    place
}

fn place_behind(place: Place, byte: u8) -> Place
    requires line { 1 ≤ place.line }
    requires column { 1 ≤ place.column }
    requires room { place.line + place.column < 2 ^ 32 }
    ensures place { result ≡ place_behind place byte }
    ensures from_line { 1 ≤ result.line }
    ensures from_column { 1 ≤ result.column }
    ensures within { result.line + result.column ≤ place.line + place.column + 1 }
{
    if byte == b'\n' {
        Place {
            line: place.line + 1,
            column: 1,
        }
    } else {
        Place {
            line: place.line,
            column: place.column + 1,
        }
    }
}
