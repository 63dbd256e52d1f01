// Tokens.
ghost use Rattle.std.specs.Prelude.{◌≡◌, IfOk};

use crate::keyword::Keyword;
use crate::sign::Sign;
use std::alloc::AllocError;
use vtl_values::{Decimal, Integer, Place, Word};

/// A token of a script and the place of its first byte; of `End`, the place after the script's last byte.
#[derive(Debug, Drop, PartialEq, Eq)]
pub struct Token {
    pub what: TokenKind,
    pub place: Place,
}

/// What a token is. A name and a text are without their quotes.
#[derive(Debug, Drop, PartialEq, Eq)]
pub enum TokenKind {
    Name(Word),
    Reserved(Keyword),
    Text(Word),
    Integer(Integer),
    Number(Decimal),
    Sign(Sign),
    End,
}

impl Token {
    /// An equal token, or want of memory.
    pub fn copy(&self) -> Result<Token, AllocError>
        ensures { IfOk result (λ token. token ≡ self.now) }
    {
        let what = match &self.what {
            TokenKind::Name(name) => TokenKind::Name(name.copy()?),
            TokenKind::Text(text) => TokenKind::Text(text.copy()?),
            TokenKind::Reserved(word) => TokenKind::Reserved(*word),
            TokenKind::Integer(value) => TokenKind::Integer(*value),
            TokenKind::Number(value) => TokenKind::Number(*value),
            TokenKind::Sign(sign) => TokenKind::Sign(*sign),
            TokenKind::End => TokenKind::End,
        };
        Ok(Token {
            what,
            place: self.place,
        })
    }
}
