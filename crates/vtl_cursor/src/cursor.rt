// The tokens that are still to be read.
ghost use Rattle.std.specs.Prelude.{◌≡◌, ◌+◌, ◌<◌, ◌≤◌, length};
ghost use Rattle.vtl_cursor.specs.Limits.{most};

use crate::same::{is_name, is_sign, is_word};
use crate::stop::{Kind, Stop};
use vtl_grammar::{Mark, mark_in};
use vtl_tokens::{Keyword, Sign, Token, TokenKind};
use vtl_values::{Decimal, Integer, Place, Word};

/// A name or a text, and where it stands.
#[derive(Debug, Drop, PartialEq, Eq)]
pub struct Named {
    pub value: Word,
    pub place: Place,
}

/// An integer, and where it stands.
#[derive(Clone, Copy, Debug, PartialEq, Eq)]
pub struct Whole {
    pub value: Integer,
    pub place: Place,
}

/// A number, and where it stands.
#[derive(Clone, Copy, Debug, PartialEq, Eq)]
pub struct Number {
    pub value: Decimal,
    pub place: Place,
}

/// The tokens that are still to be read, without the `End` after them.
#[derive(Clone, Copy)]
pub struct Cursor<'a> {
    pub tokens: &'a [Token],
    // No list has more items than that.
    ghost few: { length tokens.now ≤ most },
}

impl<'a> Cursor<'a> {
    ghost use Rattle.std.specs.Prelude.{◌-◌, [], ◌∷◌, take, drop, option_map};
    ghost use Rattle.vtl_grammar.specs.Marks.{key, sign, of_mark};
    ghost use Rattle.vtl_grammar.specs.Rules.{label, component, first_place};
    ghost use Rattle.vtl_grammar.specs.Reading.{read_mark, read_name, read_integer, read_number, read_text, starts, has_prefix};
    ghost use Rattle.vtl_grammar.specs.Words.{mark_of};
    ghost use Rattle.vtl_cursor.specs.Views.{Gives, Reads, mark_at};

    /// At the first of these tokens. The last of them, the `End`, is left out.
    pub fn new(tokens: &'a [Token]) -> Cursor<'a>
        requires { 0 < length tokens.now }
        ensures { result.tokens.now ≡ take (length tokens.now - 1) tokens.now }
    {
        let end = last_index(tokens);
        Cursor {
            tokens: &tokens[..end],
        }
    }

    /// The reserved word, and its place.
    pub fn word(&mut self, wanted: Keyword) -> Result<Place, Stop>
        ensures { Gives self.new.tokens.now result (read_mark (key wanted) self.old.tokens.now) }
    {
        match self.tokens {
            [first, rest @ ..] if is_word(&first.what, wanted) => {
                self.tokens = rest;
                Ok(first.place)
            }
            _ => Err(Stop::At(Kind::Expected)),
        }
    }

    /// The sign, and its place.
    pub fn sign(&mut self, wanted: Sign) -> Result<Place, Stop>
        ensures { Gives self.new.tokens.now result (read_mark (sign wanted) self.old.tokens.now) }
    {
        match self.tokens {
            [first, rest @ ..] if is_sign(&first.what, wanted) => {
                self.tokens = rest;
                Ok(first.place)
            }
            _ => Err(Stop::At(Kind::Expected)),
        }
    }

    /// A name, and its place.
    pub fn name(&mut self) -> Result<Named, Stop>
        ensures { Reads (λ n. record { value = record { value = n.value; place = n.place }; levels = 0; rest = self.new.tokens.now }) self.new.tokens.now result (read_name self.old.tokens.now) }
    {
        match self.tokens {
            [
                Token {
                    what: TokenKind::Name(name),
                    place,
                },
                rest @ ..,
            ] => {
                let value = name.copy()?;
                self.tokens = rest;
                Ok(Named {
                    value,
                    place: *place,
                })
            }
            _ => Err(Stop::At(Kind::Expected)),
        }
    }

    /// A text, and its place.
    pub fn text(&mut self) -> Result<Named, Stop>
        ensures { Reads (λ n. record { value = record { value = n.value; place = n.place }; levels = 0; rest = self.new.tokens.now }) self.new.tokens.now result (read_text self.old.tokens.now) }
    {
        match self.tokens {
            [
                Token {
                    what: TokenKind::Text(text),
                    place,
                },
                rest @ ..,
            ] => {
                let value = text.copy()?;
                self.tokens = rest;
                Ok(Named {
                    value,
                    place: *place,
                })
            }
            _ => Err(Stop::At(Kind::Expected)),
        }
    }

    /// An integer, and its place.
    pub fn integer(&mut self) -> Result<Whole, Stop>
        ensures { Reads (λ n. record { value = record { value = n.value; place = n.place }; levels = 0; rest = self.new.tokens.now }) self.new.tokens.now result (read_integer self.old.tokens.now) }
    {
        match self.tokens {
            [
                Token {
                    what: TokenKind::Integer(value),
                    place,
                },
                rest @ ..,
            ] => {
                self.tokens = rest;
                Ok(Whole {
                    value: *value,
                    place: *place,
                })
            }
            _ => Err(Stop::At(Kind::Expected)),
        }
    }

    /// A number, and its place.
    pub fn number(&mut self) -> Result<Number, Stop>
        ensures { Reads (λ n. record { value = record { value = n.value; place = n.place }; levels = 0; rest = self.new.tokens.now }) self.new.tokens.now result (read_number self.old.tokens.now) }
    {
        match self.tokens {
            [
                Token {
                    what: TokenKind::Number(value),
                    place,
                },
                rest @ ..,
            ] => {
                self.tokens = rest;
                Ok(Number {
                    value: *value,
                    place: *place,
                })
            }
            _ => Err(Stop::At(Kind::Expected)),
        }
    }

    /// Whether that reserved word stands there.
    pub fn is_word(&self, wanted: Keyword) -> bool
        ensures { result ≡ starts (of_mark (key wanted) ∷ []) self.now.tokens.now }
    {
        matches!(self.tokens, [first, ..] if is_word(&first.what, wanted))
    }

    /// Whether that sign stands there.
    pub fn is_sign(&self, wanted: Sign) -> bool
        ensures { result ≡ starts (of_mark (sign wanted) ∷ []) self.now.tokens.now }
    {
        matches!(self.tokens, [first, ..] if is_sign(&first.what, wanted))
    }

    /// Whether a name stands there.
    pub fn is_name(&self) -> bool
        ensures { result ≡ starts (0 ∷ []) self.now.tokens.now }
    {
        matches!(self.tokens, [first, ..] if is_name(&first.what))
    }

    /// Whether an integer stands there.
    pub fn is_integer(&self) -> bool
        ensures { result ≡ starts (1 ∷ []) self.now.tokens.now }
    {
        matches!(
            self.tokens,
            [
                Token {
                    what: TokenKind::Integer(_),
                    place: _
                },
                ..
            ]
        )
    }

    /// Whether a number stands there.
    pub fn is_number(&self) -> bool
        ensures { result ≡ starts (2 ∷ []) self.now.tokens.now }
    {
        matches!(
            self.tokens,
            [
                Token {
                    what: TokenKind::Number(_),
                    place: _
                },
                ..
            ]
        )
    }

    /// Whether a text stands there.
    pub fn is_text(&self) -> bool
        ensures { result ≡ starts (3 ∷ []) self.now.tokens.now }
    {
        matches!(
            self.tokens,
            [
                Token {
                    what: TokenKind::Text(_),
                    place: _
                },
                ..
            ]
        )
    }

    /// Whether a name and a colon stand there.
    pub fn is_label(&self) -> bool
        ensures { result ≡ has_prefix label self.now.tokens.now }
    {
        matches!(self.tokens, [first, second, ..] if is_name(&first.what) && is_sign(&second.what, Sign::Colon))
    }

    /// Whether the word `rule` and a name stand there.
    pub fn is_component(&self) -> bool
        ensures { result ≡ has_prefix component self.now.tokens.now }
    {
        matches!(self.tokens, [first, second, ..] if is_word(&first.what, Keyword::Rule) && is_name(&second.what))
    }

    /// The place of the next token; none is at the end.
    pub fn first_place(&self) -> Place
        ensures { result ≡ first_place self.now.tokens.now }
    {
        match self.tokens {
            [first, ..] => first.place,
            [] => Place { line: 0, column: 0 },
        }
    }

    /// The reserved word or the sign that stands there.
    pub fn mark(&self) -> Option<Mark>
        ensures { option_map mark_of result ≡ mark_at self.now.tokens.now }
    {
        match self.tokens {
            [first, ..] => mark_in(&first.what),
            [] => None,
        }
    }

    /// Whether that word or sign stands there.
    pub fn is_mark(&self, wanted: Mark) -> bool
        ensures { result ≡ starts (of_mark (mark_of wanted) ∷ []) self.now.tokens.now }
    {
        match wanted {
            Mark::Word(word) => self.is_word(word),
            Mark::Sign(sign) => self.is_sign(sign),
        }
    }

    /// That word or sign, and its place.
    pub fn pass(&mut self, wanted: Mark) -> Result<Place, Stop>
        ensures { Gives self.new.tokens.now result (read_mark (mark_of wanted) self.old.tokens.now) }
    {
        match wanted {
            Mark::Word(word) => self.word(word),
            Mark::Sign(sign) => self.sign(sign),
        }
    }

    /// Goes on after the next token.
    pub fn skip(&mut self)
        ensures { self.new.tokens.now ≡ drop 1 self.old.tokens.now }
    {
        if let [_, rest @ ..] = self.tokens {
            self.tokens = rest;
        }
    }
}

fn last_index(tokens: &[Token]) -> usize
    requires { 0 < length tokens.now }
    ensures { result + 1 ≡ length tokens.now }
{
    tokens.len() - 1
}
