// Kinds of tokens, each behind those that are there.
ghost use Rattle.std.specs.Prelude.{◌≡◌, ◌++◌, OnOk};
ghost use Rattle.std.specs.List.{flat_map};
ghost use Rattle.vtl_spelling.specs.Kinds.{Kinds, ◌&◌, one, optional, commas, separated};
ghost use Rattle.vtl_spelling.specs.Kinds as kinds;
ghost use Rattle.vtl_spelling.specs.Words.{written};
ghost use Rattle.vtl_tokens.specs.declared.token.TokenKind.{TokenKind};

use std::alloc::AllocError;
use vtl_grammar::{Choice, Mark};
use vtl_tokens::{Keyword, Sign, TokenKind};
use vtl_values::{Decimal, Integer, Word};

/// What tokens spell.
pub(crate) trait Spell {
    ghost spelled: { Self → Kinds };

    /// Puts the kinds of its tokens behind those that are there.
    fn spell(&self, out: &mut Vec<TokenKind>) -> Result<(), AllocError>
        ensures { OnOk result (out.new.items ≡ out.old.items ++ spelled self.now) };
}

pub(crate) fn push(kind: TokenKind, out: &mut Vec<TokenKind>) -> Result<(), AllocError>
    ensures { OnOk result (out.new.items ≡ out.old.items ++ one kind) }
{
    out.push(kind)?;
    Ok(())
}

/// A word or a sign with which a form begins or goes on, which is one token.
pub(crate) trait FormWord {
    ghost form_word: { Self → TokenKind };

    fn kind(&self) -> TokenKind
        ensures { result ≡ form_word self.now };
}

/// The token that writes a choice between words or signs.
pub(crate) fn written<C: Choice>(choice: C) -> TokenKind
    ensures { result ≡ written C.words choice }
{
    match choice.mark() {
        Mark::Word(word) => TokenKind::Reserved(word),
        Mark::Sign(sign) => TokenKind::Sign(sign),
    }
}

impl Spell for Keyword {
    ghost spelled = { λ w. kinds.key w };

    fn spell(&self, out: &mut Vec<TokenKind>) -> Result<(), AllocError> {
        push(TokenKind::Reserved(*self), out)
    }
}

impl Spell for Sign {
    ghost spelled = { λ s. kinds.sig s };

    fn spell(&self, out: &mut Vec<TokenKind>) -> Result<(), AllocError> {
        push(TokenKind::Sign(*self), out)
    }
}

/// A name.
impl Spell for Word {
    ghost spelled = { λ w. kinds.name w };

    fn spell(&self, out: &mut Vec<TokenKind>) -> Result<(), AllocError> {
        push(TokenKind::Name(self.copy()?), out)
    }
}

/// What is there, if it is.
pub(crate) fn optional<T: Spell>(
    item: &Option<T>,
    out: &mut Vec<TokenKind>,
) -> Result<(), AllocError>
    ensures { OnOk result (out.new.items ≡ out.old.items ++ optional T.spelled item.now) }
{
    match item {
        Some(item) => item.spell(out),
        None => Ok(()),
    }
}

/// The choice, if one is made.
pub(crate) fn chosen<C: Choice>(
    choice: &Option<C>,
    out: &mut Vec<TokenKind>,
) -> Result<(), AllocError>
    ensures { OnOk result (out.new.items ≡ out.old.items ++ optional (λ c. one (written C.words c)) choice.now) }
{
    match choice {
        Some(choice) => push(written(*choice), out),
        None => Ok(()),
    }
}

/// That word and the item, if it is there.
pub(crate) fn worded<T: Spell>(
    word: Keyword,
    item: &Option<T>,
    out: &mut Vec<TokenKind>,
) -> Result<(), AllocError>
    ensures { OnOk result (out.new.items ≡ out.old.items ++ optional (λ x. kinds.key word & T.spelled x) item.now) }
{
    match item {
        Some(item) => both(&word, item, out),
        None => Ok(()),
    }
}

/// The second behind the first.
pub(crate) fn both<A: Spell, B: Spell>(
    first: &A,
    second: &B,
    out: &mut Vec<TokenKind>,
) -> Result<(), AllocError>
    ensures { OnOk result (out.new.items ≡ out.old.items ++ A.spelled first.now & B.spelled second.now) }
{
    first.spell(out)?;
    second.spell(out)
}

/// The items, one behind the other.
pub(crate) fn each<T: Spell>(items: &[T], out: &mut Vec<TokenKind>) -> Result<(), AllocError>
    ensures { OnOk result (out.new.items ≡ out.old.items ++ flat_map T.spelled items.now) }
{
    for item in items {
        item.spell(out)?;
    }
    Ok(())
}

/// The items, each behind that sign.
pub(crate) fn each_behind<T: Spell>(
    sign: Sign,
    items: &[T],
    out: &mut Vec<TokenKind>,
) -> Result<(), AllocError>
    ensures { OnOk result (out.new.items ≡ out.old.items ++ flat_map (λ y. kinds.sig sign & T.spelled y) items.now) }
{
    for item in items {
        both(&sign, item, out)?;
    }
    Ok(())
}

/// The items, with that sign before each but the first.
pub(crate) fn separated<T: Spell>(
    sign: Sign,
    items: &[T],
    out: &mut Vec<TokenKind>,
) -> Result<(), AllocError>
    ensures { OnOk result (out.new.items ≡ out.old.items ++ separated (kinds.sig sign) T.spelled items.now) }
{
    match items {
        [] => Ok(()),
        [first, rest @ ..] => {
            first.spell(out)?;
            each_behind(sign, rest, out)
        }
    }
}

/// A word and a list behind it, with commas.
pub(crate) fn listed<T: Spell>(
    word: Keyword,
    items: &[T],
    out: &mut Vec<TokenKind>,
) -> Result<(), AllocError>
    ensures { OnOk result (out.new.items ≡ out.old.items ++ (kinds.key word & commas T.spelled items.now)) }
{
    word.spell(out)?;
    separated(Sign::Comma, items, out)
}

pub(crate) fn text(text: &Word, out: &mut Vec<TokenKind>) -> Result<(), AllocError>
    ensures { OnOk result (out.new.items ≡ out.old.items ++ kinds.text text.now) }
{
    push(TokenKind::Text(text.copy()?), out)
}

pub(crate) fn integer(integer: Integer, out: &mut Vec<TokenKind>) -> Result<(), AllocError>
    ensures { OnOk result (out.new.items ≡ out.old.items ++ kinds.integer integer) }
{
    push(TokenKind::Integer(integer), out)
}

/// An integer, with a minus before it where it is negative.
impl Spell for Integer {
    ghost spelled = { λ n. kinds.signed_integer n };

    fn spell(&self, out: &mut Vec<TokenKind>) -> Result<(), AllocError> {
        if self.value >= 0 {
            return integer(*self, out);
        }
        Sign::Minus.spell(out)?;
        integer(Integer { value: -self.value }, out)
    }
}

/// A number, with a minus before it where it is negative.
impl Spell for Decimal {
    ghost spelled = { λ n. kinds.signed TokenKind.Number n };

    fn spell(&self, out: &mut Vec<TokenKind>) -> Result<(), AllocError> {
        if self.millionths >= 0 {
            return push(TokenKind::Number(*self), out);
        }
        Sign::Minus.spell(out)?;
        push(
            TokenKind::Number(Decimal {
                millionths: -self.millionths,
            }),
            out,
        )
    }
}
