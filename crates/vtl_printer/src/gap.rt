// What stands between tokens.
ghost use Rattle.std.specs.Prelude.{◌≡◌};
ghost use Rattle.vtl_printer.specs.Layouts.{ends_line, is_opening, is_closing, stands_apart, is_call, is_joined, gap};

use vtl_tokens::{Keyword, Sign, TokenKind};

/// What stands behind a token before these: a line end, a blank or nothing.
pub fn gap(before: &TokenKind, behind: &[TokenKind]) -> &'static str
    ensures { result.now ≡ gap before.now behind.now }
{
    if ends_line(before) {
        return "\n";
    }
    match behind {
        [next, ..] if !is_joined(before, next) => " ",
        _ => "",
    }
}

fn ends_line(kind: &TokenKind) -> bool
    ensures { result ≡ ends_line kind.now }
{
    matches!(kind, TokenKind::Sign(Sign::Semicolon))
}

/// Nothing stands between the two.
fn is_joined(before: &TokenKind, next: &TokenKind) -> bool
    ensures { result ≡ is_joined before.now next.now }
{
    is_opening(before) || is_closing(next) || is_call(before, next)
}

/// What follows stands directly behind it.
fn is_opening(kind: &TokenKind) -> bool
    ensures { result ≡ is_opening kind.now }
{
    matches!(
        kind,
        TokenKind::Sign(Sign::LeftParen | Sign::LeftBracket | Sign::Hash)
    )
}

/// It stands directly behind what comes before.
fn is_closing(kind: &TokenKind) -> bool
    ensures { result ≡ is_closing kind.now }
{
    matches!(
        kind,
        TokenKind::Sign(
            Sign::Semicolon
                | Sign::Comma
                | Sign::RightParen
                | Sign::RightBracket
                | Sign::Hash
                | Sign::Colon
        )
    )
}

/// A call's word or name before its bracket.
fn is_call(before: &TokenKind, next: &TokenKind) -> bool
    ensures { result ≡ is_call before.now next.now }
{
    match (before, next) {
        (TokenKind::Reserved(word), TokenKind::Sign(Sign::LeftParen)) => !stands_apart(*word),
        (TokenKind::Name(_), TokenKind::Sign(Sign::LeftParen)) => true,
        _ => false,
    }
}

/// A bracket behind the word stands round an expression, and is no call's.
fn stands_apart(word: Keyword) -> bool
    ensures { result ≡ stands_apart word }
{
    matches!(
        word,
        Keyword::If
            | Keyword::Then
            | Keyword::Else
            | Keyword::Or
            | Keyword::Xor
            | Keyword::And
            | Keyword::Not
            | Keyword::When
            | Keyword::Is
            | Keyword::Filter
            | Keyword::Having
            | Keyword::Imbalance
            | Keyword::Over
    )
}
