// Whether a token is a certain reserved word, a certain sign, or a name.
ghost use Rattle.std.specs.Prelude.{◌≡◌, nat_eq};
ghost use Rattle.vtl_grammar.specs.Marks.{key, sign, of_mark, sort_of};

use vtl_tokens::{Keyword, Sign, TokenKind};

/// Whether a token is that reserved word.
pub fn is_word(kind: &TokenKind, wanted: Keyword) -> bool
    ensures { result ≡ nat_eq (sort_of kind.now) (of_mark (key wanted)) }
{
    match kind {
        TokenKind::Reserved(word) => is_same_word(*word, wanted),
        _ => false,
    }
}

pub(crate) fn is_sign(kind: &TokenKind, wanted: Sign) -> bool
    ensures { result ≡ nat_eq (sort_of kind.now) (of_mark (sign wanted)) }
{
    match kind {
        TokenKind::Sign(sign) => is_same_sign(*sign, wanted),
        _ => false,
    }
}

pub(crate) fn is_name(kind: &TokenKind) -> bool
    ensures { result ≡ nat_eq (sort_of kind.now) 0 }
{
    matches!(kind, TokenKind::Name(_))
}

/// Whether the two are the same reserved word.
pub fn is_same_word(word: Keyword, wanted: Keyword) -> bool
    ensures { result ≡ nat_eq (of_mark (key word)) (of_mark (key wanted)) }
{
    word == wanted
}

fn is_same_sign(given: Sign, wanted: Sign) -> bool
    ensures { result ≡ nat_eq (of_mark (sign given)) (of_mark (sign wanted)) }
{
    given == wanted
}
