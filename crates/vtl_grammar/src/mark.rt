// Reserved words and signs in one.
ghost use Rattle.std.specs.Prelude.{◌≡◌, option_map};
ghost use Rattle.vtl_grammar.specs.Marks.{mark_in};
ghost use Rattle.vtl_grammar.specs.Words.{mark_of};

use vtl_tokens::{Keyword, Sign, TokenKind};

/// A reserved word or a sign.
#[derive(Clone, Copy, Debug, PartialEq, Eq)]
pub enum Mark {
    Word(Keyword),
    Sign(Sign),
}

/// The reserved word or the sign that a token is.
pub fn mark_in(kind: &TokenKind) -> Option<Mark>
    ensures { option_map mark_of result ≡ mark_in kind.now }
{
    match kind {
        TokenKind::Reserved(word) => Some(Mark::Word(*word)),
        TokenKind::Sign(sign) => Some(Mark::Sign(*sign)),
        _ => None,
    }
}
