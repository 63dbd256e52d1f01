// The text of tokens.
ghost use Rattle.std.specs.Prelude.{◌≡◌, ◌++◌, IfOk, OnOk, encode_utf8_all, string_bytes};
ghost use Rattle.vtl_printer.specs.Layouts.{gap, layout};
ghost use Rattle.vtl_printer.specs.LexedBack.{AreReadBack};
ghost use Rattle.vtl_printer.specs.Spellings.{token_text};

use crate::gap::gap;
use crate::spell::push_token;
use std::alloc::{AllocError, Global};
use vtl_tokens::TokenKind;
use vtl_values::Word;

/// The text of these tokens, or want of memory.
pub fn write_tokens(alloc: Global, kinds: &[TokenKind]) -> Result<Word, AllocError>
    ensures layout { IfOk result (λ word. encode_utf8_all word ≡ layout kinds.now) }
    // The lexer reads it as these tokens, wherever each is one that texts have.
    ensures read_back { IfOk result (λ word. AreReadBack kinds.now (encode_utf8_all word)) }
{
    let mut text = String::new(alloc);
    let mut rest = kinds;
    while let [kind, behind @ ..] = rest {
        push_with_gap(alloc, &mut text, kind, behind)?;
        rest = behind;
    }
    Word::from_string(text)
}

/// Writes a token, and what stands between it and those behind it.
fn push_with_gap(
    alloc: Global,
    text: &mut String,
    kind: &TokenKind,
    behind: &[TokenKind],
) -> Result<(), AllocError>
    ensures { OnOk result (string_bytes text.new ≡ string_bytes text.old ++ (token_text kind.now ++ gap kind.now behind.now)) }
{
    push_token(alloc, text, kind)?;
    text.push_str(gap(kind, behind))
}
