// Blanks at the ends of a text.
ghost use Rattle.std.specs.Prelude.{◌≡◌, IfOk, string_bytes, chars};
ghost use Rattle.scalar_texts.specs.Blanks.{ltrimmed, rtrimmed, trimmed, IsLeftTrimmed, IsRightTrimmed, IsTrimmed};

use std::alloc::{AllocError, Global};

/// `trim` of VTL: the text without the blanks (U+0020) at both ends.
pub fn trim(alloc: Global, s: &str) -> Result<String, AllocError>
    ensures value { IfOk result (λ t. chars (string_bytes t) ≡ trimmed (chars s.now)) }
    ensures law { IfOk result (λ t. IsTrimmed (chars s.now) (chars (string_bytes t))) }
{
    String::from_str(alloc, without_trailing(without_leading(s)))
}

/// `ltrim` of VTL: the text without the blanks (U+0020) at its left end.
pub fn ltrim(alloc: Global, s: &str) -> Result<String, AllocError>
    ensures value { IfOk result (λ t. chars (string_bytes t) ≡ ltrimmed (chars s.now)) }
    ensures law { IfOk result (λ t. IsLeftTrimmed (chars s.now) (chars (string_bytes t))) }
{
    String::from_str(alloc, without_leading(s))
}

/// `rtrim` of VTL: the text without the blanks (U+0020) at its right end.
pub fn rtrim(alloc: Global, s: &str) -> Result<String, AllocError>
    ensures value { IfOk result (λ t. chars (string_bytes t) ≡ rtrimmed (chars s.now)) }
    ensures law { IfOk result (λ t. IsRightTrimmed (chars s.now) (chars (string_bytes t))) }
{
    String::from_str(alloc, without_trailing(s))
}

fn without_leading(s: &str) -> &str
    ensures value { chars result.now ≡ ltrimmed (chars s.now) }
    ensures law { IsLeftTrimmed (chars s.now) (chars result.now) }
{
    s.trim_start_matches(' ')
}

fn without_trailing(s: &str) -> &str
    ensures value { chars result.now ≡ rtrimmed (chars s.now) }
    ensures law { IsRightTrimmed (chars s.now) (chars result.now) }
{
    s.trim_end_matches(' ')
}
