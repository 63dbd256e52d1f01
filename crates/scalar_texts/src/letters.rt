// The case of ASCII letters.
ghost use Rattle.std.specs.Prelude.{◌≡◌, IfOk, string_bytes, chars};
ghost use Rattle.scalar_texts.specs.Letters.{uppercase, lowercase};

use std::alloc::{AllocError, Global};

/// `upper` of VTL: the text with its ASCII letters in upper case.
pub fn upper(alloc: Global, s: &str) -> Result<String, AllocError>
    ensures { IfOk result (λ t. chars (string_bytes t) ≡ uppercase (chars s.now)) }
{
    s.to_ascii_uppercase(alloc)
}

/// `lower` of VTL: the text with its ASCII letters in lower case.
pub fn lower(alloc: Global, s: &str) -> Result<String, AllocError>
    ensures { IfOk result (λ t. chars (string_bytes t) ≡ lowercase (chars s.now)) }
{
    s.to_ascii_lowercase(alloc)
}
