// Texts made of other texts.
ghost use Rattle.std.specs.Prelude.{◌≡◌, ◌<◌, ◌++◌, IfOk, string_bytes, chars, length};
ghost use Rattle.scalar_texts.specs.Replacing.{replaced, Replaces};

use std::alloc::{AllocError, Global};

/// `||` of VTL: the two texts joined.
pub fn concat(alloc: Global, a: &str, b: &str) -> Result<String, AllocError>
    ensures { IfOk result (λ t. chars (string_bytes t) ≡ chars a.now ++ chars b.now) }
{
    let mut joined = String::from_str(alloc, a)?;
    joined.push_str(b)?;
    Ok(joined)
}

/// `replace` of VTL: `new` in place of each occurrence of `old`, from the left without overlap; `s` where `old` is empty.
pub fn replace(alloc: Global, s: &str, old: &str, new: &str) -> Result<String, AllocError>
    ensures value { IfOk result (λ t. chars (string_bytes t) ≡ replaced (chars s.now) (chars old.now) (chars new.now)) }
    ensures law { IfOk result (λ t. 0 < length (chars old.now) → Replaces (chars old.now) (chars new.now) (chars s.now) (chars (string_bytes t))) }
{
    if old.is_empty() {
        return String::from_str(alloc, s);
    }
    s.replace(alloc, old, new)
}
