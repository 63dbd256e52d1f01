// The text of a script.
ghost use Rattle.std.specs.Prelude.{◌≡◌, IfOk, encode_utf8_all};
ghost use Rattle.vtl_printer.specs.ReadBack.{HasText, IsText};
ghost use Rattle.vtl_printer.specs.Shown.{shown};

use crate::write::write_tokens;
use std::alloc::{AllocError, Global};
use vtl_spelling::spell;
use vtl_syntax::Script;
use vtl_values::Word;

/// The text of the script, or want of memory.
pub fn show(alloc: Global, script: &Script) -> Result<Word, AllocError>
    ensures text { IfOk result (λ text. encode_utf8_all text ≡ shown script.now) }
    // It is read back as the script, apart from places, wherever the script has a text.
    ensures read_back { IfOk result (λ text. HasText script.now → IsText script.now (encode_utf8_all text)) }
{
    let kinds = spell(alloc, script)?;
    write_tokens(alloc, kinds.as_slice())
}
