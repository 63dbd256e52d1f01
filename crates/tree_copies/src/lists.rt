// Copies of words and values.
ghost use Rattle.std.specs.Prelude.{◌≡◌, IfOk};

use sqlite_items::Items;
use std::alloc::{AllocError, Global};
use vtl_values::{Value, Word};

/// A copy of the words, or want of memory.
pub fn copy_words(alloc: Global, words: &[Word]) -> Result<Items<Word>, AllocError>
    ensures { IfOk result (λ copy. copy ≡ words.now) }
{
    let mut copy = Items::new(alloc);
    for word in words {
        copy.push(word.copy()?)?;
    }
    Ok(copy)
}

/// A copy of the word, if there is one, or want of memory.
pub fn copy_optional_word(word: &Option<Word>) -> Result<Option<Word>, AllocError>
    ensures { IfOk result (λ copy. copy ≡ word.now) }
{
    match word {
        Some(word) => Ok(Some(word.copy()?)),
        None => Ok(None),
    }
}

/// A copy of the values, or want of memory.
pub fn copy_values(alloc: Global, values: &[Value]) -> Result<Items<Value>, AllocError>
    ensures { IfOk result (λ copy. copy ≡ values.now) }
{
    let mut copy = Items::new(alloc);
    for value in values {
        copy.push(value.copy()?)?;
    }
    Ok(copy)
}
