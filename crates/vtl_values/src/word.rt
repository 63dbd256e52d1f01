// Texts.
ghost use Rattle.std.specs.Prelude.{◌≡◌, ℕ, List, IfOk, chars, string_bytes, encode_utf8_all};
ghost use Rattle.std.specs.Arc.{arc_str_bytes};

use std::alloc::{AllocError, Global};
use std::cmp::Ordering;
use std::hash::{Hash, Hasher};
use std::marker::Model;
use std::sync::ArcStr;

/// A text. Contracts see it as the list of its characters; its order is the order of its bytes as UTF-8. Copies share
/// the text.
#[derive(Debug)]
pub struct Word {
    text: ArcStr,
}

// Written out, so that who drops one calls this and doesn't go through what is in it.
impl Drop for Word {
    fn drop(self) {
        let Word { text: _ } = self;
    }
}

impl Model for Word {
    ghost Value = { List ℕ };

    ghost view = { λ w. chars (arc_str_bytes w.text) };
}

impl Word {
    /// The characters of a text, or want of memory.
    pub fn from_str(alloc: Global, text: &str) -> Result<Word, AllocError>
        ensures { IfOk result (λ word. word ≡ chars text.now) }
    {
        Ok(Word {
            text: ArcStr::from_str(alloc, text)?,
        })
    }

    /// The characters of a string, which is moved, or want of memory.
    pub fn from_string(text: String) -> Result<Word, AllocError>
        ensures { IfOk result (λ word. word ≡ chars (string_bytes text)) }
    {
        Ok(Word {
            text: ArcStr::from_string(text)?,
        })
    }

    /// The text as UTF-8.
    pub fn as_str(&self) -> &str
        ensures chars { chars result.now ≡ self.now }
        ensures bytes { result.now ≡ encode_utf8_all self.now }
    {
        self.text.as_str()
    }

    /// An equal text, which shares the bytes, or want of memory.
    pub fn copy(&self) -> Result<Word, AllocError>
        ensures { IfOk result (λ word. word ≡ self.now) }
    {
        Ok(Word {
            text: self.text.clone()?,
        })
    }
}

impl PartialEq for Word {
    ghost use Rattle.std.specs.Prelude.{nat_eq};
    ghost use Rattle.std.specs.Cmp.{partial_equiv_from_equiv};
    ghost use Rattle.std.specs.Cmp.Lexicographic.{pointwise, nat_list_eq_equiv};

    ghost eq = { pointwise nat_eq };

    ghost laws = { partial_equiv_from_equiv nat_list_eq_equiv };

    fn eq(&self, other: &Self) -> bool {
        self.text == other.text
    }
}

impl Eq for Word {
    ghost use Rattle.std.specs.Cmp.Lexicographic.{nat_list_eq_equiv};

    ghost laws = { nat_list_eq_equiv };
}

impl PartialOrd for Word {
    ghost use Rattle.std.specs.Prelude.{Some};
    ghost use Rattle.std.specs.Ordering.{nat_cmp};
    ghost use Rattle.std.specs.Cmp.Lexicographic.{slice_cmp, texts_po};

    ghost partial_cmp = { λ x y. Some (slice_cmp nat_cmp x y) };

    ghost laws = { texts_po };

    fn partial_cmp(&self, other: &Self) -> Option<Ordering> {
        Some(self.cmp(other))
    }
}

impl Ord for Word {
    ghost use Rattle.std.specs.Prelude.{refl};
    ghost use Rattle.std.specs.Ordering.{nat_cmp};
    ghost use Rattle.std.specs.Cmp.Lexicographic.{slice_cmp, nat_list_cmp_total, texts_ties};

    ghost cmp = { slice_cmp nat_cmp };

    ghost total = { nat_list_cmp_total };

    ghost matches_partial_cmp = { λ x y. refl };

    ghost matches_eq = { texts_ties };

    fn cmp(&self, other: &Self) -> Ordering {
        self.text.cmp(&other.text)
    }
}

impl Hash for Word {
    ghost use Rattle.std.specs.Prelude.{encode_utf8_all};
    ghost use Rattle.std.proofs.Common.{rules};
    ghost use Rattle.std.specs.Cmp.Rules.{hashing};
    ghost use Rattle.std.specs.Hash as fed;

    ghost hash_input = { λ w. fed.str (encode_utf8_all w) };

    ghost respects_eq = { Prim.search (hashing, rules) };

    fn hash<H: Hasher>(&self, state: &mut H) {
        self.text.as_str().hash(state);
    }
}
