// Code lists.
ghost use Rattle.std.specs.Prelude.{◌≡◌, ◌≢◌, ◌∷◌, [], ◌++◌, true, false, AllPairs, IfOk, MatchOption};
ghost use Rattle.std.specs.List.{list_any};
ghost use Rattle.vtl_values.specs.Texts.{same_text};

use crate::word::Word;
use sqlite_items::Items;
use std::alloc::{AllocError, Global};
use std::collections::HashSet;
use std::marker::Model;
use std::sync::Arc;

/// Codes that are listed one after the other, each once. Contracts see the list of them.
#[derive(Debug, Drop)]
pub struct NewCodes {
    in_order: Items<Word>,
    known: HashSet<Word>,
}

impl Model for NewCodes {
    ghost use Rattle.std.specs.Prelude.{List, ℕ};
    ghost use Rattle.vtl_values.specs.Codes.{AreKnown};

    ghost Value = { List (List ℕ) };

    ghost view = { λ c. c.in_order };

    ghost invariant = { λ c. AreKnown c.in_order c.known };
}

impl NewCodes {
    /// No codes.
    pub fn new(alloc: Global) -> NewCodes
        ensures { result ≡ [] }
    {
        NewCodes {
            in_order: Items::new(alloc),
            known: HashSet::new(alloc),
        }
    }

    /// With this code at the end, or none where it stands already. Or want of memory. Its time doesn't grow with the
    /// list.
    pub fn with(self, code: Word) -> Result<Option<NewCodes>, AllocError>
        ensures { IfOk result (λ more. MatchOption more (list_any (same_text code) self ≡ true) (λ codes. (codes ≡ self ++ code ∷ []) × (list_any (same_text code) self ≡ false))) }
    {
        let NewCodes {
            mut in_order,
            mut known,
        } = self;
        let listed = code.copy()?;
        if !known.insert(code)? {
            return Ok(None);
        }
        in_order.push(listed)?;
        Ok(Some(NewCodes { in_order, known }))
    }
}

/// The codes that a component may have, each once; those of a viral attribute stand by rising rank. Contracts see the
/// list of them. Copies share the codes.
#[derive(Debug)]
pub struct CodeList {
    codes: Arc<NewCodes>,
}

// Written out, so that who drops one calls this and doesn't go through what is in it.
impl Drop for CodeList {
    fn drop(self) {
        let CodeList { codes: _ } = self;
    }
}

impl Model for CodeList {
    ghost use Rattle.std.specs.Prelude.{List, ℕ};
    ghost use Rattle.std.specs.Arc.{arc_value};

    ghost Value = { List (List ℕ) };

    ghost view = { λ c. arc_value c.codes };
}

impl CodeList {
    /// The list of these codes, or want of memory.
    pub fn of(alloc: Global, codes: NewCodes) -> Result<CodeList, AllocError>
        ensures { IfOk result (λ list. list ≡ codes) }
    {
        Ok(CodeList {
            codes: Arc::new(alloc, codes)?,
        })
    }

    /// An equal list, which shares the codes, or want of memory.
    pub fn copy(&self) -> Result<CodeList, AllocError>
        ensures { IfOk result (λ list. list ≡ self.now) }
    {
        Ok(CodeList {
            codes: self.codes.clone()?,
        })
    }

    /// Whether the text is one of the codes, in a time that doesn't grow with the list.
    pub fn contains(&self, text: &Word) -> bool
        ensures { result ≡ list_any (same_text text.now) self.now }
    {
        self.codes.known.contains(text)
    }

    /// The codes in their order. They differ.
    pub fn as_slice(&self) -> &[Word]
        ensures codes { result.now ≡ self.now }
        ensures differ { AllPairs (λ a b. a ≢ b) self.now }
    {
        self.codes.in_order.as_slice()
    }
}
