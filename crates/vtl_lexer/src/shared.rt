// Names that share their texts.
ghost use Rattle.std.specs.Prelude.{◌≡◌, IfOk};

use std::alloc::{AllocError, Global};
use std::collections::HashSet;
use vtl_tokens::TokenKind;
use vtl_values::Word;

/// The names of a text so far, each once. What is in it makes no difference to any token: a name that stands there already
/// shares its text.
#[derive(Drop)]
pub(crate) struct SharedNames {
    names: HashSet<Word>,
}

impl SharedNames {
    /// No names yet.
    pub(crate) fn new(alloc: Global) -> SharedNames {
        SharedNames {
            names: HashSet::new(alloc),
        }
    }

    /// The token, whose text is shared with that of an equal name, if it is a name. Or want of memory.
    pub(crate) fn in_token(&mut self, kind: TokenKind) -> Result<TokenKind, AllocError>
        ensures { IfOk result (λ token. token ≡ kind) }
    {
        match kind {
            TokenKind::Name(name) => Ok(TokenKind::Name(self.shared(name)?)),
            other => Ok(other),
        }
    }

    #[tactic(auto, using(crate::proofs::SharedTexts::is_same))]
    fn shared(&mut self, name: Word) -> Result<Word, AllocError>
        ensures { IfOk result (λ shared. shared ≡ name) }
    {
        if let Some(known) = self.names.get(&name) {
            return known.copy();
        }
        let copy = name.copy()?;
        self.names.insert(name)?;
        Ok(copy)
    }
}
