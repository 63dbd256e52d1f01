// Words, and how many stand before each.
ghost use Rattle.std.specs.Prelude.{◌≡◌, ◌∷◌, ◌++◌, [], position, if◌then◌else◌, IfOk};
ghost use Rattle.script_graph.specs.Words.{is_same, has_word};

use indexmap::IndexSet;
use std::alloc::{AllocError, Global};
use std::marker::Model;
use vtl_values::Word;

/// Words, each once. Contracts see them as their list.
pub(crate) struct Names<'a> {
    words: IndexSet<&'a Word>,
}

// Written out, so that who drops one calls this and doesn't go through what is in it.
impl<'a> Drop for Names<'a> {
    fn drop(self) {
        let Names { words: _ } = self;
    }
}

impl<'a> Model for Names<'a> {
    ghost use Rattle.std.specs.Prelude.{ℕ, List, map};

    ghost Value = { List (List ℕ) };

    ghost view = { λ names. map (λ word. word.now) names.words.keys };
}

impl<'a> Names<'a> {
    /// No words yet.
    pub(crate) fn new(alloc: Global) -> Self
        ensures { result ≡ [] }
    {
        Names {
            words: IndexSet::new(alloc),
        }
    }

    /// How many stand before that word, if it is there.
    pub(crate) fn number_of(&self, word: &Word) -> Option<usize>
        ensures { result ≡ position (is_same word.now) self.now }
    {
        self.words.get_index_of(&word)
    }

    /// Whether the word is there; if it isn't, it is put last.
    pub(crate) fn repeats(&mut self, word: &'a Word) -> Result<bool, AllocError>
        ensures again { IfOk result (λ again. again ≡ has_word self.old word.now) }
        ensures words { IfOk result (λ again. self.new ≡ (if again then self.old else self.old ++ word.now ∷ [])) }
    {
        Ok(!self.words.insert(word)?)
    }
}
