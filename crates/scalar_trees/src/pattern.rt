// Built patterns in trees.
ghost use Rattle.std.specs.Prelude.{◌≡◌, false, IsTrue, IfOk, OnOk, IsErrOf};
ghost use Rattle.scalar_texts.specs.Patterns.{is_pattern};

use scalar_texts::{Pattern, PatternStop};
use std::alloc::{AllocError, Global};
use std::marker::Model;
use std::sync::Arc;
use vtl_values::Word;

/// A built pattern with the text that it was built from.
#[derive(Drop)]
struct Built {
    text: Word,
    pattern: Pattern,
}

impl Model for Built {
    ghost use Rattle.std.specs.Prelude.{◌≡◌, List, ℕ};

    ghost Value = { List ℕ };

    ghost view = { λ b. b.text };

    ghost invariant = { λ b. b.pattern ≡ b.text };
}

/// A built pattern of `match_characters`, which copies share. Contracts see the characters of its text.
pub struct SharedPattern {
    built: Arc<Built>,
}

// Written out, so that who drops one calls this and doesn't go through what is in it.
impl Drop for SharedPattern {
    fn drop(self) {
        let SharedPattern { built: _ } = self;
    }
}

impl Model for SharedPattern {
    ghost use Rattle.std.specs.Prelude.{List, ℕ};
    ghost use Rattle.std.specs.Arc.{arc_value};

    ghost Value = { List ℕ };

    ghost view = { λ s. arc_value s.built };
}

impl SharedPattern {
    /// Builds the pattern of a text. `BadPattern` says that the text is none; want of memory alone is free.
    pub fn build(alloc: Global, text: &Word) -> Result<SharedPattern, PatternStop>
        ensures value { IfOk result (λ p. p ≡ text.now) }
        ensures pattern { OnOk result (IsTrue (is_pattern text.now)) }
        ensures bad { IsErrOf result PatternStop.BadPattern → is_pattern text.now ≡ false }
    {
        let pattern = Pattern::build(alloc, text.as_str())?;
        Ok(SharedPattern::of(alloc, pattern, text)?)
    }

    fn of(alloc: Global, pattern: Pattern, text: &Word) -> Result<SharedPattern, AllocError>
        requires { pattern ≡ text.now }
        ensures { IfOk result (λ p. p ≡ text.now) }
    {
        let built = Built {
            text: text.copy()?,
            pattern,
        };
        Ok(SharedPattern {
            built: Arc::new(alloc, built)?,
        })
    }

    /// The pattern, to match texts by.
    pub fn get(&self) -> &Pattern
        ensures { result.now ≡ self.now }
    {
        &self.built.pattern
    }

    /// The text of the pattern, by which equal patterns are found.
    pub fn text(&self) -> &Word
        ensures { result.now ≡ self.now }
    {
        &self.built.text
    }

    /// The same pattern, which isn't built again, or want of memory.
    pub fn copy(&self) -> Result<SharedPattern, AllocError>
        ensures { IfOk result (λ p. p ≡ self.now) }
    {
        Ok(SharedPattern {
            built: self.built.clone()?,
        })
    }
}
