// Matchers that serve many points.
ghost use Rattle.std.specs.Prelude.{◌≡◌, Some, chars, slice_get, IfOk, IfSome};
ghost use Rattle.std.specs.Bool.{OnTrue};
ghost use Rattle.scalar_texts.specs.Patterns.{matches_whole};

use scalar_texts::PatternMatcher;
use scalar_trees::SharedPattern;
use std::alloc::{AllocError, Global};
use std::marker::Model;

/// A pattern with its matcher. Contracts see the characters of the pattern's text.
#[derive(Drop)]
struct Kept<'a> {
    pattern: &'a SharedPattern,
    matcher: PatternMatcher<'a>,
}

impl<'a> Model for Kept<'a> {
    ghost use Rattle.std.specs.Prelude.{◌≡◌, List, ℕ};

    ghost Value = { List ℕ };

    ghost view = { λ k. k.pattern.now };

    ghost invariant = { λ k. k.matcher ≡ k.pattern.now };
}

impl<'a> Kept<'a> {
    fn of(pattern: &'a SharedPattern) -> Result<Kept<'a>, AllocError>
        ensures { IfOk result (λ kept. kept ≡ pattern.now) }
    {
        Ok(Kept {
            pattern,
            matcher: pattern.get().matcher()?,
        })
    }

    fn is_of(&self, pattern: &SharedPattern) -> bool
        ensures { OnTrue result (self.now ≡ pattern.now) }
    {
        self.pattern.text() == pattern.text()
    }

    fn matches(&mut self, text: &str) -> bool
        ensures value { result ≡ matches_whole self.old (chars text.now) }
        ensures same { self.new ≡ self.old }
    {
        self.matcher.matches(text)
    }
}

/// The place of the matcher of a pattern, if it is kept.
fn place_of(kept: &[Kept<'_>], pattern: &SharedPattern) -> Option<usize>
    ensures { IfSome result (λ place. slice_get kept.now place ≡ Some pattern.now) }
{
    for (place, kept) in kept.iter().enumerate() {
        if kept.is_of(pattern) {
            return Some(place);
        }
    }
    None
}

/// The matchers of the patterns that were met in a work, each made when its pattern is first met.
#[derive(Drop)]
pub struct Matchers<'a> {
    kept: Vec<Kept<'a>>,
}

impl<'a> Matchers<'a> {
    /// None yet.
    pub fn new(alloc: Global) -> Matchers<'a> {
        Matchers {
            kept: Vec::new(alloc),
        }
    }

    /// Whether the whole text matches the pattern.
    pub fn matches(&mut self, pattern: &'a SharedPattern, text: &str) -> Result<bool, AllocError>
        ensures { IfOk result (λ b. b ≡ matches_whole pattern.now (chars text.now)) }
    {
        if let Some(place) = place_of(self.kept.as_slice(), pattern) {
            return Ok(self.kept[place].matches(text));
        }
        let mut kept = Kept::of(pattern)?;
        let is_match = kept.matches(text);
        self.kept.push(kept)?;
        Ok(is_match)
    }
}
