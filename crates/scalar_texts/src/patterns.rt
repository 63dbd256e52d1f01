// Patterns that a whole text matches.
ghost use Rattle.std.specs.Prelude.{◌≡◌, false, IsTrue, IfOk, OnOk, IsErrOf, chars, string_bytes};
ghost use Rattle.scalar_texts.specs.Patterns.{anchored, is_pattern, matches_whole};

use regex::{Matcher, Regex};
use std::alloc::{AllocError, Global};
use std::marker::Model;
use thiserror::Error;

/// Why a pattern was not built.
#[derive(Clone, Copy, Debug, Drop, PartialEq, Eq, Error)]
pub enum PatternStop {
    /// The text is no pattern of the crate `regex`, or is nested deeper than that crate reads.
    #[error("the text is no pattern")]
    BadPattern,
    /// Memory ran out, or the built pattern would pass the size limit of the crate `regex`.
    #[error("out of memory")]
    Memory,
}

impl From<AllocError> for PatternStop {
    ghost use Rattle.std.specs.Prelude.{◌≡◌};
    ghost use Rattle.scalar_texts.specs.declared.patterns.PatternStop.TheVariants.{Memory};

    ghost from_gives = { λ _ stop. stop ≡ Memory };

    fn from(_error: AllocError) -> PatternStop {
        PatternStop::Memory
    }
}

impl From<regex::Error> for PatternStop {
    ghost use Rattle.std.specs.Prelude.{◌≡◌};
    ghost use Rattle.scalar_texts.specs.Stops.{stop_of};

    ghost from_gives = { λ error stop. stop ≡ stop_of error };

    fn from(error: regex::Error) -> PatternStop {
        match error {
            regex::Error::Syntax(_) => PatternStop::BadPattern,
            _ => PatternStop::Memory,
        }
    }
}

/// A built pattern of `match_characters`, which a text matches as a whole. Contracts see the characters of its text.
#[derive(Drop)]
pub struct Pattern {
    regex: Regex,
    alloc: Global,
}

impl Model for Pattern {
    ghost use Rattle.std.specs.Prelude.{List, ℕ, chars};
    ghost use Rattle.regex.specs.Strings.{regex_pattern, regex_source};
    ghost use Rattle.scalar_texts.specs.Patterns.{unanchored, FindsSame};

    ghost Value = { List ℕ };

    ghost view = { λ p. unanchored (chars (regex_source p.regex)) };

    ghost invariant = { λ p. FindsSame (regex_pattern p.regex) (unanchored (chars (regex_source p.regex))) };
}

impl Pattern {
    /// Builds the pattern of a text.
    pub fn build(alloc: Global, text: &str) -> Result<Pattern, PatternStop>
        ensures value { IfOk result (λ p. p ≡ chars text.now) }
        ensures pattern { OnOk result (IsTrue (is_pattern (chars text.now))) }
        ensures bad { IsErrOf result PatternStop.BadPattern → is_pattern (chars text.now) ≡ false }
    {
        let _alone = Regex::new(alloc, text)?;
        let whole = between_anchors(alloc, text)?;
        let regex = Regex::new(alloc, whole.as_str())?;
        Ok(Pattern { regex, alloc })
    }

    /// What matches many texts, with the room that it takes.
    pub fn matcher(&self) -> Result<PatternMatcher<'_>, AllocError>
        ensures { IfOk result (λ m. m ≡ self.now) }
    {
        Ok(PatternMatcher {
            pattern: self,
            matcher: self.regex.matcher(self.alloc)?,
        })
    }

    /// Whether the whole text matches.
    pub fn matches(&self, s: &str) -> Result<bool, AllocError>
        ensures { IfOk result (λ b. b ≡ matches_whole self.now (chars s.now)) }
    {
        let mut matcher = self.matcher()?;
        Ok(matcher.matches(s))
    }
}

/// A pattern with the room that matching takes, which serves many texts. Contracts see the characters of the pattern's
/// text.
#[derive(Drop)]
pub struct PatternMatcher<'a> {
    pattern: &'a Pattern,
    matcher: Matcher<'a>,
}

impl<'a> Model for PatternMatcher<'a> {
    ghost use Rattle.std.specs.Prelude.{List, ℕ};
    ghost use Rattle.regex.specs.Strings.{matcher_pattern};
    ghost use Rattle.scalar_texts.specs.Patterns.{FindsSame};

    ghost Value = { List ℕ };

    ghost view = { λ m. m.pattern.now };

    ghost invariant = { λ m. FindsSame (matcher_pattern m.matcher) m.pattern.now };
}

impl PatternMatcher<'_> {
    /// Whether the whole text matches.
    pub fn matches(&mut self, s: &str) -> bool
        ensures value { result ≡ matches_whole self.old (chars s.now) }
        ensures same { self.new ≡ self.old }
    {
        self.matcher.is_match(s)
    }
}

fn between_anchors(alloc: Global, text: &str) -> Result<String, AllocError>
    ensures { IfOk result (λ t. chars (string_bytes t) ≡ anchored (chars text.now)) }
{
    format!(in alloc; r"\A(?:{text})\z")
}
