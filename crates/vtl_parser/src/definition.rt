// Definitions.
ghost use Rattle.vtl_grammar.specs.Scripts.{definition};
ghost use Rattle.vtl_cursor.specs.Views.{ShowsDeep};
ghost use Rattle.vtl_parser.specs.Nested.{ReadsBelow};
ghost use Rattle.vtl_parser.specs.RuleParts.{rule_read};

use crate::parser::Parser;
use sqlite_items::Boxed;
use std::alloc::Global;
use vtl_cursor::{Cursor, Stop};
use vtl_syntax::Expr;
use vtl_tokens::{Keyword, Sign};
use vtl_values::Place;

/// What may be defined.
pub trait Definition: Drop {
    ghost use Rattle.vtl_values.specs.declared.place.Place.{Place};
    ghost use Rattle.vtl_grammar.specs.Rules.{Rule, Of};

    // The rule, and what is seen of what it reads and of the place of `define`.
    ghost rule: { Rule };

    ghost of: { Place → Of rule → Self };

    /// What comes after the `define` that stands at that place.
    fn parse<F: Fn(Global, &mut Cursor<'_>, u8, u8) -> Result<(Boxed<Expr>, u8), Stop> + Copy>(
        parser: &Parser<F>,
        cursor: &mut Cursor<'_>,
        place: Place,
    ) -> Result<(Self, u8), Stop>
        requires { ReadsBelow parser.now.depth (F.pre parser.now.expression) (F.post parser.now.expression) }
        ensures { ShowsDeep (of place) cursor.new.tokens.now result (rule_read parser.now.depth rule cursor.old.tokens.now) };
}

impl<F: Fn(Global, &mut Cursor<'_>, u8, u8) -> Result<(Boxed<Expr>, u8), Stop> + Copy> Parser<F> {
    /// A definition from `define` to the semicolon after it, and its levels.
    pub fn definition<T: Definition>(&self, cursor: &mut Cursor<'_>) -> Result<(T, u8), Stop>
        requires { ReadsBelow self.now.depth (F.pre self.now.expression) (F.post self.now.expression) }
        ensures { ShowsDeep (λ v. T.of v.0 v.1.0) cursor.new.tokens.now result (rule_read self.now.depth (definition T.rule) cursor.old.tokens.now) }
    {
        let place = cursor.word(Keyword::Define)?;
        let (defined, levels) = T::parse(self, cursor, place)?;
        cursor.sign(Sign::Semicolon)?;
        Ok((defined, levels))
    }
}
