// Defined operators.
ghost use Rattle.vtl_tokens.specs.declared.keyword.Keyword.TheVariants as words;
ghost use Rattle.vtl_grammar.specs.Rules.{◌▸◌, word, expr};
ghost use Rattle.vtl_grammar.specs.Reading.{below};
ghost use Rattle.vtl_cursor.specs.Limits.{limits};
ghost use Rattle.vtl_cursor.specs.Plain.{read_plain};
ghost use Rattle.vtl_cursor.specs.Views.{ShowsDeep};
ghost use Rattle.vtl_parser.specs.Nested.{ReadsBelow};

use crate::definition::Definition;
use crate::parser::Parser;
use sqlite_items::Boxed;
use std::alloc::Global;
use vtl_cursor::operators::{params, returns};
use vtl_cursor::{Cursor, Stop};
use vtl_syntax::{DefinedOperator, Expr};
use vtl_tokens::{Keyword, Sign};
use vtl_values::Place;

impl Definition for DefinedOperator {
    ghost use Rattle.vtl_grammar.specs.Operators.{operator_rule, operator_of};

    ghost rule = { operator_rule };

    ghost of = { operator_of };

    /// `operator name (params) returns sort is expr end operator`
    #[tactic(auto, using(vtl_cursor::proofs::Shown::shown_deep, vtl_cursor::proofs::Shown::shown), unfolding(crate::specs::RuleParts::rule_read))]
    fn parse<F: Fn(Global, &mut Cursor<'_>, u8, u8) -> Result<(Boxed<Expr>, u8), Stop> + Copy>(
        parser: &Parser<F>,
        cursor: &mut Cursor<'_>,
        place: Place,
    ) -> Result<(Self, u8), Stop> {
        cursor.word(Keyword::Operator)?;
        let name = cursor.name()?;
        cursor.sign(Sign::LeftParen)?;
        let params = params(parser.alloc, cursor)?;
        cursor.sign(Sign::RightParen)?;
        let returns = returns(cursor)?;
        let (body, levels) = parser.operator_body(cursor)?;
        let operator = DefinedOperator {
            name: name.value,
            params,
            returns,
            body: body.into_inner(),
            place,
        };
        Ok((operator, levels))
    }
}

impl<F: Fn(Global, &mut Cursor<'_>, u8, u8) -> Result<(Boxed<Expr>, u8), Stop> + Copy> Parser<F> {
    /// `is expr end operator`
    fn operator_body(&self, cursor: &mut Cursor<'_>) -> Result<(Boxed<Expr>, u8), Stop>
        requires { ReadsBelow self.now.depth (F.pre self.now.expression) (F.post self.now.expression) }
        ensures { ShowsDeep (λ v. v.1.0) cursor.new.tokens.now result (read_plain limits (below limits self.now.depth) (word words.Is ▸ expr 0 ▸ word words.End ▸ word words.Operator) cursor.old.tokens.now) }
    {
        cursor.word(Keyword::Is)?;
        let (body, levels) = self.operand(cursor, 0)?;
        cursor.word(Keyword::End)?;
        cursor.word(Keyword::Operator)?;
        Ok((body, levels))
    }
}
