// Clauses after a data set.
ghost use Rattle.vtl_grammar.specs.Clauses.{clause_rule, clause_of, filter_rule, filter_of, calc_rule, calc_of, aggr_rule, aggr_of};
ghost use Rattle.vtl_grammar.specs.Reading.{below};
ghost use Rattle.vtl_cursor.specs.Limits.{limits};
ghost use Rattle.vtl_cursor.specs.Plain.{read_plain};
ghost use Rattle.vtl_cursor.specs.Views.{GivesDeep, ShowsDeep};
ghost use Rattle.vtl_parser.specs.Forms.{suffix_tail, read_tail};
ghost use Rattle.vtl_parser.specs.Nested.{ReadsBelow};
ghost use Rattle.vtl_parser.specs.declared.form.SuffixForm.TheVariants as suffixes;

use crate::parser::{ListItem, Parser};
use crate::plain_clause::{drop_clause, keep_clause, rename_clause, sub_clause, unpivot_clause};
use sqlite_items::Boxed;
use std::alloc::Global;
use vtl_cursor::{Cursor, Limit, Stop, optional_choice};
use vtl_syntax::{Clause, Expr, Item};
use vtl_tokens::{Keyword, Sign};
use vtl_values::Place;

impl<F: Fn(Global, &mut Cursor<'_>, u8, u8) -> Result<(Boxed<Expr>, u8), Stop> + Copy> Parser<F> {
    /// The clause after `[`, and the bracket after it.
    pub fn clause_tail(
        &self,
        cursor: &mut Cursor<'_>,
        operand: Boxed<Expr>,
        place: Place,
    ) -> Result<(Boxed<Expr>, u8), Stop>
        requires { ReadsBelow self.now.depth (F.pre self.now.expression) (F.post self.now.expression) }
        ensures { GivesDeep cursor.new.tokens.now result (read_tail limits (below limits self.now.depth) (suffix_tail suffixes.Clause) operand place cursor.old.tokens.now) }
    {
        let (clause, levels) = self.clause(cursor)?;
        cursor.sign(Sign::RightBracket)?;
        let expr = Expr::Clause {
            operand,
            clause,
            place,
        };
        Ok((Boxed::new(self.alloc, expr)?, levels))
    }

    fn clause(&self, cursor: &mut Cursor<'_>) -> Result<(Boxed<Clause>, u8), Stop>
        requires { ReadsBelow self.now.depth (F.pre self.now.expression) (F.post self.now.expression) }
        ensures { ShowsDeep clause_of cursor.new.tokens.now result (read_plain limits (below limits self.now.depth) clause_rule cursor.old.tokens.now) }
    {
        if cursor.is_word(Keyword::Filter) {
            let (clause, levels) = self.filter_clause(cursor)?;
            return Ok((clause, levels));
        }
        if cursor.is_word(Keyword::Calc) {
            let (clause, levels) = self.calc_clause(cursor)?;
            return Ok((clause, levels));
        }
        if cursor.is_word(Keyword::Keep) {
            let clause = keep_clause(self.alloc, cursor)?;
            return Ok((clause, 0));
        }
        if cursor.is_word(Keyword::Drop) {
            let clause = drop_clause(self.alloc, cursor)?;
            return Ok((clause, 0));
        }
        if cursor.is_word(Keyword::Rename) {
            let clause = rename_clause(self.alloc, cursor)?;
            return Ok((clause, 0));
        }
        if cursor.is_word(Keyword::Sub) {
            let clause = sub_clause(self.alloc, cursor)?;
            return Ok((clause, 0));
        }
        if cursor.is_word(Keyword::Unpivot) {
            let clause = unpivot_clause(self.alloc, cursor)?;
            return Ok((clause, 0));
        }
        let (clause, levels) = self.aggr_clause(cursor)?;
        Ok((clause, levels))
    }

    /// `filter condition`
    pub fn filter_clause(&self, cursor: &mut Cursor<'_>) -> Result<(Boxed<Clause>, u8), Stop>
        requires { ReadsBelow self.now.depth (F.pre self.now.expression) (F.post self.now.expression) }
        ensures { ShowsDeep filter_of cursor.new.tokens.now result (read_plain limits (below limits self.now.depth) filter_rule cursor.old.tokens.now) }
    {
        let place = cursor.word(Keyword::Filter)?;
        let (condition, levels) = self.operand(cursor, 0)?;
        let clause = Clause::Filter { condition, place };
        Ok((Boxed::new(self.alloc, clause)?, levels))
    }

    /// `calc item, ..`
    pub fn calc_clause(&self, cursor: &mut Cursor<'_>) -> Result<(Boxed<Clause>, u8), Stop>
        requires { ReadsBelow self.now.depth (F.pre self.now.expression) (F.post self.now.expression) }
        ensures { ShowsDeep calc_of cursor.new.tokens.now result (read_plain limits (below limits self.now.depth) calc_rule cursor.old.tokens.now) }
    {
        let place = cursor.word(Keyword::Calc)?;
        let (items, levels) = self.list::<Item>(cursor, Sign::Comma, Limit::Lists)?;
        let clause = Clause::Calc { items, place };
        Ok((Boxed::new(self.alloc, clause)?, levels))
    }

    fn aggr_clause(&self, cursor: &mut Cursor<'_>) -> Result<(Boxed<Clause>, u8), Stop>
        requires { ReadsBelow self.now.depth (F.pre self.now.expression) (F.post self.now.expression) }
        ensures { ShowsDeep aggr_of cursor.new.tokens.now result (read_plain limits (below limits self.now.depth) aggr_rule cursor.old.tokens.now) }
    {
        let place = cursor.word(Keyword::Aggr)?;
        let (items, in_items) = self.list::<Item>(cursor, Sign::Comma, Limit::Lists)?;
        let (groups, in_groups) = self.maybe_groups(cursor)?;
        let clause = Clause::Aggr {
            items,
            groups,
            place,
        };
        Ok((Boxed::new(self.alloc, clause)?, in_items.max(in_groups)))
    }
}

impl ListItem for Item {
    ghost use Rattle.vtl_grammar.specs.Clauses.{item, item_of};

    ghost rule = { item };

    ghost of = { item_of };

    /// `measure name := expression`
    fn parse<F: Fn(Global, &mut Cursor<'_>, u8, u8) -> Result<(Boxed<Expr>, u8), Stop> + Copy>(
        parser: &Parser<F>,
        cursor: &mut Cursor<'_>,
    ) -> Result<(Self, u8), Stop> {
        let place = cursor.first_place();
        let role = optional_choice(cursor);
        let name = cursor.name()?;
        cursor.sign(Sign::Assign)?;
        let (expr, levels) = parser.operand(cursor, 0)?;
        let item = Item {
            role,
            name: name.value,
            expr,
            place,
        };
        Ok((item, levels))
    }
}
