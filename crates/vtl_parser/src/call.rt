// Calls.
ghost use Rattle.std.specs.Prelude.{option_map};
ghost use Rattle.vtl_grammar.specs.Rules.{mark, expr, ◌▸◌};
ghost use Rattle.vtl_grammar.specs.Clauses.{groups, groups_of};
ghost use Rattle.vtl_grammar.specs.Calls.{replace, substr, substr_rest, range_of, sets, count, check, over_or_groups, aggregate, aggregate_of, second};
ghost use Rattle.vtl_grammar.specs.Reading.{maybe, firsts, below};
ghost use Rattle.vtl_cursor.specs.Limits.{limits};
ghost use Rattle.vtl_cursor.specs.Plain.{read_plain};
ghost use Rattle.vtl_grammar.specs.Words.{mark_of};
ghost use Rattle.vtl_cursor.specs.Views.{GivesDeep, ShowsDeep};
ghost use Rattle.vtl_parser.specs.Checks.{check_parts, check_parts_of};
ghost use Rattle.vtl_parser.specs.Forms.{window_of, read_form, one_form, two_form};
ghost use Rattle.vtl_parser.specs.Nested.{ReadsBelow};

use crate::ending::{code, level, one_operand_end, two_operands_end};
use crate::form::{OneOperand, TwoOperands, window_of};
use crate::parser::Parser;
use sqlite_items::Boxed;
use std::alloc::Global;
use vtl_cursor::components::grouping;
use vtl_cursor::windows::over;
use vtl_cursor::{Cursor, Mark, Stop, optional_choice};
use vtl_syntax::words::{AggregateFunction, CheckOutput, SetFunction};
use vtl_syntax::{Expr, Groups, SubstrRange};
use vtl_tokens::{Keyword, Sign};
use vtl_values::{Integer, Place, Word};

/// What a check says beside its operand.
#[derive(Drop)]
pub struct CheckParts {
    pub code: Option<Word>,
    pub level: Option<Integer>,
    pub imbalance: Option<Boxed<Expr>>,
    pub output: Option<CheckOutput>,
}

impl<F: Fn(Global, &mut Cursor<'_>, u8, u8) -> Result<(Boxed<Expr>, u8), Stop> + Copy> Parser<F> {
    /// The rest of a call of one operand, after its word.
    pub fn one_operand(
        &self,
        cursor: &mut Cursor<'_>,
        call: OneOperand,
        place: Place,
    ) -> Result<(Boxed<Expr>, u8), Stop>
        requires { ReadsBelow self.now.depth (F.pre self.now.expression) (F.post self.now.expression) }
        ensures { GivesDeep cursor.new.tokens.now result (read_form limits (below limits self.now.depth) (one_form call) place cursor.old.tokens.now) }
    {
        cursor.sign(Sign::LeftParen)?;
        let (operand, levels) = self.operand(cursor, 0)?;
        let expr = one_operand_end(self.alloc, cursor, call, operand, place)?;
        Ok((expr, levels))
    }

    /// The rest of a call of two operands, after its word.
    pub fn two_operands(
        &self,
        cursor: &mut Cursor<'_>,
        call: TwoOperands,
        place: Place,
    ) -> Result<(Boxed<Expr>, u8), Stop>
        requires { ReadsBelow self.now.depth (F.pre self.now.expression) (F.post self.now.expression) }
        ensures { GivesDeep cursor.new.tokens.now result (read_form limits (below limits self.now.depth) (two_form call) place cursor.old.tokens.now) }
    {
        cursor.sign(Sign::LeftParen)?;
        let (left, in_left) = self.operand(cursor, 0)?;
        cursor.sign(Sign::Comma)?;
        let (right, in_right) = self.operand(cursor, 0)?;
        let expr = two_operands_end(self.alloc, cursor, call, left, right, place)?;
        Ok((expr, in_left.max(in_right)))
    }

    /// That word or sign and the expression after it, or nothing.
    fn after(
        &self,
        cursor: &mut Cursor<'_>,
        wanted: Mark,
    ) -> Result<(Option<Boxed<Expr>>, u8), Stop>
        requires { ReadsBelow self.now.depth (F.pre self.now.expression) (F.post self.now.expression) }
        ensures { ShowsDeep (λ v. option_map second v) cursor.new.tokens.now result (maybe (firsts (mark (mark_of wanted))) (read_plain limits (below limits self.now.depth) (mark (mark_of wanted) ▸ expr 0)) cursor.old.tokens.now) }
    {
        if !cursor.is_mark(wanted) {
            return Ok((None, 0));
        }
        cursor.pass(wanted)?;
        let (operand, levels) = self.operand(cursor, 0)?;
        Ok((Some(operand), levels))
    }

    /// The rest of `replace(a, pattern, by)`, after its word.
    pub fn replace(&self, cursor: &mut Cursor<'_>, place: Place) -> Result<(Boxed<Expr>, u8), Stop>
        requires { ReadsBelow self.now.depth (F.pre self.now.expression) (F.post self.now.expression) }
        ensures { GivesDeep cursor.new.tokens.now result (read_form limits (below limits self.now.depth) replace place cursor.old.tokens.now) }
    {
        cursor.sign(Sign::LeftParen)?;
        let (operand, in_operand) = self.operand(cursor, 0)?;
        cursor.sign(Sign::Comma)?;
        let (pattern, in_pattern) = self.operand(cursor, 0)?;
        let (by, in_by) = self.after(cursor, Mark::Sign(Sign::Comma))?;
        cursor.sign(Sign::RightParen)?;
        let expr = Expr::Replace {
            operand,
            pattern,
            by,
            place,
        };
        Ok((
            Boxed::new(self.alloc, expr)?,
            in_operand.max(in_pattern.max(in_by)),
        ))
    }

    /// The rest of `substr(a, start, length)`, after its word.
    pub fn substr(&self, cursor: &mut Cursor<'_>, place: Place) -> Result<(Boxed<Expr>, u8), Stop>
        requires { ReadsBelow self.now.depth (F.pre self.now.expression) (F.post self.now.expression) }
        ensures { GivesDeep cursor.new.tokens.now result (read_form limits (below limits self.now.depth) substr place cursor.old.tokens.now) }
    {
        cursor.sign(Sign::LeftParen)?;
        let (operand, in_operand) = self.operand(cursor, 0)?;
        let (range, in_range) = self.substr_range(cursor)?;
        let expr = Expr::Substr {
            operand,
            range,
            place,
        };
        Ok((Boxed::new(self.alloc, expr)?, in_operand.max(in_range)))
    }

    fn substr_range(&self, cursor: &mut Cursor<'_>) -> Result<(Option<SubstrRange>, u8), Stop>
        requires { ReadsBelow self.now.depth (F.pre self.now.expression) (F.post self.now.expression) }
        ensures { ShowsDeep range_of cursor.new.tokens.now result (read_plain limits (below limits self.now.depth) substr_rest cursor.old.tokens.now) }
    {
        if cursor.is_sign(Sign::RightParen) {
            cursor.sign(Sign::RightParen)?;
            return Ok((None, 0));
        }
        let place = cursor.sign(Sign::Comma)?;
        let (start, in_start) = self.operand(cursor, 0)?;
        let (length, in_length) = self.after(cursor, Mark::Sign(Sign::Comma))?;
        cursor.sign(Sign::RightParen)?;
        let range = SubstrRange {
            start,
            length,
            place,
        };
        Ok((Some(range), in_start.max(in_length)))
    }

    /// The rest of `union(a, b, ..)` and its like, after its word.
    pub fn sets(
        &self,
        cursor: &mut Cursor<'_>,
        function: SetFunction,
        place: Place,
    ) -> Result<(Boxed<Expr>, u8), Stop>
        requires { ReadsBelow self.now.depth (F.pre self.now.expression) (F.post self.now.expression) }
        ensures { GivesDeep cursor.new.tokens.now result (read_form limits (below limits self.now.depth) (sets function) place cursor.old.tokens.now) }
    {
        cursor.sign(Sign::LeftParen)?;
        let (first, in_first) = self.operand(cursor, 0)?;
        cursor.sign(Sign::Comma)?;
        let (second, in_second) = self.operand(cursor, 0)?;
        let (others, in_others) = self.other_operands::<Expr>(cursor)?;
        cursor.sign(Sign::RightParen)?;
        let expr = Expr::Sets {
            function,
            first,
            second,
            others,
            place,
        };
        Ok((
            Boxed::new(self.alloc, expr)?,
            in_first.max(in_second.max(in_others)),
        ))
    }

    /// The rest of `sum(a group by c)` and its like, or of the window of that name, after its word.
    pub fn aggregate(
        &self,
        cursor: &mut Cursor<'_>,
        function: AggregateFunction,
        place: Place,
    ) -> Result<(Boxed<Expr>, u8), Stop>
        requires { ReadsBelow self.now.depth (F.pre self.now.expression) (F.post self.now.expression) }
        ensures { GivesDeep cursor.new.tokens.now result (read_form limits (below limits self.now.depth) (aggregate function (window_of function)) place cursor.old.tokens.now) }
    {
        cursor.sign(Sign::LeftParen)?;
        let (operand, in_operand) = self.operand(cursor, 0)?;
        let (expr, in_scope) = self.aggregated(cursor, function, operand, place)?;
        Ok((expr, in_operand.max(in_scope)))
    }

    /// The windows or the groups over which an operand is aggregated, or neither, and the bracket after them.
    fn aggregated(
        &self,
        cursor: &mut Cursor<'_>,
        function: AggregateFunction,
        operand: Boxed<Expr>,
        place: Place,
    ) -> Result<(Boxed<Expr>, u8), Stop>
        requires { ReadsBelow self.now.depth (F.pre self.now.expression) (F.post self.now.expression) }
        ensures { ShowsDeep (λ v. aggregate_of function (window_of function) operand v.0 place) cursor.new.tokens.now result (read_plain limits (below limits self.now.depth) over_or_groups cursor.old.tokens.now) }
    {
        if cursor.is_word(Keyword::Over) {
            let over = over(self.alloc, cursor)?;
            cursor.sign(Sign::RightParen)?;
            let expr = Expr::Window {
                function: window_of(function),
                operand,
                over,
                place,
            };
            return Ok((Boxed::new(self.alloc, expr)?, 0));
        }
        let (groups, levels) = self.maybe_groups(cursor)?;
        cursor.sign(Sign::RightParen)?;
        let expr = Expr::Aggregate {
            function,
            operand,
            groups,
            place,
        };
        Ok((Boxed::new(self.alloc, expr)?, levels))
    }

    /// Groups, or none.
    pub fn maybe_groups(&self, cursor: &mut Cursor<'_>) -> Result<(Option<Boxed<Groups>>, u8), Stop>
        requires { ReadsBelow self.now.depth (F.pre self.now.expression) (F.post self.now.expression) }
        ensures { ShowsDeep (λ v. option_map groups_of v) cursor.new.tokens.now result (maybe (firsts groups) (read_plain limits (below limits self.now.depth) groups) cursor.old.tokens.now) }
    {
        if !cursor.is_word(Keyword::Group) {
            return Ok((None, 0));
        }
        let grouping = grouping(self.alloc, cursor)?;
        let place = grouping.place;
        let (having, levels) = self.after(cursor, Mark::Word(Keyword::Having))?;
        let groups = Groups {
            grouping,
            having,
            place,
        };
        Ok((Some(Boxed::new(self.alloc, groups)?), levels))
    }

    /// The rest of `count()`, or of `count` as an aggregate or a window, after its word.
    pub fn count(&self, cursor: &mut Cursor<'_>, place: Place) -> Result<(Boxed<Expr>, u8), Stop>
        requires { ReadsBelow self.now.depth (F.pre self.now.expression) (F.post self.now.expression) }
        ensures { GivesDeep cursor.new.tokens.now result (read_form limits (below limits self.now.depth) count place cursor.old.tokens.now) }
    {
        cursor.sign(Sign::LeftParen)?;
        if cursor.is_sign(Sign::RightParen) {
            cursor.sign(Sign::RightParen)?;
            return Ok((Boxed::new(self.alloc, Expr::CountAll { place })?, 0));
        }
        let (operand, in_operand) = self.operand(cursor, 0)?;
        let function = AggregateFunction::Count;
        let (expr, in_scope) = self.aggregated(cursor, function, operand, place)?;
        Ok((expr, in_operand.max(in_scope)))
    }

    /// The rest of `check(a ..)`, after its word.
    pub fn check(&self, cursor: &mut Cursor<'_>, place: Place) -> Result<(Boxed<Expr>, u8), Stop>
        requires { ReadsBelow self.now.depth (F.pre self.now.expression) (F.post self.now.expression) }
        ensures { GivesDeep cursor.new.tokens.now result (read_form limits (below limits self.now.depth) check place cursor.old.tokens.now) }
    {
        cursor.sign(Sign::LeftParen)?;
        let (operand, in_operand) = self.operand(cursor, 0)?;
        let (parts, in_parts) = self.check_parts(cursor)?;
        let expr = Expr::Check {
            operand,
            code: parts.code,
            level: parts.level,
            imbalance: parts.imbalance,
            output: parts.output,
            place,
        };
        Ok((Boxed::new(self.alloc, expr)?, in_operand.max(in_parts)))
    }

    /// What a check says beside its operand, and the bracket after it.
    fn check_parts(&self, cursor: &mut Cursor<'_>) -> Result<(CheckParts, u8), Stop>
        requires { ReadsBelow self.now.depth (F.pre self.now.expression) (F.post self.now.expression) }
        ensures { ShowsDeep check_parts_of cursor.new.tokens.now result (read_plain limits (below limits self.now.depth) check_parts cursor.old.tokens.now) }
    {
        let code = code(cursor)?;
        let level = level(cursor)?;
        let (imbalance, levels) = self.after(cursor, Mark::Word(Keyword::Imbalance))?;
        let output = optional_choice(cursor);
        cursor.sign(Sign::RightParen)?;
        let parts = CheckParts {
            code,
            level,
            imbalance,
            output,
        };
        Ok((parts, levels))
    }
}
