// Joins.
ghost use Rattle.std.specs.Prelude.{◌≡◌};
ghost use Rattle.vtl_grammar.specs.Rules.{clause};
ghost use Rattle.vtl_grammar.specs.Clauses.{join_part_rule, join_part_tree};
ghost use Rattle.vtl_grammar.specs.Calls.{join, join_clauses};
ghost use Rattle.vtl_grammar.specs.Reading.{maybe, join_part_firsts, starts, below};
ghost use Rattle.vtl_cursor.specs.Limits.{limits};
ghost use Rattle.vtl_cursor.specs.Plain.{read_plain};
ghost use Rattle.vtl_cursor.specs.Views.{GivesDeep, ShowsDeep};
ghost use Rattle.vtl_parser.specs.Forms.{read_form};
ghost use Rattle.vtl_parser.specs.Joins.{join_part_of, last_clauses, last_clauses_of, clauses_of, join_rest, join_rest_of, whole_join, whole_join_of};
ghost use Rattle.vtl_parser.specs.Nested.{ReadsBelow};

use crate::parser::{ListItem, Parser};
use crate::plain_clause::{kept_clause, rename_clause};
use sqlite_items::{Boxed, Items};
use std::alloc::Global;
use vtl_cursor::outputs::alias;
use vtl_cursor::{Cursor, Kind, Stop};
use vtl_syntax::words::JoinFunction;
use vtl_syntax::{Clause, Expr, JoinOperand};
use vtl_tokens::{Keyword, Sign};
use vtl_values::Place;

/// The places for a clause in a join.
#[derive(Clone, Copy)]
pub enum JoinPart {
    Filter,
    Calc,
    Keep,
    Rename,
}

/// The clauses of a join.
#[derive(Drop)]
pub struct JoinClauses {
    pub filter: Option<Boxed<Clause>>,
    pub calc: Option<Boxed<Clause>>,
    pub keep: Option<Boxed<Clause>>,
    pub rename: Option<Boxed<Clause>>,
}

impl<F: Fn(Global, &mut Cursor<'_>, u8, u8) -> Result<(Boxed<Expr>, u8), Stop> + Copy> Parser<F> {
    /// The rest of `inner_join(a, b, ..)` and its like, after its word.
    pub fn join(
        &self,
        cursor: &mut Cursor<'_>,
        function: JoinFunction,
        place: Place,
    ) -> Result<(Boxed<Expr>, u8), Stop>
        requires { ReadsBelow self.now.depth (F.pre self.now.expression) (F.post self.now.expression) }
        ensures { GivesDeep cursor.new.tokens.now result (read_form limits (below limits self.now.depth) (join function) place cursor.old.tokens.now) }
    {
        let ((first, ((second, others), clauses)), levels) = self.join_parts::<JoinOperand>(
            cursor,
        )?;
        let expr = Expr::Join {
            function,
            first,
            second,
            others,
            filter: clauses.filter,
            calc: clauses.calc,
            keep: clauses.keep,
            rename: clauses.rename,
            place,
        };
        Ok((Boxed::new(self.alloc, expr)?, levels))
    }

    /// The operands of a join and its clauses.
    fn join_parts<T: ListItem>(
        &self,
        cursor: &mut Cursor<'_>,
    ) -> Result<((Boxed<T>, ((Boxed<T>, Items<T>), JoinClauses)), u8), Stop>
        requires { ReadsBelow self.now.depth (F.pre self.now.expression) (F.post self.now.expression) }
        ensures { ShowsDeep (whole_join_of T.rule T.of) cursor.new.tokens.now result (read_plain limits (below limits self.now.depth) (whole_join T.rule) cursor.old.tokens.now) }
    {
        cursor.sign(Sign::LeftParen)?;
        let (first, in_first) = T::parse(self, cursor)?;
        let first = Boxed::new(self.alloc, first)?;
        cursor.sign(Sign::Comma)?;
        let (rest, in_rest) = self.join_rest::<T>(cursor)?;
        Ok(((first, rest), in_first.max(in_rest)))
    }

    /// The operands of a join after the first, and its clauses.
    fn join_rest<T: ListItem>(
        &self,
        cursor: &mut Cursor<'_>,
    ) -> Result<(((Boxed<T>, Items<T>), JoinClauses), u8), Stop>
        requires { ReadsBelow self.now.depth (F.pre self.now.expression) (F.post self.now.expression) }
        ensures { ShowsDeep (join_rest_of T.rule T.of) cursor.new.tokens.now result (read_plain limits (below limits self.now.depth) (join_rest T.rule) cursor.old.tokens.now) }
    {
        let (operands, in_operands) = self.first_and_others::<T>(cursor)?;
        let (clauses, in_clauses) = self.join_clauses(cursor)?;
        Ok(((operands, clauses), in_operands.max(in_clauses)))
    }

    /// The clauses, and the bracket after them.
    fn join_clauses(&self, cursor: &mut Cursor<'_>) -> Result<(JoinClauses, u8), Stop>
        requires { ReadsBelow self.now.depth (F.pre self.now.expression) (F.post self.now.expression) }
        ensures { ShowsDeep clauses_of cursor.new.tokens.now result (read_plain limits (below limits self.now.depth) join_clauses cursor.old.tokens.now) }
    {
        let (filter, in_filter) = self.maybe_clause(cursor, JoinPart::Filter)?;
        let (calc, in_calc) = self.maybe_clause(cursor, JoinPart::Calc)?;
        let ((keep, rename), in_last) = self.last_clauses(cursor)?;
        let clauses = JoinClauses {
            filter,
            calc,
            keep,
            rename,
        };
        Ok((clauses, in_filter.max(in_calc.max(in_last))))
    }

    /// The last two of the clauses, and the bracket after them.
    fn last_clauses(
        &self,
        cursor: &mut Cursor<'_>,
    ) -> Result<((Option<Boxed<Clause>>, Option<Boxed<Clause>>), u8), Stop>
        requires { ReadsBelow self.now.depth (F.pre self.now.expression) (F.post self.now.expression) }
        ensures { ShowsDeep last_clauses_of cursor.new.tokens.now result (read_plain limits (below limits self.now.depth) last_clauses cursor.old.tokens.now) }
    {
        let (keep, in_keep) = self.maybe_clause(cursor, JoinPart::Keep)?;
        let (rename, in_rename) = self.maybe_clause(cursor, JoinPart::Rename)?;
        cursor.sign(Sign::RightParen)?;
        Ok(((keep, rename), in_keep.max(in_rename)))
    }

    /// A clause in its place, or none. It is one level further in.
    fn maybe_clause(
        &self,
        cursor: &mut Cursor<'_>,
        join_part: JoinPart,
    ) -> Result<(Option<Boxed<Clause>>, u8), Stop>
        requires { ReadsBelow self.now.depth (F.pre self.now.expression) (F.post self.now.expression) }
        ensures { GivesDeep cursor.new.tokens.now result (maybe (join_part_firsts (join_part_of join_part)) (below limits self.now.depth (clause (join_part_of join_part))) cursor.old.tokens.now) }
    {
        if !is_join_part(cursor, join_part) {
            return Ok((None, 0));
        }
        if self.depth < 2 {
            return Err(Stop::At(Kind::TooDeep));
        }
        let deeper = Parser {
            alloc: self.alloc,
            depth: self.depth - 1,
            expression: self.expression,
        };
        let (clause, levels) = deeper.join_part_clause(cursor, join_part)?;
        Ok((Some(clause), levels + 1))
    }

    fn join_part_clause(
        &self,
        cursor: &mut Cursor<'_>,
        join_part: JoinPart,
    ) -> Result<(Boxed<Clause>, u8), Stop>
        requires { ReadsBelow self.now.depth (F.pre self.now.expression) (F.post self.now.expression) }
        ensures { ShowsDeep (join_part_tree (join_part_of join_part)) cursor.new.tokens.now result (read_plain limits (below limits self.now.depth) (join_part_rule (join_part_of join_part)) cursor.old.tokens.now) }
    {
        match join_part {
            JoinPart::Filter => self.filter_clause(cursor),
            JoinPart::Calc => self.calc_clause(cursor),
            JoinPart::Keep => {
                let clause = kept_clause(self.alloc, cursor)?;
                Ok((clause, 0))
            }
            JoinPart::Rename => {
                let clause = rename_clause(self.alloc, cursor)?;
                Ok((clause, 0))
            }
        }
    }
}

/// Whether a clause for that place stands there.
fn is_join_part(cursor: &Cursor, join_part: JoinPart) -> bool
    ensures { result ≡ starts (join_part_firsts (join_part_of join_part)) cursor.now.tokens.now }
{
    match join_part {
        JoinPart::Filter => cursor.is_word(Keyword::Filter),
        JoinPart::Calc => cursor.is_word(Keyword::Calc),
        JoinPart::Keep => cursor.is_word(Keyword::Keep) || cursor.is_word(Keyword::Drop),
        JoinPart::Rename => cursor.is_word(Keyword::Rename),
    }
}

impl ListItem for JoinOperand {
    ghost use Rattle.vtl_grammar.specs.Calls.{join_operand, join_operand_of};

    ghost rule = { join_operand };

    ghost of = { join_operand_of };

    /// `expression as name`
    fn parse<F: Fn(Global, &mut Cursor<'_>, u8, u8) -> Result<(Boxed<Expr>, u8), Stop> + Copy>(
        parser: &Parser<F>,
        cursor: &mut Cursor<'_>,
    ) -> Result<(Self, u8), Stop> {
        let place = cursor.first_place();
        let (expr, levels) = parser.operand(cursor, 0)?;
        let alias = alias(cursor)?;
        Ok((JoinOperand { expr, alias, place }, levels))
    }
}
