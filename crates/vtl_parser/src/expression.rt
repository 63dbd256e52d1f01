// Expressions.
ghost use Rattle.std.specs.Prelude.{◌≡◌, ◌≤◌, ◌<◌, ◌-◌, suc, IfOk};
ghost use Rattle.vtl_grammar.specs.Rules.{◌▸◌, option, expression, expr, commas, close_paren};
ghost use Rattle.vtl_grammar.specs.Forms.{conditional, bracket, signed_form};
ghost use Rattle.vtl_grammar.specs.Reading.{read_front, read_tails, part_at, below};
ghost use Rattle.vtl_cursor.specs.Limits.{limits};
ghost use Rattle.vtl_cursor.specs.Plain.{read_plain};
ghost use Rattle.vtl_cursor.specs.Views.{GivesDeep, ShowsDeep};
ghost use Rattle.vtl_parser.specs.Forms.{IsName, arguments_of, prefix_form, suffix_tail, read_form, read_tail};
ghost use Rattle.vtl_parser.specs.Nested.{ReadsBelow};
ghost use Rattle.vtl_parser.specs.Views.{GivesFront};
ghost use Rattle.vtl_parser.specs.declared.form.SuffixForm.TheVariants as suffixes;

use crate::ending::{member, member_of_set, rank};
use crate::form::{Infix, PrefixForm, SuffixForm};
use crate::leaf::{call_of, joined, leaf, prefix_form_there, suffix_form_there};
use crate::parser::Parser;
use sqlite_items::{Boxed, Items};
use std::alloc::Global;
use vtl_cursor::{Cursor, Kind, Limit, Stop};
use vtl_syntax::Expr;
use vtl_syntax::words::Prefix;
use vtl_tokens::{Keyword, Sign};
use vtl_values::Place;

/// An expression of that precedence or a higher one, with so many levels at most, and its levels.
pub fn expression(
    alloc: Global,
    cursor: &mut Cursor<'_>,
    precedence: u8,
    depth: u8,
) -> Result<(Boxed<Expr>, u8), Stop>
    ensures { GivesDeep cursor.new.tokens.now result (part_at limits depth (expression precedence) cursor.old.tokens.now) }
{
    Parser {
        alloc,
        depth,
        expression,
    }
    .whole(cursor, precedence)
}

impl<F: Fn(Global, &mut Cursor<'_>, u8, u8) -> Result<(Boxed<Expr>, u8), Stop> + Copy> Parser<F> {
    /// An expression of that precedence or a higher one, and its levels.
    pub fn whole(&self, cursor: &mut Cursor<'_>, precedence: u8) -> Result<(Boxed<Expr>, u8), Stop>
        requires { ReadsBelow self.now.depth (F.pre self.now.expression) (F.post self.now.expression) }
        ensures { GivesDeep cursor.new.tokens.now result (part_at limits self.now.depth (expression precedence) cursor.old.tokens.now) }
    {
        let (front, at, levels) = self.front(cursor, precedence)?;
        self.tails(cursor, precedence, front, at, levels)
    }

    /// The front of such an expression: a leaf, or a form with its own word. Its precedence, and its levels.
    fn front(&self, cursor: &mut Cursor<'_>, precedence: u8) -> Result<(Boxed<Expr>, u8, u8), Stop>
        requires { ReadsBelow self.now.depth (F.pre self.now.expression) (F.post self.now.expression) }
        ensures read { GivesFront cursor.new.tokens.now result (read_front limits (below limits self.now.depth) self.now.depth precedence cursor.old.tokens.now) }
        ensures name { IfOk result (λ front. 9 ≤ front.1 → IsName front.0) }
    {
        if let Some((leaf, own)) = leaf(self.alloc, cursor)? {
            if own < precedence {
                return Err(Stop::At(Kind::Expected));
            }
            cursor.skip();
            return Ok((leaf, own, 0));
        }
        let Some((prefix, place)) = prefix_form_there(cursor) else {
            return Err(Stop::At(Kind::Expected));
        };
        let own = prefix.precedence();
        if own < precedence {
            return Err(Stop::At(Kind::Expected));
        }
        if self.depth == 0 {
            return Err(Stop::At(Kind::TooDeep));
        }
        cursor.skip();
        let (form, levels) = self.form(cursor, prefix, place)?;
        Ok((form, own, levels + 1))
    }

    /// What goes on after a front, in an expression of that precedence.
    fn tails(
        &self,
        cursor: &mut Cursor<'_>,
        precedence: u8,
        front: Boxed<Expr>,
        own: u8,
        levels: u8,
    ) -> Result<(Boxed<Expr>, u8), Stop>
        requires reads { ReadsBelow self.now.depth (F.pre self.now.expression) (F.post self.now.expression) }
        requires low { levels ≤ self.now.depth }
        requires name { 9 ≤ own → IsName front }
        ensures { GivesDeep cursor.new.tokens.now result (read_tails limits (below limits self.now.depth) self.now.depth precedence (suc (self.now.depth - levels)) (record { expr = front; precedence = own }) levels cursor.old.tokens.now) }
    {
        let Some((suffix, place)) = suffix_form_there(cursor) else {
            return Ok((front, levels));
        };
        let next = suffix.precedence();
        if next < precedence || own < suffix.operand() {
            return Ok((front, levels));
        }
        if levels == self.depth {
            return Err(Stop::At(Kind::TooDeep));
        }
        cursor.skip();
        let (longer, inside) = self.tail(cursor, suffix, front, place)?;
        self.tails(cursor, precedence, longer, next, levels.max(inside) + 1)
    }

    /// What comes after the word or the sign of a form.
    fn form(
        &self,
        cursor: &mut Cursor<'_>,
        prefix: PrefixForm,
        place: Place,
    ) -> Result<(Boxed<Expr>, u8), Stop>
        requires { ReadsBelow self.now.depth (F.pre self.now.expression) (F.post self.now.expression) }
        ensures { GivesDeep cursor.new.tokens.now result (read_form limits (below limits self.now.depth) (prefix_form prefix) place cursor.old.tokens.now) }
    {
        match prefix {
            PrefixForm::If => self.conditional(cursor, place),
            PrefixForm::Bracket => self.bracket(cursor, place),
            PrefixForm::Signed(sign) => self.signed(cursor, sign, place),
            PrefixForm::One(call) => self.one_operand(cursor, call, place),
            PrefixForm::Two(call) => self.two_operands(cursor, call, place),
            PrefixForm::Substr => self.substr(cursor, place),
            PrefixForm::Replace => self.replace(cursor, place),
            PrefixForm::Sets(function) => self.sets(cursor, function, place),
            PrefixForm::Join(function) => self.join(cursor, function, place),
            PrefixForm::Aggregate(function) => self.aggregate(cursor, function, place),
            PrefixForm::Count => self.count(cursor, place),
            PrefixForm::Rank => rank(self.alloc, cursor, place),
            PrefixForm::Check => self.check(cursor, place),
        }
    }

    fn conditional(&self, cursor: &mut Cursor<'_>, place: Place) -> Result<(Boxed<Expr>, u8), Stop>
        requires { ReadsBelow self.now.depth (F.pre self.now.expression) (F.post self.now.expression) }
        ensures { GivesDeep cursor.new.tokens.now result (read_form limits (below limits self.now.depth) conditional place cursor.old.tokens.now) }
    {
        let (condition, in_condition) = self.operand(cursor, 0)?;
        cursor.word(Keyword::Then)?;
        let (holds, in_holds) = self.operand(cursor, 0)?;
        cursor.word(Keyword::Else)?;
        let (fails, in_fails) = self.operand(cursor, 0)?;
        let levels = in_condition.max(in_holds.max(in_fails));
        let expr = Expr::If {
            condition,
            holds,
            fails,
            place,
        };
        Ok((Boxed::new(self.alloc, expr)?, levels))
    }

    fn bracket(&self, cursor: &mut Cursor<'_>, place: Place) -> Result<(Boxed<Expr>, u8), Stop>
        requires { ReadsBelow self.now.depth (F.pre self.now.expression) (F.post self.now.expression) }
        ensures { GivesDeep cursor.new.tokens.now result (read_form limits (below limits self.now.depth) bracket place cursor.old.tokens.now) }
    {
        let (inner, levels) = self.operand(cursor, 0)?;
        cursor.sign(Sign::RightParen)?;
        Ok((
            Boxed::new(self.alloc, Expr::Bracket { inner, place })?,
            levels,
        ))
    }

    fn signed(
        &self,
        cursor: &mut Cursor<'_>,
        sign: Prefix,
        place: Place,
    ) -> Result<(Boxed<Expr>, u8), Stop>
        requires { ReadsBelow self.now.depth (F.pre self.now.expression) (F.post self.now.expression) }
        ensures { GivesDeep cursor.new.tokens.now result (read_form limits (below limits self.now.depth) (signed_form sign) place cursor.old.tokens.now) }
    {
        let (operand, levels) = self.operand(cursor, 6)?;
        let expr = Expr::Signed {
            sign,
            operand,
            place,
        };
        Ok((Boxed::new(self.alloc, expr)?, levels))
    }

    /// What comes after the word or the sign with which an expression goes on.
    fn tail(
        &self,
        cursor: &mut Cursor<'_>,
        suffix: SuffixForm,
        left: Boxed<Expr>,
        place: Place,
    ) -> Result<(Boxed<Expr>, u8), Stop>
        requires reads { ReadsBelow self.now.depth (F.pre self.now.expression) (F.post self.now.expression) }
        requires some { 0 < self.now.depth }
        requires name { 9 ≤ (suffix_tail suffix).operand → IsName left }
        ensures { GivesDeep cursor.new.tokens.now result (read_tail limits (below limits self.now.depth) (suffix_tail suffix) left place cursor.old.tokens.now) }
    {
        match suffix {
            SuffixForm::Infix(sign) => self.infix(cursor, sign, left, place),
            SuffixForm::In(sign) => member_of_set(self.alloc, cursor, sign, left, place),
            SuffixForm::Call => self.call(cursor, left, place),
            SuffixForm::Member => member(self.alloc, cursor, left, place),
            SuffixForm::Clause => self.clause_tail(cursor, left, place),
        }
    }

    fn infix(
        &self,
        cursor: &mut Cursor<'_>,
        sign: Infix,
        left: Boxed<Expr>,
        place: Place,
    ) -> Result<(Boxed<Expr>, u8), Stop>
        requires { ReadsBelow self.now.depth (F.pre self.now.expression) (F.post self.now.expression) }
        ensures { GivesDeep cursor.new.tokens.now result (read_tail limits (below limits self.now.depth) (suffix_tail (suffixes.Infix sign)) left place cursor.old.tokens.now) }
    {
        let (right, levels) = self.operand(cursor, sign.precedence() + 1)?;
        Ok((joined(self.alloc, sign, left, right, place)?, levels))
    }

    /// A call of a defined operator, after its name and the bracket there.
    fn call(
        &self,
        cursor: &mut Cursor<'_>,
        operator: Boxed<Expr>,
        bracket: Place,
    ) -> Result<(Boxed<Expr>, u8), Stop>
        requires reads { ReadsBelow self.now.depth (F.pre self.now.expression) (F.post self.now.expression) }
        requires some { 0 < self.now.depth }
        requires name { IsName operator }
        ensures { GivesDeep cursor.new.tokens.now result (read_tail limits (below limits self.now.depth) (suffix_tail suffixes.Call) operator bracket cursor.old.tokens.now) }
    {
        let (arguments, levels) = self.arguments(cursor)?;
        Ok((call_of(self.alloc, operator.get(), arguments)?, levels))
    }

    /// Arguments with commas between them, if there are any, and the bracket after them.
    fn arguments(&self, cursor: &mut Cursor<'_>) -> Result<(Items<Expr>, u8), Stop>
        requires reads { ReadsBelow self.now.depth (F.pre self.now.expression) (F.post self.now.expression) }
        requires some { 0 < self.now.depth }
        ensures { ShowsDeep (λ v. arguments_of v.0) cursor.new.tokens.now result (read_plain limits (below limits self.now.depth) (option (commas (expr 0)) close_paren) cursor.old.tokens.now) }
    {
        if cursor.is_sign(Sign::RightParen) {
            cursor.sign(Sign::RightParen)?;
            return Ok((Items::new(self.alloc), 0));
        }
        let (arguments, levels) = self.list::<Expr>(cursor, Sign::Comma, Limit::Lists)?;
        cursor.sign(Sign::RightParen)?;
        Ok((arguments, levels))
    }
}
