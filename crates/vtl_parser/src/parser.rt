// What reads by the rules that may hold expressions.
ghost use Rattle.std.specs.Prelude.{map};
ghost use Rattle.vtl_grammar.specs.Rules.{◌▸◌, expression, repeated, operands, comma, sig, listed};
ghost use Rattle.vtl_grammar.specs.Reading.{below, firsts, read_more};
ghost use Rattle.vtl_cursor.specs.Limits.{limits};
ghost use Rattle.vtl_cursor.specs.Lists.{after, others};
ghost use Rattle.vtl_cursor.specs.Plain.{read_plain};
ghost use Rattle.vtl_cursor.specs.Views.{GivesDeep, ShowsDeep, joined, limit_of};
ghost use Rattle.vtl_parser.specs.Nested.{ReadsBelow};
ghost use Rattle.vtl_parser.specs.Operands.{first_and_others_of};

use sqlite_items::{Boxed, Items};
use std::alloc::Global;
use vtl_cursor::{Cursor, Kind, Limit, Stop};
use vtl_syntax::Expr;
use vtl_tokens::Sign;

/// Reads by the rules that may hold expressions, each of which `expression` reads. So each function is proved by
/// itself, outside the recursion.
#[derive(Clone, Copy)]
pub struct Parser<F> {
    pub alloc: Global,
    /// How many levels there may be. An expression inside has fewer.
    pub depth: u8,
    /// Reads an expression of a precedence or a higher one, with so many levels at most, and its levels.
    pub expression: F,
}

/// An item of a list, which may hold expressions.
pub trait ListItem: Drop {
    ghost use Rattle.vtl_grammar.specs.Rules.{Rule, Of};

    // The rule, and what is seen of what it reads.
    ghost rule: { Rule };

    ghost of: { Of rule → Self };

    fn parse<F: Fn(Global, &mut Cursor<'_>, u8, u8) -> Result<(Boxed<Expr>, u8), Stop> + Copy>(
        parser: &Parser<F>,
        cursor: &mut Cursor<'_>,
    ) -> Result<(Self, u8), Stop>
        requires { ReadsBelow parser.now.depth (F.pre parser.now.expression) (F.post parser.now.expression) }
        ensures { ShowsDeep of cursor.new.tokens.now result (read_plain limits (below limits parser.now.depth) rule cursor.old.tokens.now) };
}

impl<F: Fn(Global, &mut Cursor<'_>, u8, u8) -> Result<(Boxed<Expr>, u8), Stop> + Copy> Parser<F> {
    /// An expression of that precedence or a higher one, which has fewer levels.
    pub fn operand(
        &self,
        cursor: &mut Cursor<'_>,
        precedence: u8,
    ) -> Result<(Boxed<Expr>, u8), Stop>
        requires { ReadsBelow self.now.depth (F.pre self.now.expression) (F.post self.now.expression) }
        ensures { GivesDeep cursor.new.tokens.now result (below limits self.now.depth (expression precedence) cursor.old.tokens.now) }
    {
        if self.depth == 0 {
            return Err(Stop::At(Kind::TooDeep));
        }
        (self.expression)(self.alloc, cursor, precedence, self.depth - 1)
    }

    /// An item, and as many others as there may be, with that sign between them.
    pub fn list<T: ListItem>(
        &self,
        cursor: &mut Cursor<'_>,
        separator: Sign,
        limit: Limit,
    ) -> Result<(Items<T>, u8), Stop>
        requires { ReadsBelow self.now.depth (F.pre self.now.expression) (F.post self.now.expression) }
        ensures { ShowsDeep (listed T.of) cursor.new.tokens.now result (read_plain limits (below limits self.now.depth) (repeated (limit_of limit) T.rule (sig separator ▸ T.rule)) cursor.old.tokens.now) }
    {
        let (first, levels) = T::parse(self, cursor)?;
        let mut items = Items::new(self.alloc);
        items.push(first)?;
        self.more(cursor, separator, limit, items, levels)
    }

    /// An operand, and as many others as there may be, with a comma before each.
    pub fn first_and_others<T: ListItem>(
        &self,
        cursor: &mut Cursor<'_>,
    ) -> Result<((Boxed<T>, Items<T>), u8), Stop>
        requires { ReadsBelow self.now.depth (F.pre self.now.expression) (F.post self.now.expression) }
        ensures { ShowsDeep (first_and_others_of T.of) cursor.new.tokens.now result (read_plain limits (below limits self.now.depth) (repeated operands T.rule (comma ▸ T.rule)) cursor.old.tokens.now) }
    {
        let (item, in_first) = T::parse(self, cursor)?;
        let first = Boxed::new(self.alloc, item)?;
        let (others, in_others) = self.other_operands::<T>(cursor)?;
        Ok(((first, others), in_first.max(in_others)))
    }

    /// Commas and operands after the second operand of a call.
    pub fn other_operands<T: ListItem>(
        &self,
        cursor: &mut Cursor<'_>,
    ) -> Result<(Items<T>, u8), Stop>
        requires { ReadsBelow self.now.depth (F.pre self.now.expression) (F.post self.now.expression) }
        ensures { ShowsDeep (λ v. map (after T.of) v) cursor.new.tokens.now result (read_more (firsts comma) operands (read_plain limits (below limits self.now.depth) (comma ▸ T.rule)) (limits operands) cursor.old.tokens.now) }
    {
        self.more(
            cursor,
            Sign::Comma,
            Limit::Operands,
            Items::new(self.alloc),
            0,
        )
    }

    /// The items before, and as many others as there may be, with that sign before each.
    fn more<T: ListItem>(
        &self,
        cursor: &mut Cursor<'_>,
        separator: Sign,
        limit: Limit,
        before: Items<T>,
        in_before: u8,
    ) -> Result<(Items<T>, u8), Stop>
        requires { ReadsBelow self.now.depth (F.pre self.now.expression) (F.post self.now.expression) }
        ensures { GivesDeep cursor.new.tokens.now result (joined before in_before (others (below limits self.now.depth) separator (limit_of limit) T.rule T.of cursor.old.tokens.now)) }
    {
        let mut items = before;
        let mut levels = in_before;
        let mut left = limit.most();
        while cursor.is_sign(separator) {
            if left == 0 {
                return Err(Stop::At(Kind::TooMany(limit)));
            }
            left -= 1;
            cursor.sign(separator)?;
            let (next, inside) = T::parse(self, cursor)?;
            items.push(next)?;
            levels = levels.max(inside);
        }
        Ok((items, levels))
    }
}

impl ListItem for Expr {
    ghost use Rattle.vtl_grammar.specs.Rules.{expr};

    ghost rule = { expr 0 };

    ghost of = { λ e. e };

    fn parse<F: Fn(Global, &mut Cursor<'_>, u8, u8) -> Result<(Boxed<Expr>, u8), Stop> + Copy>(
        parser: &Parser<F>,
        cursor: &mut Cursor<'_>,
    ) -> Result<(Self, u8), Stop> {
        let (expr, levels) = parser.operand(cursor, 0)?;
        Ok((expr.into_inner(), levels))
    }
}
