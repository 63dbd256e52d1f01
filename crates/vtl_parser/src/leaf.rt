// What is read of an expression without another one inside it.
ghost use Rattle.std.specs.Prelude.{◌≡◌, Some, IfOk, option_map};
ghost use Rattle.vtl_syntax.specs.declared.expr.Expr.TheVariants as tree;
ghost use Rattle.vtl_grammar.specs.Forms.{leaf_in, leaf_precedence, name_in};
ghost use Rattle.vtl_parser.specs.Forms.{leaf_there, form_there, tail_there, prefix_form, suffix_tail, infix_tree, IsName};

use crate::form::{Infix, NAME, PrefixForm, SuffixForm, prefix_form_of, suffix_form_of};
use sqlite_items::{Boxed, Items};
use std::alloc::{AllocError, Global};
use vtl_cursor::Cursor;
use vtl_syntax::Expr;
use vtl_tokens::{Keyword, Token, TokenKind};
use vtl_values::{Place, Value};

/// The name or the literal that stands there, and its precedence.
pub fn leaf(alloc: Global, cursor: &Cursor) -> Result<Option<(Boxed<Expr>, u8)>, AllocError>
    ensures { IfOk result (λ leaf. leaf ≡ leaf_there cursor.now.tokens.now) }
{
    let [first, ..] = cursor.tokens else {
        return Ok(None);
    };
    match leaf_of(alloc, first)? {
        Some(leaf) => Ok(Some((leaf, leaf_precedence(&first.what)))),
        None => Ok(None),
    }
}

fn leaf_precedence(kind: &TokenKind) -> u8
    ensures { result ≡ leaf_precedence kind.now }
{
    match kind {
        TokenKind::Name(_) => NAME,
        _ => LITERAL,
    }
}

/// The precedence of a literal.
const LITERAL: u8 = 8;

fn leaf_of(alloc: Global, token: &Token) -> Result<Option<Boxed<Expr>>, AllocError>
    ensures { IfOk result (λ leaf. leaf ≡ leaf_in token.now.what token.now.place) }
{
    let place = token.place;
    match &token.what {
        TokenKind::Name(name) => {
            let name = name.copy()?;
            Ok(Some(Boxed::new(alloc, Expr::Name { name, place })?))
        }
        TokenKind::Text(text) => literal(alloc, Value::Text(text.copy()?), place),
        TokenKind::Integer(value) => literal(alloc, Value::Integer(*value), place),
        TokenKind::Number(value) => literal(alloc, Value::Number(*value), place),
        TokenKind::Reserved(Keyword::True) => literal(alloc, Value::Truth(true), place),
        TokenKind::Reserved(Keyword::False) => literal(alloc, Value::Truth(false), place),
        TokenKind::Reserved(Keyword::Null) => literal(alloc, Value::Null, place),
        _ => Ok(None),
    }
}

fn literal(alloc: Global, value: Value, place: Place) -> Result<Option<Boxed<Expr>>, AllocError>
    ensures { IfOk result (λ leaf. leaf ≡ Some (tree.Literal value place)) }
{
    Ok(Some(Boxed::new(alloc, Expr::Literal { value, place })?))
}

/// What begins there and is no leaf, and its place.
pub fn prefix_form_there(cursor: &Cursor) -> Option<(PrefixForm, Place)>
    ensures { option_map (λ form. (prefix_form form.0, form.1)) result ≡ form_there cursor.now.tokens.now }
{
    match cursor.tokens {
        [Token { what, place }, ..] => Some((prefix_form_of(what)?, *place)),
        [] => None,
    }
}

/// What goes on there after an expression, and its place.
pub fn suffix_form_there(cursor: &Cursor) -> Option<(SuffixForm, Place)>
    ensures { option_map (λ form. (suffix_tail form.0, form.1)) result ≡ tail_there cursor.now.tokens.now }
{
    match cursor.tokens {
        [Token { what, place }, ..] => Some((suffix_form_of(what)?, *place)),
        [] => None,
    }
}

/// The call of the operator of that name.
pub fn call_of(
    alloc: Global,
    operator: &Expr,
    arguments: Items<Expr>,
) -> Result<Boxed<Expr>, AllocError>
    requires { IsName operator.now }
    ensures { IfOk result (λ expr. expr ≡ tree.CallOf (name_in operator.now).value arguments (name_in operator.now).place) }
{
    let Expr::Name { name, place } = operator else {
        unreachable!()
    };
    let expr = Expr::CallOf {
        name: name.copy()?,
        arguments,
        place: *place,
    };
    Boxed::new(alloc, expr)
}

/// The expression with that word or sign between its operands.
pub fn joined(
    alloc: Global,
    sign: Infix,
    left: Boxed<Expr>,
    right: Boxed<Expr>,
    place: Place,
) -> Result<Boxed<Expr>, AllocError>
    ensures { IfOk result (λ expr. expr ≡ infix_tree sign left right place) }
{
    match sign {
        Infix::Or(sign) => Boxed::new(
            alloc,
            Expr::Or {
                left,
                sign,
                right,
                place,
            },
        ),
        Infix::And => Boxed::new(alloc, Expr::And { left, right, place }),
        Infix::Compare(sign) => Boxed::new(
            alloc,
            Expr::Compare {
                left,
                sign,
                right,
                place,
            },
        ),
        Infix::Sum(sign) => Boxed::new(
            alloc,
            Expr::Sum {
                left,
                sign,
                right,
                place,
            },
        ),
        Infix::Product(sign) => Boxed::new(
            alloc,
            Expr::Product {
                left,
                sign,
                right,
                place,
            },
        ),
    }
}
