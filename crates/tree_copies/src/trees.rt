// Copies of expressions.
ghost use Rattle.std.specs.Prelude.{◌≡◌, IfOk};
ghost use Rattle.tree_copies.specs.Made.{made, same_name, same_call};

use crate::maker::{Maker, Naming};
use std::alloc::{AllocError, Global};
use vtl_syntax::Expr;

/// Names and calls stay.
#[derive(Clone, Copy)]
struct Same;

impl Naming for Same {
    ghost name = { λ _. same_name };

    ghost call = { λ _. same_call };
}

/// A copy of the expression, or want of memory.
pub fn copy_expr(alloc: Global, tree: &Expr) -> Result<Expr, AllocError>
    ensures { IfOk result (λ copy. copy ≡ tree.now) }
{
    copied(alloc, &Same, tree)
}

fn copied(alloc: Global, by: &Same, tree: &Expr) -> Result<Expr, AllocError>
    ensures { IfOk result (λ copy. copy ≡ made same_name same_call tree.now) }
{
    let maker = Maker {
        alloc,
        by,
        tree,
        expression: copied,
    };
    match tree {
        Expr::Name { name, place } => Ok(Expr::Name {
            name: name.copy()?,
            place: *place,
        }),
        Expr::CallOf {
            name,
            arguments,
            place,
        } => Ok(Expr::CallOf {
            name: name.copy()?,
            arguments: maker.each(arguments.as_slice())?,
            place: *place,
        }),
        _ => maker.level(),
    }
}
