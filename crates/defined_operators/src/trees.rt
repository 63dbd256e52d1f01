// Trees whose names and calls become something else.
ghost use Rattle.std.specs.Prelude.{◌≡◌, IfOk};
ghost use Rattle.defined_operators.specs.Writers.{writes};

use crate::writer::Writer;
use std::alloc::{AllocError, Global};
use tree_copies::{Maker, Naming};
use vtl_syntax::Expr;

impl Naming for Writer<'_> {
    ghost use Rattle.defined_operators.specs.Writers.{names, calls};

    ghost name = { λ w. names w };

    ghost call = { λ w. calls w };
}

impl Writer<'_> {
    /// The tree with its names and calls replaced, or want of memory.
    #[cycle(written)]
    pub(crate) fn written(
        alloc: Global,
        writer: &Writer<'_>,
        tree: &Expr,
    ) -> Result<Expr, AllocError>
        ensures { IfOk result (λ made. made ≡ writes writer.now tree.now) }
    {
        match tree {
            Expr::Name { name, place } => writer.name(alloc, name, *place),
            Expr::CallOf {
                name,
                arguments,
                place,
            } => writer.called(alloc, name, arguments.as_slice(), *place),
            _ => Maker {
                alloc,
                by: writer,
                tree,
                expression: Writer::written,
            }
            .level(),
        }
    }

    /// The same.
    pub(crate) fn write(&self, alloc: Global, tree: &Expr) -> Result<Expr, AllocError>
        ensures { IfOk result (λ made. made ≡ writes self.now tree.now) }
    {
        Writer::written(alloc, self, tree)
    }
}
