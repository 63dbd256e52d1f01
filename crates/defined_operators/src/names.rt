// Names of parameters.
ghost use Rattle.std.specs.Prelude.{◌≡◌, IfOk, position};
ghost use Rattle.std.specs.Option.{option_copied};
ghost use Rattle.operator_faults.specs.Names.{same_word};
ghost use Rattle.replaced_calls.specs.Replacing.{argument_of};
ghost use Rattle.defined_operators.specs.Writers.{names};

use crate::writer::Writer;
use std::alloc::{AllocError, Global};
use tree_copies::copy_expr;
use vtl_syntax::Expr;
use vtl_values::{Place, Word};

impl Writer<'_> {
    /// The argument, if the name is that of a parameter.
    pub(crate) fn name(&self, alloc: Global, name: &Word, place: Place) -> Result<Expr, AllocError>
        ensures { IfOk result (λ made. made ≡ names self.now name.now place) }
    {
        match self.argument(name) {
            Some(argument) => copy_expr(alloc, argument),
            None => Ok(Expr::Name {
                name: name.copy()?,
                place,
            }),
        }
    }

    fn argument(&self, name: &Word) -> Option<&Expr>
        ensures { option_copied result ≡ argument_of self.now.params.now self.now.arguments.now name.now }
    {
        match self.number(name) {
            Some(number) => self.arguments.get(number),
            None => None,
        }
    }

    /// The number of the first parameter of that name.
    fn number(&self, name: &Word) -> Option<usize>
        ensures { result ≡ position (λ p. same_word p.name name.now) self.now.params.now }
    {
        self.params.iter().position(|param| param.name == *name)
    }
}
