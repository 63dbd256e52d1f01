// Calls of defined operators, and their arguments.
ghost use Rattle.std.specs.Prelude.{◌≡◌, ◌+◌, suc, IfOk, map, if◌then◌else◌};
ghost use Rattle.tree_copies.specs.Made.{same_call};
ghost use Rattle.replaced_calls.specs.Replacing.{opened};
ghost use Rattle.defined_operators.specs.Uses.{used_arguments, left_out, uses_of};
ghost use Rattle.defined_operators.specs.Callings.{level, becomes};
ghost use Rattle.defined_operators.specs.Writers.{flags, calls, writes};

use crate::calling::Calling;
use crate::sorts::sorted_call;
use crate::uses::{flags_of, is_used};
use crate::writer::Writer;
use operator_faults::calls::operator_of;
use sqlite_items::Items;
use std::alloc::{AllocError, Global};
use vtl_syntax::Expr;
use vtl_values::{Place, Word};

/// How many calls are replaced inside each other where the arguments are used.
fn level_of(calling: Calling) -> usize
    ensures { result ≡ level calling }
{
    match calling {
        Calling::Sorted => 0,
        Calling::Kept(level) => level,
        Calling::Opened(level) => level,
    }
}

/// A call that stays.
fn kept(name: &Word, arguments: Items<Expr>, place: Place) -> Result<Expr, AllocError>
    ensures { IfOk result (λ made. made ≡ same_call name.now arguments place) }
{
    Ok(Expr::CallOf {
        name: name.copy()?,
        arguments,
        place,
    })
}

impl Writer<'_> {
    /// What a call with these arguments becomes.
    #[cycle(written)]
    pub(crate) fn called(
        &self,
        alloc: Global,
        name: &Word,
        arguments: &[Expr],
        place: Place,
    ) -> Result<Expr, AllocError>
        ensures { IfOk result (λ made. made ≡ calls self.now name.now (map (writes self.now) arguments.now) place) }
    {
        let used = self.used_arguments(alloc, name, arguments, place)?;
        self.call(alloc, name, used, place)
    }

    /// The same, where those that aren't used are left out already.
    #[cycle(written)]
    fn call(
        &self,
        alloc: Global,
        name: &Word,
        arguments: Items<Expr>,
        place: Place,
    ) -> Result<Expr, AllocError>
        ensures { IfOk result (λ made. made ≡ becomes self.now.calling self.now.operators.now name.now arguments place) }
    {
        match self.calling {
            Calling::Sorted => sorted_call(alloc, self.operators, name, arguments, place),
            Calling::Kept(_) => kept(name, arguments, place),
            Calling::Opened(0) => kept(name, arguments, place),
            Calling::Opened(left) => self.body_for(alloc, left - 1, name, arguments, place),
        }
    }

    /// The body of the operator with the arguments, where one call less is replaced inside another.
    #[cycle(written)]
    fn body_for(
        &self,
        alloc: Global,
        left: usize,
        name: &Word,
        arguments: Items<Expr>,
        place: Place,
    ) -> Result<Expr, AllocError>
        requires { self.now.calling ≡ Calling.Opened (left + 1) }
        ensures { IfOk result (λ made. made ≡ opened self.now.operators.now (suc left) name.now arguments place) }
    {
        match operator_of(self.operators, name) {
            Some(operator) => {
                let inner = Writer {
                    operators: self.operators,
                    calling: Calling::Opened(left),
                    levels: self.levels,
                    params: operator.params.as_slice(),
                    arguments: arguments.as_slice(),
                };
                Writer::written(alloc, &inner, &operator.body)
            }
            None => kept(name, arguments, place),
        }
    }

    /// The arguments, where those that aren't used are left out.
    #[cycle(written)]
    fn used_arguments(
        &self,
        alloc: Global,
        name: &Word,
        arguments: &[Expr],
        place: Place,
    ) -> Result<Items<Expr>, AllocError>
        ensures { IfOk result (λ made. made ≡ used_arguments (flags self.now name.now) place (map (writes self.now) arguments.now)) }
    {
        let flags = self.flags(name);
        let mut made = Items::new(alloc);
        for (i, argument) in arguments.iter().enumerate() {
            made.push(self.argument_if(alloc, is_used(flags, i), argument, place)?)?;
        }
        Ok(made)
    }

    /// The argument, if it is used.
    #[cycle(written)]
    fn argument_if(
        &self,
        alloc: Global,
        wanted: bool,
        argument: &Expr,
        place: Place,
    ) -> Result<Expr, AllocError>
        ensures { IfOk result (λ made. made ≡ (if wanted then writes self.now argument.now else left_out place)) }
    {
        if wanted {
            Writer::written(alloc, self, argument)
        } else {
            Ok(Expr::CountAll { place })
        }
    }

    /// For each parameter of the operator of that name, whether it is used.
    fn flags(&self, name: &Word) -> &[bool]
        ensures { result.now ≡ flags self.now name.now }
    {
        flags_of(self.operators, self.uses(), name)
    }

    /// For each operator, which of its parameters are used.
    fn uses(&self) -> &[Items<bool>]
        ensures { result.now ≡ uses_of self.now.operators.now (level self.now.calling) }
    {
        match self.levels.get(level_of(self.calling)) {
            Some(uses) => uses.as_slice(),
            None => &[],
        }
    }
}
