// A scalar operator on operands.
ghost use Rattle.std.specs.Prelude.{◌≡◌, Ok, IfOk, IfErr};
ghost use Rattle.scalar_trees.specs.declared.typing.stop.TypeStop.TheVariants.{Memory};
ghost use Rattle.scalar_trees.specs.typing.Steps.{Refuses};
ghost use Rattle.data_set_trees.specs.Lifted as meant;

use crate::forms::formed;
use crate::slots::with_slots;
use data_set_trees::{Form, Operand};
use scalar_trees::typing::{Fault, Slot, TypeStop, Typed};
use std::alloc::Global;
use vtl_values::Place;

/// A scalar operator at its place on data sets and constants.
#[derive(Clone, Copy)]
pub(crate) struct Call<'a> {
    pub(crate) alloc: Global,
    pub(crate) form: &'a Form,
    pub(crate) place: Place,
    pub(crate) operands: &'a [Operand],
}

fn is_wrong_type(fault: Fault) -> bool
    ensures { result ≡ meant.is_wrong_type fault }
{
    match fault {
        Fault::WrongType => true,
        Fault::UnknownComponent
        | Fault::WrongStructure
        | Fault::WrongRole
        | Fault::NameTwice
        | Fault::TooManyComponents
        | Fault::BadConstant
        | Fault::BadPattern
        | Fault::BadRuleset => false,
    }
}

impl Call<'_> {
    /// What the operator of whatever form is where these stand for its data sets.
    fn answer_on_all(&self, slots: &[Option<Slot>]) -> Result<Typed, TypeStop>
        ensures ok { IfOk result (λ t. meant.answer self.now.form.now self.now.place self.now.operands.now slots.now ≡ Ok t) }
        ensures err { IfErr result (Refuses (meant.answer self.now.form.now self.now.place self.now.operands.now slots.now)) }
    {
        let operands = with_slots(self.alloc, slots, self.operands)?;
        formed(self.alloc, self.form, self.place, operands)
    }

    /// What the operator is where these stand for its data sets.
    pub(crate) fn answer(&self, slots: &[Option<Slot>]) -> Result<Typed, TypeStop>
        ensures ok { IfOk result (λ t. meant.answer self.now.form.now self.now.place self.now.operands.now slots.now ≡ Ok t) }
        ensures err { IfErr result (Refuses (meant.answer self.now.form.now self.now.place self.now.operands.now slots.now)) }
    {
        match (self.form, self.operands) {
            (Form::Unary(operator), [operand]) => self.answer_on_one(*operator, operand, slots),
            (Form::Binary(operator), [left, right]) => {
                self.answer_on_two(*operator, left, right, slots)
            }
            _ => self.answer_on_all(slots),
        }
    }

    /// Whether the kinds fit, as told by what the operator is.
    fn answer_fits(&self, slots: &[Option<Slot>]) -> Result<bool, TypeStop>
        ensures ok { IfOk result (λ fit. fit ≡ meant.kinds_fit (meant.answer self.now.form.now self.now.place self.now.operands.now slots.now)) }
        ensures err { IfErr result (λ stop. stop ≡ Memory) }
    {
        match self.answer_on_all(slots) {
            Ok(_) => Ok(true),
            Err(TypeStop::Refused(refusal)) => Ok(!is_wrong_type(refusal.fault)),
            Err(TypeStop::Memory) => Err(TypeStop::Memory),
        }
    }

    /// Whether the kinds fit where these stand for the data sets. Or want of memory.
    pub(crate) fn fits(&self, slots: &[Option<Slot>]) -> Result<bool, TypeStop>
        ensures ok { IfOk result (λ fit. fit ≡ meant.kinds_fit (meant.answer self.now.form.now self.now.place self.now.operands.now slots.now)) }
        ensures err { IfErr result (λ stop. stop ≡ Memory) }
    {
        match (self.form, self.operands) {
            (Form::Unary(operator), [operand]) => Ok(self.one_fits(*operator, operand, slots)),
            (Form::Binary(operator), [left, right]) => {
                Ok(self.two_fit(*operator, left, right, slots))
            }
            _ => self.answer_fits(slots),
        }
    }
}
