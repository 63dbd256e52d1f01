// Operators of one and of two operands, as most are, without a list of what stands for their operands.
ghost use Rattle.std.specs.Prelude.{◌≡◌, ◌∷◌, [], Ok, IfOk, IfErr};
ghost use Rattle.scalar_trees.specs.typing.Steps.{Refuses};
ghost use Rattle.data_set_trees.specs.declared.form.Form.TheVariants as form;
ghost use Rattle.data_set_trees.specs.Lifted as meant;
ghost use Rattle.data_set_typing.specs.Slots as own;

use crate::call::Call;
use crate::slots::{first_slot, slots_after, standing};
use data_set_trees::Operand;
use operator_typing::{binary_typed, unary_typed};
use scalar_trees::typing::{Slot, TypeStop, Typed};
use scalar_trees::{BinaryOperator, UnaryOperator, agreed, binary_takes, unary_takes};
use vtl_values::Kind;

/// The kind of the operand, or of what stands for it.
fn kind_standing(slots: &[Option<Slot>], operand: &Operand) -> Option<Kind>
    ensures { result ≡ (own.standing slots.now operand.now).kind }
{
    match operand {
        Operand::Scalar(typed) => typed.kind,
        Operand::DataSet(_) => match first_slot(slots) {
            Some(slot) => Some(slot.kind),
            None => None,
        },
    }
}

impl Call<'_> {
    /// What the operator of this operand is where these stand for its data sets.
    pub(crate) fn answer_on_one(
        &self,
        operator: UnaryOperator,
        operand: &Operand,
        slots: &[Option<Slot>],
    ) -> Result<Typed, TypeStop>
        ensures ok { IfOk result (λ t. meant.answer (form.Unary operator) self.now.place (operand.now ∷ []) slots.now ≡ Ok t) }
        ensures err { IfErr result (Refuses (meant.answer (form.Unary operator) self.now.place (operand.now ∷ []) slots.now)) }
    {
        let operand = standing(self.alloc, slots, operand)?;
        unary_typed(self.alloc, operator, self.place, operand)
    }

    /// Whether the kind of this operand fits where these stand for its data sets. It asks for the kind alone.
    pub(crate) fn one_fits(
        &self,
        operator: UnaryOperator,
        operand: &Operand,
        slots: &[Option<Slot>],
    ) -> bool
        ensures { result ≡ meant.kinds_fit (meant.answer (form.Unary operator) self.now.place (operand.now ∷ []) slots.now) }
    {
        agreed(unary_takes(operator), &[kind_standing(slots, operand)]).is_some()
    }

    /// What the operator of these two operands is where these stand for its data sets.
    pub(crate) fn answer_on_two(
        &self,
        operator: BinaryOperator,
        left: &Operand,
        right: &Operand,
        slots: &[Option<Slot>],
    ) -> Result<Typed, TypeStop>
        ensures ok { IfOk result (λ t. meant.answer (form.Binary operator) self.now.place (left.now ∷ right.now ∷ []) slots.now ≡ Ok t) }
        ensures err { IfErr result (Refuses (meant.answer (form.Binary operator) self.now.place (left.now ∷ right.now ∷ []) slots.now)) }
    {
        let first = standing(self.alloc, slots, left)?;
        let second = standing(self.alloc, slots_after(slots, left), right)?;
        binary_typed(self.alloc, operator, self.place, first, second)
    }

    /// Whether the kinds of these two operands fit where these stand for its data sets. It asks for the kinds alone.
    pub(crate) fn two_fit(
        &self,
        operator: BinaryOperator,
        left: &Operand,
        right: &Operand,
        slots: &[Option<Slot>],
    ) -> bool
        ensures { result ≡ meant.kinds_fit (meant.answer (form.Binary operator) self.now.place (left.now ∷ right.now ∷ []) slots.now) }
    {
        let first = kind_standing(slots, left);
        let second = kind_standing(slots_after(slots, left), right);
        agreed(binary_takes(operator), &[first, second]).is_some()
    }
}
