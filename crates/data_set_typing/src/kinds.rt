// Whether the kinds of operands fit.
ghost use Rattle.std.specs.Prelude.{◌≡◌, [], IfOk, IfErr, OnOk};
ghost use Rattle.scalar_trees.specs.declared.typing.stop.TypeStop.TheVariants.{Memory};
ghost use Rattle.data_set_trees.specs.Components as parts;
ghost use Rattle.data_set_trees.specs.Lifted as meant;
ghost use Rattle.data_set_typing.specs.Kinds as own;

use crate::call::Call;
use data_set_parts::components::has_role;
use data_set_trees::Operand;
use scalar_trees::typing::{Slot, TypeStop};
use sqlite_items::Items;
use std::alloc::AllocError;
use vtl_values::{Component, Role};

/// Nothing stands for a data set that comes before others.
fn push_before(before: &mut Items<Option<Slot>>, operand: &Operand) -> Result<(), AllocError>
    ensures { OnOk result (before.new ≡ own.before_next before.old operand.now) }
{
    match operand {
        Operand::Scalar(_) => Ok(()),
        Operand::DataSet(_) => before.push(None),
    }
}

/// The component of this number.
fn slot_at(number: usize, component: &Component) -> Slot
    ensures { result ≡ record { number = number; kind = component.now.kind } }
{
    Slot {
        number: number as u64,
        kind: component.kind,
    }
}

impl Call<'_> {
    /// Whether the kinds fit where this component stands after these, which are as before then.
    fn fits_after(&self, before: &mut Items<Option<Slot>>, slot: Slot) -> Result<bool, TypeStop>
        ensures ok { IfOk result (λ fit. fit ≡ own.fits_after self.now.form.now self.now.place self.now.operands.now before.old slot) }
        ensures before { IfOk result (λ fit. before.new ≡ before.old) }
        ensures err { IfErr result (λ stop. stop ≡ Memory) }
    {
        before.push(Some(slot))?;
        let fit = self.fits(before.as_slice())?;
        before.pop();
        Ok(fit)
    }

    /// Whether each measure among the components fits by itself after these.
    fn measures_fit(
        &self,
        before: &[Option<Slot>],
        components: &[Component],
    ) -> Result<bool, TypeStop>
        ensures ok { IfOk result (λ fit. fit ≡ own.measures_fit self.now.form.now self.now.place self.now.operands.now before.now (parts.measures components.now)) }
        ensures err { IfErr result (λ stop. stop ≡ Memory) }
    {
        let mut slots = Items::from_slice(self.alloc, before)?;
        for (i, component) in components.iter().enumerate() {
            if has_role(Role::Measure, component) {
                if !self.fits_after(&mut slots, slot_at(i, component))? {
                    return Ok(false);
                }
            }
        }
        Ok(true)
    }

    /// Whether each measure of the operand fits by itself, where it's a data set.
    fn operand_fits(&self, before: &[Option<Slot>], operand: &Operand) -> Result<bool, TypeStop>
        ensures ok { IfOk result (λ fit. fit ≡ own.operand_fits self.now.form.now self.now.place self.now.operands.now before.now operand.now) }
        ensures err { IfErr result (λ stop. stop ≡ Memory) }
    {
        match operand {
            Operand::Scalar(_) => Ok(true),
            Operand::DataSet(set) => self.measures_fit(before, set.structure.components()),
        }
    }

    fn operands_fit(&self) -> Result<bool, TypeStop>
        ensures ok { IfOk result (λ fit. fit ≡ own.operands_fit self.now.form.now self.now.place self.now.operands.now [] self.now.operands.now) }
        ensures err { IfErr result (λ stop. stop ≡ Memory) }
    {
        let mut before = Items::new(self.alloc);
        for operand in self.operands {
            if !self.operand_fits(before.as_slice(), operand)? {
                return Ok(false);
            }
            push_before(&mut before, operand)?;
        }
        Ok(true)
    }

    /// Whether the constants fit the operator and each other, and so does each measure by itself. Or want of memory.
    pub(crate) fn each_fits(&self) -> Result<bool, TypeStop>
        ensures ok { IfOk result (λ fit. fit ≡ meant.each_fits self.now.form.now self.now.place self.now.operands.now) }
        ensures err { IfErr result (λ stop. stop ≡ Memory) }
    {
        let constants = self.fits(&[])?;
        let each = self.operands_fit()?;
        Ok(constants && each)
    }
}
