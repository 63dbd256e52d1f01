// Measures that a scalar operator works out.
ghost use Rattle.std.specs.Prelude.{◌≡◌, Ok, unwrap_or, IfOk, IfErr};
ghost use Rattle.scalar_trees.specs.typing.Steps.{Refuses};
ghost use Rattle.data_set_trees.specs.Lifted as meant;
ghost use Rattle.data_set_typing.specs.Plans as own;

use crate::call::Call;
use data_set_trees::clauses::CheckedMeasure;
use scalar_trees::typing::{Slot, TypeStop, Typed};
use std::alloc::AllocError;
use vtl_values::{Kind, Word};

fn new_name(changed: &Option<Word>, name: &Word) -> Result<Word, AllocError>
    ensures { IfOk result (λ new. new ≡ unwrap_or changed.now name.now) }
{
    match changed {
        Some(changed) => changed.copy(),
        None => name.copy(),
    }
}

fn checked_measure(
    changed: &Option<Word>,
    name: &Word,
    typed: Typed,
) -> Result<CheckedMeasure, AllocError>
    ensures { IfOk result (λ measure. measure ≡ meant.checked_measure (unwrap_or changed.now name.now) typed) }
{
    Ok(CheckedMeasure {
        name: new_name(changed, name)?,
        kind: typed.kind.unwrap_or(Kind::Truth),
        value: typed.into_tree(),
    })
}

impl Call<'_> {
    /// What the operator is where these stand for its data sets, as a measure of the new name if there is one.
    pub(crate) fn checked(
        &self,
        slots: &[Option<Slot>],
        changed: &Option<Word>,
        name: &Word,
    ) -> Result<CheckedMeasure, TypeStop>
        ensures ok { IfOk result (λ m. own.checked_at self.now.form.now self.now.place self.now.operands.now slots.now changed.now name.now ≡ Ok m) }
        ensures err { IfErr result (Refuses (own.checked_at self.now.form.now self.now.place self.now.operands.now slots.now changed.now name.now)) }
    {
        let typed = self.answer(slots)?;
        Ok(checked_measure(changed, name, typed)?)
    }
}
