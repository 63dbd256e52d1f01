// A scalar operator on one data set.
ghost use Rattle.std.specs.Prelude.{◌≡◌, Ok, IfOk, IfErr};
ghost use Rattle.scalar_trees.specs.typing.Steps.{Refuses};
ghost use Rattle.data_set_trees.specs.Lifted as meant;
ghost use Rattle.data_set_parts.specs.Walks as walks;
ghost use Rattle.data_set_typing.specs.Plans as own;

use crate::call::Call;
use crate::meetings::has_one_if;
use data_set_parts::components::measures;
use data_set_parts::demands::demands;
use data_set_parts::measures::slot_of;
use data_set_parts::names;
use data_set_trees::Measure;
use data_set_trees::clauses::CheckedMeasure;
use scalar_trees::typing::{Fault, TypeStop};
use sqlite_items::Items;
use std::alloc::{AllocError, Global};
use vtl_values::{Component, Word};

/// Whether no identifier and no viral attribute has the name, if there is a new one. Or want of memory.
pub(crate) fn is_free(
    alloc: Global,
    name: &Option<Word>,
    components: &[Component],
) -> Result<bool, AllocError>
    ensures { IfOk result (λ free. free ≡ meant.is_free name.now components.now) }
{
    match name {
        Some(name) => names::is_free(alloc, name, components),
        None => Ok(true),
    }
}

impl Call<'_> {
    fn measure_checked(
        &self,
        changed: &Option<Word>,
        measure: &Measure,
    ) -> Result<CheckedMeasure, TypeStop>
        ensures ok { IfOk result (λ m. own.measure_checked self.now.form.now self.now.place self.now.operands.now changed.now measure.now ≡ Ok m) }
        ensures err { IfErr result (Refuses (own.measure_checked self.now.form.now self.now.place self.now.operands.now changed.now measure.now)) }
    {
        self.checked(&[Some(slot_of(measure))], changed, &measure.name)
    }

    fn measures_checked(
        &self,
        changed: &Option<Word>,
        measures: &[Measure],
    ) -> Result<Items<CheckedMeasure>, TypeStop>
        ensures ok { IfOk result
            (λ all. walks.each (own.measure_checked self.now.form.now self.now.place self.now.operands.now changed.now) measures.now ≡ Ok all) }
        ensures err { IfErr result (Refuses (walks.each (own.measure_checked self.now.form.now self.now.place self.now.operands.now changed.now) measures.now)) }
    {
        let mut all = Items::new(self.alloc);
        for measure in measures {
            all.push(self.measure_checked(changed, measure)?)?;
        }
        Ok(all)
    }

    fn demands_on_one(
        &self,
        changed: &Option<Word>,
        components: &[Component],
    ) -> Result<(), TypeStop>
        ensures ok { IfOk result (λ met. own.demands_on_one self.now.form.now self.now.place self.now.operands.now changed.now components.now ≡ Ok met) }
        ensures err { IfErr result (Refuses (own.demands_on_one self.now.form.now self.now.place self.now.operands.now changed.now components.now)) }
    {
        let measures = measures(self.alloc, components)?;
        let fit = self.each_fits()?;
        let one = has_one_if(changed, measures.as_slice());
        let free = is_free(self.alloc, changed, components)?;
        demands(
            self.place,
            &[
                (fit, Fault::WrongType),
                (one, Fault::WrongStructure),
                (free, Fault::NameTwice),
            ],
        )
    }

    /// The measures of the operator on a data set with these components; or its fault, or want of memory.
    pub(crate) fn items_on_one(
        &self,
        changed: &Option<Word>,
        components: &[Component],
    ) -> Result<Items<CheckedMeasure>, TypeStop>
        ensures ok { IfOk result (λ all. own.items_on_one self.now.form.now self.now.place self.now.operands.now changed.now components.now ≡ Ok all) }
        ensures err { IfErr result (Refuses (own.items_on_one self.now.form.now self.now.place self.now.operands.now changed.now components.now)) }
    {
        self.demands_on_one(changed, components)?;
        let constants = self.answer(&[])?;
        let measures = measures(self.alloc, components)?;
        self.measures_checked(changed, measures.as_slice())
    }
}
