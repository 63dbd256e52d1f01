// What a scalar operator comes to, by the number of its data sets.
ghost use Rattle.std.specs.Prelude.{◌≡◌, Ok, IfOk, IfErr};
ghost use Rattle.vtl_values.specs.Structures.{IsStructure};
ghost use Rattle.scalar_trees.specs.typing.Steps.{Refuses};
ghost use Rattle.data_set_trees.specs.declared.clauses.clause.CheckedClause.TheVariants as clause;
ghost use Rattle.data_set_trees.specs.Lifted as sets;
ghost use Rattle.data_set_parts.specs.Results as parts;
ghost use Rattle.data_set_typing.specs.Plans as own;

use crate::call::Call;
use crate::forms::is_of_two;
use crate::names::changed_name;
use crate::plan::Plan;
use data_set_parts::clauses::structure_after;
use data_set_parts::demands::demands;
use data_set_parts::nodes::structures_of;
use data_set_trees::clauses::{CheckedClause, CheckedMeasure};
use data_set_trees::{DataSetOperator, Operand, SharedOperator};
use scalar_trees::typing::{Fault, TypeStop};
use sqlite_items::Items;
use std::alloc::{AllocError, Global};
use vtl_values::{Structure, Word};

/// At which place the first data set stands.
fn set_place(operands: &[Operand]) -> usize
    ensures { result ≡ sets.set_place operands.now }
{
    for (i, operand) in operands.iter().enumerate() {
        if let Operand::DataSet(_) = operand {
            return i;
        }
    }
    operands.len()
}

/// These measures in place of those of the data set.
fn of_one(
    alloc: Global,
    structure: &Structure,
    items: Items<CheckedMeasure>,
) -> Result<Plan, AllocError>
    requires { IsStructure (parts.structure_after (clause.Measures items) structure.now) }
    ensures { IfOk result (λ plan. plan ≡ own.of_one structure.now items) }
{
    let clause = CheckedClause::Measures { items };
    let structure = structure_after(alloc, &clause, structure)?;
    Ok(Plan::Applied {
        operator: SharedOperator::of(alloc, DataSetOperator::Clause(clause))?,
        structure,
    })
}

impl Call<'_> {
    /// What the operator comes to on a data set of this structure.
    fn planned_on_one(
        &self,
        changed: &Option<Word>,
        structure: &Structure,
    ) -> Result<Plan, TypeStop>
        ensures ok { IfOk result (λ plan. own.planned_on_one self.now.form.now self.now.place self.now.operands.now changed.now structure.now ≡ Ok plan) }
        ensures err { IfErr result (Refuses (own.planned_on_one self.now.form.now self.now.place self.now.operands.now changed.now structure.now)) }
    {
        let items = self.items_on_one(changed, structure.components())?;
        Ok(of_one(self.alloc, structure, items)?)
    }

    fn planned_on_none(&self) -> Result<Plan, TypeStop>
        ensures ok { IfOk result (λ plan. own.planned_on_none self.now.form.now self.now.place self.now.operands.now ≡ Ok plan) }
        ensures err { IfErr result (Refuses (own.planned_on_none self.now.form.now self.now.place self.now.operands.now)) }
    {
        Ok(Plan::Scalar(self.answer(&[])?))
    }

    /// On more data sets than the operator takes.
    fn too_many(&self) -> Result<Plan, TypeStop>
        ensures ok { IfOk result (λ plan. own.too_many self.now.form.now self.now.place self.now.operands.now ≡ Ok plan) }
        ensures err { IfErr result (Refuses (own.too_many self.now.form.now self.now.place self.now.operands.now)) }
    {
        let fit = self.each_fits()?;
        demands(self.place, &[(fit, Fault::WrongType)])?;
        Err(TypeStop::at(Fault::WrongStructure, self.place))
    }

    fn planned_on(&self, changed: &Option<Word>, structures: &[Structure]) -> Result<Plan, TypeStop>
        ensures ok { IfOk result (λ plan. own.planned_on self.now.form.now self.now.place self.now.operands.now changed.now structures.now ≡ Ok plan) }
        ensures err { IfErr result (Refuses (own.planned_on self.now.form.now self.now.place self.now.operands.now changed.now structures.now)) }
    {
        match structures {
            [] => self.planned_on_none(),
            [structure] => self.planned_on_one(changed, structure),
            [structure, other] => {
                if is_of_two(self.form) {
                    self.planned_on_two(changed, structure, other)
                } else {
                    self.too_many()
                }
            }
            _ => self.too_many(),
        }
    }

    /// What the operator comes to.
    pub(crate) fn planned(&self) -> Result<Plan, TypeStop>
        ensures ok { IfOk result (λ plan. own.planned self.now.form.now self.now.place self.now.operands.now ≡ Ok plan) }
        ensures err { IfErr result (Refuses (own.planned self.now.form.now self.now.place self.now.operands.now)) }
    {
        let changed = changed_name(self.alloc, self.form, set_place(self.operands))?;
        let structures = structures_of(self.alloc, self.operands)?;
        self.planned_on(&changed, structures.as_slice())
    }
}
