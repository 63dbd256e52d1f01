// A scalar operator on any operands.
ghost use Rattle.std.specs.Prelude.{◌≡◌, Ok, IfOk, IfErr};
ghost use Rattle.scalar_trees.specs.typing.Steps.{Refuses};
ghost use Rattle.data_set_trees.specs.Pairs as meant;
ghost use Rattle.data_set_trees.specs.Trees as trees;
ghost use Rattle.data_set_typing.specs.Plans as own;

use crate::call::Call;
use crate::known::KnownPlans;
use crate::plan::Plan;
use data_set_parts::nodes::applied_shared;
use data_set_trees::{Form, Operand};
use scalar_trees::typing::TypeStop;
use sqlite_items::Items;
use std::alloc::{AllocError, Global};
use vtl_values::Place;

impl Call<'_> {
    /// What the operator comes to, as known or else to be known from now on.
    fn planned_once(&self, known: &KnownPlans) -> Result<Plan, TypeStop>
        ensures ok { IfOk result (λ plan. own.planned self.now.form.now self.now.place self.now.operands.now ≡ Ok plan) }
        ensures err { IfErr result (Refuses (own.planned self.now.form.now self.now.place self.now.operands.now)) }
    {
        if let Some(plan) = known.plan(self.form, self.operands)? {
            return Ok(plan);
        }
        let plan = self.planned()?;
        known.keep(self.alloc, self.form, self.place, self.operands, &plan)?;
        Ok(plan)
    }
}

/// A plan carried out on the data sets among the operands, or want of memory.
fn finished(
    alloc: Global,
    place: Place,
    plan: Plan,
    operands: Items<Operand>,
) -> Result<Operand, AllocError>
    ensures { IfOk result (λ operand. operand ≡ own.carried_out place plan (trees.data_sets operands)) }
{
    match plan {
        Plan::Scalar(typed) => Ok(Operand::Scalar(typed)),
        Plan::Applied {
            operator,
            structure,
        } => applied_shared(alloc, operator, place, operands, structure).map(Operand::DataSet),
    }
}

/// What a scalar operator at its place is on these operands: a scalar where all are, else a data set; or its first fault, or
/// want of memory. `WrongType` where the kinds of constants and of measures don't fit; else `WrongStructure` where there are
/// more data sets than the operator takes, where two don't have the identifiers, measures and viral attributes in common that
/// it needs, or where it changes the basic type and there isn't one measure; else `NameTwice` where its new name is that of
/// another component of one data set; else `BadConstant` or `BadPattern` of a constant; and on two data sets `NameTwice` where
/// a name would stand twice in the result, else `TooManyComponents`. `known` has what operators came to before, and is of no
/// consequence for the answer. Where the operator stands there with data sets of the same structures, it costs the number of
/// components and of their codes. Else it costs the number of measures times the size of the scalars among the operands,
/// since the operator is typed on each, twice where it has neither one nor two operands; and the square of the number of
/// components, since identifiers and names are looked up pair by pair.
pub fn lifted(
    alloc: Global,
    known: &KnownPlans,
    form: &Form,
    place: Place,
    operands: Items<Operand>,
) -> Result<Operand, TypeStop>
    ensures ok { IfOk result (λ o. meant.lifted form.now place operands ≡ Ok o) }
    ensures err { IfErr result (Refuses (meant.lifted form.now place operands)) }
{
    let call = Call {
        alloc,
        form,
        place,
        operands: operands.as_slice(),
    };
    let plan = call.planned_once(known)?;
    Ok(finished(alloc, place, plan, operands)?)
}
