// What operators on data sets came to before.
ghost use Rattle.std.specs.Prelude.{◌≡◌, IfOk, IfSome, Ok};
ghost use Rattle.data_set_typing.specs.Known as own;
ghost use Rattle.data_set_typing.specs.Plans as plans;
ghost use Rattle.data_set_typing.specs.declared.plan.Plan.TheVariants as variant;

use crate::alike::{are_all_alike, are_one_form};
use crate::plan::Plan;
use data_set_parts::copies::copy_typed;
use data_set_trees::{DataSet, DataSetTree, Form, Operand, SharedOperator, Source};
use scalar_trees::CheckedExpr;
use sqlite_items::Items;
use std::alloc::{AllocError, Global};
use std::cell::RefCell;
use std::marker::Model;
use vtl_values::{Place, Structure};

/// How many are kept.
const MOST_KNOWN: usize = 16;

/// An operator on operands like these, and what it comes to wherever it stands.
#[derive(Drop)]
struct Known {
    form: Form,
    operands: Items<Operand>,
    operator: SharedOperator,
    structure: Structure,
}

impl Model for Known {
    ghost use Rattle.data_set_typing.specs.Known.{IsPlanOf};
    ghost use Rattle.data_set_typing.specs.declared.plan.Plan.TheVariants as plan;

    ghost Value = { Unit {0} };

    ghost view = { λ known. tt };

    ghost invariant = { λ known. IsPlanOf known.form known.operands (plan.Applied known.operator known.structure) };
}

/// The operator, where it is one of those that are kept. The others give a truth value, so the data sets under them have one
/// measure; and `if` is put on data sets elsewhere.
fn kept_form(form: &Form) -> Option<Form>
    ensures { IfSome result (λ kept. kept ≡ form.now) }
{
    match form {
        Form::Unary(operator) => Some(Form::Unary(*operator)),
        Form::Binary(operator) => Some(Form::Binary(*operator)),
        Form::Nvl => Some(Form::Nvl),
        Form::Round { function, digits } => Some(Form::Round {
            function: *function,
            digits: *digits,
        }),
        Form::Substr => Some(Form::Substr),
        Form::Replace => Some(Form::Replace),
        _ => None,
    }
}

/// The operand, with some data set of the same structure in its place where it is one; none where it is a scalar that is no
/// literal. Or want of memory.
fn kept_operand(alloc: Global, operand: &Operand) -> Result<Option<Operand>, AllocError>
    ensures { IfOk result (λ kept. IfSome kept (λ o. o ≡ own.by_structure operand.now)) }
{
    match operand {
        Operand::DataSet(set) => Ok(Some(Operand::DataSet(DataSet {
            tree: DataSetTree::Name(Source::Input(0)),
            structure: set.structure.copy()?,
        }))),
        Operand::Scalar(typed) => match &typed.tree {
            CheckedExpr::Literal(_) => Ok(Some(Operand::Scalar(copy_typed(alloc, typed)?))),
            _ => Ok(None),
        },
    }
}

fn kept_operands(alloc: Global, operands: &[Operand]) -> Result<Option<Items<Operand>>, AllocError>
    ensures { IfOk result (λ kept. IfSome kept (λ all. all ≡ own.by_structures operands.now)) }
{
    let mut all = Items::new(alloc);
    for operand in operands {
        match kept_operand(alloc, operand)? {
            Some(kept) => all.push(kept)?,
            None => return Ok(None),
        }
    }
    Ok(Some(all))
}

fn shared(operator: &SharedOperator, structure: &Structure) -> Result<Plan, AllocError>
    ensures { IfOk result (λ plan. plan ≡ variant.Applied operator.now structure.now) }
{
    Ok(Plan::Applied {
        operator: operator.copy()?,
        structure: structure.copy()?,
    })
}

impl Known {
    /// The operator, which stands at this place, and its plan, if it is one that is kept. Or want of memory.
    fn of(
        alloc: Global,
        form: &Form,
        place: Place,
        operands: &[Operand],
        plan: &Plan,
    ) -> Result<Option<Known>, AllocError>
        requires { plans.planned form.now place operands.now ≡ Ok plan.now }
    {
        let Plan::Applied {
            operator,
            structure,
        } = plan
        else {
            return Ok(None);
        };
        let Some(form) = kept_form(form) else {
            return Ok(None);
        };
        let Some(operands) = kept_operands(alloc, operands)? else {
            return Ok(None);
        };
        Ok(Some(Known {
            form,
            operands,
            operator: operator.copy()?,
            structure: structure.copy()?,
        }))
    }

    /// What the operator comes to on these operands, if it is this one and they are alike. Or want of memory.
    #[tactic(auto, using(crate::proofs::Anywhere::known_elsewhere))]
    fn plan(&self, form: &Form, operands: &[Operand]) -> Result<Option<Plan>, AllocError>
        ensures { IfOk result (λ found. IfSome found (own.IsPlanOf form.now operands.now)) }
    {
        if !are_one_form(&self.form, form) || !are_all_alike(self.operands.as_slice(), operands) {
            return Ok(None);
        }
        Ok(Some(shared(&self.operator, &self.structure)?))
    }
}

/// What the last operators on data sets came to, so that an operator on data sets of the same structures needn't be typed on
/// each measure again, and shares what it comes to. What is in it makes no difference to any answer.
pub struct KnownPlans {
    plans: RefCell<Items<Known>>,
}

// Written out, so that who drops one calls this and doesn't go through what is in it.
impl Drop for KnownPlans {
    fn drop(self) {
        let KnownPlans { plans: _ } = self;
    }
}

impl KnownPlans {
    /// Nothing is known yet.
    pub fn new(alloc: Global) -> KnownPlans {
        KnownPlans {
            plans: RefCell::new(Items::new(alloc)),
        }
    }

    /// What the operator comes to on these operands, if it is known. Or want of memory.
    pub(crate) fn plan(&self, form: &Form, operands: &[Operand]) -> Result<Option<Plan>, AllocError>
        ensures { IfOk result (λ found. IfSome found (own.IsPlanOf form.now operands.now)) }
    {
        let Ok(plans) = self.plans.try_borrow() else {
            return Ok(None);
        };
        for known in plans.as_slice() {
            if let Some(plan) = known.plan(form, operands)? {
                return Ok(Some(plan));
            }
        }
        Ok(None)
    }

    /// Keeps what the operator at this place comes to on these operands, if it is one that is kept; the oldest goes where
    /// there are many. Or want of memory.
    pub(crate) fn keep(
        &self,
        alloc: Global,
        form: &Form,
        place: Place,
        operands: &[Operand],
        plan: &Plan,
    ) -> Result<(), AllocError>
        requires { plans.planned form.now place operands.now ≡ Ok plan.now }
    {
        let Some(known) = Known::of(alloc, form, place, operands, plan)? else {
            return Ok(());
        };
        let Ok(mut plans) = self.plans.try_borrow_mut() else {
            return Ok(());
        };
        if plans.len() >= MOST_KNOWN {
            plans.remove(0);
        }
        plans.push(known)
    }
}
