// What the rule of an inner join wants held.
ghost use Rattle.std.specs.Prelude.{◌≡◌, ◌<◌, ◌+◌, ◌^◌, ◌++◌, map, IfOk, OnOk};
ghost use Rattle.held_index.specs.Wants.{whole};
ghost use Rattle.inner_joins.specs.Rules as rules;
ghost use Rattle.inner_joins.specs.Rules.{others_of, parts_for, wants_on};

use crate::plan::InnerPlan;
use held_index::Want;
use sqlite_items::Items;
use std::alloc::{AllocError, Global};

/// The number of the other operand at a place among the others.
fn number_at(main: usize, place: usize) -> usize
    requires { place + 1 < 2 ^ 64 }
    ensures { result ≡ rules.number_at main place }
{
    if place < main { place } else { place + 1 }
}

/// Each other operand is wanted whole.
fn push_whole(alloc: Global, plan: &InnerPlan, wants: &mut Items<Want>) -> Result<(), AllocError>
    ensures { OnOk result (wants.new ≡ wants.old ++ map whole (others_of plan.now)) }
{
    for place in 0..plan.others() {
        let number = number_at(plan.main(), place);
        wants.push(Want::whole(alloc, number as u64))?;
    }
    Ok(())
}

/// For each other operand the main one is wanted in parts.
fn push_parts(alloc: Global, plan: &InnerPlan, wants: &mut Items<Want>) -> Result<(), AllocError>
    ensures { OnOk result (wants.new ≡ wants.old ++ map (parts_for plan.now) (others_of plan.now)) }
{
    let main = plan.main();
    for place in 0..plan.others() {
        let number = number_at(main, place);
        let numbers = plan.join().partner_numbers(alloc, main, number)?;
        wants.push(Want::in_parts(alloc, main as u64, numbers))?;
    }
    Ok(())
}

/// What an inner join wants of its operands.
pub fn wants_of(alloc: Global, plan: &InnerPlan) -> Result<Items<Want>, AllocError>
    ensures { IfOk result (λ wants. wants ≡ wants_on plan.now) }
{
    let mut wants = Items::new(alloc);
    push_whole(alloc, plan, &mut wants)?;
    push_parts(alloc, plan, &mut wants)?;
    Ok(wants)
}
