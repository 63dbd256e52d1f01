// What is wanted of an operand.
ghost use Rattle.std.specs.Prelude.{◌≡◌, IfOk};
ghost use Rattle.held_index.specs.Wants as wants;

use sqlite_items::Items;
use std::alloc::{AllocError, Global};

/// A component by its number in the structure, from 0, and whether its highest values come first.
#[derive(Clone, Copy, Debug, PartialEq, Eq)]
pub struct OrderItem {
    pub component: u64,
    pub descending: bool,
}

/// What an operator wants of one of its operands: that it is held by number, walked part by part in an order, and that
/// sums of components are kept. Components are given by their numbers in the operand's structure, from 0.
#[derive(Debug, Drop)]
pub struct Want {
    pub operand: u64,
    pub part: Items<u64>,
    pub order: Items<OrderItem>,
    pub sums: Items<u64>,
}

impl Want {
    /// The operand of this number in parts by these components, each in the order of the keys.
    pub fn in_parts(alloc: Global, operand: u64, components: Items<u64>) -> Want
        ensures { result ≡ wants.in_parts operand components }
    {
        Want {
            operand,
            part: components,
            order: Items::new(alloc),
            sums: Items::new(alloc),
        }
    }

    /// The operand of this number, whole.
    pub fn whole(alloc: Global, operand: u64) -> Want
        ensures { result ≡ wants.whole operand }
    {
        Want::in_parts(alloc, operand, Items::new(alloc))
    }

    /// An equal want, or want of memory.
    pub fn copy(&self, alloc: Global) -> Result<Want, AllocError>
        ensures { IfOk result (λ want. want ≡ self.now) }
    {
        Ok(Want {
            operand: self.operand,
            part: Items::from_slice(alloc, self.part.as_slice())?,
            order: Items::from_slice(alloc, self.order.as_slice())?,
            sums: Items::from_slice(alloc, self.sums.as_slice())?,
        })
    }
}

/// So many operands, each whole.
pub fn all_whole(alloc: Global, count: usize) -> Result<Items<Want>, AllocError>
    ensures { IfOk result (λ all. all ≡ wants.all_whole count) }
{
    let mut all = Items::new(alloc);
    for number in 0..count {
        all.push(Want::whole(alloc, number as u64))?;
    }
    Ok(all)
}

/// The exact sum of the values of a component that aren't null, in millionths, and how many these are.
#[derive(Clone, Copy, Debug, PartialEq, Eq)]
pub struct SumOf {
    pub sum: i128,
    pub found: u64,
}
