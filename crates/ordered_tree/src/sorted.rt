// Trees whose items ascend by an order.
ghost use Rattle.std.specs.Prelude.{◌≡◌, ◌+◌, ◌^◌, ◌≤◌, length, IfOk, IfErr};
ghost use Rattle.std.specs.Arc.{arc_value};
ghost use Rattle.std.specs.Option.{option_copied, option_map};
ghost use Rattle.ordered_tree.specs.Orders.{Ascends, IsAt, IsGap, find_in, put_in, take_out};

use crate::measure::{Measure, Measured};
use crate::order::{Order, Probe};
use crate::tree::Tree;
use std::alloc::{AllocError, Global};
use std::sync::Arc;

/// The items below one.
#[derive(Drop)]
struct Below<'a, T, O> {
    order: &'a O,
    item: &'a T,
}

impl<'a, T, O: Order<T>> Probe<T> for Below<'a, T, O> {
    ghost use Rattle.std.specs.Ordering.{is_lt};

    ghost test = { λ below y. is_lt (O.cmp below.order.now y below.item.now) };

    fn is_below(&self, item: &T) -> bool {
        self.order.compare(item, self.item).is_lt()
    }
}

impl<T: Measured<M> + Drop, M: Measure + Drop> Tree<T, M> {
    /// Where the item is that is equal to one, or would be.
    fn seek<O: Order<T>>(&self, order: &O, probe: &T) -> Result<u64, u64>
        requires ascends { Ascends (O.cmp order.now) self.now }
        ensures found { IfOk result (IsAt (O.cmp order.now) probe.now self.now) }
        ensures absent { IfErr result (IsGap (O.cmp order.now) probe.now self.now) }
    {
        let n = self.place(&Below { order, item: probe });
        match self.nth(n) {
            None => Err(n),
            Some(item) => {
                if order.compare(item, probe).is_eq() {
                    Ok(n)
                } else {
                    Err(n)
                }
            }
        }
    }

    /// The item that is equal to one.
    pub fn find<O: Order<T>>(&self, order: &O, probe: &T) -> Option<&Arc<T>>
        requires ascends { Ascends (O.cmp order.now) self.now }
        ensures { option_map arc_value (option_copied result) ≡ find_in (O.cmp order.now) probe.now self.now }
    {
        match self.seek(order, probe) {
            Ok(n) => self.nth(n),
            Err(_) => None,
        }
    }

    /// The tree with an item put in, in place of the one that is equal to it.
    pub fn put<O: Order<T>>(
        &self,
        alloc: Global,
        order: &O,
        item: Arc<T>,
    ) -> Result<Tree<T, M>, AllocError>
        requires ascends { Ascends (O.cmp order.now) self.now }
        requires few { length self.now + 1 ≤ 2 ^ 32 }
        ensures items { IfOk result (λ tree. tree ≡ put_in (O.cmp order.now) (arc_value item) self.now) }
        ensures ascends { IfOk result (λ tree. Ascends (O.cmp order.now) tree) }
        ensures few { IfOk result (λ tree. length tree ≤ length self.now + 1) }
    {
        match self.seek(order, &item) {
            Ok(n) => self.replace_at(alloc, n, item),
            Err(n) => self.insert_at(alloc, n, item),
        }
    }

    /// The tree without the item that is equal to one.
    pub fn without<O: Order<T>>(
        &self,
        alloc: Global,
        order: &O,
        probe: &T,
    ) -> Result<Tree<T, M>, AllocError>
        requires ascends { Ascends (O.cmp order.now) self.now }
        ensures items { IfOk result (λ tree. tree ≡ take_out (O.cmp order.now) probe.now self.now) }
        ensures ascends { IfOk result (λ tree. Ascends (O.cmp order.now) tree) }
        ensures few { IfOk result (λ tree. length tree ≤ length self.now) }
    {
        match self.seek(order, probe) {
            Ok(n) => self.remove_at(alloc, n),
            Err(_) => self.copy(),
        }
    }
}
