// Keys by the numbers of their values.
ghost use Rattle.std.specs.Prelude.{◌≡◌, ◌↔◌, IsTrue, IfOk};
ghost use Rattle.std.specs.List.{range_with_len};
ghost use Rattle.clause_meaning.specs.Clauses.{values_at};

use clause_eval::key_left;
use point_sets::Key;
use std::alloc::{AllocError, Global};

/// Whether these are the numbers of so many values in their order.
fn are_all(numbers: &[u64], count: usize) -> bool
    ensures { IsTrue result ↔ (numbers.now ≡ range_with_len 0 count) }
{
    if numbers.len() != count {
        return false;
    }
    for (i, number) in numbers.iter().enumerate() {
        if *number != i as u64 {
            return false;
        }
    }
    true
}

/// The key of the values with these numbers. Where these are all the values in their order the key is shared.
pub fn key_at(alloc: Global, numbers: &[u64], key: &Key) -> Result<Key, AllocError>
    ensures { IfOk result (λ picked. picked ≡ values_at numbers.now key.now) }
{
    if are_all(numbers, key.values().len()) {
        key.copy()
    } else {
        key_left(alloc, numbers, key)
    }
}
