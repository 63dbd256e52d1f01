// Keys.
ghost use Rattle.std.specs.Prelude.{◌≡◌, IfOk};

use sqlite_items::Items;
use std::alloc::{AllocError, Global};
use std::cmp::Ordering;
use std::marker::Model;
use std::sync::Arc;
use vtl_values::Value;

/// What tells a point from the others of its data set: the values of the identifiers, in structure order. Contracts
/// see it as the list of its values; keys are ordered by their values, from the first on. Copies share the values.
#[derive(Debug)]
pub struct Key {
    values: Arc<Items<Value>>,
}

// Written out, so that who drops one calls this and doesn't go through what is in it.
impl Drop for Key {
    fn drop(self) {
        let Key { values: _ } = self;
    }
}

impl Model for Key {
    ghost use Rattle.std.specs.Prelude.{List};
    ghost use Rattle.std.specs.Arc.{arc_value};
    ghost use Rattle.vtl_values.specs.declared.value.Value.{Value as V};

    ghost Value = { List V };

    ghost view = { λ key. arc_value key.values };
}

impl Key {
    /// The key of these values.
    pub fn of(alloc: Global, values: Vec<Value>) -> Result<Key, AllocError>
        ensures { IfOk result (λ key. key ≡ values.items) }
    {
        Ok(Key {
            values: Arc::new(alloc, Items::from_vec(values))?,
        })
    }

    /// The values of the identifiers, in their order.
    pub fn values(&self) -> &[Value]
        ensures { result.now ≡ self.now }
    {
        self.values.as_slice()
    }

    /// An equal key, which shares the values, or want of memory.
    pub fn copy(&self) -> Result<Key, AllocError>
        ensures { IfOk result (λ key. key ≡ self.now) }
    {
        Ok(Key {
            values: self.values.clone()?,
        })
    }
}

impl PartialEq for Key {
    ghost use Rattle.std.specs.Ordering.{eq_by_cmp};
    ghost use Rattle.std.specs.Cmp.{eq_by_cmp_equiv, partial_equiv_from_equiv};
    ghost use Rattle.vtl_values.specs.Order.{key_cmp};
    ghost use Rattle.vtl_values.proofs.Values.{key_cmp-IsTotalOrder};

    ghost eq = { eq_by_cmp key_cmp };

    ghost laws = { partial_equiv_from_equiv (eq_by_cmp_equiv key_cmp-IsTotalOrder) };

    fn eq(&self, other: &Self) -> bool {
        self.cmp(other).is_eq()
    }
}

impl Eq for Key {
    ghost use Rattle.std.specs.Cmp.{eq_by_cmp_equiv};
    ghost use Rattle.vtl_values.proofs.Values.{key_cmp-IsTotalOrder};

    ghost laws = { eq_by_cmp_equiv key_cmp-IsTotalOrder };
}

impl PartialOrd for Key {
    ghost use Rattle.std.specs.Prelude.{Some, refl};
    ghost use Rattle.std.specs.Cmp.{po};
    ghost use Rattle.vtl_values.specs.Order.{key_cmp};
    ghost use Rattle.vtl_values.proofs.Values.{key_cmp-IsTotalOrder};

    ghost partial_cmp = { λ x y. Some (key_cmp x y) };

    ghost laws = { po key_cmp-IsTotalOrder (λ x y. refl) };

    fn partial_cmp(&self, other: &Self) -> Option<Ordering> {
        Some(self.cmp(other))
    }
}

impl Ord for Key {
    ghost use Rattle.std.specs.Prelude.{refl};
    ghost use Rattle.vtl_values.specs.Order.{key_cmp};
    ghost use Rattle.vtl_values.proofs.Values.{key_cmp-IsTotalOrder};

    ghost cmp = { key_cmp };

    ghost total = { key_cmp-IsTotalOrder };

    ghost matches_partial_cmp = { λ x y. refl };

    ghost matches_eq = { λ x y. refl };

    fn cmp(&self, other: &Self) -> Ordering {
        self.values().cmp(&other.values())
    }
}
