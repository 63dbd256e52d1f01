// Operators that are shared.
ghost use Rattle.std.specs.Prelude.{◌≡◌, IfOk};

use crate::tree::DataSetOperator;
use std::alloc::{AllocError, Global};
use std::marker::Model;
use std::sync::Arc;

/// An operator on data sets, which its copies share: those who work it out keep it as it is. Contracts see the operator.
pub struct SharedOperator {
    operator: Arc<DataSetOperator>,
}

// Written out, so that who drops one calls this and doesn't go through what is in it.
impl Drop for SharedOperator {
    fn drop(self) {
        let SharedOperator { operator: _ } = self;
    }
}

impl Model for SharedOperator {
    ghost use Rattle.std.specs.Arc.{arc_value};
    ghost use Rattle.data_set_trees.specs.Coding.{operator_coded};
    ghost use Rattle.data_set_trees.specs.declared.tree.DataSetOperator.{DataSetOperator};

    ghost Value = { DataSetOperator };

    ghost coded = { operator_coded };

    ghost view = { λ s. arc_value s.operator };
}

impl SharedOperator {
    /// The operator, to be shared, or want of memory.
    pub fn of(alloc: Global, operator: DataSetOperator) -> Result<SharedOperator, AllocError>
        ensures { IfOk result (λ shared. shared ≡ operator) }
    {
        Ok(SharedOperator {
            operator: Arc::new(alloc, operator)?,
        })
    }

    /// The operator.
    pub fn get(&self) -> &DataSetOperator
        ensures { result.now ≡ self.now }
    {
        &self.operator
    }

    /// The same operator, or want of memory. It costs a count.
    pub fn copy(&self) -> Result<SharedOperator, AllocError>
        ensures { IfOk result (λ copy. copy ≡ self.now) }
    {
        Ok(SharedOperator {
            operator: self.operator.clone()?,
        })
    }
}
