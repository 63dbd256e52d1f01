// What a scalar operator comes to.
use data_set_trees::SharedOperator;
use scalar_trees::typing::Typed;
use vtl_values::Structure;

/// A scalar, or an operator on the data sets among its operands, with the structure of its result.
#[derive(Drop)]
pub(crate) enum Plan {
    Scalar(Typed),
    Applied {
        operator: SharedOperator,
        structure: Structure,
    },
}
