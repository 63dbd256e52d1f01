// Operands.
use crate::tree::DataSetTree;
use scalar_trees::typing::Typed;
use vtl_values::Structure;

/// A data set: how it is worked out, and its structure.
#[derive(Drop)]
pub struct DataSet {
    pub tree: DataSetTree,
    pub structure: Structure,
}

/// What an expression outside of clauses is: a scalar, in which there are no names, or a data set.
#[derive(Drop)]
pub enum Operand {
    Scalar(Typed),
    DataSet(DataSet),
}
