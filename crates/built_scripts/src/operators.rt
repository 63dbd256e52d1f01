// Which operators are built.
ghost use Rattle.std.specs.Prelude.{◌≡◌};
ghost use Rattle.std.specs.List.{All};
ghost use Rattle.vtl_values.specs.Structures.{IsStructure};
ghost use Rattle.built_scripts.specs.Built as built;

use data_set_trees::DataSetOperator;
use vtl_values::Structure;

/// Whether an operator is built.
pub(crate) fn is_built(operator: &DataSetOperator) -> bool
    ensures { result ≡ built.is_built operator.now }
{
    match operator {
        DataSetOperator::Clause(_)
        | DataSetOperator::Pair { .. }
        | DataSetOperator::Choice { .. }
        | DataSetOperator::ExistsIn { .. }
        | DataSetOperator::Set(_)
        | DataSetOperator::Join(_)
        | DataSetOperator::InJoin(_) => true,
        DataSetOperator::Aggregate(_)
        | DataSetOperator::Window(_)
        | DataSetOperator::WindowInJoin(_)
        | DataSetOperator::Time(_)
        | DataSetOperator::Check(_)
        | DataSetOperator::Datapoint(_)
        | DataSetOperator::Hierarchy(_) => false,
    }
}

/// What the type of structures says of the operands of an operator and of its result, said of their components.
pub(crate) fn have_structures(operands: &[Structure], structure: &Structure)
    ensures operands { All IsStructure operands.now }
    ensures result { IsStructure structure.now }
{
    // What the calls promise of the components is all that is wanted.
    for operand in operands {
        let _ = operand.components();
    }
    let _ = structure.components();
}
