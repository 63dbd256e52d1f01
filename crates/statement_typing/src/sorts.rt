// Arguments and results of defined operators, which are of a sort.
ghost use Rattle.std.specs.Prelude.{◌≡◌, Ok, IfOk, IfErr};
ghost use Rattle.data_set_trees.specs.declared.operand.Operand.TheVariants as operands;
ghost use Rattle.expression_rules.specs.Expressions as meant;
ghost use Rattle.statement_typing.specs.Parts.{Answers};

use data_set_trees::{DataSet, Operand};
use operator_typing::sort_typed;
use scalar_trees::typing::{Fault, TypeStop, Typed};
use std::alloc::Global;
use vtl_syntax::words::Sort;
use vtl_values::Place;

fn scalar_of(alloc: Global, sort: Sort, place: Place, scalar: Typed) -> Result<Operand, TypeStop>
    ensures { Answers (meant.sorted sort place (operands.Scalar scalar)) result }
{
    Ok(Operand::Scalar(sort_typed(alloc, sort, place, scalar)?))
}

fn data_set_of(sort: Sort, place: Place, set: DataSet) -> Result<Operand, TypeStop>
    ensures { Answers (meant.sorted sort place (operands.DataSet set)) result }
{
    match sort {
        Sort::Dataset => Ok(Operand::DataSet(set)),
        Sort::Integer | Sort::Number | Sort::Text | Sort::Truth => {
            Err(TypeStop::at(Fault::WrongType, place))
        }
    }
}

/// An operand that has to be of this sort.
pub(crate) fn sorted(
    alloc: Global,
    sort: Sort,
    place: Place,
    operand: Operand,
) -> Result<Operand, TypeStop>
    ensures { Answers (meant.sorted sort place operand) result }
{
    match operand {
        Operand::Scalar(scalar) => scalar_of(alloc, sort, place, scalar),
        Operand::DataSet(set) => data_set_of(sort, place, set),
    }
}
