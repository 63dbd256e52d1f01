// Words of functions, and what they stand for.
ghost use Rattle.std.specs.Prelude.{◌≡◌};
ghost use Rattle.expression_rules.specs.Expressions as meant;

use data_set_trees::{Form, SetOperation};
use scalar_trees::BinaryOperator;
use vtl_syntax::words::{BinaryFunction, DifferenceFunction, SetFunction};

/// The operator of a function of two operands.
pub(crate) fn form_of_function(function: BinaryFunction) -> Form
    ensures { result ≡ meant.form_of_function function }
{
    match function {
        BinaryFunction::Mod => Form::Binary(BinaryOperator::Mod),
        BinaryFunction::Nvl => Form::Nvl,
        BinaryFunction::Instr => Form::Binary(BinaryOperator::Instr),
    }
}

/// The set operator of a function of two operands or more.
pub(crate) fn operation_of(function: SetFunction) -> SetOperation
    ensures { result ≡ meant.operation_of function }
{
    match function {
        SetFunction::Union => SetOperation::Union,
        SetFunction::Intersect => SetOperation::Intersect,
    }
}

/// The set operator of a function of two operands.
pub(crate) fn difference_of(function: DifferenceFunction) -> SetOperation
    ensures { result ≡ meant.difference_of function }
{
    match function {
        DifferenceFunction::Setdiff => SetOperation::Setdiff,
        DifferenceFunction::Symdiff => SetOperation::Symdiff,
    }
}
