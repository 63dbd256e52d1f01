// The names of measures whose basic type changes.
ghost use Rattle.std.specs.Prelude.{◌≡◌, IfOk};
ghost use Rattle.data_set_trees.specs.Forms as meant;

use data_set_parts::names::name_of_kind;
use data_set_trees::Form;
use scalar_trees::{BinaryOperator, UnaryOperator};
use std::alloc::{AllocError, Global};
use vtl_values::{Kind, Word};

fn unary_name(alloc: Global, operator: UnaryOperator) -> Result<Option<Word>, AllocError>
    ensures { IfOk result (λ name. name ≡ meant.unary_name operator) }
{
    match operator {
        UnaryOperator::Length => Ok(Some(name_of_kind(alloc, Kind::Integer)?)),
        UnaryOperator::Isnull => Ok(Some(name_of_kind(alloc, Kind::Truth)?)),
        UnaryOperator::Plus
        | UnaryOperator::Minus
        | UnaryOperator::Not
        | UnaryOperator::Abs
        | UnaryOperator::Ceil
        | UnaryOperator::Floor
        | UnaryOperator::Trim
        | UnaryOperator::Ltrim
        | UnaryOperator::Rtrim
        | UnaryOperator::Upper
        | UnaryOperator::Lower => Ok(None),
    }
}

fn binary_name(alloc: Global, operator: BinaryOperator) -> Result<Option<Word>, AllocError>
    ensures { IfOk result (λ name. name ≡ meant.binary_name operator) }
{
    match operator {
        BinaryOperator::Instr => Ok(Some(name_of_kind(alloc, Kind::Integer)?)),
        BinaryOperator::Equal
        | BinaryOperator::NotEqual
        | BinaryOperator::Less
        | BinaryOperator::Greater
        | BinaryOperator::AtMost
        | BinaryOperator::AtLeast => Ok(Some(name_of_kind(alloc, Kind::Truth)?)),
        BinaryOperator::Plus
        | BinaryOperator::Minus
        | BinaryOperator::Times
        | BinaryOperator::Over
        | BinaryOperator::Mod
        | BinaryOperator::Join
        | BinaryOperator::And
        | BinaryOperator::Or
        | BinaryOperator::Xor => Ok(None),
    }
}

fn substr_name(alloc: Global, at: usize) -> Result<Option<Word>, AllocError>
    ensures { IfOk result (λ name. name ≡ meant.changed_name Form.Substr at) }
{
    match at {
        0 => Ok(None),
        _ => Ok(Some(name_of_kind(alloc, Kind::Text)?)),
    }
}

/// The name of the measure, where the operator changes the basic type of the operand at this place. Or want of memory.
pub(crate) fn changed_name(
    alloc: Global,
    form: &Form,
    at: usize,
) -> Result<Option<Word>, AllocError>
    ensures { IfOk result (λ name. name ≡ meant.changed_name form.now at) }
{
    match form {
        Form::Unary(operator) => unary_name(alloc, *operator),
        Form::Binary(operator) => binary_name(alloc, *operator),
        Form::Nvl => Ok(None),
        Form::If => Ok(None),
        Form::In { .. } => Ok(Some(name_of_kind(alloc, Kind::Truth)?)),
        Form::Between { .. } => Ok(Some(name_of_kind(alloc, Kind::Truth)?)),
        Form::Round { .. } => Ok(None),
        Form::Substr => substr_name(alloc, at),
        Form::Replace => Ok(None),
        Form::Matches { .. } => Ok(Some(name_of_kind(alloc, Kind::Truth)?)),
    }
}
