// Which operator a sign or a word stands for.
ghost use Rattle.std.specs.Prelude.{◌≡◌};
ghost use Rattle.scalar_trees.specs.typing.Operators.{prefix_operator, unary_operator, or_operator, sum_operator, product_operator, comparison_operator};

use scalar_trees::{BinaryOperator, UnaryOperator};
use vtl_syntax::words::{Comparison, OrSign, Prefix, ProductSign, SumSign, UnaryFunction};

/// The operator of a sign before an operand.
pub fn prefix_operator(sign: Prefix) -> UnaryOperator
    ensures { result ≡ prefix_operator sign }
{
    match sign {
        Prefix::Plus => UnaryOperator::Plus,
        Prefix::Minus => UnaryOperator::Minus,
        Prefix::Not => UnaryOperator::Not,
    }
}

/// The operator of a function of one operand.
pub fn unary_operator(function: UnaryFunction) -> UnaryOperator
    ensures { result ≡ unary_operator function }
{
    match function {
        UnaryFunction::Abs => UnaryOperator::Abs,
        UnaryFunction::Ceil => UnaryOperator::Ceil,
        UnaryFunction::Floor => UnaryOperator::Floor,
        UnaryFunction::Trim => UnaryOperator::Trim,
        UnaryFunction::Ltrim => UnaryOperator::Ltrim,
        UnaryFunction::Rtrim => UnaryOperator::Rtrim,
        UnaryFunction::Upper => UnaryOperator::Upper,
        UnaryFunction::Lower => UnaryOperator::Lower,
        UnaryFunction::Length => UnaryOperator::Length,
        UnaryFunction::Isnull => UnaryOperator::Isnull,
    }
}

/// The operator of `or` and `xor`.
pub fn or_operator(sign: OrSign) -> BinaryOperator
    ensures { result ≡ or_operator sign }
{
    match sign {
        OrSign::Or => BinaryOperator::Or,
        OrSign::Xor => BinaryOperator::Xor,
    }
}

/// The operator of `+`, `-` and `||` between operands.
pub fn sum_operator(sign: SumSign) -> BinaryOperator
    ensures { result ≡ sum_operator sign }
{
    match sign {
        SumSign::Plus => BinaryOperator::Plus,
        SumSign::Minus => BinaryOperator::Minus,
        SumSign::Join => BinaryOperator::Join,
    }
}

/// The operator of `*` and `/`.
pub fn product_operator(sign: ProductSign) -> BinaryOperator
    ensures { result ≡ product_operator sign }
{
    match sign {
        ProductSign::Times => BinaryOperator::Times,
        ProductSign::Over => BinaryOperator::Over,
    }
}

/// The operator of a comparison.
pub fn comparison_operator(sign: Comparison) -> BinaryOperator
    ensures { result ≡ comparison_operator sign }
{
    match sign {
        Comparison::Equal => BinaryOperator::Equal,
        Comparison::NotEqual => BinaryOperator::NotEqual,
        Comparison::Less => BinaryOperator::Less,
        Comparison::Greater => BinaryOperator::Greater,
        Comparison::AtMost => BinaryOperator::AtMost,
        Comparison::AtLeast => BinaryOperator::AtLeast,
    }
}
