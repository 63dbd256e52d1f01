// The kinds that operators take and give.
ghost use Rattle.std.specs.Prelude.{◌≡◌, true, nat_le, nat_abs, IfOk};
ghost use Rattle.vtl_values.specs.Ranges.{MOST_INTEGER, MOST_MILLIONTHS};
ghost use Rattle.std.specs.List.{list_all};
ghost use Rattle.scalar_trees.specs.Kinds.{may_stand, agreed, ANY, unary_takes, unary_gives, binary_takes, binary_gives, aggregate_takes, aggregate_gives, round_gives, sort_takes, literal_kind, widened_value};
ghost use Rattle.scalar_trees.specs.WellTyped.{is_present, digits_fit, in_range};

use crate::operators::{BinaryOperator, UnaryOperator};
use std::alloc::AllocError;
use vtl_syntax::words::{AggregateFunction, Sort};
use vtl_values::{Decimal, Integer, Kind, Value};

/// Whether an operand may stand where the kind `wanted` is wanted. `None` is the literal null.
pub fn may_stand(wanted: Kind, given: Option<Kind>) -> bool
    ensures { result ≡ may_stand wanted given }
{
    match given {
        None => true,
        Some(Kind::Integer) => wanted == Kind::Integer || wanted == Kind::Number,
        Some(kind) => wanted == kind,
    }
}

fn all_may_stand(wanted: Kind, operands: &[Option<Kind>]) -> bool
    ensures { result ≡ list_all (may_stand wanted) operands.now }
{
    operands.iter().all(|given| may_stand(wanted, *given))
}

/// The first of the kinds at which all operands may stand.
pub fn agreed(takes: &[Kind], operands: &[Option<Kind>]) -> Option<Kind>
    ensures { result ≡ agreed takes.now operands.now }
{
    takes
        .iter()
        .copied()
        .find(|kind| all_may_stand(*kind, operands))
}

/// All kinds, in the order in which the literal null takes them.
pub fn any_kind() -> &'static [Kind]
    ensures { result.now ≡ ANY }
{
    &[Kind::Truth, Kind::Integer, Kind::Number, Kind::Text]
}

/// The kinds that an operator of one operand takes.
pub fn unary_takes(operator: UnaryOperator) -> &'static [Kind]
    ensures { result.now ≡ unary_takes operator }
{
    match operator {
        UnaryOperator::Plus | UnaryOperator::Minus | UnaryOperator::Abs => {
            &[Kind::Integer, Kind::Number]
        }
        UnaryOperator::Not => &[Kind::Truth],
        UnaryOperator::Ceil | UnaryOperator::Floor => &[Kind::Number],
        UnaryOperator::Trim
        | UnaryOperator::Ltrim
        | UnaryOperator::Rtrim
        | UnaryOperator::Upper
        | UnaryOperator::Lower
        | UnaryOperator::Length => &[Kind::Text],
        UnaryOperator::Isnull => any_kind(),
    }
}

/// What an operator of one operand gives of an operand of this kind.
pub fn unary_gives(operator: UnaryOperator, kind: Kind) -> Kind
    ensures { result ≡ unary_gives operator kind }
{
    match operator {
        UnaryOperator::Plus | UnaryOperator::Minus | UnaryOperator::Abs => kind,
        UnaryOperator::Not | UnaryOperator::Isnull => Kind::Truth,
        UnaryOperator::Ceil | UnaryOperator::Floor | UnaryOperator::Length => Kind::Integer,
        UnaryOperator::Trim
        | UnaryOperator::Ltrim
        | UnaryOperator::Rtrim
        | UnaryOperator::Upper
        | UnaryOperator::Lower => Kind::Text,
    }
}

/// The kinds that an operator of two operands takes.
pub fn binary_takes(operator: BinaryOperator) -> &'static [Kind]
    ensures { result.now ≡ binary_takes operator }
{
    match operator {
        BinaryOperator::Plus
        | BinaryOperator::Minus
        | BinaryOperator::Times
        | BinaryOperator::Mod => &[Kind::Integer, Kind::Number],
        BinaryOperator::Over => &[Kind::Number],
        BinaryOperator::Join | BinaryOperator::Instr => &[Kind::Text],
        BinaryOperator::And | BinaryOperator::Or | BinaryOperator::Xor => &[Kind::Truth],
        BinaryOperator::Equal
        | BinaryOperator::NotEqual
        | BinaryOperator::Less
        | BinaryOperator::Greater
        | BinaryOperator::AtMost
        | BinaryOperator::AtLeast => any_kind(),
    }
}

/// What an operator of two operands gives of operands of this kind.
pub fn binary_gives(operator: BinaryOperator, kind: Kind) -> Kind
    ensures { result ≡ binary_gives operator kind }
{
    match operator {
        BinaryOperator::Plus
        | BinaryOperator::Minus
        | BinaryOperator::Times
        | BinaryOperator::Mod => kind,
        BinaryOperator::Over => Kind::Number,
        BinaryOperator::Join => Kind::Text,
        BinaryOperator::Instr => Kind::Integer,
        BinaryOperator::And
        | BinaryOperator::Or
        | BinaryOperator::Xor
        | BinaryOperator::Equal
        | BinaryOperator::NotEqual
        | BinaryOperator::Less
        | BinaryOperator::Greater
        | BinaryOperator::AtMost
        | BinaryOperator::AtLeast => Kind::Truth,
    }
}

/// The kinds of components that an aggregate takes.
pub fn aggregate_takes(function: AggregateFunction) -> &'static [Kind]
    ensures { result.now ≡ aggregate_takes function }
{
    match function {
        AggregateFunction::Sum | AggregateFunction::Avg | AggregateFunction::Median => {
            &[Kind::Integer, Kind::Number]
        }
        AggregateFunction::Count | AggregateFunction::Min | AggregateFunction::Max => any_kind(),
    }
}

/// What an aggregate gives of a component of this kind.
pub fn aggregate_gives(function: AggregateFunction, kind: Kind) -> Kind
    ensures { result ≡ aggregate_gives function kind }
{
    match function {
        AggregateFunction::Sum | AggregateFunction::Min | AggregateFunction::Max => kind,
        AggregateFunction::Avg | AggregateFunction::Median => Kind::Number,
        AggregateFunction::Count => Kind::Integer,
    }
}

/// What `round` and `trunc` give: an integer without digits, else a number.
pub fn round_gives(digits: &Option<Integer>) -> Kind
    ensures { result ≡ round_gives digits.now }
{
    match digits {
        None => Kind::Integer,
        Some(_) => Kind::Number,
    }
}

/// The kinds that an argument or a result of this sort takes.
pub fn sort_takes(sort: Sort) -> &'static [Kind]
    ensures { result.now ≡ sort_takes sort }
{
    match sort {
        Sort::Dataset => &[],
        Sort::Integer => &[Kind::Integer],
        Sort::Number => &[Kind::Integer, Kind::Number],
        Sort::Text => &[Kind::Text],
        Sort::Truth => &[Kind::Truth],
    }
}

/// Whether a literal is another than null.
pub fn is_present(value: &Value) -> bool
    ensures { result ≡ is_present value.now }
{
    literal_kind(value).is_some()
}

/// Whether digits go from -15 to 6, where they are given.
pub fn digits_fit(digits: &Option<Integer>) -> bool
    ensures { result ≡ digits_fit digits.now }
{
    match digits {
        None => true,
        Some(digits) => -15 <= digits.value && digits.value <= 6,
    }
}

fn integer_kind(integer: Integer) -> Kind
    ensures kind { result ≡ Kind.Integer }
    ensures range { nat_le (nat_abs integer) MOST_INTEGER ≡ true }
{
    let _value = integer.value;
    Kind::Integer
}

fn number_kind(number: Decimal) -> Kind
    ensures kind { result ≡ Kind.Number }
    ensures range { nat_le (nat_abs number) MOST_MILLIONTHS ≡ true }
{
    let _millionths = number.millionths;
    Kind::Number
}

/// The kind of a literal; null has none of its own.
pub fn literal_kind(value: &Value) -> Option<Kind>
    ensures kind { result ≡ literal_kind value.now }
    ensures range { in_range value.now ≡ true }
{
    match value {
        Value::Null => None,
        Value::Truth(_) => Some(Kind::Truth),
        Value::Integer(integer) => Some(integer_kind(*integer)),
        Value::Number(number) => Some(number_kind(*number)),
        Value::Text(_) => Some(Kind::Text),
    }
}

/// A literal where this kind is wanted: there an integer becomes a number. Or want of memory.
pub fn widened_value(wanted: Kind, value: &Value) -> Result<Value, AllocError>
    ensures value { IfOk result (λ widened. widened ≡ widened_value wanted value.now) }
    ensures range { in_range value.now ≡ true }
{
    let _kind = literal_kind(value);
    match (wanted, value) {
        (Kind::Number, Value::Integer(integer)) => Ok(Value::Number(Decimal {
            millionths: i128::from(integer.value) * 1_000_000,
        })),
        _ => value.copy(),
    }
}
