// Three-valued logic, in which none stands for null.
ghost use Rattle.std.specs.Prelude.{◌≡◌};
ghost use Rattle.scalar_meaning.specs.Logic as meant;

use vtl_values::Value;

/// The boolean that a value is; what is none counts as null.
pub(crate) fn truth_of(value: &Value) -> Option<bool>
    ensures { result ≡ meant.truth_of value.now }
{
    match value {
        Value::Truth(truth) => Some(*truth),
        _ => None,
    }
}

/// The boolean as a value.
pub(crate) fn truth_value(truth: Option<bool>) -> Value
    ensures { result ≡ meant.truth_value truth }
{
    match truth {
        Some(truth) => Value::Truth(truth),
        None => Value::Null,
    }
}

/// Whether a condition holds: it is neither false nor null.
pub(crate) fn holds(value: &Value) -> bool
    ensures { result ≡ meant.holds value.now }
{
    truth_of(value) == Some(true)
}

/// `and` of VTL: false if one is false, else null if one is null.
pub(crate) fn both(a: &Value, b: &Value) -> Value
    ensures { result ≡ meant.on_truths meant.both a.now b.now }
{
    truth_value(match (truth_of(a), truth_of(b)) {
        (Some(true), Some(true)) => Some(true),
        (Some(false), _) | (_, Some(false)) => Some(false),
        _ => None,
    })
}

/// `or` of VTL: true if one is true, else null if one is null.
pub(crate) fn either(a: &Value, b: &Value) -> Value
    ensures { result ≡ meant.on_truths meant.either a.now b.now }
{
    truth_value(match (truth_of(a), truth_of(b)) {
        (Some(false), Some(false)) => Some(false),
        (Some(true), _) | (_, Some(true)) => Some(true),
        _ => None,
    })
}

/// `xor` of VTL: null if one is null.
pub(crate) fn exactly_one(a: &Value, b: &Value) -> Value
    ensures { result ≡ meant.on_truths meant.exactly_one a.now b.now }
{
    truth_value(match (truth_of(a), truth_of(b)) {
        (Some(a), Some(b)) => Some(a != b),
        _ => None,
    })
}

/// `not` of VTL: null of null.
pub(crate) fn opposite(value: &Value) -> Value
    ensures { result ≡ meant.truth_value (meant.opposite (meant.truth_of value.now)) }
{
    truth_value(truth_of(value).map(|truth| !truth))
}
