// Literals, and integers with a sign.
ghost use Rattle.std.specs.Prelude.{◌≡◌, Some, neg_ℤ};
ghost use Rattle.std.proofs.Common.{inl};
ghost use Rattle.vtl_tokens.specs.declared.sign.Sign.TheVariants as signs;
ghost use Rattle.vtl_grammar.specs.Rules.{integer, number, ◌▸◌, either, sig};
ghost use Rattle.vtl_grammar.specs.Reading.{no_part};
ghost use Rattle.vtl_grammar.specs.Clauses.{literal, literal_of, signed_integer, signed_of};
ghost use Rattle.vtl_cursor.specs.Limits.{limits};
ghost use Rattle.vtl_cursor.specs.Plain.{read_plain};
ghost use Rattle.vtl_cursor.specs.Views.{Shows};

use crate::{Cursor, Stop};
use vtl_tokens::{Keyword, Sign};
use vtl_values::{Decimal, Integer, Value};

/// A literal; before an integer or a number may stand a minus.
pub fn literal(cursor: &mut Cursor) -> Result<Value, Stop>
    ensures { Shows literal_of cursor.new.tokens.now result (read_plain limits no_part literal cursor.old.tokens.now) }
{
    if cursor.is_sign(Sign::Minus) {
        return negative(cursor);
    }
    if cursor.is_integer() {
        let integer = cursor.integer()?;
        return Ok(Value::Integer(integer.value));
    }
    if cursor.is_number() {
        let number = cursor.number()?;
        return Ok(Value::Number(number.value));
    }
    if cursor.is_text() {
        let text = cursor.text()?;
        return Ok(Value::Text(text.value));
    }
    if cursor.is_word(Keyword::True) {
        cursor.word(Keyword::True)?;
        return Ok(Value::Truth(true));
    }
    if cursor.is_word(Keyword::False) {
        cursor.word(Keyword::False)?;
        return Ok(Value::Truth(false));
    }
    cursor.word(Keyword::Null)?;
    Ok(Value::Null)
}

/// A minus, and an integer or a number.
fn negative(cursor: &mut Cursor) -> Result<Value, Stop>
    ensures { Shows (λ v. literal_of (inl (Some v.0, v.1))) cursor.new.tokens.now result (read_plain limits no_part (sig signs.Minus ▸ either integer number) cursor.old.tokens.now) }
{
    cursor.sign(Sign::Minus)?;
    if cursor.is_integer() {
        let integer = cursor.integer()?;
        return Ok(Value::Integer(negative_integer(integer.value)));
    }
    let number = cursor.number()?;
    Ok(Value::Number(negative_number(number.value)))
}

/// An integer, before which a minus may stand.
pub fn signed_integer(cursor: &mut Cursor) -> Result<Integer, Stop>
    ensures { Shows signed_of cursor.new.tokens.now result (read_plain limits no_part signed_integer cursor.old.tokens.now) }
{
    if cursor.is_sign(Sign::Minus) {
        cursor.sign(Sign::Minus)?;
        let integer = cursor.integer()?;
        return Ok(negative_integer(integer.value));
    }
    let integer = cursor.integer()?;
    Ok(integer.value)
}

fn negative_integer(integer: Integer) -> Integer
    ensures { result ≡ neg_ℤ integer }
{
    Integer {
        value: -integer.value,
    }
}

fn negative_number(number: Decimal) -> Decimal
    ensures { result ≡ neg_ℤ number }
{
    Decimal {
        millionths: -number.millionths,
    }
}
