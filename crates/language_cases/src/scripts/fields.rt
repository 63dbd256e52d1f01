// What a form has besides its parts: places, names, choices and values.
use std::alloc::AllocError;
use std::fmt::Debug;
use vtl_values::{Integer, Place, Value, Word};

/// `LINE:COLUMN `
pub fn push_place(out: &mut String, place: Place) -> Result<(), AllocError> {
    let (line, column) = (place.line, place.column);
    write!(out, "{line}:{column} ")
}

/// ` LINE:COLUMN FORM`
pub fn push_at(out: &mut String, place: Place, form: &str) -> Result<(), AllocError> {
    out.push_str(" ")?;
    push_place(out, place)?;
    out.push_str(form)
}

/// ` CHOICE`, by the choice's own name.
pub fn push_choice<T: Debug>(out: &mut String, choice: &T) -> Result<(), AllocError> {
    write!(out, " {choice:?}")
}

/// ` WORD`
pub fn push_word(out: &mut String, word: &Word) -> Result<(), AllocError> {
    out.push_str(" ")?;
    out.push_str(word.as_str())
}

/// ` LABEL NUMBER`
pub fn push_number(out: &mut String, label: &str, integer: Integer) -> Result<(), AllocError> {
    write!(out, " {label} {}", integer.value)
}

/// ` LABEL NUMBER`, or nothing.
pub fn push_integer(
    out: &mut String,
    label: &str,
    integer: &Option<Integer>,
) -> Result<(), AllocError> {
    match integer {
        Some(integer) => push_number(out, label, *integer),
        None => Ok(()),
    }
}

/// ` LABEL NAME`, or nothing.
pub fn push_name(out: &mut String, label: &str, name: &Option<Word>) -> Result<(), AllocError> {
    match name {
        Some(name) => {
            push_label(out, label)?;
            push_word(out, name)
        }
        None => Ok(()),
    }
}

/// ` LABEL`
pub fn push_label(out: &mut String, label: &str) -> Result<(), AllocError> {
    out.push_str(" ")?;
    out.push_str(label)
}

/// ` VALUE`
pub fn push_value(out: &mut String, value: &Value) -> Result<(), AllocError> {
    match value {
        Value::Null => write!(out, " null"),
        Value::Truth(truth) => write!(out, " {truth}"),
        Value::Integer(integer) => write!(out, " {}", integer.value),
        Value::Number(number) => write!(out, " {} millionths", number.millionths),
        Value::Text(text) => write!(out, " {:?}", text.as_str()),
    }
}
