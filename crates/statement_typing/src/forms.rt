// Scalar operators with what their form says.
ghost use Rattle.std.specs.Prelude.{◌≡◌, IfOk};
ghost use Rattle.data_set_trees.specs.declared.form.Form.TheVariants as form;

use data_set_trees::Form;
use sqlite_items::Items;
use std::alloc::{AllocError, Global};
use vtl_syntax::words::InSign;
use vtl_values::{Value, Word};

/// A copy of the values, or want of memory.
fn copy_values(alloc: Global, values: &[Value]) -> Result<Items<Value>, AllocError>
    ensures { IfOk result (λ copy. copy ≡ values.now) }
{
    let mut copy = Items::new(alloc);
    for value in values {
        copy.push(value.copy()?)?;
    }
    Ok(copy)
}

/// `in {..}`, `not_in {..}`
pub(crate) fn in_set(alloc: Global, sign: InSign, set: &[Value]) -> Result<Form, AllocError>
    ensures { IfOk result (λ made. made ≡ form.In sign set.now) }
{
    Ok(Form::In {
        sign,
        set: copy_values(alloc, set)?,
    })
}

/// `between(.., low, high)`
pub(crate) fn between(low: &Value, high: &Value) -> Result<Form, AllocError>
    ensures { IfOk result (λ made. made ≡ form.Between low.now high.now) }
{
    Ok(Form::Between {
        low: low.copy()?,
        high: high.copy()?,
    })
}

/// `match_characters(.., "pattern")`
pub(crate) fn matches(pattern: &Word) -> Result<Form, AllocError>
    ensures { IfOk result (λ made. made ≡ form.Matches pattern.now) }
{
    Ok(Form::Matches {
        pattern: pattern.copy()?,
    })
}
