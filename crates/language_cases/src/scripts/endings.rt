// What a form has after its parts, and in which no expression stands.
use crate::scripts::fields::{
    push_choice, push_integer, push_name, push_number, push_place, push_value,
};
use crate::scripts::parts::push_over;
use std::alloc::AllocError;
use vtl_syntax::Expr;
use vtl_values::{Place, Value, Word};

/// The values, the numbers and the choices after the operands, if the form has any.
pub fn push_ending(out: &mut String, tree: &Expr) -> Result<(), AllocError> {
    match tree {
        Expr::In { set, .. } => push_values(out, set.as_slice()),
        Expr::Round { digits, .. } => push_integer(out, "digits", digits),
        Expr::Between { low, high, .. } => {
            push_value(out, low)?;
            push_value(out, high)
        }
        Expr::MatchCharacters { pattern, .. } => write!(out, " {:?}", pattern.as_str()),
        Expr::ExistsIn { rows, .. } => match rows {
            Some(rows) => push_choice(out, rows),
            None => Ok(()),
        },
        Expr::Window { over, .. } => push_over(out, over),
        Expr::Offset { offset, over, .. } => {
            push_number(out, "by", *offset)?;
            push_over(out, over)
        }
        Expr::Rank { over, .. } => push_over(out, over),
        Expr::Check { output, .. } => push_choice(out, output),
        Expr::Timeshift { shift, .. } => push_number(out, "by", *shift),
        Expr::FillTimeSeries { span, .. } => push_choice(out, span),
        _ => push_rules(out, tree),
    }
}

fn push_values(out: &mut String, values: &[Value]) -> Result<(), AllocError> {
    for value in values {
        push_value(out, value)?;
    }
    Ok(())
}

// The ruleset, and what is chosen after it, if the form goes by one.
fn push_rules(out: &mut String, tree: &Expr) -> Result<(), AllocError> {
    match tree {
        Expr::CheckDatapoint {
            ruleset,
            ruleset_place,
            output,
            ..
        } => {
            push_ruleset(out, ruleset, *ruleset_place)?;
            push_choice(out, output)
        }
        Expr::Hierarchy {
            ruleset,
            ruleset_place,
            component,
            mode,
            input,
            output,
            ..
        } => {
            push_ruleset(out, ruleset, *ruleset_place)?;
            push_name(out, "rule", component)?;
            push_choice(out, mode)?;
            push_choice(out, input)?;
            push_choice(out, output)
        }
        Expr::CheckHierarchy {
            ruleset,
            ruleset_place,
            component,
            mode,
            input,
            output,
            ..
        } => {
            push_ruleset(out, ruleset, *ruleset_place)?;
            push_name(out, "rule", component)?;
            push_choice(out, mode)?;
            push_choice(out, input)?;
            push_choice(out, output)
        }
        _ => Ok(()),
    }
}

// The name of a ruleset with its place.
fn push_ruleset(out: &mut String, name: &Word, place: Place) -> Result<(), AllocError> {
    out.push_str(" (")?;
    push_place(out, place)?;
    write!(out, "ruleset {})", name.as_str())
}
