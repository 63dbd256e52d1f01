// What a form has before its parts: its place, its name, and the word or the choice that is its own.
use crate::scripts::fields::{push_choice, push_value, push_word};
use std::alloc::AllocError;
use vtl_syntax::Expr;
use vtl_values::Place;

/// The place and the name of a form.
pub fn place_and_name(tree: &Expr) -> (Place, &'static str) {
    match tree {
        Expr::If { place, .. } => (*place, "If"),
        Expr::Or { place, .. } => (*place, "Or"),
        Expr::And { place, .. } => (*place, "And"),
        Expr::Compare { place, .. } => (*place, "Compare"),
        Expr::In { place, .. } => (*place, "In"),
        Expr::Sum { place, .. } => (*place, "Sum"),
        Expr::Product { place, .. } => (*place, "Product"),
        Expr::Signed { place, .. } => (*place, "Signed"),
        Expr::Member { place, .. } => (*place, "Member"),
        Expr::Clause { place, .. } => (*place, "Clause"),
        Expr::Literal { place, .. } => (*place, "Literal"),
        Expr::Name { place, .. } => (*place, "Name"),
        Expr::Bracket { place, .. } => (*place, "Bracket"),
        Expr::Unary { place, .. } => (*place, "Unary"),
        Expr::Round { place, .. } => (*place, "Round"),
        Expr::Binary { place, .. } => (*place, "Binary"),
        Expr::Between { place, .. } => (*place, "Between"),
        Expr::MatchCharacters { place, .. } => (*place, "MatchCharacters"),
        Expr::Substr { place, .. } => (*place, "Substr"),
        Expr::Replace { place, .. } => (*place, "Replace"),
        Expr::ExistsIn { place, .. } => (*place, "ExistsIn"),
        Expr::Sets { place, .. } => (*place, "Sets"),
        Expr::Difference { place, .. } => (*place, "Difference"),
        Expr::Join { place, .. } => (*place, "Join"),
        Expr::Aggregate { place, .. } => (*place, "Aggregate"),
        Expr::Window { place, .. } => (*place, "Window"),
        Expr::CountAll { place } => (*place, "CountAll"),
        Expr::Offset { place, .. } => (*place, "Offset"),
        Expr::Rank { place, .. } => (*place, "Rank"),
        Expr::CheckDatapoint { place, .. } => (*place, "CheckDatapoint"),
        Expr::Hierarchy { place, .. } => (*place, "Hierarchy"),
        Expr::CheckHierarchy { place, .. } => (*place, "CheckHierarchy"),
        Expr::Check { place, .. } => (*place, "Check"),
        Expr::Time { place, .. } => (*place, "Time"),
        Expr::Timeshift { place, .. } => (*place, "Timeshift"),
        Expr::FillTimeSeries { place, .. } => (*place, "FillTimeSeries"),
        Expr::CallOf { place, .. } => (*place, "CallOf"),
        Expr::Typed { place, .. } => (*place, "Typed"),
    }
}

/// The choice between the words or signs of the form, or the name or the value that it has, if it has one.
pub fn push_own_word(out: &mut String, tree: &Expr) -> Result<(), AllocError> {
    match tree {
        Expr::Or { sign, .. } => push_choice(out, sign),
        Expr::Compare { sign, .. } => push_choice(out, sign),
        Expr::In { sign, .. } => push_choice(out, sign),
        Expr::Sum { sign, .. } => push_choice(out, sign),
        Expr::Product { sign, .. } => push_choice(out, sign),
        Expr::Signed { sign, .. } => push_choice(out, sign),
        Expr::Member { name, .. } => push_word(out, name),
        Expr::Literal { value, .. } => push_value(out, value),
        Expr::Name { name, .. } => push_word(out, name),
        Expr::Unary { function, .. } => push_choice(out, function),
        Expr::Round { function, .. } => push_choice(out, function),
        Expr::Binary { function, .. } => push_choice(out, function),
        Expr::Sets { function, .. } => push_choice(out, function),
        Expr::Difference { function, .. } => push_choice(out, function),
        Expr::Join { function, .. } => push_choice(out, function),
        Expr::Aggregate { function, .. } => push_choice(out, function),
        Expr::Window { function, .. } => push_choice(out, function),
        Expr::Offset { function, .. } => push_choice(out, function),
        Expr::Time { function, .. } => push_choice(out, function),
        Expr::CallOf { name, .. } => push_word(out, name),
        Expr::Typed { sort, .. } => push_choice(out, sort),
        _ => Ok(()),
    }
}
