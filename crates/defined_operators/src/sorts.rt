// Sorts that arguments and results of calls have to be of.
ghost use Rattle.std.specs.Prelude.{◌≡◌, IfOk, slice_get};
ghost use Rattle.std.specs.Option.{option_copied};
ghost use Rattle.replaced_calls.specs.Replacing as meant;

use operator_faults::calls::operator_of;
use sqlite_items::{Boxed, Items};
use std::alloc::{AllocError, Global};
use tree_copies::copy_expr;
use vtl_syntax::words::Sort;
use vtl_syntax::{DefinedOperator, Expr, Param};
use vtl_values::{Place, Word};

/// Where the expression stands.
fn place_of(tree: &Expr) -> Place
    ensures { result ≡ meant.place_of tree.now }
{
    match tree {
        Expr::If { place, .. } => *place,
        Expr::Or { place, .. } => *place,
        Expr::And { place, .. } => *place,
        Expr::Compare { place, .. } => *place,
        Expr::In { place, .. } => *place,
        Expr::Sum { place, .. } => *place,
        Expr::Product { place, .. } => *place,
        Expr::Signed { place, .. } => *place,
        Expr::Member { place, .. } => *place,
        Expr::Clause { place, .. } => *place,
        Expr::Literal { place, .. } => *place,
        Expr::Name { place, .. } => *place,
        Expr::Bracket { place, .. } => *place,
        Expr::Unary { place, .. } => *place,
        Expr::Round { place, .. } => *place,
        Expr::Binary { place, .. } => *place,
        Expr::Between { place, .. } => *place,
        Expr::MatchCharacters { place, .. } => *place,
        Expr::Substr { place, .. } => *place,
        Expr::Replace { place, .. } => *place,
        Expr::ExistsIn { place, .. } => *place,
        Expr::Sets { place, .. } => *place,
        Expr::Difference { place, .. } => *place,
        Expr::Join { place, .. } => *place,
        Expr::Aggregate { place, .. } => *place,
        Expr::Window { place, .. } => *place,
        Expr::CountAll { place, .. } => *place,
        Expr::Offset { place, .. } => *place,
        Expr::Rank { place, .. } => *place,
        Expr::CheckDatapoint { place, .. } => *place,
        Expr::Hierarchy { place, .. } => *place,
        Expr::CheckHierarchy { place, .. } => *place,
        Expr::Check { place, .. } => *place,
        Expr::Time { place, .. } => *place,
        Expr::Timeshift { place, .. } => *place,
        Expr::FillTimeSeries { place, .. } => *place,
        Expr::CallOf { place, .. } => *place,
        Expr::Typed { place, .. } => *place,
    }
}

/// The expression, which has to be of the sort.
fn typed(alloc: Global, sort: Sort, place: Place, expr: Expr) -> Result<Expr, AllocError>
    ensures { IfOk result (λ made. made ≡ meant.typed sort place expr) }
{
    match sort {
        Sort::Dataset => Ok(expr),
        Sort::Integer => boxed(alloc, sort, place, expr),
        Sort::Number => boxed(alloc, sort, place, expr),
        Sort::Text => boxed(alloc, sort, place, expr),
        Sort::Truth => boxed(alloc, sort, place, expr),
    }
}

fn boxed(alloc: Global, sort: Sort, place: Place, expr: Expr) -> Result<Expr, AllocError>
    ensures { IfOk result (λ made. made ≡ Expr.Typed sort expr place) }
{
    Ok(Expr::Typed {
        sort,
        expr: Boxed::new(alloc, expr)?,
        place,
    })
}

fn returned(
    alloc: Global,
    returns: Option<Sort>,
    place: Place,
    expr: Expr,
) -> Result<Expr, AllocError>
    ensures { IfOk result (λ made. made ≡ meant.returned returns place expr) }
{
    match returns {
        Some(sort) => typed(alloc, sort, place, expr),
        None => Ok(expr),
    }
}

/// The arguments, each with the sort of its parameter.
fn sorted_arguments(
    alloc: Global,
    params: &[Param],
    arguments: &[Expr],
) -> Result<Items<Expr>, AllocError>
    ensures { IfOk result (λ made. made ≡ meant.sorted_arguments params.now arguments.now) }
{
    let mut made = Items::new(alloc);
    for (i, argument) in arguments.iter().enumerate() {
        let copy = copy_expr(alloc, argument)?;
        made.push(sorted_argument(alloc, param_at(params, i), copy)?)?;
    }
    Ok(made)
}

fn param_at(params: &[Param], number: usize) -> Option<&Param>
    ensures { option_copied result ≡ slice_get params.now number }
{
    params.get(number)
}

/// The argument with the sort of its parameter, if it has one.
fn sorted_argument(alloc: Global, param: Option<&Param>, argument: Expr) -> Result<Expr, AllocError>
    ensures { IfOk result (λ made. made ≡ meant.sorted_argument (option_copied param.entry) argument) }
{
    match param {
        Some(param) => {
            let place = place_of(&argument);
            typed(alloc, param.sort, place, argument)
        }
        None => Ok(argument),
    }
}

/// A call with the sorts of its operator put to the arguments and to the whole.
pub(crate) fn sorted_call(
    alloc: Global,
    operators: &[DefinedOperator],
    name: &Word,
    arguments: Items<Expr>,
    place: Place,
) -> Result<Expr, AllocError>
    ensures { IfOk result (λ made. made ≡ meant.sorted_call operators.now name.now arguments place) }
{
    match operator_of(operators, name) {
        Some(operator) => {
            let arguments = sorted_arguments(
                alloc,
                operator.params.as_slice(),
                arguments.as_slice(),
            )?;
            let call = Expr::CallOf {
                name: name.copy()?,
                arguments,
                place,
            };
            returned(alloc, operator.returns, place, call)
        }
        None => Ok(Expr::CallOf {
            name: name.copy()?,
            arguments,
            place,
        }),
    }
}
