// What an outline weighs once its calls are replaced.
ghost use Rattle.std.specs.Prelude.{◌≡◌, [], ◌∷◌, map, drop, length, slice_get, slice_index, IfOk};
ghost use Rattle.std.specs.Option.{option_copied};
ghost use Rattle.operator_faults.specs.Sketches.{of_operator};
ghost use Rattle.written_sizes.specs.Arithmetic.{limited};
ghost use Rattle.written_sizes.specs.Weights as meant;

use crate::form::{Form, Share};
use crate::measure::{Measure, add, alone, factor, multiply};
use operator_faults::calls::operator_of;
use operator_faults::{Outline, What};
use sqlite_items::Items;
use std::alloc::{AllocError, Global};
use vtl_syntax::words::Sort;
use vtl_syntax::{DefinedOperator, Param};
use vtl_values::Word;

// ---- what counts

fn unit_of(share: Share) -> u64
    ensures { result ≡ meant.unit_of share }
{
    match share {
        Share::Own => 1,
        Share::Of(_) => 0,
    }
}

/// The number of the first parameter of that name.
fn number_in(params: &[Param], name: &Word) -> Option<usize>
    ensures { result ≡ meant.number_in params.now name.now }
{
    params.iter().position(|param| param.name == *name)
}

/// What a name weighs.
fn name_weight(params: &[Param], share: Share, name: &Word) -> u64
    ensures { result ≡ meant.name_weight params.now share name.now }
{
    match (share, number_in(params, name)) {
        (Share::Own, None) => 1,
        (Share::Own, Some(_)) => 0,
        (Share::Of(_), None) => 0,
        (Share::Of(i), Some(j)) => u64::from(j == i),
    }
}

/// What stands there without parts.
fn start(measure: Measure, unit: u64, what: &What) -> u64
    ensures { result ≡ meant.start (limited measure) measure unit what.now }
{
    multiply(measure, alone(measure, what), unit)
}

/// An expression that has to be of the sort.
fn typed(measure: Measure, unit: u64, sort: Sort, weight: u64) -> u64
    ensures { result ≡ meant.typed (limited measure) measure unit sort weight }
{
    match sort {
        Sort::Dataset => weight,
        Sort::Integer => plain(measure, unit, weight),
        Sort::Number => plain(measure, unit, weight),
        Sort::Text => plain(measure, unit, weight),
        Sort::Truth => plain(measure, unit, weight),
    }
}

fn plain(measure: Measure, unit: u64, weight: u64) -> u64
    ensures { result ≡ meant.node (limited measure) measure unit What.Plain (weight ∷ []) }
{
    let what = What::Plain;
    let parts = add(measure, start(measure, unit, &what), weight);
    multiply(measure, factor(measure, &what), parts)
}

fn returned(measure: Measure, unit: u64, returns: Option<Sort>, weight: u64) -> u64
    ensures { result ≡ meant.returned (limited measure) measure unit returns weight }
{
    match returns {
        Some(sort) => typed(measure, unit, sort, weight),
        None => weight,
    }
}

fn argument(measure: Measure, unit: u64, param: Option<&Param>, weight: u64) -> u64
    ensures { result ≡ meant.argument (limited measure) measure unit (option_copied param.entry) weight }
{
    match param {
        Some(param) => typed(measure, unit, param.sort, weight),
        None => weight,
    }
}

// ---- forms

/// The form of the first operator of that name.
fn form_of<'a>(operators: &[DefinedOperator], forms: &'a [Form], name: &Word) -> Option<&'a Form>
    ensures { option_copied result ≡ meant.form_of operators.now forms.now name.now }
{
    for (i, operator) in operators.iter().enumerate() {
        if operator.name == *name {
            return form_at(forms, i);
        }
    }
    None
}

fn form_at(forms: &[Form], number: usize) -> Option<&Form>
    ensures { option_copied result ≡ slice_get forms.now number }
{
    forms.get(number)
}

/// A call that stays.
fn staying(measure: Measure) -> u64
    ensures { result ≡ meant.staying measure }
{
    match measure {
        Measure::Expressions => 1,
        Measure::Levels => 2,
    }
}

fn own_of(measure: Measure, form: Option<&Form>) -> u64
    ensures { result ≡ meant.own_of measure (option_copied form.entry) }
{
    match form {
        Some(form) => form.own,
        None => staying(measure),
    }
}

fn times_of(measure: Measure, form: Option<&Form>, number: usize) -> u64
    ensures { result ≡ meant.times_of measure (option_copied form.entry) number }
{
    match form {
        Some(form) => time_at(form.times.as_slice(), number),
        None => staying(measure),
    }
}

fn time_at(times: &[u64], number: usize) -> u64
    ensures { result ≡ slice_index times.now number }
{
    match times.get(number) {
        Some(times) => *times,
        None => 0,
    }
}

fn all_times(form: Option<&Form>) -> &[u64]
    ensures { result.now ≡ meant.all_times (option_copied form.entry) }
{
    match form {
        Some(form) => form.times.as_slice(),
        None => &[],
    }
}

fn param_at(params: &[Param], number: usize) -> Option<&Param>
    ensures { option_copied result ≡ slice_get params.now number }
{
    params.get(number)
}

fn params_of(operator: Option<&DefinedOperator>) -> &[Param]
    ensures { result.now ≡ meant.params_of (option_copied operator.entry) }
{
    match operator {
        Some(operator) => operator.params.as_slice(),
        None => &[],
    }
}

fn returns_of(operator: Option<&DefinedOperator>) -> Option<Sort>
    ensures { result ≡ meant.returns_of (option_copied operator.entry) }
{
    match operator {
        Some(operator) => operator.returns,
        None => None,
    }
}

/// What is left of a list from that number on.
fn rest_of(times: &[u64], from: usize) -> &[u64]
    ensures { result.now ≡ drop from times.now }
{
    if from <= times.len() {
        times.split_at(from).1
    } else {
        &[]
    }
}

/// With the names of parameters that have no argument.
fn with_names(measure: Measure, unit: u64, weight: u64, times: &[u64]) -> u64
    ensures { result ≡ meant.with_names (limited measure) unit weight times.now }
{
    let mut total = weight;
    for n in times {
        total = add(measure, total, multiply(measure, *n, unit));
    }
    total
}

// ---- outlines

/// What the outline weighs, or the share of a parameter in it, once its calls are replaced: those of operators that have a
/// form by it, and the others stay. It costs the outline's size.
#[cycle(weigh)]
pub(crate) fn weight(
    measure: Measure,
    operators: &[DefinedOperator],
    forms: &[Form],
    params: &[Param],
    share: Share,
    outline: &Outline,
) -> u64
    ensures { result ≡ meant.weight (limited measure) measure operators.now forms.now params.now share outline.now }
{
    match &outline.what {
        What::Name(site) => name_weight(params, share, &site.name),
        What::Call(call) => call_weight(
            measure,
            operators,
            forms,
            params,
            share,
            &call.name,
            outline.parts.as_slice(),
        ),
        What::Plain => node(measure, operators, forms, params, share, outline),
        What::Level => node(measure, operators, forms, params, share, outline),
        What::Inside => node(measure, operators, forms, params, share, outline),
        What::InsideJoin => node(measure, operators, forms, params, share, outline),
    }
}

/// What stands above its parts.
#[cycle(weigh)]
fn node(
    measure: Measure,
    operators: &[DefinedOperator],
    forms: &[Form],
    params: &[Param],
    share: Share,
    outline: &Outline,
) -> u64
    ensures { result ≡ meant.node_weight (limited measure) measure operators.now forms.now params.now share outline.now }
{
    let parts = outline.parts.as_slice();
    let mut total = start(measure, unit_of(share), &outline.what);
    for part in parts {
        let of_part = weight(measure, operators, forms, params, share, part);
        total = add(measure, total, of_part);
    }
    multiply(measure, factor(measure, &outline.what), total)
}

/// What a call with these arguments becomes.
#[cycle(weigh)]
fn call_weight(
    measure: Measure,
    operators: &[DefinedOperator],
    forms: &[Form],
    params: &[Param],
    share: Share,
    name: &Word,
    arguments: &[Outline],
) -> u64
    ensures { result ≡ meant.call_weight (limited measure) measure (meant.unit_of share) operators.now forms.now name.now (map (meant.weight (limited measure) measure operators.now forms.now params.now share) arguments.now) }
{
    let operator = operator_of(operators, name);
    let form = form_of(operators, forms, name);
    let wanted = params_of(operator);
    let unit = unit_of(share);
    let mut total = multiply(measure, own_of(measure, form), unit);
    for (i, part) in arguments.iter().enumerate() {
        let of_part = weight(measure, operators, forms, params, share, part);
        let of_argument = argument(measure, unit, param_at(wanted, i), of_part);
        let in_call = multiply(measure, times_of(measure, form, i), of_argument);
        total = add(measure, total, in_call);
    }
    let all = with_names(
        measure,
        unit,
        total,
        rest_of(all_times(form), arguments.len()),
    );
    returned(measure, unit, returns_of(operator), all)
}

// ---- the forms of operators

/// The form of an operator with these parameters and this body, or want of memory.
fn form(
    alloc: Global,
    measure: Measure,
    operators: &[DefinedOperator],
    forms: &[Form],
    params: &[Param],
    body: &Outline,
) -> Result<Form, AllocError>
    ensures { IfOk result (λ form. form ≡ meant.form (limited measure) measure operators.now forms.now params.now body.now) }
{
    let mut times = Items::new(alloc);
    for i in 0..params.len() {
        times.push(weight(measure, operators, forms, params, Share::Of(i), body))?;
    }
    Ok(Form {
        own: weight(measure, operators, forms, params, Share::Own, body),
        times,
    })
}

/// The forms with one more call inside each other.
fn next_forms(
    alloc: Global,
    measure: Measure,
    operators: &[DefinedOperator],
    bodies: &[Outline],
    forms: &[Form],
) -> Result<Items<Form>, AllocError>
    requires { bodies.now ≡ map of_operator operators.now }
    ensures { IfOk result (λ next. next ≡ meant.next_forms (limited measure) measure operators.now forms.now) }
{
    let mut next = Items::new(alloc);
    for (i, operator) in operators.iter().enumerate() {
        if let Some(body) = outline_at(bodies, i) {
            let params = operator.params.as_slice();
            next.push(form(alloc, measure, operators, forms, params, body)?)?;
        }
    }
    Ok(next)
}

fn outline_at(outlines: &[Outline], number: usize) -> Option<&Outline>
    ensures { option_copied result ≡ slice_get outlines.now number }
{
    outlines.get(number)
}

/// The forms of all operators, of which `bodies` are the outlines of their bodies, or want of memory. It costs the size of
/// the bodies and of their parameters, times the number of operators.
pub(crate) fn forms_of(
    alloc: Global,
    measure: Measure,
    operators: &[DefinedOperator],
    bodies: &[Outline],
) -> Result<Items<Form>, AllocError>
    requires { bodies.now ≡ map of_operator operators.now }
    ensures { IfOk result (λ forms. forms ≡ meant.forms (limited measure) measure operators.now (length operators.now)) }
{
    let mut forms = Items::new(alloc);
    for _round in 0..operators.len() {
        forms = next_forms(alloc, measure, operators, bodies, forms.as_slice())?;
    }
    Ok(forms)
}
