// The faults of a script that would be written out too deep or too long.
ghost use Rattle.std.specs.Prelude.{◌≡◌, ◌≤◌, ◌++◌, drop, find, length, map, slice_get, unwrap_or, IfOk, OnOk};
ghost use Rattle.operator_faults.specs.Calls as order;
ghost use Rattle.operator_faults.specs.Sketches.{of_operator, sketch_of};
ghost use Rattle.written_sizes.specs.Outermost as told;
ghost use Rattle.written_sizes.specs.SizeFaults as meant;

use crate::form::Tables;
use crate::measure::{Measure, add};
use crate::outermost::{Calls, Outermost, calls_of, put_expressions, put_levels, tables_of};
use crate::places::places_of;
use operator_faults::{OperatorFault, PlacedFault, Sketch};
use sqlite_items::Items;
use std::alloc::{AllocError, Global};
use vtl_syntax::{DefinedOperator, Script};
use vtl_values::Place;

pub(crate) const MOST_LEVELS: u64 = 64;

pub(crate) const MOST_EXPRESSIONS: u64 = 1_000_000;

/// The first fault of size of the script once it is written out, if there is one, or want of memory: too many levels at the
/// first outermost call with a path below it that is too long, or else too many expressions at the call with which there
/// are too many, calls in the order of the text after all that stands outside them. Where no call is to blame, it stands
/// at the first statement or rule with which there are too many. `sketch` has the script's outlines. It costs the script's
/// size, and the size of the operators times their number, whatever the size of what is written.
pub fn size_fault(
    alloc: Global,
    script: &Script,
    sketch: &Sketch,
) -> Result<Option<PlacedFault>, AllocError>
    requires { sketch.now ≡ sketch_of script.now }
    ensures { IfOk result (λ fault. fault ≡ meant.size_fault script.now) }
{
    let places = places_of(alloc, script)?;
    in_sketch(
        alloc,
        script.operators.as_slice(),
        places.as_slice(),
        sketch,
    )
}

fn in_sketch(
    alloc: Global,
    operators: &[DefinedOperator],
    places: &[Place],
    sketch: &Sketch,
) -> Result<Option<PlacedFault>, AllocError>
    requires { sketch.now.bodies ≡ map of_operator operators.now }
    ensures { IfOk result (λ fault. fault ≡ meant.in_sketch operators.now places.now sketch.now) }
{
    let tables = tables_of(alloc, operators, sketch.bodies.as_slice())?;
    let statements = calls_of(alloc, operators, &tables, sketch.statements.as_slice())?;
    let rulesets = calls_of(alloc, operators, &tables, sketch.rulesets.as_slice())?;
    match deep_place(
        alloc,
        operators,
        &tables,
        places,
        sketch,
        &statements,
        &rulesets,
    )? {
        Some(place) => Ok(Some(PlacedFault {
            fault: OperatorFault::WrittenTooDeep,
            place,
        })),
        None => Ok(too_many(many_place(
            alloc,
            operators,
            &tables,
            places,
            sketch,
            &statements,
            &rulesets,
        )?)),
    }
}

fn too_many(place: Option<Place>) -> Option<PlacedFault>
    ensures { result ≡ meant.told OperatorFault.WrittenTooMany place }
{
    match place {
        Some(place) => Some(PlacedFault {
            fault: OperatorFault::WrittenTooMany,
            place,
        }),
        None => None,
    }
}

/// Where the expression with that number stands.
fn place_at(places: &[Place], number: Option<usize>) -> Option<Place>
    ensures { result ≡ meant.place_at places.now number }
{
    match number {
        Some(number) => Some(place_or_start(places, number)),
        None => None,
    }
}

fn place_or_start(places: &[Place], number: usize) -> Place
    ensures { result ≡ unwrap_or (slice_get places.now number) meant.script_start }
{
    match places.get(number) {
        Some(place) => *place,
        None => Place { line: 1, column: 1 },
    }
}

// ---- too many levels

fn is_too_deep(call: &Outermost) -> bool
    ensures { result ≡ meant.is_too_deep call.now }
{
    call.above.saturating_add(call.levels) > MOST_LEVELS
}

/// The first that is too deep.
fn first_deep(calls: &[Outermost]) -> Option<Outermost>
    ensures { result ≡ find meant.is_too_deep calls.now }
{
    for call in calls {
        if is_too_deep(call) {
            return Some(*call);
        }
    }
    None
}

fn is_before(a: Place, b: Place) -> bool
    ensures { result ≡ order.is_before a b }
{
    a.line < b.line || a.line == b.line && a.column < b.column
}

/// Which of the two stands first in the script.
fn earlier(a: Option<Outermost>, b: Option<Outermost>) -> Option<Outermost>
    ensures { result ≡ meant.earlier a b }
{
    match (a, b) {
        (Some(a), Some(b)) => Some(if is_before(b.place, a.place) { b } else { a }),
        (Some(a), None) => Some(a),
        (None, b) => b,
    }
}

/// The number of the first outline with too many levels, of which these are the levels.
fn deep_number(levels: &[u64]) -> Option<usize>
    ensures { result ≡ meant.deep_number 0 levels.now }
{
    for (i, n) in levels.iter().enumerate() {
        if *n > MOST_LEVELS {
            return Some(i);
        }
    }
    None
}

/// The number of the first of the script's outlines with too many levels, or want of memory.
fn deep_outline(
    alloc: Global,
    operators: &[DefinedOperator],
    tables: &Tables,
    sketch: &Sketch,
) -> Result<Option<usize>, AllocError>
    requires { tables.now ≡ told.tables_of operators.now }
    ensures { IfOk result (λ number. number ≡ meant.deep_number 0 (meant.levels_in operators.now sketch.now)) }
{
    let mut levels = Items::new(alloc);
    put_levels(operators, tables, sketch.statements.as_slice(), &mut levels)?;
    put_levels(operators, tables, sketch.rulesets.as_slice(), &mut levels)?;
    Ok(deep_number(levels.as_slice()))
}

/// Where too many levels are told, or want of memory.
fn deep_place(
    alloc: Global,
    operators: &[DefinedOperator],
    tables: &Tables,
    places: &[Place],
    sketch: &Sketch,
    statements: &Calls,
    rulesets: &Calls,
) -> Result<Option<Place>, AllocError>
    requires tables { tables.now ≡ told.tables_of operators.now }
    requires statements { statements.now ≡ told.told_in operators.now sketch.now.statements }
    requires rulesets { rulesets.now ≡ told.told_in operators.now sketch.now.rulesets }
    ensures { IfOk result (λ place. place ≡ meant.deep_place operators.now places.now sketch.now) }
{
    let first = first_deep(statements.calls.as_slice());
    let second = first_deep(rulesets.calls.as_slice());
    match earlier(first, second) {
        Some(call) => Ok(Some(call.place)),
        None => {
            let number = deep_outline(alloc, operators, tables, sketch)?;
            Ok(place_at(places, number))
        }
    }
}

// ---- too many expressions

/// The calls of two lists in the order of the text, or want of memory.
fn merged(
    alloc: Global,
    first: &[Outermost],
    second: &[Outermost],
) -> Result<Items<Outermost>, AllocError>
    ensures { IfOk result (λ calls. calls ≡ meant.merged first.now second.now) }
{
    let mut out = Items::new(alloc);
    let mut rest = second;
    for call in first {
        let passed = put_before(call.place, rest, &mut out)?;
        rest = rest.split_at(passed).1;
        out.push(*call)?;
    }
    put_rest(rest, &mut out)?;
    Ok(out)
}

/// Puts those that stand before the place, and tells how many.
fn put_before(
    place: Place,
    calls: &[Outermost],
    out: &mut Items<Outermost>,
) -> Result<usize, AllocError>
    ensures put { OnOk result (out.new ≡ out.old ++ meant.before place calls.now) }
    ensures left { IfOk result (λ passed. drop passed calls.now ≡ meant.after place calls.now) }
    ensures within { IfOk result (λ passed. passed ≤ length calls.now) }
{
    for (i, call) in calls.iter().enumerate() {
        if !is_before(call.place, place) {
            return Ok(i);
        }
        out.push(*call)?;
    }
    Ok(calls.len())
}

fn put_rest(calls: &[Outermost], out: &mut Items<Outermost>) -> Result<(), AllocError>
    ensures { OnOk result (out.new ≡ out.old ++ calls.now) }
{
    for call in calls {
        out.push(*call)?;
    }
    Ok(())
}

/// Where the call stands with which there are too many expressions, where there are so many before.
fn passing(before: u64, calls: &[Outermost]) -> Option<Place>
    ensures { result ≡ meant.passing before calls.now }
{
    let mut total = before;
    for call in calls {
        total = add(Measure::Expressions, total, call.expressions);
        if total > MOST_EXPRESSIONS {
            return Some(call.place);
        }
    }
    None
}

/// The number of the first outline with which there are too many expressions, of which these are the numbers.
fn full_number(expressions: &[u64]) -> Option<usize>
    ensures { result ≡ meant.full_number 0 0 expressions.now }
{
    let mut total = 0;
    for (i, n) in expressions.iter().enumerate() {
        total = add(Measure::Expressions, total, *n);
        if total > MOST_EXPRESSIONS {
            return Some(i);
        }
    }
    None
}

/// The number of the first of the script's outlines with which there are too many expressions, or want of memory.
fn full_outline(
    alloc: Global,
    operators: &[DefinedOperator],
    tables: &Tables,
    sketch: &Sketch,
) -> Result<Option<usize>, AllocError>
    requires { tables.now ≡ told.tables_of operators.now }
    ensures { IfOk result (λ number. number ≡ meant.full_number 0 0 (meant.expressions_in operators.now sketch.now)) }
{
    let mut expressions = Items::new(alloc);
    put_expressions(
        operators,
        tables,
        sketch.statements.as_slice(),
        &mut expressions,
    )?;
    put_expressions(
        operators,
        tables,
        sketch.rulesets.as_slice(),
        &mut expressions,
    )?;
    Ok(full_number(expressions.as_slice()))
}

/// Where too many expressions are told, or want of memory.
fn many_place(
    alloc: Global,
    operators: &[DefinedOperator],
    tables: &Tables,
    places: &[Place],
    sketch: &Sketch,
    statements: &Calls,
    rulesets: &Calls,
) -> Result<Option<Place>, AllocError>
    requires tables { tables.now ≡ told.tables_of operators.now }
    requires statements { statements.now ≡ told.told_in operators.now sketch.now.statements }
    requires rulesets { rulesets.now ≡ told.told_in operators.now sketch.now.rulesets }
    ensures { IfOk result (λ place. place ≡ meant.many_place operators.now places.now sketch.now) }
{
    let outside = add(Measure::Expressions, statements.outside, rulesets.outside);
    let calls = merged(
        alloc,
        statements.calls.as_slice(),
        rulesets.calls.as_slice(),
    )?;
    match passing(outside, calls.as_slice()) {
        Some(place) => Ok(Some(place)),
        None => {
            let number = full_outline(alloc, operators, tables, sketch)?;
            Ok(place_at(places, number))
        }
    }
}
