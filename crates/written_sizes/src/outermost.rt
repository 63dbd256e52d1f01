// The calls of an outline that stand in no other call.
ghost use Rattle.std.specs.Prelude.{◌≡◌, ◌+◌, ◌++◌, map, IfOk, OnOk};
ghost use Rattle.operator_faults.specs.Sketches.{of_operator};
ghost use Rattle.written_sizes.specs.Arithmetic.{capped};
ghost use Rattle.written_sizes.specs.Replaced.{replaced};
ghost use Rattle.written_sizes.specs.Outermost as meant;

use crate::form::{Share, Tables};
use crate::measure::{Measure, add};
use crate::sizes::{own_expressions, own_levels};
use crate::weights::{forms_of, weight};
use operator_faults::{Outline, What};
use sqlite_items::Items;
use std::alloc::{AllocError, Global};
use vtl_syntax::DefinedOperator;
use vtl_values::Place;

/// A call that stands in no other: how many levels stand above it, and how many levels and expressions its replacement
/// has; none of them is more than one beyond the limit.
#[derive(Clone, Copy)]
pub struct Outermost {
    pub place: Place,
    pub above: u64,
    pub levels: u64,
    pub expressions: u64,
}

/// The outermost calls in some outlines, and how many expressions stand outside them, but no more than one beyond the
/// limit.
#[derive(Drop)]
pub struct Calls {
    pub outside: u64,
    pub calls: Items<Outermost>,
}

const LEVELS: u64 = 65;

/// The forms of all operators, of which `bodies` are the outlines of their bodies, or want of memory.
pub(crate) fn tables_of(
    alloc: Global,
    operators: &[DefinedOperator],
    bodies: &[Outline],
) -> Result<Tables, AllocError>
    requires { bodies.now ≡ map of_operator operators.now }
    ensures { IfOk result (λ tables. tables ≡ meant.tables_of operators.now) }
{
    Ok(Tables {
        expressions: forms_of(alloc, Measure::Expressions, operators, bodies)?,
        levels: forms_of(alloc, Measure::Levels, operators, bodies)?,
    })
}

/// How many expressions the outline has once its calls are replaced.
fn expressions_of(operators: &[DefinedOperator], tables: &Tables, outline: &Outline) -> u64
    requires { tables.now ≡ meant.tables_of operators.now }
    ensures { result ≡ meant.told_expressions operators.now outline.now }
{
    let forms = tables.expressions.as_slice();
    weight(
        Measure::Expressions,
        operators,
        forms,
        &[],
        Share::Own,
        outline,
    )
}

/// How many levels the outline has once its calls are replaced.
fn levels_of(operators: &[DefinedOperator], tables: &Tables, outline: &Outline) -> u64
    requires { tables.now ≡ meant.tables_of operators.now }
    ensures { result ≡ meant.told_levels operators.now outline.now }
{
    let forms = tables.levels.as_slice();
    weight(Measure::Levels, operators, forms, &[], Share::Own, outline).saturating_sub(1)
}

/// Puts how many levels each outline has once its calls are replaced, but no more than one beyond the limit.
pub(crate) fn put_levels(
    operators: &[DefinedOperator],
    tables: &Tables,
    outlines: &[Outline],
    out: &mut Items<u64>,
) -> Result<(), AllocError>
    requires { tables.now ≡ meant.tables_of operators.now }
    ensures { OnOk result (out.new ≡ out.old ++ map (meant.told_levels operators.now) outlines.now) }
{
    for outline in outlines {
        out.push(levels_of(operators, tables, outline))?;
    }
    Ok(())
}

/// The same for expressions.
pub(crate) fn put_expressions(
    operators: &[DefinedOperator],
    tables: &Tables,
    outlines: &[Outline],
    out: &mut Items<u64>,
) -> Result<(), AllocError>
    requires { tables.now ≡ meant.tables_of operators.now }
    ensures { OnOk result (out.new ≡ out.old ++ map (meant.told_expressions operators.now) outlines.now) }
{
    for outline in outlines {
        out.push(expressions_of(operators, tables, outline))?;
    }
    Ok(())
}

/// The levels above what stands below it.
fn raised(above: u64, what: &What) -> u64
    ensures { result ≡ meant.raised above what.now }
{
    above.saturating_add(own_levels(what)).min(LEVELS)
}

/// The call that stands at the top of the outline.
fn outermost_call(
    operators: &[DefinedOperator],
    tables: &Tables,
    above: u64,
    place: Place,
    outline: &Outline,
) -> Outermost
    requires { tables.now ≡ meant.tables_of operators.now }
    ensures { result ≡ meant.told (meant.outermost_call place (replaced operators.now outline.now) above) }
{
    Outermost {
        place,
        above,
        levels: levels_of(operators, tables, outline),
        expressions: expressions_of(operators, tables, outline),
    }
}

/// Puts the outermost calls of the outline after those that are there, and tells how many expressions stand outside them,
/// or want of memory. It costs the outline's size.
#[cycle(see)]
fn put_calls(
    operators: &[DefinedOperator],
    tables: &Tables,
    above: u64,
    outline: &Outline,
    out: &mut Items<Outermost>,
) -> Result<u64, AllocError>
    requires { tables.now ≡ meant.tables_of operators.now }
    ensures outside { IfOk result (λ n. n ≡ capped Measure.Expressions (meant.seen operators.now outline.now).outside) }
    ensures calls { OnOk result (out.new ≡ out.old ++ map meant.told ((meant.seen operators.now outline.now).calls above)) }
{
    match &outline.what {
        What::Name(_) => Ok(1),
        What::Call(call) => {
            out.push(outermost_call(operators, tables, above, call.place, outline))?;
            Ok(0)
        }
        What::Plain => put_within(operators, tables, above, outline, out),
        What::Level => put_within(operators, tables, above, outline, out),
        What::Inside => put_within(operators, tables, above, outline, out),
        What::InsideJoin => put_within(operators, tables, above, outline, out),
    }
}

/// The same for one that is no call itself.
#[cycle(see)]
fn put_within(
    operators: &[DefinedOperator],
    tables: &Tables,
    above: u64,
    outline: &Outline,
    out: &mut Items<Outermost>,
) -> Result<u64, AllocError>
    requires { tables.now ≡ meant.tables_of operators.now }
    ensures outside { IfOk result (λ n. n ≡ capped Measure.Expressions (meant.outside_within operators.now outline.now)) }
    ensures calls { OnOk result (out.new ≡ out.old ++ map meant.told (meant.calls_within operators.now above outline.now)) }
{
    let below = raised(above, &outline.what);
    let own = own_expressions(&outline.what);
    put_all(operators, tables, below, own, outline.parts.as_slice(), out)
}

/// The same for each outline, where so many expressions are counted already.
#[cycle(see)]
fn put_all(
    operators: &[DefinedOperator],
    tables: &Tables,
    above: u64,
    own: u64,
    outlines: &[Outline],
    out: &mut Items<Outermost>,
) -> Result<u64, AllocError>
    requires { tables.now ≡ meant.tables_of operators.now }
    ensures outside { IfOk result (λ n. n ≡ capped Measure.Expressions (own + meant.outside_in operators.now outlines.now)) }
    ensures calls { OnOk result (out.new ≡ out.old ++ meant.told_calls operators.now above outlines.now) }
{
    let mut total = add(Measure::Expressions, own, 0);
    for outline in outlines {
        let outside = put_calls(operators, tables, above, outline, out)?;
        total = add(Measure::Expressions, total, outside);
    }
    Ok(total)
}

/// The outermost calls in the outlines, or want of memory.
pub(crate) fn calls_of(
    alloc: Global,
    operators: &[DefinedOperator],
    tables: &Tables,
    outlines: &[Outline],
) -> Result<Calls, AllocError>
    requires { tables.now ≡ meant.tables_of operators.now }
    ensures { IfOk result (λ calls. calls ≡ meant.told_in operators.now outlines.now) }
{
    let mut calls = Items::new(alloc);
    let outside = put_all(operators, tables, 0, 0, outlines, &mut calls)?;
    Ok(Calls { outside, calls })
}
