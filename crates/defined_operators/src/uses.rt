// Which parameters of operators are used.
ghost use Rattle.std.specs.Prelude.{◌≡◌, suc, map, IfOk};
ghost use Rattle.std.specs.List.{list_any};
ghost use Rattle.vtl_syntax.specs.declared.operator.Param.{Param as ParamOf};
ghost use Rattle.operator_faults.specs.Outlines.{outlined};
ghost use Rattle.defined_operators.specs.Uses as meant;
ghost use Rattle.defined_operators.specs.Uses.{AreUsesTo, stands_in, uses_of};
ghost use Rattle.defined_operators.specs.Writers.{used_by, writes};

use crate::calling::Calling;
use crate::writer::Writer;
use operator_faults::graph::number_of;
use operator_faults::trees::outline_of;
use operator_faults::{Outline, What};
use sqlite_items::Items;
use std::alloc::{AllocError, Global};
use vtl_syntax::{DefinedOperator, Param};
use vtl_values::Word;

/// For each operator, for each of its parameters, whether it is used.
pub(crate) type Uses = Items<Items<bool>>;

/// Whether the argument of that number is used.
pub(crate) fn is_used(flags: &[bool], argument: usize) -> bool
    ensures { result ≡ meant.is_used flags.now argument }
{
    match flags.get(argument) {
        Some(used) => *used,
        None => true,
    }
}

/// For each parameter of the operator of that name, whether it is used.
pub(crate) fn flags_of<'a>(
    operators: &[DefinedOperator],
    uses: &'a [Items<bool>],
    name: &Word,
) -> &'a [bool]
    ensures { result.now ≡ meant.flags_of operators.now uses.now name.now }
{
    match number_of(operators, name) {
        Some(number) => flags_at(uses, number),
        None => &[],
    }
}

fn flags_at(uses: &[Items<bool>], number: usize) -> &[bool]
    ensures { result.now ≡ meant.flags_at uses.now (Some number) }
{
    match uses.get(number) {
        Some(flags) => flags.as_slice(),
        None => &[],
    }
}

fn is_name(name: &Word, what: &What) -> bool
    ensures { result ≡ meant.is_name name.now what.now }
{
    match what {
        What::Name(site) => site.name == *name,
        What::Call(_) => false,
        What::Plain => false,
        What::Level => false,
        What::Inside => false,
        What::InsideJoin => false,
    }
}

/// Whether the name stands in the outline.
#[cycle(stands)]
fn stands(name: &Word, outline: &Outline) -> bool
    ensures { result ≡ stands_in name.now outline.now }
{
    is_name(name, &outline.what) || stands_in_one(name, outline.parts.as_slice())
}

#[cycle(stands)]
fn stands_in_one(name: &Word, outlines: &[Outline]) -> bool
    ensures { result ≡ list_any (stands_in name.now) outlines.now }
{
    for outline in outlines {
        if stands(name, outline) {
            return true;
        }
    }
    false
}

/// The outline of the operator's body as it is written.
fn written_outline(
    alloc: Global,
    writer: &Writer,
    operator: &DefinedOperator,
) -> Result<Outline, AllocError>
    ensures { IfOk result (λ outline. outline ≡ outlined (writes writer.now operator.now.body)) }
{
    let body = writer.write(alloc, &operator.body)?;
    outline_of(alloc, &body)
}

/// Which of the parameters stand in the outline.
fn standing(alloc: Global, params: &[Param], outline: &Outline) -> Result<Items<bool>, AllocError>
    ensures { IfOk result (λ used. used ≡ map (λ (p : ParamOf). stands_in p.name outline.now) params.now) }
{
    let mut used = Items::new(alloc);
    for param in params {
        used.push(stands(&param.name, outline))?;
    }
    Ok(used)
}

/// For each parameter of the operator, whether it is used in its body as it is written.
fn used_in(
    alloc: Global,
    writer: &Writer,
    operator: &DefinedOperator,
) -> Result<Items<bool>, AllocError>
    ensures { IfOk result (λ used. used ≡ used_by writer.now operator.now) }
{
    let outline = written_outline(alloc, writer, operator)?;
    standing(alloc, operator.params.as_slice(), &outline)
}

/// The uses where one call more is replaced inside another than up to `level`.
fn uses_after(
    alloc: Global,
    operators: &[DefinedOperator],
    levels: &[Uses],
    level: usize,
) -> Result<Uses, AllocError>
    requires { AreUsesTo operators.now levels.now level }
    ensures { IfOk result (λ uses. uses ≡ uses_of operators.now (suc level)) }
{
    let writer = Writer {
        operators,
        calling: Calling::Kept(level),
        levels,
        params: &[],
        arguments: &[],
    };
    let mut uses = Items::new(alloc);
    for operator in operators {
        uses.push(used_in(alloc, &writer, operator)?)?;
    }
    Ok(uses)
}

/// The uses where no call is replaced inside another, where one is, and so on to `count`.
pub(crate) fn levels_to(
    alloc: Global,
    operators: &[DefinedOperator],
    count: usize,
) -> Result<Items<Uses>, AllocError>
    ensures { IfOk result (λ levels. levels ≡ meant.levels_to operators.now count) }
{
    let mut levels = Items::new(alloc);
    levels.push(Items::new(alloc))?;
    for level in 0..count {
        let uses = uses_after(alloc, operators, levels.as_slice(), level)?;
        levels.push(uses)?;
    }
    Ok(levels)
}
