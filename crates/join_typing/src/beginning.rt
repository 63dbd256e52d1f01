// A join without the clauses inside.
ghost use Rattle.std.specs.Prelude.{◌≡◌, ◌&&◌, map, Ok, IfOk, IfErr};
ghost use Rattle.std.specs.List.{list_any};
ghost use Rattle.vtl_values.specs.Texts.{same_text};
ghost use Rattle.scalar_trees.specs.typing.Steps.{Refuses};
ghost use Rattle.data_set_trees.specs.clauses.Clauses as clauses;
ghost use Rattle.data_set_trees.specs.Joins as meant;
ghost use Rattle.join_typing.specs.Inside.{FitInside};
ghost use Rattle.join_typing.specs.Joining as own;

use crate::agreement::may_join;
use crate::frames::{join_frame, structures_of};
use crate::joining::Joining;
use crate::operands::{Aliased, all_aliased, all_sets};
use clause_typing::names_differ;
use data_set_parts::demands::demands;
use data_set_trees::Operand;
use data_set_trees::clauses::Frame;
use scalar_trees::typing::{Fault, TypeStop};
use sqlite_items::Items;
use std::alloc::{AllocError, Global};
use vtl_syntax::words::JoinFunction;
use vtl_values::{Place, Word};

fn has_alias(alias: &Word, others: &[Aliased]) -> bool
    ensures { result ≡ list_any (λ o. same_text alias.now o.alias) others.now }
{
    others.iter().any(|other| *alias == other.alias)
}

fn no_alias_twice(operands: &[Aliased]) -> bool
    ensures { result ≡ own.aliases_differ operands.now }
{
    for (i, operand) in operands.iter().enumerate() {
        if has_alias(&operand.alias, &operands[i + 1..]) {
            return false;
        }
    }
    true
}

fn aliases_differ(operands: &[Aliased]) -> bool
    ensures { result ≡ meant.aliases_differ (map own.aliased operands.now) }
{
    no_alias_twice(operands)
}

const MOST_COMPONENTS: usize = 64;

fn has_room(frame: &Frame) -> bool
    ensures { result ≡ clauses.has_room frame.now }
{
    frame.components.len() <= MOST_COMPONENTS
}

/// Whether no two aliases are the same, and no two names in the frame, alias and all. Or want of memory.
fn all_differ(alloc: Global, operands: &[Aliased], frame: &Frame) -> Result<bool, AllocError>
    ensures { IfOk result (λ differ. differ ≡ (meant.aliases_differ (map own.aliased operands.now) && clauses.names_differ frame.now)) }
{
    Ok(aliases_differ(operands) && names_differ(alloc, frame)?)
}

/// What is demanded of a join whose operands may be joined or not, in the order of the faults. Or want of memory.
fn demanded_of(
    alloc: Global,
    place: Place,
    may: bool,
    operands: &[Aliased],
    frame: &Frame,
) -> Result<(), TypeStop>
    ensures ok { IfOk result (λ met. own.demanded_of place may (map own.aliased operands.now) frame.now ≡ Ok met) }
    ensures err { IfErr result (Refuses (own.demanded_of place may (map own.aliased operands.now) frame.now)) }
{
    let differ = all_differ(alloc, operands, frame)?;
    demands(
        place,
        &[
            (may, Fault::WrongStructure),
            (differ, Fault::NameTwice),
            (has_room(frame), Fault::TooManyComponents),
        ],
    )
}

/// The frame of a join on these operands, where they may be joined; else the fault of the first demand that isn't met. Or
/// want of memory.
fn framed(
    alloc: Global,
    function: JoinFunction,
    place: Place,
    operands: &[Aliased],
) -> Result<Frame, TypeStop>
    ensures ok { IfOk result (λ frame. own.framed function place (map own.aliased operands.now) ≡ Ok frame) }
    ensures err { IfErr result (Refuses (own.framed function place (map own.aliased operands.now))) }
    ensures fits { IfOk result (λ frame. FitInside frame.components) }
{
    let structures = structures_of(alloc, operands)?;
    let may = may_join(alloc, function, structures.as_slice())?;
    let frame = join_frame(alloc, function, operands, structures.as_slice())?;
    demanded_of(alloc, place, may, operands, &frame)?;
    Ok(frame)
}

/// A join of these operands under these aliases, before the clauses inside. Or its first fault, at its word:
/// `WrongStructure` where an operand is a scalar or has no alias, where the identifiers of the operands aren't those that the
/// join wants, or where viral attributes of one name have several code lists; else `NameTwice` where two aliases are equal, or
/// a bare name would stand for two components; else `TooManyComponents`. Or want of memory. What it has fits inside a join.
/// It costs the square of the number of operands, and the number of the names of their components.
pub fn begin(
    alloc: Global,
    function: JoinFunction,
    place: Place,
    aliases: &[Option<Word>],
    operands: Items<Operand>,
) -> Result<Joining, TypeStop>
    ensures ok { IfOk result (λ join. own.begun function place aliases.now operands ≡ Ok join) }
    ensures err { IfErr result (Refuses (own.begun function place aliases.now operands)) }
    ensures fits { IfOk result (λ join. FitInside join.frame.components) }
{
    let sets = all_sets(alloc, place, operands)?;
    let operands = all_aliased(alloc, place, aliases, sets.as_slice())?;
    let frame = framed(alloc, function, place, operands.as_slice())?;
    Ok(Joining {
        function,
        place,
        sets,
        frame,
    })
}
