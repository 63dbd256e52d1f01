// Operators on texts that aren't rows of the tables of kinds.
ghost use Rattle.std.specs.Prelude.{◌≡◌, Ok, IfOk, IfErr, OnOk};
ghost use Rattle.scalar_texts.specs.Patterns.{is_pattern};
ghost use Rattle.scalar_trees.specs.declared.typing.stop.Fault.TheVariants.{BadPattern};
ghost use Rattle.scalar_trees.specs.typing.Steps.{Refuses, demanded};
ghost use Rattle.scalar_trees.specs.typing.Scalars as meant;

use crate::operands::{boxed_wanted, wanted_if};
use scalar_texts::PatternStop;
use scalar_trees::typing::{Fault, TypeStop, Typed};
use scalar_trees::{CheckedExpr, SharedPattern};
use std::alloc::Global;
use vtl_values::{Kind, Place, Word};

/// The pattern of a text; `BadPattern` where it is none, or want of memory.
fn built(alloc: Global, place: Place, text: &Word) -> Result<SharedPattern, TypeStop>
    ensures value { IfOk result (λ pattern. pattern ≡ text.now) }
    ensures ok { OnOk result (demanded (is_pattern text.now) BadPattern place ≡ Ok tt) }
    ensures err { IfErr result (Refuses (demanded (is_pattern text.now) BadPattern place)) }
{
    match SharedPattern::build(alloc, text) {
        Ok(pattern) => Ok(pattern),
        Err(PatternStop::BadPattern) => Err(TypeStop::at(Fault::BadPattern, place)),
        Err(PatternStop::Memory) => Err(TypeStop::Memory),
    }
}

/// `match_characters(a, "pattern")`; `WrongType` where the operand is no string, else `BadPattern` where the pattern is
/// none, or want of memory.
pub fn matches_typed(
    alloc: Global,
    pattern: &Word,
    place: Place,
    operand: Typed,
) -> Result<Typed, TypeStop>
    ensures ok { IfOk result (λ t. meant.matches_typed pattern.now place operand ≡ Ok t) }
    ensures err { IfErr result (Refuses (meant.matches_typed pattern.now place operand)) }
{
    let operand = boxed_wanted(alloc, place, Kind::Text, operand)?;
    let pattern = built(alloc, place, pattern)?;
    Ok(Typed {
        tree: CheckedExpr::Matches { operand, pattern },
        kind: Some(Kind::Truth),
    })
}

/// `substr(a, start, length)`; `WrongType` where `a` is no string, or the start or the length no integer, or want of
/// memory.
pub fn substr_typed(
    alloc: Global,
    place: Place,
    operand: Typed,
    start: Option<Typed>,
    length: Option<Typed>,
) -> Result<Typed, TypeStop>
    ensures ok { IfOk result (λ t. meant.substr_typed place operand start length ≡ Ok t) }
    ensures err { IfErr result (Refuses (meant.substr_typed place operand start length)) }
{
    let operand = boxed_wanted(alloc, place, Kind::Text, operand)?;
    let start = wanted_if(alloc, place, Kind::Integer, start)?;
    let length = wanted_if(alloc, place, Kind::Integer, length)?;
    Ok(Typed {
        tree: CheckedExpr::Substr {
            operand,
            start,
            length,
        },
        kind: Some(Kind::Text),
    })
}

/// `replace(a, pattern, by)`; `WrongType` where one of them is no string, or want of memory.
pub fn replace_typed(
    alloc: Global,
    place: Place,
    operand: Typed,
    pattern: Typed,
    by: Option<Typed>,
) -> Result<Typed, TypeStop>
    ensures ok { IfOk result (λ t. meant.replace_typed place operand pattern by ≡ Ok t) }
    ensures err { IfErr result (Refuses (meant.replace_typed place operand pattern by)) }
{
    let operand = boxed_wanted(alloc, place, Kind::Text, operand)?;
    let pattern = boxed_wanted(alloc, place, Kind::Text, pattern)?;
    let by = wanted_if(alloc, place, Kind::Text, by)?;
    Ok(Typed {
        tree: CheckedExpr::Replace {
            operand,
            pattern,
            by,
        },
        kind: Some(Kind::Text),
    })
}
