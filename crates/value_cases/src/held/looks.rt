// The looks, with the steps that they count.
ghost use Rattle.std.specs.Prelude.{◌≡◌, ◌+◌, IfOk};
ghost use Rattle.std.specs.Option.{option_copied};
ghost use Rattle.held_index.specs.Holdings.{look_steps};
ghost use Rattle.value_cases.specs.Operands.{IsOperand};

use crate::held::operand::Operand;
use crate::held::points::{point_of, point_text, value_of};
use anyhow::{Result, bail};
use case_files::lines::{list_at, text_at};
use data_model::steps::Steps;
use point_sets::{Key, Point};
use serde_json::Value as Json;
use std::alloc::Global;
use std::sync::Arc;
use std::sync::ledger::Ledger;

/// What a look answered, and how many steps it counted.
#[derive(Drop)]
struct Looked {
    text: String,
    steps: u64,
}

// How many steps a look counts for what it finds.
fn steps_for(found: Option<&Arc<Point>>) -> u64
    ensures { result ≡ look_steps (option_copied found.entry) }
{
    match found {
        None => 1,
        Some(_) => 2,
    }
}

fn found_text(alloc: Global, found: Option<&Arc<Point>>) -> Result<String> {
    match found {
        None => Ok(String::from_str(alloc, "none")?),
        Some(point) => point_text(alloc, point),
    }
}

// A look from a point.
fn from_point<L: Ledger>(
    alloc: Global,
    operand: &Operand,
    words: &[Json],
    steps: &mut Steps<L>,
) -> Result<Looked>
    ensures { IfOk result (λ looked. steps.new ≡ steps.old + looked.steps) }
{
    let at = point_of(alloc, operand.structure.components(), text_at(words, 1)?)?;
    let found = match text_at(words, 0)? {
        "get" => operand.held.get(&at, steps),
        "next" => operand.held.next(&at, steps),
        "prev" => operand.held.prev(&at, steps),
        look => bail!("no look {look}"),
    };
    Ok(Looked {
        text: found_text(alloc, found)?,
        steps: steps_for(found),
    })
}

// The number at this place of a look.
fn number_at(words: &[Json], at: usize) -> Result<u64> {
    match words.get(at).and_then(Json::as_u64) {
        Some(number) => Ok(number),
        None => bail!("no number at {at}"),
    }
}

// The part that a look names by the fields that tell it.
fn part_of(alloc: Global, operand: &Operand, words: &[Json]) -> Result<Key> {
    let mut part = Vec::new(alloc);
    let fields = list_at(words, 1)?;
    if fields.len() != operand.want.part.as_slice().len() {
        bail!("no part");
    }
    for (place, number) in operand.want.part.as_slice().iter().enumerate() {
        let Some(component) = operand.structure.components().get(*number as usize) else {
            bail!("no component {number}");
        };
        part.push(value_of(alloc, component.kind, text_at(fields, place)?)?)?;
    }
    Ok(Key::of(alloc, part)?)
}

// A point of a part.
fn in_part<L: Ledger>(
    alloc: Global,
    operand: &Operand,
    words: &[Json],
    steps: &mut Steps<L>,
) -> Result<Looked>
    ensures { IfOk result (λ looked. steps.new ≡ steps.old + looked.steps) }
{
    let part = part_of(alloc, operand, words)?;
    let found = match text_at(words, 0)? {
        "first" => operand.held.first_in(&part, steps),
        _ => operand.held.nth_in(&part, number_at(words, 2)?, steps),
    };
    Ok(Looked {
        text: found_text(alloc, found)?,
        steps: steps_for(found),
    })
}

fn counted<L: Ledger>(
    alloc: Global,
    operand: &Operand,
    words: &[Json],
    steps: &mut Steps<L>,
) -> Result<Looked>
    ensures { IfOk result (λ looked. steps.new ≡ steps.old + looked.steps) }
{
    let part = part_of(alloc, operand, words)?;
    let count = operand.held.count_in(&part, steps);
    Ok(Looked {
        text: format!(in alloc; "{count}")?,
        steps: 1,
    })
}

fn summed<L: Ledger>(
    alloc: Global,
    operand: &Operand,
    words: &[Json],
    steps: &mut Steps<L>,
) -> Result<Looked>
    requires { IsOperand operand.now }
    ensures { IfOk result (λ looked. steps.new ≡ steps.old + looked.steps) }
{
    let part = part_of(alloc, operand, words)?;
    let which = number_at(words, 2)?;
    if which >= operand.want.sums.as_slice().len() as u64 {
        bail!("no sum {which}");
    }
    let of = operand.held.sum_in(&part, which, steps);
    let (sum, found) = (of.sum, of.found);
    Ok(Looked {
        text: format!(in alloc; "{sum} millionths of {found}")?,
        steps: 1,
    })
}

/// What a look answers, and how many steps it counts.
pub fn look_text<L: Ledger>(
    alloc: Global,
    operand: &Operand,
    words: &[Json],
    steps: &mut Steps<L>,
) -> Result<String>
    requires { IsOperand operand.now }
{
    let look = text_at(words, 0)?;
    let looked = match look {
        "first" | "nth" => in_part(alloc, operand, words, steps),
        "count" => counted(alloc, operand, words, steps),
        "sum" => summed(alloc, operand, words, steps),
        _ => from_point(alloc, operand, words, steps),
    }?;
    let (text, steps) = (looked.text.as_str(), looked.steps);
    let unit = if steps == 1 { "step" } else { "steps" };
    Ok(format!(in alloc; "{look} {text}, {steps} {unit}")?)
}
