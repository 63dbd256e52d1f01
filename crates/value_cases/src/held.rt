// Cases of held operands: deltas that are planned and applied, and what the looks find, with the steps that they count.
//
// A case is the components of a data set, each a name, a role and a type, then what is wanted of it: the components of
// the parts, those of the order, each with `ascending` or `descending`, and those that are summed, by their numbers
// from 0 on; then steps:
//
// - `["delta", ROWS]`: a delta is planned and applied. The rows stand between blanks: after `+` one that puts a point, with
//   the fields of all components between commas, after `-` one that removes the point of a key;
// - `["get", POINT]`, `["next", POINT]`, `["prev", POINT]`, whether or not the point is held;
// - `["first", PART]`, `["nth", PART, N]`, `["count", PART]`, and `["sum", PART, WHICH]` with the number of one of the
//   sums, from 0 on. A part is a list of the fields that tell it.
//
// After an answer stands how many steps the look counted; that these are what it counted is proved.
ghost use Rattle.std.specs.Prelude.{◌≡◌, ◌<◌};
ghost use Rattle.value_cases.specs.Operands.{IsOperand};

mod looks;
mod operand;
mod points;
mod wants;

use crate::held::looks::look_text;
use crate::held::operand::Operand;
use crate::held::wants::{structure_of, want_of};
use anyhow::Result;
use case_files::lines::{items, list_at, text_at};
use data_model::steps::Steps;
use serde_json::Value as Json;
use std::alloc::Global;
use std::marker::Brand;
use std::sync::ledger::{Blank, Ledger};

fn step_text<L: Ledger>(
    alloc: Global,
    operand: &mut Operand,
    words: &[Json],
    steps: &mut Steps<L>,
) -> Result<String>
    requires { IsOperand operand.old }
    ensures { IsOperand operand.new }
{
    match text_at(words, 0)? {
        "delta" => operand.change(alloc, text_at(words, 1)?),
        _ => look_text(alloc, operand, words, steps),
    }
}

// What the steps answer, one after the other.
fn steps_text<L: Ledger>(
    alloc: Global,
    mut operand: Operand,
    listed: &[Json],
    blank: Blank,
) -> Result<String>
    requires operand { IsOperand operand }
    requires name { blank.name ≡ L.name }
    requires parts { (blank.parts ≡ L.parts) × (0 < L.parts) }
{
    let mut steps = Steps::<L>::new(blank);
    let mut out = String::new(alloc);
    for step in listed {
        let text = step_text(alloc, &mut operand, items(step)?, &mut steps)?;
        if !out.is_empty() {
            out.push_str("; ")?;
        }
        out.push_str(text.as_str())?;
    }
    Ok(out)
}

/// What the steps of a case answer.
pub fn answer(alloc: Global, words: &[Json]) -> Result<String> {
    let structure = structure_of(alloc, list_at(words, 1)?)?;
    let want = want_of(alloc, words)?;
    let operand = Operand::empty(alloc, want, structure)?;
    steps_text::<Brand>(alloc, operand, list_at(words, 5)?, Blank::new(1))
}
