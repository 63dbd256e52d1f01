// What operands have at a key.
ghost use Rattle.std.specs.Prelude.{◌≡◌, ◌+◌, ◌≤◌, map};
ghost use Rattle.std.specs.Arc.{arc_value};
ghost use Rattle.std.specs.Option.{option_copied};
ghost use Rattle.std.specs.FinMap as finmap;
ghost use Rattle.data_model.specs.Deltas.{after};
ghost use Rattle.point_sets.specs.DataSets.{HasKey};
ghost use Rattle.point_sets.specs.Changes.{values_of};
ghost use Rattle.held_index.specs.Holdings.{AllPlain, contents};
ghost use Rattle.operator_meaning.specs.choices.Choices.{set_at};
ghost use Rattle.choice_ops.specs.Noted.{change_at};

use data_model::steps::Steps;
use held_index::Held;
use point_sets::{Delta, Key, Point};
use std::sync::Arc;
use std::sync::ledger::Ledger;

/// What is held at the key of a point, of the operand with this number.
pub(crate) fn look<'a, L: Ledger>(
    held: &'a [Held],
    number: usize,
    at: &Point,
    steps: &mut Steps<L>,
) -> Option<&'a Arc<Point>>
    ensures found { AllPlain held.now → values_of (option_copied result) ≡ finmap.get (set_at (contents held.now) number) at.now.key }
    ensures key { HasKey at.now.key (option_copied result) }
    ensures steps { steps.new ≤ steps.old + 2 }
{
    match held.get(number) {
        Some(operand) => operand.get(at, steps),
        None => None,
    }
}

/// The point that a key has after the news of the operand with this number, where the one that it had is given.
pub(crate) fn after_news<'a>(
    news: &'a [Arc<Delta>],
    number: usize,
    key: &Key,
    before: Option<&'a Arc<Point>>,
) -> Option<&'a Arc<Point>>
    ensures found { values_of (option_copied result) ≡ after (change_at (map arc_value news.now) number key.now) (values_of (option_copied before.entry)) }
    ensures key { HasKey key.now (option_copied before.entry) → HasKey key.now (option_copied result) }
{
    match news.get(number) {
        Some(delta) => delta.point_after(key, before),
        None => before,
    }
}
