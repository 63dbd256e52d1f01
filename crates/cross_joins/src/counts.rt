// How many combinations of points there are after the news.
ghost use Rattle.std.specs.Prelude.{◌≡◌, ◌+◌, ◌<◌, ◌↔◌, [], IsTrue, length, map, min};
ghost use Rattle.std.specs.Arc.{arc_value};
ghost use Rattle.data_model.specs.declared.TheConstants.{POINT_LIMIT};
ghost use Rattle.held_index.specs.Reach.{changes_in};
ghost use Rattle.cross_joins.specs.Counts as meant;

use data_model::POINT_LIMIT;
use data_model::steps::Steps;
use held_index::Held;
use point_sets::{Delta, Key};
use std::sync::Arc;
use std::sync::ledger::Ledger;

/// Whether no operand has news.
pub fn is_nothing_new(news: &[Arc<Delta>]) -> bool
    ensures { IsTrue result ↔ (changes_in (map arc_value news.now) ≡ 0) }
{
    for delta in news {
        if !delta.changes().is_empty() {
            return false;
        }
    }
    true
}

/// How many points an operand has after its news. A held operand has at most 200,000 points. It is counted once.
fn count_after<L: Ledger>(held: &Held, news: &Delta, whole: &Key, steps: &mut Steps<L>) -> u64
    requires { whole.now ≡ [] }
    ensures count { result ≡ meant.count_after_news held.now news.now }
    ensures steps { steps.new ≡ steps.old + 1 }
{
    let count = held.count_in(whole, steps);
    news.count_after(count.min(POINT_LIMIT))
}

/// How many combinations of points there are after the news; one more than 200,000 where there are more than that. Each
/// operand is counted once.
fn few_combinations<L: Ledger>(
    held: &[Held],
    news: &[Arc<Delta>],
    whole: &Key,
    steps: &mut Steps<L>,
) -> u64
    requires whole { whole.now ≡ [] }
    requires news { length news.now ≡ length held.now }
    ensures count { result ≡ min (meant.combinations_after held.now (map arc_value news.now)) (POINT_LIMIT + 1) }
    ensures steps { steps.new ≡ steps.old + length held.now }
{
    let mut product = 1;
    for (i, one) in held.iter().enumerate() {
        let count = count_after(one, &news[i], whole, steps);
        product = count.saturating_mul(product).min(POINT_LIMIT + 1);
    }
    product
}

/// Whether there are more combinations of points after the news than a data set may have points. Each operand is counted
/// once.
pub fn are_too_many<L: Ledger>(
    held: &[Held],
    news: &[Arc<Delta>],
    whole: &Key,
    steps: &mut Steps<L>,
) -> bool
    requires whole { whole.now ≡ [] }
    requires news { length news.now ≡ length held.now }
    ensures many { IsTrue result ↔ (POINT_LIMIT < meant.combinations_after held.now (map arc_value news.now)) }
    ensures steps { steps.new ≡ steps.old + length held.now }
{
    few_combinations(held, news, whole, steps) > POINT_LIMIT
}
