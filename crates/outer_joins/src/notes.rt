// What changes of the operands make of the result.
ghost use Rattle.std.specs.Prelude.{◌≡◌, ◌<◌, ◌+◌, ◌*◌, ◌≤◌, ◌++◌, All, map, length, IfOk, OnOk};
ghost use Rattle.std.specs.Arc.{arc_value};
ghost use Rattle.std.specs.Option.{option_copied};
ghost use Rattle.std.specs.FinMap as finmap;
ghost use Rattle.data_model.specs.Deltas.{apply, Differs};
ghost use Rattle.point_sets.specs.Changes.{values_of};
ghost use Rattle.held_index.specs.Holdings.{AllPlain, IsPlain, contents};
ghost use Rattle.held_index.specs.Reach.{changes_in};
ghost use Rattle.held_index.specs.Rules.{after_news};
ghost use Rattle.operator_meaning.specs.joins.Joins.{points_at, join_key};
ghost use Rattle.join_eval.specs.Plans.{structure_of, own_key};
ghost use Rattle.outer_joins.specs.Noted as meant;
ghost use Rattle.outer_joins.specs.Noted.{IsNoted, all_keys_of};

use data_model::steps::Steps;
use held_index::{Draft, Held};
use join_eval::JoinPlan;
use point_sets::{Change, Delta, Key, Point};
use sqlite_items::Items;
use std::alloc::{AllocError, Global};
use std::sync::Arc;
use std::sync::ledger::Ledger;

/// The point that may be there, shared.
fn shared(point: Option<&Arc<Point>>) -> Result<Option<Arc<Point>>, AllocError>
    ensures { IfOk result (λ shared. values_of shared ≡ values_of (option_copied point.entry)) }
{
    match point {
        Some(point) => Ok(Some(point.clone()?)),
        None => Ok(None),
    }
}

/// What an operand has at a key of the join, before its news and after them.
#[derive(Drop)]
struct Seen {
    before: Option<Arc<Point>>,
    after: Option<Arc<Point>>,
}

/// Looks the operand of this number up, once.
fn look<L: Ledger>(
    alloc: Global,
    plan: &JoinPlan,
    operand: usize,
    held: &Held,
    news: &Delta,
    key: &Key,
    steps: &mut Steps<L>,
) -> Result<Seen, AllocError>
    requires { operand < length plan.now.operands }
    ensures before { IfOk result (λ seen. IsPlain held.now.want → values_of seen.before ≡ finmap.get held.now.content (own_key plan.now operand key.now)) }
    ensures after { IfOk result (λ seen. IsPlain held.now.want → values_of seen.after ≡ finmap.get (apply news.now held.now.content) (own_key plan.now operand key.now)) }
    ensures steps { steps.new ≤ steps.old + 2 }
{
    let own = plan.own_key(alloc, operand, key)?;
    let at = Point {
        key: own,
        rest: Items::new(alloc),
    };
    let was = held.get(&at, steps);
    let comes = news.point_after(&at.key, was);
    let before = shared(was)?;
    let after = shared(comes)?;
    Ok(Seen { before, after })
}

/// What all operands have at a key of the join, before the news and after them.
#[derive(Drop)]
struct Points {
    before: Vec<Option<Arc<Point>>>,
    after: Vec<Option<Arc<Point>>>,
}

/// Looks each operand up, once.
fn look_all<L: Ledger>(
    alloc: Global,
    plan: &JoinPlan,
    held: &[Held],
    news: &[Arc<Delta>],
    key: &Key,
    steps: &mut Steps<L>,
) -> Result<Points, AllocError>
    requires held { length held.now ≡ length plan.now.operands }
    requires news { length news.now ≡ length plan.now.operands }
    ensures before { IfOk result (λ points. AllPlain held.now → map values_of points.before.items ≡ points_at plan.now (contents held.now) key.now) }
    ensures after { IfOk result (λ points. AllPlain held.now → map values_of points.after.items ≡ points_at plan.now (after_news (map arc_value news.now) (contents held.now)) key.now) }
    ensures before_len { IfOk result (λ points. length points.before.items ≡ length plan.now.operands) }
    ensures after_len { IfOk result (λ points. length points.after.items ≡ length plan.now.operands) }
    ensures steps { steps.new ≤ steps.old + 2 * length plan.now.operands }
{
    let mut before = Vec::new(alloc);
    let mut after = Vec::new(alloc);
    for (i, one) in held.iter().enumerate() {
        let seen = look(alloc, plan, i, one, &news[i], key, steps)?;
        before.push(seen.before)?;
        after.push(seen.after)?;
    }
    Ok(Points { before, after })
}

/// Notes what the result had and has at a key.
fn note_key<L: Ledger>(
    alloc: Global,
    plan: &JoinPlan,
    held: &[Held],
    news: &[Arc<Delta>],
    key: &Key,
    draft: &mut Draft,
    steps: &mut Steps<L>,
) -> Result<(), AllocError>
    requires held { length held.now ≡ length plan.now.operands }
    requires news { length news.now ≡ length plan.now.operands }
    ensures noted { OnOk result (AllPlain held.now → draft.new ≡ meant.noted_key plan.now held.now (map arc_value news.now) key.now draft.old) }
    ensures steps { steps.new ≤ steps.old + 2 * length plan.now.operands }
{
    let points = look_all(alloc, plan, held, news, key, steps)?;
    let old = plan.joined(alloc, key, &points.before)?;
    let new = plan.joined(alloc, key, &points.after)?;
    let at = key.copy()?;
    draft.note(Change { key: at, old, new })
}

/// Puts down the keys of the result that the changes of the operand of this number come to.
fn push_keys(
    alloc: Global,
    plan: &JoinPlan,
    operand: usize,
    news: &Delta,
    keys: &mut Vec<Key>,
) -> Result<(), AllocError>
    requires { operand < length plan.now.operands }
    ensures keys { OnOk result (keys.new.items ≡ keys.old.items ++ map (join_key plan.now (structure_of plan.now operand)) (finmap.keys news.now)) }
    ensures differs { Differs news.now }
{
    for change in news.changes() {
        keys.push(plan.join_key(alloc, operand, &change.key)?)?;
    }
    Ok(())
}

/// The keys of the result that the changes of all operands come to.
fn all_keys(alloc: Global, plan: &JoinPlan, news: &[Arc<Delta>]) -> Result<Vec<Key>, AllocError>
    requires { length news.now ≡ length plan.now.operands }
    ensures keys { IfOk result (λ keys. keys.items ≡ all_keys_of plan.now plan.now.operands (map arc_value news.now)) }
    ensures differs { IfOk result (λ keys. All Differs (map arc_value news.now)) }
{
    let mut keys = Vec::new(alloc);
    for (i, delta) in news.iter().enumerate() {
        push_keys(alloc, plan, i, delta, &mut keys)?;
    }
    Ok(keys)
}

/// What is noted of the changes of all operands. Each change takes a look at each operand.
pub fn noted<L: Ledger>(
    alloc: Global,
    plan: &JoinPlan,
    held: &[Held],
    news: &[Arc<Delta>],
    steps: &mut Steps<L>,
) -> Result<Draft, AllocError>
    requires held { length held.now ≡ length plan.now.operands }
    requires news { length news.now ≡ length plan.now.operands }
    ensures noted { IfOk result (λ draft. AllPlain held.now → IsNoted plan.now held.now (map arc_value news.now) (all_keys_of plan.now plan.now.operands (map arc_value news.now)) draft) }
    ensures differs { IfOk result (λ draft. All Differs (map arc_value news.now)) }
    ensures steps { steps.new ≤ steps.old + 2 * length plan.now.operands * changes_in (map arc_value news.now) }
{
    let keys = all_keys(alloc, plan, news)?;
    let mut draft = Draft::new(alloc);
    for key in keys.as_slice() {
        note_key(alloc, plan, held, news, key, &mut draft, steps)?;
    }
    Ok(draft)
}
