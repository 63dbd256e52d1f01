// Analytic operators in rules, where they have no place.
ghost use Rattle.std.specs.Prelude.{◌≡◌};
ghost use Rattle.std.specs.List.{list_all};
ghost use Rattle.data_set_trees.specs.aggregates.Groups as groups;
ghost use Rattle.ruleset_faults.specs.Expressions as meant;
ghost use Rattle.ruleset_faults.specs.Expressions.{Tells};

use clause_typing::demands;
use scalar_trees::typing::{Fault, TypeStop};
use vtl_syntax::{OrderItem, Over};
use vtl_values::{Place, Word};
use window_typing::{order_items, partition_names};

/// Whether one of these is the name.
pub(crate) fn is_one_of(names: &[Word], name: &Word) -> bool
    ensures { result ≡ groups.is_one_of names.now name.now }
{
    names.iter().any(|other| *name == *other)
}

fn may_part(names: &[Word], parts: &[Word]) -> bool
    ensures { result ≡ list_all (groups.is_one_of names.now) parts.now }
{
    parts.iter().all(|name| is_one_of(names, name))
}

fn may_order(names: &[Word], items: &[OrderItem]) -> bool
    ensures { result ≡ list_all (λ item. groups.is_one_of names.now item.name) items.now }
{
    items.iter().all(|item| is_one_of(names, &item.name))
}

/// Whether the names in `over` may stand there.
fn may_name(names: &[Word], over: &Over) -> bool
    ensures { result ≡ meant.may_name names.now over.now }
{
    may_part(names, partition_names(over)) && may_order(names, order_items(over))
}

/// What is wrong with an analytic operator: a name in `over` that may not stand there, or how far it reaches.
pub(crate) fn see_over(
    names: &[Word],
    over: &Over,
    within: bool,
    place: Place,
) -> Result<(), TypeStop>
    ensures { Tells (meant.over_seen place over.now within names.now) result }
{
    demands(
        place,
        &[
            (may_name(names, over), Fault::UnknownComponent),
            (within, Fault::BadConstant),
        ],
    )
}
