// The items of `calc`.
ghost use Rattle.std.specs.Prelude.{◌≡◌, IfOk};
ghost use Rattle.data_set_trees.specs.windows.Windows as meant;

use clause_typing::{bare_number_of, old_role, role_of, target_of};
use data_set_trees::clauses::Frame;
use data_set_trees::windows::{AnalyticItem, AnalyticValue, CheckedAnalytic};
use scalar_trees::typing::Typed;
use std::alloc::AllocError;
use vtl_syntax::words::ItemRole;
use vtl_values::{Kind, Word};

fn item_typed(
    frame: &Frame,
    stated: Option<ItemRole>,
    name: &Word,
    kind: Kind,
    value: AnalyticValue,
) -> Result<AnalyticItem, AllocError>
    ensures { IfOk result (λ item. item ≡ meant.item_typed frame.now stated name.now kind value) }
{
    let number = bare_number_of(frame, name);
    Ok(AnalyticItem {
        target: target_of(number, name)?,
        role: role_of(stated, old_role(frame, number)),
        kind,
        value,
    })
}

/// An item of `calc` that is worked out on the point itself, by its head and its value, or want of memory. Its target is
/// the component that the bare name stands for, or else a new one; its role is the one that is stated, or else the
/// target's, or else measure. As a whole item the literal null is a string. It costs the number of names in the frame.
pub fn scalar_item(
    frame: &Frame,
    stated: Option<ItemRole>,
    name: &Word,
    value: Typed,
) -> Result<AnalyticItem, AllocError>
    ensures item { IfOk result (λ item. item ≡ meant.scalar_item frame.now stated name.now value) }
    ensures made { IfOk result (meant.IsItemOf frame.now) }
{
    let kind = value.kind.unwrap_or(Kind::Text);
    item_typed(
        frame,
        stated,
        name,
        kind,
        AnalyticValue::Scalar(value.into_tree()),
    )
}

/// An item of `calc` that is analytic, by its head and the kind and the operator of its value, or want of memory. Its
/// target and its role are those of `scalar_item`. It costs the number of names in the frame.
pub fn analytic_item(
    frame: &Frame,
    stated: Option<ItemRole>,
    name: &Word,
    value: (Kind, CheckedAnalytic),
) -> Result<AnalyticItem, AllocError>
    ensures item { IfOk result (λ item. item ≡ meant.analytic_item frame.now stated name.now value) }
    ensures made { IfOk result (meant.IsItemOf frame.now) }
{
    let (kind, analytic) = value;
    item_typed(frame, stated, name, kind, AnalyticValue::Analytic(analytic))
}
