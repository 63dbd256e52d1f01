// Aggregates, which stand on a group of points.
ghost use Rattle.std.specs.Prelude.{◌≡◌, if◌then◌else◌, Ok, IfOk, IfErr};
ghost use Rattle.scalar_trees.specs.typing.Steps.{Refuses};
ghost use Rattle.scalar_trees.specs.typing.Scalars as meant;

use crate::operands::{joint, or_refused};
use scalar_trees::typing::{Basis, Fault, TypeStop, Typed};
use scalar_trees::{CheckedExpr, aggregate_gives, aggregate_takes};
use vtl_syntax::words::AggregateFunction;
use vtl_values::{Kind, Place};

/// The number of the component that an expression is, if it is one.
fn component_number(tree: &CheckedExpr) -> Option<u64>
    ensures { result ≡ meant.component_number tree.now }
{
    match tree {
        CheckedExpr::Component(number) => Some(*number),
        _ => None,
    }
}

/// The component that an aggregate is taken of, where it stands as a bare name.
fn aggregated(is_bare: bool, tree: &CheckedExpr) -> Option<u64>
    ensures { result ≡ (if is_bare then meant.component_number tree.now else None) }
{
    if is_bare {
        component_number(tree)
    } else {
        None
    }
}

/// An aggregate of a component; `WrongType` where it doesn't take the component's kind, else `WrongStructure` where it is
/// of another expression than a bare name.
pub fn aggregate_typed(
    function: AggregateFunction,
    is_bare: bool,
    place: Place,
    operand: Typed,
) -> Result<Typed, TypeStop>
    ensures ok { IfOk result (λ t. meant.aggregate_typed function is_bare place operand ≡ Ok t) }
    ensures err { IfErr result (Refuses (meant.aggregate_typed function is_bare place operand)) }
{
    let kind = joint(place, aggregate_takes(function), &[operand.kind])?;
    let bare = aggregated(is_bare, &operand.tree);
    let component = or_refused(bare, Fault::WrongStructure, place)?;
    Ok(Typed {
        tree: CheckedExpr::Aggregate {
            function,
            component,
        },
        kind: Some(aggregate_gives(function, kind)),
    })
}

/// `count()`; `WrongStructure` where it stands on a point.
pub fn count_at(place: Place, basis: Basis) -> Result<Typed, TypeStop>
    ensures ok { IfOk result (λ t. meant.count_at place basis ≡ Ok t) }
    ensures err { IfErr result (Refuses (meant.count_at place basis)) }
{
    match basis {
        Basis::Point => Err(TypeStop::at(Fault::WrongStructure, place)),
        Basis::Group => Ok(Typed {
            tree: CheckedExpr::CountAll,
            kind: Some(Kind::Integer),
        }),
    }
}
