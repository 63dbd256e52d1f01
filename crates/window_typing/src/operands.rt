// Analytic operators in `calc`, each on a component.
ghost use Rattle.std.specs.Prelude.{◌≡◌, is_some, Ok, IfOk, IfErr};
ghost use Rattle.scalar_trees.specs.typing.Scalars as scalars;
ghost use Rattle.scalar_trees.specs.typing.Steps.{Refuses};
ghost use Rattle.data_set_trees.specs.windows.Windows as meant;
ghost use Rattle.window_typing.specs.Operands as operands;

use crate::functions::{takes_window, window_gives, window_of, window_takes};
use crate::parts::{knows, may_part, with_parts};
use crate::points::{is_offset, may_state, points_within};
use clause_typing::{demands, scope_of_frame};
use component_typing::check_operand;
use data_set_trees::clauses::Frame;
use data_set_trees::windows::{Analytic, CheckedAnalytic};
use operator_typing::joint;
use scalar_trees::typing::{Basis, Fault, TypeStop, Typed};
use scalar_trees::{CheckedExpr, any_kind};
use std::alloc::Global;
use vtl_syntax::words::{OffsetFunction, WindowFunction};
use vtl_syntax::{Expr, Over};
use vtl_values::{Integer, Kind, Place};

fn is_bare_name(operand: &Expr) -> bool
    ensures { result ≡ is_some (scalars.meaning operand.now).own_name }
{
    match operand {
        Expr::Name { .. } => true,
        _ => false,
    }
}

/// The number of the component that an expression is, if it is one.
fn component_number(tree: &CheckedExpr) -> Option<u64>
    ensures { result ≡ scalars.component_number tree.now }
{
    match tree {
        CheckedExpr::Component(number) => Some(*number),
        _ => None,
    }
}

/// The number of the component that an operand is, where it is a bare name.
fn bare_component(operand: &Expr, typed: &Typed) -> Option<u64>
    ensures { result ≡ meant.bare_component operand.now typed.now }
{
    if is_bare_name(operand) {
        component_number(&typed.tree)
    } else {
        None
    }
}

/// An operand: its kind, which the literal null has not, and the number of its component, where it is a bare name.
#[derive(Clone, Copy)]
struct Operand {
    kind: Option<Kind>,
    component: Option<u64>,
}

fn operand_typed(alloc: Global, frame: &Frame, operand: &Expr) -> Result<Operand, TypeStop>
    ensures ok { IfOk result (λ typed. operands.operand_typed frame.now operand.now ≡ Ok typed) }
    ensures err { IfErr result (Refuses (operands.operand_typed frame.now operand.now)) }
{
    let scope = scope_of_frame(alloc, frame)?;
    let typed = check_operand(alloc, &scope, Basis::Point, operand)?;
    Ok(Operand {
        kind: typed.kind,
        component: bare_component(operand, &typed),
    })
}

/// A component that an operator is taken of: its number, and the kind at which the operator takes it.
#[derive(Clone, Copy)]
struct Taken {
    kind: Kind,
    component: u64,
}

/// The component that an operator is taken of. The operand's own faults come first, then `UnknownComponent` where a name
/// of `over` isn't known, then `WrongType` where the operand isn't of these kinds, then `WrongStructure` where it is no
/// bare name.
fn component_taken(
    alloc: Global,
    place: Place,
    frame: &Frame,
    over: &Over,
    takes: &[Kind],
    operand: &Expr,
) -> Result<Taken, TypeStop>
    ensures ok { IfOk result (λ taken. operands.component_taken place frame.now over.now takes.now operand.now ≡ Ok taken) }
    ensures err { IfErr result (Refuses (operands.component_taken place frame.now over.now takes.now operand.now)) }
{
    let operand = operand_typed(alloc, frame, operand)?;
    demands(place, &[(knows(frame, over), Fault::UnknownComponent)])?;
    let kind = joint(place, takes, &[operand.kind])?;
    match operand.component {
        Some(component) => Ok(Taken { kind, component }),
        None => Err(TypeStop::at(Fault::WrongStructure, place)),
    }
}

/// An operator that is written out, with the kind of its value, and what its call has to meet.
#[derive(Clone, Copy)]
struct Operator {
    analytic: Analytic,
    kind: Kind,
    /// Whether a window is stated only where it may be.
    stated: bool,
    /// Whether the window or the offset reaches no further than it may.
    within: bool,
}

/// The operator in its parts, where its operand is known and fits.
fn finished(
    alloc: Global,
    place: Place,
    frame: &Frame,
    over: &Over,
    operator: Operator,
) -> Result<(Kind, CheckedAnalytic), TypeStop>
    ensures ok { IfOk result (λ value. meant.finished place frame.now over.now operator.stated operator.within operator.kind operator.analytic ≡ Ok value) }
    ensures err { IfErr result (Refuses (meant.finished place frame.now over.now operator.stated operator.within operator.kind operator.analytic)) }
{
    let may = may_part(frame, over);
    demands(
        place,
        &[
            (operator.stated, Fault::WrongStructure),
            (may, Fault::WrongRole),
            (operator.within, Fault::BadConstant),
        ],
    )?;
    let analytic = with_parts(alloc, frame, over, operator.analytic)?;
    Ok((operator.kind, analytic))
}

/// `sum(c over ..)` and its like in `calc`, with the kind of its value. The first fault of the operand, else at the place
/// of the call `UnknownComponent` where a name of `over` isn't known, else `WrongType` where the function doesn't take the
/// operand's kind, else `WrongStructure` where the operand is no bare name or a window is stated for `ratio_to_report`,
/// else `WrongRole` where a part isn't made by identifiers, else `BadConstant` where the window reaches further than 1,000
/// points; or want of memory. It costs the size of the operand and of `over` times the number of names in the frame.
pub fn window_typed(
    alloc: Global,
    function: WindowFunction,
    operand: &Expr,
    over: &Over,
    place: Place,
    frame: &Frame,
) -> Result<(Kind, CheckedAnalytic), TypeStop>
    ensures ok { IfOk result (λ value. meant.window_typed function operand.now over.now place frame.now ≡ Ok value) }
    ensures err { IfErr result (Refuses (meant.window_typed function operand.now over.now place frame.now)) }
{
    let taken = component_taken(alloc, place, frame, over, window_takes(function), operand)?;
    let operator = Operator {
        analytic: window_of(function, taken.component, over),
        kind: window_gives(function, taken.kind),
        stated: may_state(takes_window(function), over),
        within: points_within(&over.points),
    };
    finished(alloc, place, frame, over, operator)
}

/// `lag(c, n over ..)` and `lead(c, n over ..)` in `calc`, with the kind of the component. The faults are those of
/// `window_typed`, but `WrongStructure` stands for any window that is stated, and `BadConstant` for an offset that isn't
/// from 1 to 1,000; or want of memory. It costs what `window_typed` does.
pub fn offset_typed(
    alloc: Global,
    function: OffsetFunction,
    operand: &Expr,
    offset: Integer,
    over: &Over,
    place: Place,
    frame: &Frame,
) -> Result<(Kind, CheckedAnalytic), TypeStop>
    ensures ok { IfOk result (λ value. meant.offset_typed function operand.now offset over.now place frame.now ≡ Ok value) }
    ensures err { IfErr result (Refuses (meant.offset_typed function operand.now offset over.now place frame.now)) }
{
    let taken = component_taken(alloc, place, frame, over, any_kind(), operand)?;
    let operator = Operator {
        analytic: Analytic::Offset {
            function,
            component: taken.component,
            offset,
        },
        kind: taken.kind,
        stated: may_state(false, over),
        within: is_offset(offset),
    };
    finished(alloc, place, frame, over, operator)
}

/// `rank(over ..)` in `calc`, an integer. At the place of the call `UnknownComponent` where a name of `over` isn't known,
/// else `WrongStructure` where a window is stated, else `WrongRole` where a part isn't made by identifiers; or want of
/// memory. It costs the size of `over` times the number of names in the frame.
pub fn rank_typed(
    alloc: Global,
    over: &Over,
    place: Place,
    frame: &Frame,
) -> Result<(Kind, CheckedAnalytic), TypeStop>
    ensures ok { IfOk result (λ value. meant.rank_typed over.now place frame.now ≡ Ok value) }
    ensures err { IfErr result (Refuses (meant.rank_typed over.now place frame.now)) }
{
    demands(place, &[(knows(frame, over), Fault::UnknownComponent)])?;
    let operator = Operator {
        analytic: Analytic::Rank,
        kind: Kind::Integer,
        stated: may_state(false, over),
        within: true,
    };
    finished(alloc, place, frame, over, operator)
}
