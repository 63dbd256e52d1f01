// Aggregates, analytic operators and operators on time series, on one data set.
ghost use Rattle.std.specs.Prelude.{◌≡◌, IfOk};
ghost use Rattle.vtl_values.specs.Structures.{IsStructure};
ghost use Rattle.data_set_trees.specs.aggregates.Results.{grouped};
ghost use Rattle.data_set_trees.specs.times.Times as times;
ghost use Rattle.data_set_trees.specs.declared.operand.Operand.TheVariants as operands;
ghost use Rattle.data_set_trees.specs.declared.tree.DataSetOperator.TheVariants as operator;
ghost use Rattle.expression_rules.specs.OnSets as rules;
ghost use Rattle.statement_typing.specs.Parts.{Answers};

use aggregate_typing::{aggr_typed, aggregate_typed};
use data_set_parts::clauses::on_one;
use data_set_parts::results::plain;
use data_set_trees::aggregates::CheckedAggregate;
use data_set_trees::times::CheckedTime;
use data_set_trees::windows::CheckedWindow;
use data_set_trees::{DataSet, DataSetOperator, Operand};
use scalar_trees::typing::{Fault, TypeStop};
use sqlite_items::Boxed;
use std::alloc::{AllocError, Global};
use time_typing::{fill_typed, shift_typed, time_typed};
use vtl_syntax::words::{
    AggregateFunction, FillSpan, OffsetFunction, TimeFunction, WindowFunction,
};
use vtl_syntax::{Groups, Item, Over};
use vtl_values::{Integer, Place};
use window_typing::{offset_on, window_on};

/// The operand as a data set; `WrongStructure` where it is a scalar.
pub(crate) fn set_of(place: Place, operand: Operand) -> Result<DataSet, TypeStop>
    ensures { Answers (rules.data_set_of place operand) result }
{
    match operand {
        Operand::Scalar(_) => Err(TypeStop::at(Fault::WrongStructure, place)),
        Operand::DataSet(set) => Ok(set),
    }
}

/// Aggregates on a data set of which they give a structure.
fn with_aggregate(
    alloc: Global,
    aggregate: CheckedAggregate,
    place: Place,
    set: DataSet,
) -> Result<Operand, AllocError>
    requires { IsStructure (grouped aggregate set.structure) }
    ensures { IfOk result (λ o. o ≡ operands.DataSet (rules.with_operator (operator.Aggregate aggregate) (grouped aggregate) place set)) }
{
    let after = aggregate_typing::components_after(alloc, &aggregate, set.structure.components())?;
    let structure = plain(alloc, after.as_slice())?;
    let operator = DataSetOperator::Aggregate(aggregate);
    Ok(Operand::DataSet(on_one(alloc, operator, place, set, structure)?))
}

/// `sum(a groups)` and its like.
pub(crate) fn on_aggregate(
    alloc: Global,
    function: AggregateFunction,
    groups: &Option<Boxed<Groups>>,
    place: Place,
    operand: Operand,
) -> Result<Operand, TypeStop>
    ensures { Answers (rules.on_aggregate function groups.now place operand) result }
{
    let set = Boxed::new(alloc, set_of(place, operand)?)?;
    let components = set.get().structure.components();
    let aggregate = aggregate_typed(alloc, function, place, groups, components)?;
    Ok(with_aggregate(alloc, aggregate, place, set.into_inner())?)
}

/// `a [aggr items groups]`
pub(crate) fn on_aggr(
    alloc: Global,
    items: &[Item],
    groups: &Option<Boxed<Groups>>,
    place: Place,
    operand: Operand,
) -> Result<Operand, TypeStop>
    ensures { Answers (rules.on_aggr items.now groups.now place operand) result }
{
    let set = Boxed::new(alloc, set_of(place, operand)?)?;
    let components = set.get().structure.components();
    let aggregate = aggr_typed(alloc, place, items, groups, components)?;
    Ok(with_aggregate(alloc, aggregate, place, set.into_inner())?)
}

/// Analytic operators on a data set of which they give a structure.
pub(crate) fn with_window(
    alloc: Global,
    window: CheckedWindow,
    place: Place,
    set: DataSet,
) -> Result<Operand, AllocError>
    requires { IsStructure (rules.window_after window set.structure) }
    ensures { IfOk result (λ o. o ≡ operands.DataSet (rules.with_operator (operator.Window window) (rules.window_after window) place set)) }
{
    let after = window_typing::components_after(alloc, &window, set.structure.components())?;
    let structure = plain(alloc, after.as_slice())?;
    let operator = DataSetOperator::Window(window);
    Ok(Operand::DataSet(on_one(alloc, operator, place, set, structure)?))
}

/// `sum(a over (..))` and its like.
pub(crate) fn on_window(
    alloc: Global,
    function: WindowFunction,
    over: &Over,
    place: Place,
    operand: Operand,
) -> Result<Operand, TypeStop>
    ensures { Answers (rules.on_window function over.now place operand) result }
{
    let set = Boxed::new(alloc, set_of(place, operand)?)?;
    let components = set.get().structure.components();
    let window = window_on(alloc, function, over, place, components)?;
    Ok(with_window(alloc, window, place, set.into_inner())?)
}

/// `lag(a, n over (..))`, `lead(a, n over (..))`
pub(crate) fn on_offset(
    alloc: Global,
    function: OffsetFunction,
    offset: Integer,
    over: &Over,
    place: Place,
    operand: Operand,
) -> Result<Operand, TypeStop>
    ensures { Answers (rules.on_offset function offset over.now place operand) result }
{
    let set = Boxed::new(alloc, set_of(place, operand)?)?;
    let components = set.get().structure.components();
    let window = offset_on(alloc, function, offset, over, place, components)?;
    Ok(with_window(alloc, window, place, set.into_inner())?)
}

/// An operator on a time series of which it gives a structure.
fn with_time(
    alloc: Global,
    time: CheckedTime,
    place: Place,
    set: DataSet,
) -> Result<Operand, AllocError>
    requires { IsStructure (times.after time set.structure) }
    ensures { IfOk result (λ o. o ≡ operands.DataSet (rules.with_operator (operator.Time time) (times.after time) place set)) }
{
    let after = time_typing::components_after(alloc, &time, set.structure.components())?;
    let structure = plain(alloc, after.as_slice())?;
    let operator = DataSetOperator::Time(time);
    Ok(Operand::DataSet(on_one(alloc, operator, place, set, structure)?))
}

/// `flow_to_stock(a)` and its like.
pub(crate) fn on_time(
    alloc: Global,
    function: TimeFunction,
    place: Place,
    operand: Operand,
) -> Result<Operand, TypeStop>
    ensures { Answers (rules.on_time function place operand) result }
{
    let set = Boxed::new(alloc, set_of(place, operand)?)?;
    let time = time_typed(alloc, function, place, set.get().structure.components())?;
    Ok(with_time(alloc, time, place, set.into_inner())?)
}

/// `timeshift(a, n)`
pub(crate) fn on_shift(
    alloc: Global,
    places: Integer,
    place: Place,
    operand: Operand,
) -> Result<Operand, TypeStop>
    ensures { Answers (rules.on_shift places place operand) result }
{
    let set = Boxed::new(alloc, set_of(place, operand)?)?;
    let time = shift_typed(places, place, set.get().structure.components())?;
    Ok(with_time(alloc, time, place, set.into_inner())?)
}

/// `fill_time_series(a, span)`
pub(crate) fn on_fill(
    alloc: Global,
    span: Option<FillSpan>,
    place: Place,
    operand: Operand,
) -> Result<Operand, TypeStop>
    ensures { Answers (rules.on_fill span place operand) result }
{
    let set = Boxed::new(alloc, set_of(place, operand)?)?;
    let time = fill_typed(span, place, set.get().structure.components())?;
    Ok(with_time(alloc, time, place, set.into_inner())?)
}
