// Operators on time series.
ghost use Rattle.std.specs.Prelude.{◌≡◌, nat_abs, nat_le, [], ◌∷◌, Ok, IfOk, IfErr};
ghost use Rattle.vtl_values.specs.Structures.{IsStructure};
ghost use Rattle.vtl_syntax.specs.declared.words.TimeFunction.TheVariants.{PeriodIndicator};
ghost use Rattle.scalar_trees.specs.declared.typing.stop.Fault.TheVariants.{NameTwice, TooManyComponents};
ghost use Rattle.scalar_trees.specs.typing.Steps.{Refuses};
ghost use Rattle.data_set_trees.specs.clauses.Clauses as clauses;
ghost use Rattle.data_set_trees.specs.times.Times as meant;

use crate::after::with_duration;
use crate::period::period_of;
use clause_typing::demands;
use data_set_trees::times::CheckedTime;
use result_components::{are_numeric, has_room, names_differ};
use scalar_trees::typing::{Fault, TypeStop};
use std::alloc::Global;
use vtl_syntax::words::{FillSpan, TimeFunction};
use vtl_values::{Component, Integer, Place};

/// Whether the measures are of kinds that the operator takes.
fn takes_kinds(function: TimeFunction, components: &[Component]) -> bool
    ensures { result ≡ meant.takes_kinds function components.now }
{
    match function {
        TimeFunction::FlowToStock | TimeFunction::StockToFlow => are_numeric(components),
        TimeFunction::PeriodIndicator => true,
    }
}

/// What `period_indicator` demands of the components that it gives.
fn duration_fits(alloc: Global, place: Place, components: &[Component]) -> Result<(), TypeStop>
    ensures ok { IfOk result (λ met. clauses.demands place ((meant.stands_apart PeriodIndicator components.now, NameTwice) ∷ (meant.finds_room PeriodIndicator components.now, TooManyComponents) ∷ []) ≡ Ok met) }
    ensures err { IfErr result (Refuses (clauses.demands place ((meant.stands_apart PeriodIndicator components.now, NameTwice) ∷ (meant.finds_room PeriodIndicator components.now, TooManyComponents) ∷ []))) }
{
    let found = with_duration(alloc, components)?;
    let apart = names_differ(alloc, found.as_slice())?;
    let room = has_room(found.as_slice());
    demands(
        place,
        &[(apart, Fault::NameTwice), (room, Fault::TooManyComponents)],
    )
}

/// What is demanded of the components that the operator gives.
fn result_fits(
    alloc: Global,
    function: TimeFunction,
    place: Place,
    components: &[Component],
) -> Result<(), TypeStop>
    ensures ok { IfOk result (λ met. clauses.demands place ((meant.stands_apart function components.now, NameTwice) ∷ (meant.finds_room function components.now, TooManyComponents) ∷ []) ≡ Ok met) }
    ensures err { IfErr result (Refuses (clauses.demands place ((meant.stands_apart function components.now, NameTwice) ∷ (meant.finds_room function components.now, TooManyComponents) ∷ []))) }
{
    match function {
        TimeFunction::FlowToStock | TimeFunction::StockToFlow => Ok(()),
        TimeFunction::PeriodIndicator => duration_fits(alloc, place, components),
    }
}

/// `flow_to_stock`, `stock_to_flow` or `period_indicator` on a data set of these components; `WrongType` where a sum is of
/// a measure that is no integer and no number, else `WrongStructure` where there is no string identifier `TIME_PERIOD`,
/// else for `period_indicator` `NameTwice` where a component that stays is called as the letter of the frequency, and
/// `TooManyComponents` where the result would have more than 64, or want of memory. It costs the number of components.
pub fn time_typed(
    alloc: Global,
    function: TimeFunction,
    place: Place,
    components: &[Component],
) -> Result<CheckedTime, TypeStop>
    ensures ok { IfOk result (λ time. meant.time_checked function place components.now ≡ Ok time) }
    ensures err { IfErr result (Refuses (meant.time_checked function place components.now)) }
    ensures structure { IsStructure components.now → IfOk result (λ time. IsStructure (meant.after time components.now)) }
{
    let numeric = takes_kinds(function, components);
    demands(place, &[(numeric, Fault::WrongType)])?;
    let period = period_of(place, components)?;
    result_fits(alloc, function, place, components)?;
    Ok(CheckedTime::Of { function, period })
}

const MOST_PLACES: u64 = 10_000;

fn is_near(places: Integer) -> bool
    ensures { result ≡ nat_le (nat_abs places) meant.MOST_PLACES }
{
    places.value.unsigned_abs() <= MOST_PLACES
}

/// `timeshift` by so many places on a data set of these components; `WrongStructure` where there is no string identifier
/// `TIME_PERIOD`, else `BadConstant` where the places are more than 10,000 either way. It costs the number of components.
pub fn shift_typed(
    places: Integer,
    place: Place,
    components: &[Component],
) -> Result<CheckedTime, TypeStop>
    ensures ok { IfOk result (λ time. meant.shift_checked places place components.now ≡ Ok time) }
    ensures err { IfErr result (Refuses (meant.shift_checked places place components.now)) }
    ensures structure { IsStructure components.now → IfOk result (λ time. IsStructure (meant.after time components.now)) }
{
    let period = period_of(place, components)?;
    demands(place, &[(is_near(places), Fault::BadConstant)])?;
    Ok(CheckedTime::Shift { places, period })
}

/// `fill_time_series` between the periods of all series or of each single one, where nothing is said of all, on a data set
/// of these components; `WrongStructure` where there is no string identifier `TIME_PERIOD`. It costs the number of
/// components.
pub fn fill_typed(
    span: Option<FillSpan>,
    place: Place,
    components: &[Component],
) -> Result<CheckedTime, TypeStop>
    ensures ok { IfOk result (λ time. meant.fill_checked span place components.now ≡ Ok time) }
    ensures err { IfErr result (Refuses (meant.fill_checked span place components.now)) }
    ensures structure { IsStructure components.now → IfOk result (λ time. IsStructure (meant.after time components.now)) }
{
    let period = period_of(place, components)?;
    Ok(CheckedTime::Fill {
        span: span.unwrap_or(FillSpan::All),
        period,
    })
}
