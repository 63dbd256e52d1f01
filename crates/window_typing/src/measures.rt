// Analytic operators on a data set.
ghost use Rattle.std.specs.Prelude.{◌≡◌, ◌||◌, not, is_some, filter_map, map, Some, ◌∷◌, [], Ok, IfOk, IfErr};
ghost use Rattle.vtl_values.specs.declared.kind.Role.TheVariants.{Measure};
ghost use Rattle.vtl_values.specs.Structures.{IsStructure};
ghost use Rattle.scalar_trees.specs.Kinds as kinds;
ghost use Rattle.scalar_trees.specs.typing.Steps.{Refuses};
ghost use Rattle.data_set_trees.specs.clauses.Frames as frames;
ghost use Rattle.data_set_trees.specs.windows.Results as results;
ghost use Rattle.data_set_trees.specs.windows.Windows as meant;
ghost use Rattle.window_typing.specs.Each as each;

use crate::after::unordered;
use crate::functions::{takes_window, window_gives, window_of, window_takes};
use crate::parts::{copy_parts, knows, may_part, parts_of, with_parts};
use crate::points::{end_of, is_offset, may_state, points_within, start_of};
use clause_typing::{demands, frame_of, has_role};
use data_set_trees::clauses::Frame;
use data_set_trees::windows::{Analytic, AnalyticMeasure, CheckedAnalytic, CheckedWindow, Parts};
use result_components::{has_room, int_var, names_differ, numbers_of};
use scalar_trees::typing::{Fault, TypeStop};
use scalar_trees::{agreed, any_kind};
use sqlite_items::Items;
use std::alloc::{AllocError, Global};
use vtl_syntax::Over;
use vtl_syntax::words::{OffsetFunction, WindowFunction};
use vtl_values::{Component, Integer, Kind, Place, Role};

/// An operator that works on each measure.
#[derive(Clone, Copy)]
enum OnEach {
    Window(WindowFunction),
    Offset(OffsetFunction, Integer),
}

impl OnEach {
    /// What it gives of a measure of this kind.
    fn gives(&self, kind: Kind) -> Kind
        ensures { result ≡ each.gives self.now kind }
    {
        match self {
            OnEach::Window(function) => window_gives(*function, kind),
            OnEach::Offset(_, _) => kind,
        }
    }

    /// The operator of the component with this number.
    fn of(&self, component: u64, over: &Over) -> Analytic
        ensures { result ≡ each.operator self.now over.now component }
    {
        match self {
            OnEach::Window(function) => window_of(*function, component, over),
            OnEach::Offset(function, offset) => Analytic::Offset {
                function: *function,
                component,
                offset: *offset,
            },
        }
    }
}

/// What is worked out of the component with this number in these parts, if there is one.
fn measure_in(
    alloc: Global,
    parts: &Parts,
    over: &Over,
    operator: &OnEach,
    number: u64,
    components: &[Component],
) -> Result<Option<AnalyticMeasure>, AllocError>
    ensures { IfOk result (λ measure. measure ≡ each.measure_in parts.now over.now operator.now components.now number) }
{
    match components.get(number as usize) {
        Some(component) => Ok(Some(AnalyticMeasure {
            name: component.name.copy()?,
            kind: operator.gives(component.kind),
            value: CheckedAnalytic {
                analytic: operator.of(number, over),
                parts: copy_parts(alloc, parts)?,
            },
        })),
        None => Ok(None),
    }
}

/// What is worked out of each component with one of these numbers.
fn measures_in(
    alloc: Global,
    parts: &Parts,
    over: &Over,
    operator: &OnEach,
    numbers: &[u64],
    components: &[Component],
) -> Result<Items<AnalyticMeasure>, AllocError>
    ensures { IfOk result (λ items. items ≡ filter_map (each.measure_in parts.now over.now operator.now components.now) numbers.now) }
{
    let mut items = Items::new(alloc);
    for number in numbers {
        if let Some(item) = measure_in(alloc, parts, over, operator, *number, components)? {
            items.push(item)?;
        }
    }
    Ok(items)
}

/// The operator on each measure.
fn on_measures(
    alloc: Global,
    frame: &Frame,
    over: &Over,
    operator: &OnEach,
) -> Result<Items<AnalyticMeasure>, AllocError>
    ensures { IfOk result (λ items. items ≡ each.on_measures frame.now over.now operator.now) }
{
    let components = frame.components.as_slice();
    let numbers = numbers_of(alloc, Role::Measure, components)?;
    let parts = parts_of(alloc, frame, over)?;
    measures_in(
        alloc,
        &parts,
        over,
        operator,
        numbers.as_slice(),
        components,
    )
}

/// The measure in which `count` has the number of the window's points.
fn points_counted(alloc: Global, frame: &Frame, over: &Over) -> Result<AnalyticMeasure, AllocError>
    ensures { IfOk result (λ measure. measure ≡ meant.points_counted frame.now over.now) }
{
    let counted = Analytic::CountAll {
        from: start_of(&over.points),
        to: end_of(&over.points),
    };
    Ok(AnalyticMeasure {
        name: int_var(alloc)?,
        kind: Kind::Integer,
        value: with_parts(alloc, frame, over, counted)?,
    })
}

fn points_counted_alone(
    alloc: Global,
    frame: &Frame,
    over: &Over,
) -> Result<Items<AnalyticMeasure>, AllocError>
    ensures { IfOk result (λ items. items ≡ meant.points_counted frame.now over.now ∷ []) }
{
    let mut items = Items::new(alloc);
    items.push(points_counted(alloc, frame, over)?)?;
    Ok(items)
}

/// The measures that a function works out.
fn window_items(
    alloc: Global,
    function: WindowFunction,
    frame: &Frame,
    over: &Over,
) -> Result<Items<AnalyticMeasure>, AllocError>
    ensures { IfOk result (λ items. items ≡ meant.window_items function frame.now over.now) }
{
    match function {
        WindowFunction::Count => points_counted_alone(alloc, frame, over),
        WindowFunction::Sum
        | WindowFunction::Avg
        | WindowFunction::Min
        | WindowFunction::Max
        | WindowFunction::Median
        | WindowFunction::FirstValue
        | WindowFunction::LastValue
        | WindowFunction::RatioToReport => {
            on_measures(alloc, frame, over, &OnEach::Window(function))
        }
    }
}

/// Whether the component is of one of these kinds, if it is a measure.
fn is_taken(takes: &[Kind], component: &Component) -> bool
    ensures { result ≡ (not (frames.has_role Measure component.now) || is_some (kinds.agreed takes.now (Some component.now.kind ∷ []))) }
{
    !has_role(Role::Measure, component) || agreed(takes, &[Some(component.kind)]).is_some()
}

fn takes_all(takes: &[Kind], components: &[Component]) -> bool
    ensures { result ≡ meant.takes_all takes.now components.now }
{
    components
        .iter()
        .all(|component| is_taken(takes, component))
}

/// What a call on a data set has to meet.
#[derive(Clone, Copy)]
struct Asked<'a> {
    /// The kinds of measures.
    takes: &'a [Kind],
    /// Whether a window is stated only where it may be.
    stated: bool,
    /// Whether the window or the offset reaches no further than it may.
    within: bool,
}

/// All that is asked where the measures that are worked out are these.
fn fits(
    alloc: Global,
    place: Place,
    frame: &Frame,
    over: &Over,
    asked: &Asked<'_>,
    items: &[AnalyticMeasure],
) -> Result<(), TypeStop>
    ensures ok { IfOk result (λ met. each.fits place frame.now over.now asked.now.takes.now asked.now.stated asked.now.within items.now ≡ Ok met) }
    ensures err { IfErr result (Refuses (each.fits place frame.now over.now asked.now.takes.now asked.now.stated asked.now.within items.now)) }
{
    let components = frame.components.as_slice();
    let known = knows(frame, over);
    let taken = takes_all(asked.takes, components);
    let may = may_part(frame, over);
    let after = unordered(alloc, items, components)?;
    let once = names_differ(alloc, after.as_slice())?;
    let room = has_room(after.as_slice());
    demands(
        place,
        &[
            (known, Fault::UnknownComponent),
            (taken, Fault::WrongType),
            (asked.stated, Fault::WrongStructure),
            (may, Fault::WrongRole),
            (once, Fault::NameTwice),
            (room, Fault::TooManyComponents),
            (asked.within, Fault::BadConstant),
        ],
    )
}

/// `sum(ds over ..)` and its like, on a data set of these components. At the place of the call `UnknownComponent` where a
/// name of `over` is that of no component, else `WrongType` where a measure isn't of a kind that the function takes, else
/// `WrongStructure` where a window is stated for `ratio_to_report`, else `WrongRole` where a part isn't made by
/// identifiers, else `NameTwice` where two components of the result would have one name, else `TooManyComponents` where it
/// would have more than 64, else `BadConstant` where the window reaches further than 1,000 points; or want of memory. The
/// components of the result of a structure are a structure. It costs the number of components times the size of `over`.
pub fn window_on(
    alloc: Global,
    function: WindowFunction,
    over: &Over,
    place: Place,
    components: &[Component],
) -> Result<CheckedWindow, TypeStop>
    ensures ok { IfOk result (λ window. meant.window_checked function over.now place components.now ≡ Ok window) }
    ensures err { IfErr result (Refuses (meant.window_checked function over.now place components.now)) }
    ensures structure { IsStructure components.now →
        IfOk result (λ window. IsStructure (results.after window (frames.frame_of components.now)).components) }
{
    let frame = frame_of(alloc, components)?;
    let items = window_items(alloc, function, &frame, over)?;
    let asked = Asked {
        takes: window_takes(function),
        stated: may_state(takes_window(function), over),
        within: points_within(&over.points),
    };
    fits(alloc, place, &frame, over, &asked, items.as_slice())?;
    Ok(CheckedWindow::Measures { items })
}

/// `lag(ds, n over ..)` and `lead(ds, n over ..)`, on a data set of these components. The faults are those of `window_on`,
/// but measures of all kinds are taken, `WrongStructure` stands for any window that is stated, and `BadConstant` for an
/// offset that isn't from 1 to 1,000; or want of memory. The components of the result of a structure are a structure. It
/// costs what `window_on` does.
pub fn offset_on(
    alloc: Global,
    function: OffsetFunction,
    offset: Integer,
    over: &Over,
    place: Place,
    components: &[Component],
) -> Result<CheckedWindow, TypeStop>
    ensures ok { IfOk result (λ window. meant.offset_checked function offset over.now place components.now ≡ Ok window) }
    ensures err { IfErr result (Refuses (meant.offset_checked function offset over.now place components.now)) }
    ensures structure { IsStructure components.now →
        IfOk result (λ window. IsStructure (results.after window (frames.frame_of components.now)).components) }
{
    let frame = frame_of(alloc, components)?;
    let items = on_measures(alloc, &frame, over, &OnEach::Offset(function, offset))?;
    let asked = Asked {
        takes: any_kind(),
        stated: may_state(false, over),
        within: is_offset(offset),
    };
    fits(alloc, place, &frame, over, &asked, items.as_slice())?;
    Ok(CheckedWindow::Measures { items })
}
