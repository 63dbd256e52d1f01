// What analytic functions take and give.
ghost use Rattle.std.specs.Prelude.{◌≡◌};
ghost use Rattle.data_set_trees.specs.windows.Functions as meant;
ghost use Rattle.data_set_trees.specs.windows.Windows as windows;

use crate::points::{end_of, start_of};
use data_set_trees::windows::Analytic;
use scalar_trees::any_kind;
use vtl_syntax::Over;
use vtl_syntax::words::{WindowEnd, WindowFunction, WindowStart};
use vtl_values::Kind;

/// The kinds of components that a function takes.
pub(crate) fn window_takes(function: WindowFunction) -> &'static [Kind]
    ensures { result.now ≡ meant.window_takes function }
{
    match function {
        WindowFunction::Sum
        | WindowFunction::Avg
        | WindowFunction::Median
        | WindowFunction::RatioToReport => &[Kind::Integer, Kind::Number],
        WindowFunction::Count
        | WindowFunction::Min
        | WindowFunction::Max
        | WindowFunction::FirstValue
        | WindowFunction::LastValue => any_kind(),
    }
}

/// What a function gives of a component of this kind.
pub(crate) fn window_gives(function: WindowFunction, kind: Kind) -> Kind
    ensures { result ≡ meant.window_gives function kind }
{
    match function {
        WindowFunction::Sum
        | WindowFunction::Min
        | WindowFunction::Max
        | WindowFunction::FirstValue
        | WindowFunction::LastValue => kind,
        WindowFunction::Avg | WindowFunction::Median | WindowFunction::RatioToReport => {
            Kind::Number
        }
        WindowFunction::Count => Kind::Integer,
    }
}

/// Whether a window may be stated for it.
pub(crate) fn takes_window(function: WindowFunction) -> bool
    ensures { result ≡ meant.takes_window function }
{
    match function {
        WindowFunction::Sum
        | WindowFunction::Avg
        | WindowFunction::Count
        | WindowFunction::Min
        | WindowFunction::Max
        | WindowFunction::Median
        | WindowFunction::FirstValue
        | WindowFunction::LastValue => true,
        WindowFunction::RatioToReport => false,
    }
}

/// The function of the component with this number, on the window that is stated; `ratio_to_report` goes over the part.
pub(crate) fn window_of(function: WindowFunction, component: u64, over: &Over) -> Analytic
    ensures { result ≡ windows.window_of function component over.now }
{
    match function {
        WindowFunction::RatioToReport => Analytic::Window {
            function,
            component,
            from: WindowStart::UnboundedPreceding,
            to: WindowEnd::UnboundedFollowing,
        },
        WindowFunction::Sum
        | WindowFunction::Avg
        | WindowFunction::Count
        | WindowFunction::Min
        | WindowFunction::Max
        | WindowFunction::Median
        | WindowFunction::FirstValue
        | WindowFunction::LastValue => Analytic::Window {
            function,
            component,
            from: start_of(&over.points),
            to: end_of(&over.points),
        },
    }
}
