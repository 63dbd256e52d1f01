// Windows and offsets.
ghost use Rattle.std.specs.Prelude.{◌≡◌};
ghost use Rattle.data_set_trees.specs.windows.Parts as meant;
ghost use Rattle.data_set_trees.specs.windows.Windows as windows;

use vtl_syntax::words::{WindowEnd, WindowStart};
use vtl_syntax::{Over, Points};
use vtl_values::Integer;

const MOST_REACH: u64 = 1000;

/// Whether it is no further than a window or an offset may reach: 1,000 points, to either side.
fn is_within(reach: Integer) -> bool
    ensures { result ≡ meant.is_within reach }
{
    reach.value.unsigned_abs() <= MOST_REACH
}

fn starts_within(start: WindowStart) -> bool
    ensures { result ≡ meant.starts_within start }
{
    match start {
        WindowStart::Preceding(reach) => is_within(reach),
        WindowStart::UnboundedPreceding => true,
        WindowStart::Current => true,
    }
}

fn ends_within(end: WindowEnd) -> bool
    ensures { result ≡ meant.ends_within end }
{
    match end {
        WindowEnd::Following(reach) => is_within(reach),
        WindowEnd::UnboundedFollowing => true,
        WindowEnd::Current => true,
    }
}

/// Whether a window reaches no further than it may, where one is stated.
pub fn points_within(points: &Option<Points>) -> bool
    ensures { result ≡ meant.points_within points.now }
{
    match points {
        Some(points) => starts_within(points.from) && ends_within(points.to),
        None => true,
    }
}

/// Whether it is an offset: at least one point, and no further than it may reach.
pub fn is_offset(offset: Integer) -> bool
    ensures { result ≡ meant.is_offset offset }
{
    1 <= offset.value.unsigned_abs() && is_within(offset)
}

/// Where the window begins: at the part's first point, where it isn't stated.
pub(crate) fn start_of(points: &Option<Points>) -> WindowStart
    ensures { result ≡ meant.start_of points.now }
{
    match points {
        Some(points) => points.from,
        None => WindowStart::UnboundedPreceding,
    }
}

/// Where the window ends: at the current point, where it isn't stated.
pub(crate) fn end_of(points: &Option<Points>) -> WindowEnd
    ensures { result ≡ meant.end_of points.now }
{
    match points {
        Some(points) => points.to,
        None => WindowEnd::Current,
    }
}

/// Whether a window is stated only where it may be.
pub(crate) fn may_state(may: bool, over: &Over) -> bool
    ensures { result ≡ windows.may_state may over.now }
{
    may || over.points.is_none()
}
