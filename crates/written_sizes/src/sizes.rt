// What stands at the top of an outline counts.
ghost use Rattle.std.specs.Prelude.{◌≡◌};
ghost use Rattle.written_sizes.specs.Sizes as meant;

use operator_faults::What;

/// How many expressions it is itself.
pub(crate) fn own_expressions(what: &What) -> u64
    ensures { result ≡ meant.own_expressions what.now }
{
    match what {
        What::Name(_) => 1,
        What::Call(_) => 1,
        What::Plain => 1,
        What::Level => 1,
        What::Inside => 0,
        What::InsideJoin => 0,
    }
}

/// How many levels it is itself.
pub(crate) fn own_levels(what: &What) -> u64
    ensures { result ≡ meant.own_levels what.now }
{
    match what {
        What::Name(_) => 0,
        What::Call(_) => 1,
        What::Plain => 0,
        What::Level => 1,
        What::Inside => 0,
        What::InsideJoin => 1,
    }
}
