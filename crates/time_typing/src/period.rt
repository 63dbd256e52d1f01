// The identifier that has a point's period.
ghost use Rattle.std.specs.Prelude.{◌≡◌, Ok, IfOk, IfErr};
ghost use Rattle.vtl_values.specs.Texts.{same_text};
ghost use Rattle.vtl_values.specs.declared.kind.Kind.TheVariants.{Text};
ghost use Rattle.scalar_trees.specs.WellTyped.{is_kind};
ghost use Rattle.scalar_trees.specs.declared.typing.stop.Fault.TheVariants.{WrongStructure};
ghost use Rattle.scalar_trees.specs.typing.Steps.{Refuses, or_refused};
ghost use Rattle.data_set_trees.specs.times.Times as meant;

use clause_typing::has_role;
use scalar_trees::typing::{Fault, TypeStop};
use vtl_values::{Component, Kind, Place, Role, Word};

fn is_period_name(name: &Word) -> bool
    ensures { result ≡ same_text meant.TIME_PERIOD name.now }
{
    name.as_str() == "TIME_PERIOD"
}

fn is_text(kind: Kind) -> bool
    ensures { result ≡ is_kind kind Text }
{
    kind == Kind::Text
}

fn is_period(component: &Component) -> bool
    ensures { result ≡ meant.is_period component.now }
{
    has_role(Role::Identifier, component)
        && is_period_name(&component.name)
        && is_text(component.kind)
}

fn period_number(components: &[Component]) -> Option<usize>
    ensures { result ≡ meant.period_number components.now }
{
    components.iter().position(|component| is_period(component))
}

/// The number of the identifier that has a point's period; `WrongStructure` where there is none.
pub(crate) fn period_of(place: Place, components: &[Component]) -> Result<u64, TypeStop>
    ensures ok { IfOk result (λ period. or_refused (meant.period_number components.now) WrongStructure place ≡ Ok period) }
    ensures err { IfErr result (Refuses (or_refused (meant.period_number components.now) WrongStructure place)) }
{
    match period_number(components) {
        Some(period) => Ok(period as u64),
        None => Err(TypeStop::at(Fault::WrongStructure, place)),
    }
}
