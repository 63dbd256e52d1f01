// `a#c` of a data set.
ghost use Rattle.std.specs.Prelude.{◌≡◌, Ok, Err, option_map, IfOk, IfErr};
ghost use Rattle.scalar_trees.specs.declared.typing.stop.Fault.TheVariants as fault;
ghost use Rattle.scalar_trees.specs.declared.typing.stop.TypeStop.TheVariants.{Refused};
ghost use Rattle.scalar_trees.specs.typing.Steps.{Refuses};
ghost use Rattle.data_set_trees.specs.Members as meant;
ghost use Rattle.set_typing.specs.Plans as own;

use data_set_parts::clauses::with_clause;
use data_set_parts::components::{has_name, has_role};
use data_set_parts::names::{is_free, name_of_kind};
use data_set_parts::results::has_room;
use data_set_trees::clauses::{CheckedClause, CheckedMeasure};
use data_set_trees::{DataSet, Measure, Operand};
use scalar_trees::CheckedExpr;
use scalar_trees::typing::{Fault, TypeStop, Typed, demand};
use sqlite_items::Items;
use std::alloc::{AllocError, Global};
use vtl_values::{Component, Place, Role, Word};

/// A measure that is chosen, as it is worked out.
fn chosen(measure: Measure) -> CheckedMeasure
    ensures { result ≡ own.chosen measure }
{
    let Measure { number, name, kind } = measure;
    CheckedMeasure {
        name,
        kind,
        value: CheckedExpr::Component(number),
    }
}

/// The component with this number as a measure: under its own name if it is one, else under the name of its kind.
fn member_at(alloc: Global, number: u64, component: &Component) -> Result<Measure, AllocError>
    ensures { IfOk result (λ m. own.chosen m ≡ meant.member_at number component.now) }
{
    if has_role(Role::Measure, component) {
        return Ok(Measure {
            number,
            name: component.name.copy()?,
            kind: component.kind,
        });
    }
    Ok(Measure {
        number,
        name: name_of_kind(alloc, component.kind)?,
        kind: component.kind,
    })
}

/// The component of this name as a measure, if there is one. Or want of memory.
fn member_found(
    alloc: Global,
    name: &Word,
    components: &[Component],
) -> Result<Option<Measure>, AllocError>
    ensures { IfOk result (λ found. option_map own.chosen found ≡ meant.member_from 0 name.now components.now) }
{
    for (i, component) in components.iter().enumerate() {
        if has_name(name, component) {
            return Ok(Some(member_at(alloc, i as u64, component)?));
        }
    }
    Ok(None)
}

/// The same, where its name is free.
fn member_measure(
    alloc: Global,
    name: &Word,
    place: Place,
    components: &[Component],
) -> Result<Measure, TypeStop>
    ensures ok { IfOk result (λ m. own.member_measure name.now place components.now ≡ Ok (own.chosen m)) }
    ensures err { IfErr result (Refuses (own.member_measure name.now place components.now)) }
{
    let Some(measure) = member_found(alloc, name, components)? else {
        return Err(TypeStop::at(Fault::UnknownComponent, place));
    };
    let free = is_free(alloc, &measure.name, components)?;
    demand(free, Fault::NameTwice, place)?;
    Ok(measure)
}

/// The clause that works it out.
fn member_clause(
    alloc: Global,
    name: &Word,
    place: Place,
    components: &[Component],
) -> Result<CheckedClause, TypeStop>
    ensures ok { IfOk result (λ c. own.member_clause name.now place components.now ≡ Ok c) }
    ensures err { IfErr result (Refuses (own.member_clause name.now place components.now)) }
{
    let measure = member_measure(alloc, name, place, components)?;
    let mut items = Items::new(alloc);
    items.push(chosen(measure))?;
    Ok(CheckedClause::Measures { items })
}

fn member_of(alloc: Global, name: &Word, place: Place, set: DataSet) -> Result<DataSet, TypeStop>
    ensures ok { IfOk result (λ d. own.member_of name.now place set ≡ Ok d) }
    ensures err { IfErr result (Refuses (own.member_of name.now place set)) }
{
    let clause = member_clause(alloc, name, place, set.structure.components())?;
    Ok(with_clause(alloc, clause, place, set)?)
}

/// A data set within the limit of components.
fn in_room(place: Place, set: DataSet) -> Result<Operand, TypeStop>
    ensures ok { IfOk result (λ o. meant.in_room place set ≡ Ok o) }
    ensures err { IfErr result (Refuses (meant.in_room place set)) }
{
    demand(
        has_room(set.structure.components()),
        Fault::TooManyComponents,
        place,
    )?;
    Ok(Operand::DataSet(set))
}

/// A scalar has no components.
fn misplaced(place: Place, scalar: Typed) -> Result<Operand, TypeStop>
    ensures { result ≡ Err (Refused (record { fault = fault.WrongStructure; place = place })) }
{
    let _scalar = scalar;
    Err(TypeStop::at(Fault::WrongStructure, place))
}

/// `operand#name` at its place: the identifiers and viral attributes of the data set, and the component of this name as its
/// only measure, under the name of its kind where it isn't a measure already. Or its first fault: `WrongStructure` where
/// the operand is a scalar; else `UnknownComponent` where no component has the name; else `NameTwice` where an identifier
/// or a viral attribute has the name that the measure gets; else `TooManyComponents` where the result would have more than
/// 64. Or want of memory. It costs the number of components.
pub fn member(
    alloc: Global,
    name: &Word,
    place: Place,
    operand: Operand,
) -> Result<Operand, TypeStop>
    ensures ok { IfOk result (λ o. meant.member_typed name.now place operand ≡ Ok o) }
    ensures err { IfErr result (Refuses (meant.member_typed name.now place operand)) }
{
    match operand {
        Operand::Scalar(scalar) => misplaced(place, scalar),
        Operand::DataSet(set) => in_room(place, member_of(alloc, name, place, set)?),
    }
}
