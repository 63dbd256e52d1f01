// `exists_in` of two data sets.
ghost use Rattle.std.specs.Prelude.{◌≡◌, not, ◌||◌, Ok, IfOk, IfErr};
ghost use Rattle.std.specs.List.{list_all};
ghost use Rattle.vtl_values.specs.Texts.{same_text};
ghost use Rattle.scalar_trees.specs.WellTyped.{is_kind};
ghost use Rattle.scalar_trees.specs.typing.Steps.{Refuses};
ghost use Rattle.data_set_trees.specs.Exists as meant;
ghost use Rattle.set_typing.specs.Plans as own;

use crate::applying::{applied, two};
use data_set_parts::components::{identifiers, is_kind, virals};
use data_set_parts::joins::{by_parts, made_measure};
use data_set_parts::names::name_of_kind;
use data_set_parts::results::fitting;
use data_set_trees::{DataSetOperator, Operand};
use scalar_trees::typing::{Fault, TypeStop, demand};
use sqlite_items::Items;
use std::alloc::{AllocError, Global};
use vtl_syntax::words::ExistsRows;
use vtl_values::{Component, Kind, Place, Structure};

/// Whether two identifiers have different names, or one kind.
fn go_together(component: &Component, other: &Component) -> bool
    ensures { result ≡ (not (same_text component.now.name other.now.name) || is_kind component.now.kind other.now.kind) }
{
    component.name != other.name || is_kind(component.kind, other.kind)
}

fn agrees(component: &Component, others: &[Component]) -> bool
    ensures { result ≡ list_all (λ d. not (same_text component.now.name d.name) || is_kind component.now.kind d.kind) others.now }
{
    others.iter().all(|other| go_together(component, other))
}

fn agree(components: &[Component], others: &[Component]) -> bool
    ensures { result ≡ list_all (λ c. list_all (λ d. not (same_text c.name d.name) || is_kind c.kind d.kind) others.now) components.now }
{
    components.iter().all(|component| agrees(component, others))
}

/// Whether identifiers of one name are of one kind, or want of memory.
fn common_agree(
    alloc: Global,
    components: &[Component],
    others: &[Component],
) -> Result<bool, AllocError>
    ensures { IfOk result (λ agree. agree ≡ meant.common_agree components.now others.now) }
{
    let first = identifiers(alloc, components)?;
    let second = identifiers(alloc, others)?;
    Ok(agree(first.as_slice(), second.as_slice()))
}

/// Whether a point is there.
fn whether_there(alloc: Global) -> Result<Items<Component>, AllocError>
    ensures { IfOk result (λ all. all ≡ own.whether_there) }
{
    let name = name_of_kind(alloc, Kind::Truth)?;
    let mut all = Items::new(alloc);
    all.push(made_measure(Kind::Truth, &name)?)?;
    Ok(all)
}

/// The identifiers and viral attributes, and whether a point is there. Or want of memory.
fn exists_components(
    alloc: Global,
    components: &[Component],
) -> Result<Items<Component>, AllocError>
    ensures { IfOk result (λ all. all ≡ meant.exists_structure components.now) }
{
    let staying = identifiers(alloc, components)?;
    let measures = whether_there(alloc)?;
    let attributes = virals(alloc, components)?;
    by_parts(alloc, staying.as_slice(), measures, attributes)
}

/// The structure of the result.
fn exists_structure(
    alloc: Global,
    place: Place,
    structure: &Structure,
) -> Result<Structure, TypeStop>
    ensures ok { IfOk result (λ made. own.exists_structure place structure.now ≡ Ok made) }
    ensures err { IfErr result (Refuses (own.exists_structure place structure.now)) }
{
    let components = exists_components(alloc, structure.components())?;
    fitting(alloc, place, components.as_slice())
}

fn exists_on(
    alloc: Global,
    place: Place,
    structure: &Structure,
    other: &Structure,
) -> Result<Structure, TypeStop>
    ensures ok { IfOk result (λ made. own.exists_on place structure.now other.now ≡ Ok made) }
    ensures err { IfErr result (Refuses (own.exists_on place structure.now other.now)) }
{
    let agree = common_agree(alloc, structure.components(), other.components())?;
    demand(agree, Fault::WrongStructure, place)?;
    exists_structure(alloc, place, structure)
}

/// The structure of the result, where both operands are data sets.
fn exists_planned(alloc: Global, place: Place, operands: &[Operand]) -> Result<Structure, TypeStop>
    ensures ok { IfOk result (λ made. own.exists_planned place operands.now ≡ Ok made) }
    ensures err { IfErr result (Refuses (own.exists_planned place operands.now)) }
{
    match operands {
        [Operand::DataSet(set), Operand::DataSet(other)] => {
            exists_on(alloc, place, &set.structure, &other.structure)
        }
        _ => Err(TypeStop::at(Fault::WrongStructure, place)),
    }
}

/// `exists_in(left, right, rows)` at its place: the identifiers and viral attributes of the left data set, with whether the
/// right one has such a point; all of its rows where none are said. Or its first fault: `WrongStructure` where an operand
/// is a scalar, or identifiers of one name are of two kinds; else `NameTwice` where an identifier or a viral attribute is
/// called `bool_var`; else `TooManyComponents`. Or want of memory. It costs the product of the numbers of identifiers, and
/// the square of the number of components.
pub fn exists(
    alloc: Global,
    rows: Option<ExistsRows>,
    place: Place,
    left: Operand,
    right: Operand,
) -> Result<Operand, TypeStop>
    ensures ok { IfOk result (λ o. meant.exists_typed rows place left right ≡ Ok o) }
    ensures err { IfErr result (Refuses (meant.exists_typed rows place left right)) }
{
    let operands = two(alloc, left, right)?;
    let structure = exists_planned(alloc, place, operands.as_slice())?;
    let operator = DataSetOperator::ExistsIn {
        rows: rows.unwrap_or(ExistsRows::All),
    };
    Ok(applied(alloc, operator, place, operands, structure)?)
}
