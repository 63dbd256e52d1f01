// `check` of a data set and its imbalance.
ghost use Rattle.std.specs.Prelude.{◌≡◌, ◌&&◌, ◌||◌, ◌∷◌, [], not, true, Some, is_some, Ok, IfOk, IfErr};
ghost use Rattle.std.specs.Char.{is_ascii};
ghost use Rattle.std.specs.List.{All, list_all};
ghost use Rattle.vtl_values.specs.Texts.{same_text};
ghost use Rattle.vtl_values.specs.declared.kind.Kind.TheVariants as kind;
ghost use Rattle.vtl_values.specs.declared.kind.Role.TheVariants as role;
ghost use Rattle.scalar_trees.specs.Kinds.{NUMERIC, agreed as agreed_kind};
ghost use Rattle.scalar_trees.specs.WellTyped.{is_kind as same_kind};
ghost use Rattle.scalar_trees.specs.typing.Steps.{Refuses};
ghost use Rattle.data_set_trees.specs.clauses.After as after;
ghost use Rattle.data_set_trees.specs.Checks as meant;
ghost use Rattle.data_set_parts.specs.Joins.{IsOf};
ghost use Rattle.expression_rules.specs.OnChecks as on;
ghost use Rattle.set_typing.specs.Plans as own;

use crate::agreement::has_one_measure;
use crate::applying::applied;
use crate::collections::all_structures;
use crate::results::{identifiers_of, more_virals, virals_of};
use data_set_parts::components::{identifiers, include, is_kind, measures, virals_agree};
use data_set_parts::demands::demands;
use data_set_parts::joins::{by_parts, made_measure};
use data_set_parts::measures::is_called;
use data_set_parts::names::name_of_kind;
use data_set_parts::results::fitting;
use data_set_trees::rules::{CheckedCheck, RuleError};
use data_set_trees::{DataSetOperator, Measure, Operand};
use scalar_trees::agreed;
use scalar_trees::typing::{Fault, TypeStop, demand};
use sqlite_items::Items;
use std::alloc::{AllocError, Global};
use vtl_syntax::words::CheckOutput;
use vtl_values::{Component, Kind, Place, Structure, Word};

// ---- what is asked

/// Whether measures of this name are booleans.
fn are_truths(name: &Word, measures: &[Measure]) -> bool
    ensures { result ≡ list_all (λ m. not (same_text name.now m.name) || same_kind m.kind kind.Truth) measures.now }
{
    measures.iter().all(|measure| !is_called(name, measure) || is_kind(measure.kind, Kind::Truth))
}

fn are_called(name: &Word, measures: &[Measure]) -> bool
    ensures { result ≡ list_all (λ m. same_text name.now m.name) measures.now }
{
    measures.iter().all(|measure| is_called(name, measure))
}

/// Whether a measure `bool_var` is a boolean. Or want of memory.
fn told_fits(alloc: Global, components: &[Component]) -> Result<bool, AllocError>
    ensures { IfOk result (λ fits. fits ≡ meant.told_fits components.now) }
{
    let name = name_of_kind(alloc, Kind::Truth)?;
    let measures = measures(alloc, components)?;
    Ok(are_truths(&name, measures.as_slice()))
}

/// Whether `bool_var` is the one measure. Or want of memory.
fn tells(alloc: Global, components: &[Component]) -> Result<bool, AllocError>
    ensures { IfOk result (λ tells. tells ≡ meant.tells components.now) }
{
    let name = name_of_kind(alloc, Kind::Truth)?;
    let measures = measures(alloc, components)?;
    Ok(measures.len() == 1 && are_called(&name, measures.as_slice()))
}

fn is_number(kind: Kind) -> bool
    ensures { result ≡ is_some (agreed_kind NUMERIC (Some kind ∷ [])) }
{
    agreed(&[Kind::Integer, Kind::Number], &[Some(kind)]).is_some()
}

fn are_numbers(measures: &[Measure]) -> bool
    ensures { result ≡ list_all (λ m. is_some (agreed_kind NUMERIC (Some m.kind ∷ []))) measures.now }
{
    measures.iter().all(|measure| is_number(measure.kind))
}

fn is_numeric(alloc: Global, components: &[Component]) -> Result<bool, AllocError>
    ensures { IfOk result (λ numeric. numeric ≡ meant.is_numeric components.now) }
{
    let measures = measures(alloc, components)?;
    Ok(are_numbers(measures.as_slice()))
}

/// Whether the imbalance, which is the first of these, has numeric measures. Or want of memory.
fn imbalance_is_numeric(alloc: Global, others: &[Structure]) -> Result<bool, AllocError>
    ensures { IfOk result (λ numeric. numeric ≡ meant.if_imbalance meant.is_numeric (on.imbalance_in others.now)) }
{
    match others {
        [] => Ok(true),
        [imbalance, ..] => is_numeric(alloc, imbalance.components()),
    }
}

/// Whether the second data set may be the imbalance of the first. Or want of memory.
fn is_imbalance_of(
    alloc: Global,
    components: &[Component],
    imbalance: &[Component],
) -> Result<bool, AllocError>
    ensures { IfOk result (λ is. is ≡ meant.is_imbalance_of components.now imbalance.now) }
{
    let one = has_one_measure(alloc, imbalance)?;
    let ours = identifiers(alloc, components)?;
    let theirs = identifiers(alloc, imbalance)?;
    let virals = virals_agree(alloc, components, imbalance)?;
    Ok(
        (one && (include(ours.as_slice(), theirs.as_slice())
            && include(theirs.as_slice(), ours.as_slice())))
            && virals,
    )
}

fn imbalance_belongs(
    alloc: Global,
    components: &[Component],
    others: &[Structure],
) -> Result<bool, AllocError>
    ensures { IfOk result (λ belongs. belongs ≡ meant.if_imbalance (meant.is_imbalance_of components.now) (on.imbalance_in others.now)) }
{
    match others {
        [] => Ok(true),
        [imbalance, ..] => is_imbalance_of(alloc, components, imbalance.components()),
    }
}

fn kinds_fit(
    alloc: Global,
    components: &[Component],
    others: &[Structure],
) -> Result<bool, AllocError>
    ensures { IfOk result (λ fit. fit ≡ (meant.told_fits components.now && meant.if_imbalance meant.is_numeric (on.imbalance_in others.now))) }
{
    let told = told_fits(alloc, components)?;
    let numeric = imbalance_is_numeric(alloc, others)?;
    Ok(told && numeric)
}

fn structures_fit(
    alloc: Global,
    components: &[Component],
    others: &[Structure],
) -> Result<bool, AllocError>
    ensures { IfOk result (λ fit. fit ≡ (meant.tells components.now && meant.if_imbalance (meant.is_imbalance_of components.now) (on.imbalance_in others.now))) }
{
    let tells = tells(alloc, components)?;
    let belongs = imbalance_belongs(alloc, components, others)?;
    Ok(tells && belongs)
}

fn check_demanded(
    alloc: Global,
    place: Place,
    components: &[Component],
    others: &[Structure],
) -> Result<(), TypeStop>
    ensures ok { IfOk result (λ met. own.check_demanded place components.now (on.imbalance_in others.now) ≡ Ok met) }
    ensures err { IfErr result (Refuses (own.check_demanded place components.now (on.imbalance_in others.now))) }
{
    let fit = kinds_fit(alloc, components, others)?;
    let meet = structures_fit(alloc, components, others)?;
    demands(
        place,
        &[(fit, Fault::WrongType), (meet, Fault::WrongStructure)],
    )
}

// ---- the result

/// A measure with a name that is written out.
fn measure_called(alloc: Global, kind: Kind, name: &str) -> Result<Component, AllocError>
    requires { list_all is_ascii name.now ≡ true }
    ensures { IfOk result (λ measure. measure ≡ after.made role.Measure kind name.now) }
{
    let name = Word::from_str(alloc, name)?;
    made_measure(kind, &name)
}

/// What a check says of a point, where the imbalance is of this kind. Or want of memory.
fn check_measures(alloc: Global, kind: Kind) -> Result<Items<Component>, AllocError>
    ensures { IfOk result (λ all. all ≡ meant.check_measures kind) }
{
    let told = measure_called(alloc, Kind::Truth, "bool_var")?;
    let imbalance = measure_called(alloc, kind, "imbalance")?;
    let code = measure_called(alloc, Kind::Text, "errorcode")?;
    let level = measure_called(alloc, Kind::Integer, "errorlevel")?;
    let mut all = Items::new(alloc);
    all.push(told)?;
    all.push(imbalance)?;
    all.push(code)?;
    all.push(level)?;
    Ok(all)
}

/// The kind of the imbalance. Or want of memory.
fn kind_of(alloc: Global, imbalance: &[Component]) -> Result<Kind, AllocError>
    ensures { IfOk result (λ own. own ≡ meant.imbalance_kind (Some imbalance.now)) }
{
    let measures = measures(alloc, imbalance)?;
    match measures.as_slice() {
        [] => Ok(Kind::Number),
        [measure, ..] => Ok(measure.kind),
    }
}

fn imbalance_kind(alloc: Global, others: &[Structure]) -> Result<Kind, AllocError>
    ensures { IfOk result (λ own. own ≡ meant.imbalance_kind (on.imbalance_in others.now)) }
{
    match others {
        [] => Ok(Kind::Number),
        [imbalance, ..] => kind_of(alloc, imbalance.components()),
    }
}

/// The viral attributes of both.
fn both_virals(
    alloc: Global,
    structure: &Structure,
    imbalance: &Structure,
) -> Result<Items<Component>, AllocError>
    ensures value { IfOk result (λ all. all ≡ meant.check_virals structure.now (Some imbalance.now)) }
    ensures sound { IfOk result (λ all. All (IsOf role.Viral) all) }
{
    let mut all = virals_of(alloc, structure)?;
    let more = more_virals(alloc, all.as_slice(), imbalance)?;
    all.append(more)?;
    Ok(all)
}

fn check_virals(
    alloc: Global,
    structure: &Structure,
    others: &[Structure],
) -> Result<Items<Component>, AllocError>
    ensures value { IfOk result (λ all. all ≡ meant.check_virals structure.now (on.imbalance_in others.now)) }
    ensures sound { IfOk result (λ all. All (IsOf role.Viral) all) }
{
    match others {
        [] => virals_of(alloc, structure),
        [imbalance, ..] => both_virals(alloc, structure, imbalance),
    }
}

/// The structure of the result.
fn check_structure(
    alloc: Global,
    place: Place,
    structure: &Structure,
    others: &[Structure],
) -> Result<Structure, TypeStop>
    ensures ok { IfOk result (λ made. own.check_structure place structure.now (on.imbalance_in others.now) ≡ Ok made) }
    ensures err { IfErr result (Refuses (own.check_structure place structure.now (on.imbalance_in others.now))) }
{
    let staying = identifiers_of(alloc, structure)?;
    let kind = imbalance_kind(alloc, others)?;
    let measures = check_measures(alloc, kind)?;
    let attributes = check_virals(alloc, structure, others)?;
    let all = by_parts(alloc, staying.as_slice(), measures, attributes)?;
    fitting(alloc, place, all.as_slice())
}

// ---- the operator

fn check_gives(
    alloc: Global,
    place: Place,
    structure: &Structure,
    others: &[Structure],
) -> Result<Structure, TypeStop>
    ensures ok { IfOk result (λ made. on.check_gives place structure.now (on.imbalance_in others.now) ≡ Ok made) }
    ensures err { IfErr result (Refuses (on.check_gives place structure.now (on.imbalance_in others.now))) }
{
    check_demanded(alloc, place, structure.components(), others)?;
    check_structure(alloc, place, structure, others)
}

fn at_most_one(structures: &[Structure]) -> bool
    ensures { result ≡ on.at_most_one structures.now }
{
    match structures {
        [] => true,
        [_] => true,
        [_, _, ..] => false,
    }
}

fn check_on_first(
    alloc: Global,
    place: Place,
    structure: &Structure,
    others: &[Structure],
) -> Result<Structure, TypeStop>
    ensures ok { IfOk result (λ made. on.check_on place (structure.now ∷ others.now) ≡ Ok made) }
    ensures err { IfErr result (Refuses (on.check_on place (structure.now ∷ others.now))) }
{
    demand(at_most_one(others), Fault::WrongStructure, place)?;
    check_gives(alloc, place, structure, others)
}

fn check_on(alloc: Global, place: Place, structures: &[Structure]) -> Result<Structure, TypeStop>
    ensures ok { IfOk result (λ made. on.check_on place structures.now ≡ Ok made) }
    ensures err { IfErr result (Refuses (on.check_on place structures.now)) }
{
    match structures {
        [] => Err(TypeStop::at(Fault::WrongStructure, place)),
        [structure, others @ ..] => check_on_first(alloc, place, structure, others),
    }
}

/// The structure of the result, where all operands are data sets.
fn check_planned(alloc: Global, place: Place, operands: &[Operand]) -> Result<Structure, TypeStop>
    ensures ok { IfOk result (λ made. own.check_planned place operands.now ≡ Ok made) }
    ensures err { IfErr result (Refuses (own.check_planned place operands.now)) }
{
    match all_structures(alloc, operands)? {
        Some(structures) => check_on(alloc, place, structures.as_slice()),
        None => Err(TypeStop::at(Fault::WrongStructure, place)),
    }
}

fn has_more(operands: &[Operand]) -> bool
    ensures { result ≡ own.has_more operands.now }
{
    match operands {
        [] => false,
        [_] => false,
        [_, _, ..] => true,
    }
}

/// `check(a errorcode .. errorlevel .. imbalance b output)` at its place, of the operands `a` and `b`, if there is one: the
/// identifiers of `a`, `bool_var`, `imbalance`, `errorcode`, `errorlevel`, and the viral attributes of both; all points where
/// no output is said. Or its first fault: `WrongStructure` where an operand is a scalar; else `WrongType` where a measure
/// `bool_var` of `a` is no boolean, or a measure of `b` isn't numeric; else `WrongStructure` where `bool_var` isn't the one
/// measure of `a`, or `b` has other identifiers, another number of measures than one, or a viral attribute of another code
/// list; else `NameTwice`, `TooManyComponents`. Or want of memory. It costs the square of the number of components.
pub fn check(
    alloc: Global,
    error: RuleError,
    output: Option<CheckOutput>,
    place: Place,
    operands: Items<Operand>,
) -> Result<Operand, TypeStop>
    ensures ok { IfOk result (λ o. on.check_typed error output place operands ≡ Ok o) }
    ensures err { IfErr result (Refuses (on.check_typed error output place operands)) }
{
    let structure = check_planned(alloc, place, operands.as_slice())?;
    let operator = DataSetOperator::Check(CheckedCheck {
        error,
        has_imbalance: has_more(operands.as_slice()),
        output: output.unwrap_or(CheckOutput::All),
    });
    Ok(applied(alloc, operator, place, operands, structure)?)
}
