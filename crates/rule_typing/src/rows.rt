// The components of rows, and those that stay in a hierarchy.
ghost use Rattle.std.specs.Prelude.{◌≡◌, ◌++◌, [], ◌∷◌, find, option_map, true, IfOk, OnOk};
ghost use Rattle.std.specs.Char.{is_ascii};
ghost use Rattle.std.specs.List.{list_all};
ghost use Rattle.vtl_values.specs.declared.kind.Kind.TheVariants.{Text};
ghost use Rattle.vtl_values.specs.declared.kind.Role.TheVariants.{Identifier, Measure, Viral};
ghost use Rattle.scalar_trees.specs.declared.typing.stop.Fault.TheVariants.{NameTwice, TooManyComponents};
ghost use Rattle.data_set_trees.specs.clauses.After as clauses;
ghost use Rattle.data_set_trees.specs.clauses.Frames as frames;
ghost use Rattle.data_set_trees.specs.aggregates.Aggregates as asked;
ghost use Rattle.data_set_trees.specs.aggregates.Results as results;
ghost use Rattle.data_set_trees.specs.rules.Rules as meant;
ghost use Rattle.data_set_trees.specs.rules.Datapoints as datapoints;
ghost use Rattle.data_set_trees.specs.rules.Hierarchies as hierarchies;

use crate::faults::first_unmet;
use clause_typing::{has_role, made};
use result_components::{has_room, names_differ, numbers_of, with_numbers};
use scalar_trees::typing::Fault;
use sqlite_items::Items;
use std::alloc::{AllocError, Global};
use vtl_syntax::words::RowsOutput;
use vtl_values::{Component, Kind, Role, Word};

/// The numbers of identifiers and viral attributes.
fn numbers_staying(alloc: Global, components: &[Component]) -> Result<Items<u64>, AllocError>
    ensures { IfOk result (λ numbers. numbers ≡ frames.numbers_of Identifier components.now ++ frames.numbers_of Viral components.now) }
{
    let mut numbers = numbers_of(alloc, Role::Identifier, components)?;
    numbers.append(numbers_of(alloc, Role::Viral, components)?)?;
    Ok(numbers)
}

/// The numbers of identifiers, measures and viral attributes.
fn numbers_with_measures(alloc: Global, components: &[Component]) -> Result<Items<u64>, AllocError>
    ensures { IfOk result (λ numbers. numbers ≡ (frames.numbers_of Identifier components.now ++ frames.numbers_of Measure components.now) ++ frames.numbers_of Viral components.now) }
{
    let mut numbers = numbers_of(alloc, Role::Identifier, components)?;
    numbers.append(numbers_of(alloc, Role::Measure, components)?)?;
    numbers.append(numbers_of(alloc, Role::Viral, components)?)?;
    Ok(numbers)
}

/// The numbers of the components that rows have of the data set.
fn kept_numbers(
    alloc: Global,
    output: RowsOutput,
    components: &[Component],
) -> Result<Items<u64>, AllocError>
    ensures { IfOk result (λ numbers. numbers ≡ datapoints.kept_numbers output components.now) }
{
    match output {
        RowsOutput::Invalid | RowsOutput::AllMeasures => numbers_with_measures(alloc, components),
        RowsOutput::All => numbers_staying(alloc, components),
    }
}

/// A component of a name that is written out.
fn component_named(
    alloc: Global,
    role: Role,
    kind: Kind,
    name: &str,
) -> Result<Component, AllocError>
    requires { list_all is_ascii name.now ≡ true }
    ensures { IfOk result (λ component. component ≡ clauses.made role kind name.now) }
{
    let name = Word::from_str(alloc, name)?;
    made(role, kind, &name)
}

/// Whether the rule holds, where all rows are given.
fn push_truth(
    alloc: Global,
    output: RowsOutput,
    rows: &mut Items<Component>,
) -> Result<(), AllocError>
    ensures { OnOk result (rows.new ≡ rows.old ++ datapoints.truth_components output) }
{
    match output {
        RowsOutput::Invalid => Ok(()),
        RowsOutput::All | RowsOutput::AllMeasures => {
            rows.push(component_named(alloc, Role::Measure, Kind::Truth, "bool_var")?)
        }
    }
}

/// What rows say of a broken rule.
fn push_error(alloc: Global, rows: &mut Items<Component>) -> Result<(), AllocError>
    ensures { OnOk result (rows.new ≡ rows.old ++ meant.error_components) }
{
    let code = component_named(alloc, Role::Measure, Kind::Text, "errorcode")?;
    let level = component_named(alloc, Role::Measure, Kind::Integer, "errorlevel")?;
    rows.push(code)?;
    rows.push(level)?;
    Ok(())
}

/// What rows have of the data set, the rule's name, and whether it holds.
fn rows_of_rules(
    alloc: Global,
    output: RowsOutput,
    components: &[Component],
) -> Result<Items<Component>, AllocError>
    ensures { IfOk result (λ rows. rows ≡ (results.with_numbers components.now (datapoints.kept_numbers output components.now) ++ clauses.made Identifier Text meant.RULE_ID ∷ []) ++ datapoints.truth_components output) }
{
    let numbers = kept_numbers(alloc, output, components)?;
    let mut rows = with_numbers(alloc, components, numbers.as_slice())?;
    rows.push(component_named(alloc, Role::Identifier, Kind::Text, "ruleid")?)?;
    push_truth(alloc, output, &mut rows)?;
    Ok(rows)
}

/// The components of the rows of `check_datapoint`, not yet by role.
pub(crate) fn point_rows(
    alloc: Global,
    output: RowsOutput,
    components: &[Component],
) -> Result<Items<Component>, AllocError>
    ensures { IfOk result (λ rows. rows ≡ datapoints.unordered output components.now) }
{
    let mut rows = rows_of_rules(alloc, output, components)?;
    push_error(alloc, &mut rows)?;
    Ok(rows)
}

fn first_measure_kind(components: &[Component]) -> Option<Kind>
    ensures { result ≡ option_map (λ c. c.kind) (find (frames.has_role Measure) components.now) }
{
    components
        .iter()
        .find(|component| has_role(Role::Measure, component))
        .map(|component| component.kind)
}

/// The kind of the measure.
fn measure_kind(components: &[Component]) -> Kind
    ensures { result ≡ hierarchies.measure_kind components.now }
{
    match first_measure_kind(components) {
        Some(kind) => kind,
        None => Kind::Number,
    }
}

/// The components of the rows of `check_hierarchy`, not yet by role.
pub(crate) fn hierarchy_rows(
    alloc: Global,
    output: RowsOutput,
    components: &[Component],
) -> Result<Items<Component>, AllocError>
    ensures { IfOk result (λ rows. rows ≡ hierarchies.rows output components.now) }
{
    let mut rows = rows_of_rules(alloc, output, components)?;
    let kind = measure_kind(components);
    rows.push(component_named(alloc, Role::Measure, kind, "imbalance")?)?;
    push_error(alloc, &mut rows)?;
    Ok(rows)
}

/// The first fault of what is asked of rows, or want of memory.
pub(crate) fn unmet_of_rows(alloc: Global, rows: &[Component]) -> Result<Option<Fault>, AllocError>
    ensures { IfOk result (λ fault. fault ≡ meant.first_fault (meant.unmet ((asked.names_differ rows.now, NameTwice) ∷ (asked.has_room rows.now, TooManyComponents) ∷ []))) }
{
    let apart = names_differ(alloc, rows)?;
    let room = has_room(rows);
    Ok(first_unmet(&[(apart, Fault::NameTwice), (room, Fault::TooManyComponents)]))
}
