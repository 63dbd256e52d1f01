// Uses of rulesets on one data set.
ghost use Rattle.std.specs.Prelude.{◌≡◌, Ok, IfOk, IfErr};
ghost use Rattle.std.specs.Option.{option_copied};
ghost use Rattle.vtl_values.specs.Structures.{IsStructure};
ghost use Rattle.data_set_trees.specs.rules.Datapoints as datapoints;
ghost use Rattle.data_set_trees.specs.rules.Hierarchies as hierarchies;
ghost use Rattle.data_set_trees.specs.declared.operand.Operand.TheVariants as operands;
ghost use Rattle.data_set_trees.specs.declared.tree.DataSetOperator.TheVariants as operator;
ghost use Rattle.expression_rules.specs.OnRules as meant;
ghost use Rattle.expression_rules.specs.OnSets as rules;
ghost use Rattle.statement_typing.specs.Parts.{Answers};

use crate::on_sets::set_of;
use data_set_parts::clauses::on_one;
use data_set_parts::results::plain;
use data_set_trees::rules::{CheckedDatapoint, CheckedHierarchy};
use data_set_trees::{DataSet, DataSetOperator, Operand};
use rule_typing::{computed_typed, datapoint_after, datapoint_typed, hierarchy_after, rows_typed};
use scalar_trees::typing::TypeStop;
use sqlite_items::Boxed;
use std::alloc::{AllocError, Global};
use vtl_syntax::words::{CheckInput, HierarchyInput, HierarchyOutput, Mode, RowsOutput};
use vtl_syntax::{DatapointRules, HierarchyRules, Ruleset};
use vtl_values::{Place, Word};

fn datapoint_at<'a>(name: &Word, own: &'a Ruleset) -> Option<&'a DatapointRules>
    ensures { option_copied result ≡ meant.datapoint_at name.now own.now }
{
    match own {
        Ruleset::Datapoint(rules) if *name == rules.name => Some(rules),
        _ => None,
    }
}

/// The datapoint ruleset of this name.
pub(crate) fn datapoint_called<'a>(
    rulesets: &'a [Ruleset],
    name: &Word,
) -> Option<&'a DatapointRules>
    ensures { option_copied result ≡ meant.datapoint_called rulesets.now name.now }
{
    for ruleset in rulesets {
        if let Some(rules) = datapoint_at(name, ruleset) {
            return Some(rules);
        }
    }
    None
}

fn hierarchy_at<'a>(name: &Word, own: &'a Ruleset) -> Option<&'a HierarchyRules>
    ensures { option_copied result ≡ meant.hierarchy_at name.now own.now }
{
    match own {
        Ruleset::Hierarchy(rules) if *name == rules.name => Some(rules),
        _ => None,
    }
}

/// The hierarchical ruleset of this name.
pub(crate) fn hierarchy_called<'a>(
    rulesets: &'a [Ruleset],
    name: &Word,
) -> Option<&'a HierarchyRules>
    ensures { option_copied result ≡ meant.hierarchy_called rulesets.now name.now }
{
    for ruleset in rulesets {
        if let Some(rules) = hierarchy_at(name, ruleset) {
            return Some(rules);
        }
    }
    None
}

/// The rules of a datapoint ruleset on a data set of which they give a structure.
fn with_datapoint(
    alloc: Global,
    datapoint: CheckedDatapoint,
    place: Place,
    set: DataSet,
) -> Result<Operand, AllocError>
    requires { IsStructure (datapoints.after datapoint set.structure) }
    ensures { IfOk result (λ o. o ≡ operands.DataSet (rules.with_operator (operator.Datapoint datapoint) (datapoints.after datapoint) place set)) }
{
    let after = datapoint_after(alloc, &datapoint, set.structure.components())?;
    let structure = plain(alloc, after.as_slice())?;
    let operator = DataSetOperator::Datapoint(datapoint);
    Ok(Operand::DataSet(on_one(alloc, operator, place, set, structure)?))
}

/// `check_datapoint(a, rules output)`
pub(crate) fn on_datapoint(
    alloc: Global,
    rules: &DatapointRules,
    output: Option<RowsOutput>,
    place: Place,
    operand: Operand,
) -> Result<Operand, TypeStop>
    ensures { Answers (meant.on_datapoint output place rules.now operand) result }
{
    let set = Boxed::new(alloc, set_of(place, operand)?)?;
    let datapoint = datapoint_typed(
        alloc,
        rules,
        output,
        place,
        set.get().structure.components(),
    )?;
    Ok(with_datapoint(alloc, datapoint, place, set.into_inner())?)
}

/// The rules of a hierarchical ruleset on a data set of which they give a structure.
fn with_hierarchy(
    alloc: Global,
    hierarchy: CheckedHierarchy,
    place: Place,
    set: DataSet,
) -> Result<Operand, AllocError>
    requires { IsStructure (hierarchies.after hierarchy set.structure) }
    ensures { IfOk result (λ o. o ≡ operands.DataSet (rules.with_operator (operator.Hierarchy hierarchy) (hierarchies.after hierarchy) place set)) }
{
    let after = hierarchy_after(alloc, &hierarchy, set.structure.components())?;
    let structure = plain(alloc, after.as_slice())?;
    let operator = DataSetOperator::Hierarchy(hierarchy);
    Ok(Operand::DataSet(on_one(alloc, operator, place, set, structure)?))
}

/// `hierarchy(a, rules rule c mode input output)`
pub(crate) fn on_hierarchy(
    alloc: Global,
    rules: &HierarchyRules,
    component: &Option<Word>,
    mode: Option<Mode>,
    input: Option<HierarchyInput>,
    output: Option<HierarchyOutput>,
    place: Place,
    operand: Operand,
) -> Result<Operand, TypeStop>
    ensures { Answers (meant.on_hierarchy component.now mode input output place rules.now operand) result }
{
    let set = Boxed::new(alloc, set_of(place, operand)?)?;
    let components = set.get().structure.components();
    let hierarchy = computed_typed(
        alloc, rules, component, mode, input, output, place, components,
    )?;
    Ok(with_hierarchy(alloc, hierarchy, place, set.into_inner())?)
}

/// `check_hierarchy(a, rules rule c mode input output)`
pub(crate) fn on_check_hierarchy(
    alloc: Global,
    rules: &HierarchyRules,
    component: &Option<Word>,
    mode: Option<Mode>,
    input: Option<CheckInput>,
    output: Option<RowsOutput>,
    place: Place,
    operand: Operand,
) -> Result<Operand, TypeStop>
    ensures { Answers (meant.on_check_hierarchy component.now mode input output place rules.now operand) result }
{
    let set = Boxed::new(alloc, set_of(place, operand)?)?;
    let components = set.get().structure.components();
    let hierarchy = rows_typed(
        alloc, rules, component, mode, input, output, place, components,
    )?;
    Ok(with_hierarchy(alloc, hierarchy, place, set.into_inner())?)
}
