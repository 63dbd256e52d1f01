// What both uses of a hierarchical ruleset have.
ghost use Rattle.std.specs.Prelude.{◌≡◌, [], ◌∷◌, count_by, unwrap_or, Ok, IfOk, IfErr};
ghost use Rattle.std.specs.List.{list_all};
ghost use Rattle.vtl_values.specs.declared.kind.Kind.TheVariants.{Text};
ghost use Rattle.vtl_values.specs.declared.kind.Role.TheVariants.{Identifier, Measure};
ghost use Rattle.scalar_trees.specs.WellTyped as kinds_of_values;
ghost use Rattle.scalar_trees.specs.declared.typing.stop.Fault.TheVariants.{UnknownComponent, WrongType, WrongStructure, WrongRole};
ghost use Rattle.scalar_trees.specs.typing.Steps.{Refuses, or_refused};
ghost use Rattle.data_set_trees.specs.clauses.Clauses as clauses;
ghost use Rattle.data_set_trees.specs.clauses.Frames as frames;
ghost use Rattle.data_set_trees.specs.rules.Rules as told;
ghost use Rattle.data_set_trees.specs.rules.Hierarchies as meant;
ghost use Rattle.rule_typing.specs.Content as parts;
ghost use Rattle.rule_typing.specs.Named as named;

use crate::faults::{earlier, first_unmet, unless_faulty};
use crate::item_rules::rules_checked;
use crate::names::{are_known, scope_of_rules};
use clause_typing::{bare_number_of, frame_of, has_role};
use data_set_trees::clauses::Frame;
use data_set_trees::rules::HierarchyContent;
use result_components::are_numeric;
use scalar_trees::typing::{Fault, TypeStop, demand};
use std::alloc::Global;
use vtl_syntax::ruleset::{HierarchyRules, Variable};
use vtl_syntax::words::Mode;
use vtl_values::{Component, Kind, Place, Role, Word};

/// The variables of a hierarchical ruleset's conditions.
pub fn variables_of(rules: &HierarchyRules) -> &[Variable]
    ensures { result.now ≡ meant.variables_of rules.now }
{
    match &rules.variables {
        Some(variables) => variables.as_slice(),
        None => &[],
    }
}

/// What the rule component is called: as the call says, or else as the ruleset does.
fn item_name<'a>(rules: &'a HierarchyRules, stated: &'a Option<Word>) -> &'a Word
    ensures { result.now ≡ unwrap_or stated.now rules.now.component }
{
    match stated {
        Some(name) => name,
        None => &rules.component,
    }
}

/// The number of the component of this name; `UnknownComponent` where there is none.
fn number_called(frame: &Frame, name: &Word, place: Place) -> Result<u64, TypeStop>
    ensures ok { IfOk result (λ number. or_refused (clauses.bare_number_of frame.now name.now) UnknownComponent place ≡ Ok number) }
    ensures err { IfErr result (Refuses (or_refused (clauses.bare_number_of frame.now name.now) UnknownComponent place)) }
{
    match bare_number_of(frame, name) {
        Some(number) => Ok(number),
        None => Err(TypeStop::at(Fault::UnknownComponent, place)),
    }
}

fn measure_count(components: &[Component]) -> usize
    ensures { result ≡ count_by (frames.has_role Measure) components.now }
{
    components
        .iter()
        .filter(|component| has_role(Role::Measure, component))
        .count()
}

fn has_one_measure(components: &[Component]) -> bool
    ensures { result ≡ meant.has_one_measure components.now }
{
    measure_count(components) == 1
}

fn is_text(kind: Kind) -> bool
    ensures { result ≡ kinds_of_values.is_kind kind Text }
{
    kind == Kind::Text
}

/// Whether the component with this number is a string.
fn is_text_at(components: &[Component], number: u64) -> bool
    ensures { result ≡ meant.passes (λ c. kinds_of_values.is_kind c.kind Text) components.now number }
{
    match components.get(number as usize) {
        Some(component) => is_text(component.kind),
        None => false,
    }
}

/// Whether the component with this number is an identifier.
fn is_identifier_at(components: &[Component], number: u64) -> bool
    ensures { result ≡ meant.passes (frames.has_role Identifier) components.now number }
{
    match components.get(number as usize) {
        Some(component) => has_role(Role::Identifier, component),
        None => false,
    }
}

/// Whether a condition may go by the variable: an identifier other than the rule component.
fn may_condition(frame: &Frame, item: u64, variable: &Variable) -> bool
    ensures { result ≡ named.conditions_on frame.now item variable.now }
{
    match bare_number_of(frame, &variable.name) {
        Some(number) => { is_identifier_at(frame.components.as_slice(), number) && number != item }
        None => false,
    }
}

fn may_all_condition(frame: &Frame, item: u64, variables: &[Variable]) -> bool
    ensures { result ≡ list_all (named.conditions_on frame.now item) variables.now }
{
    variables
        .iter()
        .all(|variable| may_condition(frame, item, variable))
}

/// The first fault of what a use asks of the data set, whose rule component has this number.
fn unmet_of_use(
    frame: &Frame,
    item: u64,
    variables: &[Variable],
    components: &[Component],
) -> Option<Fault>
    requires { frame.now ≡ frames.frame_of components.now }
    ensures { (rules : HierarchyRules) → meant.variables_of rules ≡ variables.now → result ≡ told.first_fault (told.unmet (meant.demands_of rules item components.now)) }
{
    let numeric = are_numeric(components) && is_text_at(components, item);
    let single = has_one_measure(components);
    let fit = is_identifier_at(components, item) && may_all_condition(frame, item, variables);
    first_unmet(&[
        (numeric, Fault::WrongType),
        (single, Fault::WrongStructure),
        (fit, Fault::WrongRole),
    ])
}

/// The content of a use with the first further fault that it has, if there is one; `UnknownComponent` where the rule
/// component or a variable is no component, else the first in the order of faults of those of the conditions, of what is
/// asked of the data set and of the further one, or want of memory.
pub(crate) fn content_typed(
    alloc: Global,
    rules: &HierarchyRules,
    stated: &Option<Word>,
    mode: Option<Mode>,
    further: Option<Fault>,
    place: Place,
    components: &[Component],
) -> Result<HierarchyContent, TypeStop>
    ensures ok { IfOk result (λ content. parts.content_checked rules.now stated.now mode further place components.now ≡ Ok content) }
    ensures err { IfErr result (Refuses (parts.content_checked rules.now stated.now mode further place components.now)) }
{
    let frame = frame_of(alloc, components)?;
    let component = number_called(&frame, item_name(rules, stated), place)?;
    let variables = variables_of(rules);
    demand(are_known(&frame, variables), Fault::UnknownComponent, place)?;
    let unmet = unmet_of_use(&frame, component, variables, components);
    let scope = scope_of_rules(alloc, &frame, variables)?;
    let (checked, of_rules) = rules_checked(alloc, &scope, place, rules.rules.as_slice())?;
    unless_faulty(place, earlier(of_rules, earlier(unmet, further)))?;
    Ok(HierarchyContent {
        component,
        rules: checked,
        mode: mode.unwrap_or(Mode::NonNull),
    })
}
