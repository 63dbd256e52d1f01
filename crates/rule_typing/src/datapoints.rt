// `check_datapoint`.
ghost use Rattle.std.specs.Prelude.{◌≡◌, [], ◌∷◌, unwrap_or, Ok, IfOk, IfErr};
ghost use Rattle.vtl_values.specs.Structures.{IsStructure};
ghost use Rattle.scalar_trees.specs.typing.Steps.{Refuses};
ghost use Rattle.scalar_trees.specs.declared.typing.stop.Fault.TheVariants.{NameTwice, TooManyComponents};
ghost use Rattle.data_set_trees.specs.aggregates.Aggregates as asked;
ghost use Rattle.data_set_trees.specs.rules.Rules as told;
ghost use Rattle.data_set_trees.specs.rules.Datapoints as meant;

use crate::faults::{earlier, unless_faulty};
use crate::names::{are_known, scope_of_rules};
use crate::point_rules::rules_checked;
use crate::rows::{point_rows, unmet_of_rows};
use clause_typing::frame_of;
use data_set_trees::rules::CheckedDatapoint;
use result_components::by_role;
use scalar_trees::typing::{Fault, TypeStop, demand};
use sqlite_items::Items;
use std::alloc::{AllocError, Global};
use vtl_syntax::ruleset::DatapointRules;
use vtl_syntax::words::RowsOutput;
use vtl_values::{Component, Place};

fn fault_of_rows(
    alloc: Global,
    output: RowsOutput,
    components: &[Component],
) -> Result<Option<Fault>, AllocError>
    ensures { IfOk result (λ fault. fault ≡ told.first_fault (told.unmet ((asked.names_differ (meant.unordered output components.now), NameTwice) ∷ (asked.has_room (meant.unordered output components.now), TooManyComponents) ∷ []))) }
{
    let rows = point_rows(alloc, output, components)?;
    unmet_of_rows(alloc, rows.as_slice())
}

/// `check_datapoint` by a ruleset on a data set of these components, with the output that is stated, or else `invalid`;
/// `UnknownComponent` where a variable is no component, else the first in the order of faults of those of the rules'
/// expressions, of which each has its first one, of `NameTwice` where a component of the rows has the name of one that
/// stays, and of `TooManyComponents` where the rows would have more than 64; or want of memory. Conditions and values are
/// booleans. It costs what the expressions do, and the number of variables times that of components.
pub fn datapoint_typed(
    alloc: Global,
    rules: &DatapointRules,
    output: Option<RowsOutput>,
    place: Place,
    components: &[Component],
) -> Result<CheckedDatapoint, TypeStop>
    ensures ok { IfOk result (λ checked. meant.datapoint_checked rules.now output place components.now ≡ Ok checked) }
    ensures err { IfErr result (Refuses (meant.datapoint_checked rules.now output place components.now)) }
    ensures structure { IsStructure components.now → IfOk result (λ checked. IsStructure (meant.after checked components.now)) }
{
    let output = output.unwrap_or(RowsOutput::Invalid);
    let variables = rules.variables.as_slice();
    let frame = frame_of(alloc, components)?;
    demand(are_known(&frame, variables), Fault::UnknownComponent, place)?;
    let of_rows = fault_of_rows(alloc, output, components)?;
    let scope = scope_of_rules(alloc, &frame, variables)?;
    let (checked, of_rules) = rules_checked(alloc, &scope, place, rules.rules.as_slice())?;
    unless_faulty(place, earlier(of_rules, of_rows))?;
    Ok(CheckedDatapoint {
        rules: checked,
        output,
    })
}

/// The components of the rows that a checked `check_datapoint` gives on a data set of these components, or want of memory.
/// It costs their number.
pub fn datapoint_after(
    alloc: Global,
    datapoint: &CheckedDatapoint,
    components: &[Component],
) -> Result<Items<Component>, AllocError>
    ensures { IfOk result (λ after. after ≡ meant.after datapoint.now components.now) }
{
    let rows = point_rows(alloc, datapoint.output, components)?;
    by_role(alloc, rows.as_slice())
}
