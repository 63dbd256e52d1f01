// `hierarchy` and `check_hierarchy`.
ghost use Rattle.std.specs.Prelude.{◌≡◌, Ok, IfOk, IfErr};
ghost use Rattle.vtl_values.specs.Structures.{IsStructure};
ghost use Rattle.scalar_trees.specs.typing.Steps.{Refuses};
ghost use Rattle.data_set_trees.specs.rules.Rules as told;
ghost use Rattle.data_set_trees.specs.rules.Hierarchies as meant;

use crate::content::content_typed;
use crate::rows::{hierarchy_rows, unmet_of_rows};
use data_set_trees::rules::CheckedHierarchy;
use result_components::{by_role, without_attributes};
use scalar_trees::typing::{Fault, TypeStop};
use sqlite_items::Items;
use std::alloc::{AllocError, Global};
use vtl_syntax::ruleset::HierarchyRules;
use vtl_syntax::words::{CheckInput, HierarchyInput, HierarchyOutput, Mode, RowsOutput};
use vtl_values::{Component, Place, Word};

/// `hierarchy` by a ruleset on a data set of these components, whose items are in the component that is stated, or else in
/// the ruleset's. Without a word the mode is `non_null`, the input `rule` and the output `computed`. `UnknownComponent`
/// where the rule component or a variable is no component, else the first in the order of faults of those of the
/// conditions, of which each has its first one, of `WrongType` where a measure is not numeric or the rule component no
/// string, of `WrongStructure` where there is another number of measures than one, and of `WrongRole` where the rule
/// component is no identifier, or a variable is none or is the rule component; or want of memory. It costs what the
/// conditions do, and the number of variables times that of components.
pub fn computed_typed(
    alloc: Global,
    rules: &HierarchyRules,
    component: &Option<Word>,
    mode: Option<Mode>,
    input: Option<HierarchyInput>,
    output: Option<HierarchyOutput>,
    place: Place,
    components: &[Component],
) -> Result<CheckedHierarchy, TypeStop>
    ensures ok { IfOk result (λ checked. meant.computed_checked rules.now component.now mode input output place components.now ≡ Ok checked) }
    ensures err { IfErr result (Refuses (meant.computed_checked rules.now component.now mode input output place components.now)) }
    ensures structure { IsStructure components.now → IfOk result (λ checked. IsStructure (meant.after checked components.now)) }
{
    let content = content_typed(alloc, rules, component, mode, None, place, components)?;
    Ok(CheckedHierarchy::Computed {
        content,
        input: input.unwrap_or(HierarchyInput::Rule),
        output: output.unwrap_or(HierarchyOutput::Computed),
    })
}

fn fault_of_rows(
    alloc: Global,
    output: RowsOutput,
    components: &[Component],
) -> Result<Option<Fault>, AllocError>
    ensures { IfOk result (λ fault. fault ≡ told.first_fault (told.unmet (meant.rows_demanded output components.now))) }
{
    let rows = hierarchy_rows(alloc, output, components)?;
    unmet_of_rows(alloc, rows.as_slice())
}

/// `check_hierarchy` by a ruleset on a data set of these components, whose items are in the component that is stated, or
/// else in the ruleset's. Without a word the mode is `non_null`, the input `dataset` and the output `invalid`. It is
/// refused as `computed_typed` refuses, and beside that with `NameTwice` where a component of the rows has the name of one
/// that stays, and `TooManyComponents` where the rows would have more than 64. It costs as much.
pub fn rows_typed(
    alloc: Global,
    rules: &HierarchyRules,
    component: &Option<Word>,
    mode: Option<Mode>,
    input: Option<CheckInput>,
    output: Option<RowsOutput>,
    place: Place,
    components: &[Component],
) -> Result<CheckedHierarchy, TypeStop>
    ensures ok { IfOk result (λ checked. meant.checked_checked rules.now component.now mode input output place components.now ≡ Ok checked) }
    ensures err { IfErr result (Refuses (meant.checked_checked rules.now component.now mode input output place components.now)) }
    ensures structure { IsStructure components.now → IfOk result (λ checked. IsStructure (meant.after checked components.now)) }
{
    let output = output.unwrap_or(RowsOutput::Invalid);
    let further = fault_of_rows(alloc, output, components)?;
    let content = content_typed(alloc, rules, component, mode, further, place, components)?;
    Ok(CheckedHierarchy::Checked {
        content,
        input: input.unwrap_or(CheckInput::Dataset),
        output,
    })
}

/// The components that a checked hierarchy gives of those of its operand, or want of memory: all but plain attributes, or
/// those of its rows. It costs their number.
pub fn hierarchy_after(
    alloc: Global,
    hierarchy: &CheckedHierarchy,
    components: &[Component],
) -> Result<Items<Component>, AllocError>
    ensures { IfOk result (λ after. after ≡ meant.after hierarchy.now components.now) }
{
    match hierarchy {
        CheckedHierarchy::Computed { .. } => without_attributes(alloc, components),
        CheckedHierarchy::Checked { output, .. } => {
            let rows = hierarchy_rows(alloc, *output, components)?;
            by_role(alloc, rows.as_slice())
        }
    }
}
