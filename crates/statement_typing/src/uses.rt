// Uses of rulesets, with the expression that they stand on.
ghost use Rattle.std.specs.Prelude.{◌≡◌, ◌<◌, Ok, IfOk, IfErr};
ghost use Rattle.vtl_syntax.specs.declared.expr.Expr.{size-Expr};
ghost use Rattle.scalar_trees.specs.declared.typing.stop.Fault.TheVariants.{UnknownComponent};
ghost use Rattle.scalar_trees.specs.typing.Steps.{Refuses, or_refused};
ghost use Rattle.expression_rules.specs.OnRules as rules;
ghost use Rattle.statement_typing.specs.Names.{naming_of};
ghost use Rattle.statement_typing.specs.Parts.{Answers, TypesParts, after_one};

use crate::checker::Checker;
use crate::names::Names;
use crate::on_rules::{
    datapoint_called, hierarchy_called, on_check_hierarchy, on_datapoint, on_hierarchy,
};
use data_set_trees::Operand;
use scalar_trees::typing::{Fault, TypeStop};
use sqlite_items::Boxed;
use std::alloc::Global;
use vtl_syntax::words::{CheckInput, HierarchyInput, HierarchyOutput, Mode, RowsOutput};
use vtl_syntax::{DatapointRules, Expr, HierarchyRules};
use vtl_values::{Place, Word};

/// The datapoint ruleset of this name. There is one where the names of the script have no fault.
fn datapoint_of<'a>(
    names: &Names<'a>,
    name: &Word,
    place: Place,
) -> Result<&'a DatapointRules, TypeStop>
    ensures ok { IfOk result (λ found. or_refused (rules.datapoint_called (naming_of names.now).rulesets name.now) UnknownComponent place ≡ Ok found.now) }
    ensures err { IfErr result (Refuses (or_refused (rules.datapoint_called (naming_of names.now).rulesets name.now) UnknownComponent place)) }
{
    match datapoint_called(names.rulesets(), name) {
        Some(rules) => Ok(rules),
        None => Err(TypeStop::at(Fault::UnknownComponent, place)),
    }
}

/// The hierarchical ruleset of this name. There is one where the names of the script have no fault.
fn hierarchy_of<'a>(
    names: &Names<'a>,
    name: &Word,
    place: Place,
) -> Result<&'a HierarchyRules, TypeStop>
    ensures ok { IfOk result (λ found. or_refused (rules.hierarchy_called (naming_of names.now).rulesets name.now) UnknownComponent place ≡ Ok found.now) }
    ensures err { IfErr result (Refuses (or_refused (rules.hierarchy_called (naming_of names.now).rulesets name.now) UnknownComponent place)) }
{
    match hierarchy_called(names.rulesets(), name) {
        Some(rules) => Ok(rules),
        None => Err(TypeStop::at(Fault::UnknownComponent, place)),
    }
}

impl<F: Fn(Global, &Names<'_>, &Expr) -> Result<Operand, TypeStop> + Copy> Checker<'_, '_, F> {
    /// `check_datapoint(a, rules output)`
    pub(crate) fn check_datapoint(
        &self,
        operand: &Boxed<Expr>,
        name: &Word,
        name_place: Place,
        output: Option<RowsOutput>,
        place: Place,
    ) -> Result<Operand, TypeStop>
        requires types { TypesParts self.now.tree.now self.now.names (F.pre self.now.expression self.now.alloc) (F.post self.now.expression self.now.alloc) }
        requires inside { size-Expr operand.now < size-Expr self.now.tree.now }
        ensures { Answers (rules.with_ruleset (rules.datapoint_called (naming_of self.now.names.now).rulesets name.now) name_place (λ r. after_one (naming_of self.now.names.now) operand.now (rules.on_datapoint output place r))) result }
    {
        let rules = datapoint_of(self.names, name, name_place)?;
        let operand = self.part(operand)?;
        on_datapoint(self.alloc, rules, output, place, operand)
    }

    /// `hierarchy(a, rules rule c mode input output)`
    pub(crate) fn hierarchy(
        &self,
        operand: &Boxed<Expr>,
        name: &Word,
        name_place: Place,
        component: &Option<Word>,
        mode: Option<Mode>,
        input: Option<HierarchyInput>,
        output: Option<HierarchyOutput>,
        place: Place,
    ) -> Result<Operand, TypeStop>
        requires types { TypesParts self.now.tree.now self.now.names (F.pre self.now.expression self.now.alloc) (F.post self.now.expression self.now.alloc) }
        requires inside { size-Expr operand.now < size-Expr self.now.tree.now }
        ensures { Answers (rules.with_ruleset (rules.hierarchy_called (naming_of self.now.names.now).rulesets name.now) name_place (λ r. after_one (naming_of self.now.names.now) operand.now (rules.on_hierarchy component.now mode input output place r))) result }
    {
        let rules = hierarchy_of(self.names, name, name_place)?;
        let operand = self.part(operand)?;
        on_hierarchy(
            self.alloc, rules, component, mode, input, output, place, operand,
        )
    }

    /// `check_hierarchy(a, rules rule c mode input output)`
    pub(crate) fn check_hierarchy(
        &self,
        operand: &Boxed<Expr>,
        name: &Word,
        name_place: Place,
        component: &Option<Word>,
        mode: Option<Mode>,
        input: Option<CheckInput>,
        output: Option<RowsOutput>,
        place: Place,
    ) -> Result<Operand, TypeStop>
        requires types { TypesParts self.now.tree.now self.now.names (F.pre self.now.expression self.now.alloc) (F.post self.now.expression self.now.alloc) }
        requires inside { size-Expr operand.now < size-Expr self.now.tree.now }
        ensures { Answers (rules.with_ruleset (rules.hierarchy_called (naming_of self.now.names.now).rulesets name.now) name_place (λ r. after_one (naming_of self.now.names.now) operand.now (rules.on_check_hierarchy component.now mode input output place r))) result }
    {
        let rules = hierarchy_of(self.names, name, name_place)?;
        let operand = self.part(operand)?;
        on_check_hierarchy(
            self.alloc, rules, component, mode, input, output, place, operand,
        )
    }
}
