// Rulesets in which expressions become others.
ghost use Rattle.std.specs.Prelude.{◌≡◌, map, IfOk};
ghost use Rattle.std.specs.Option.{option_map};
ghost use Rattle.replaced_calls.specs.Scripts.{datapoint_with, hierarchy_with, ruleset_with};
ghost use Rattle.defined_operators.specs.Writers.{writes};

use crate::copies::{copy_fault, copy_optional_variables, copy_signed_names, copy_variables};
use crate::writer::Writer;
use sqlite_items::Items;
use std::alloc::{AllocError, Global};
use tree_copies::copy_optional_word;
use vtl_syntax::{DatapointRule, DatapointRules, Expr, HierarchyRule, HierarchyRules, Ruleset};

impl Writer<'_> {
    fn condition(&self, alloc: Global, tree: &Option<Expr>) -> Result<Option<Expr>, AllocError>
        ensures { IfOk result (λ made. made ≡ option_map (writes self.now) tree.now) }
    {
        match tree {
            Some(tree) => Ok(Some(self.write(alloc, tree)?)),
            None => Ok(None),
        }
    }

    // The expressions come last, so that nothing that may fail has them to drop.
    fn datapoint(&self, alloc: Global, rule: &DatapointRule) -> Result<DatapointRule, AllocError>
        ensures { IfOk result (λ made. made ≡ datapoint_with (writes self.now) rule.now) }
    {
        let name = copy_optional_word(&rule.name)?;
        let fault = copy_fault(&rule.fault)?;
        let condition = self.condition(alloc, &rule.condition)?;
        Ok(DatapointRule {
            name,
            condition,
            expr: self.write(alloc, &rule.expr)?,
            fault,
            place: rule.place,
        })
    }

    fn datapoints(
        &self,
        alloc: Global,
        rules: &[DatapointRule],
    ) -> Result<Items<DatapointRule>, AllocError>
        ensures { IfOk result (λ made. made ≡ map (datapoint_with (writes self.now)) rules.now) }
    {
        let mut made = Items::new(alloc);
        for rule in rules {
            made.push(self.datapoint(alloc, rule)?)?;
        }
        Ok(made)
    }

    fn hierarchy(&self, alloc: Global, rule: &HierarchyRule) -> Result<HierarchyRule, AllocError>
        ensures { IfOk result (λ made. made ≡ hierarchy_with (writes self.now) rule.now) }
    {
        let name = copy_optional_word(&rule.name)?;
        let left = rule.left.copy()?;
        let first = rule.first.copy()?;
        let others = copy_signed_names(alloc, rule.others.as_slice())?;
        let fault = copy_fault(&rule.fault)?;
        Ok(HierarchyRule {
            name,
            condition: self.condition(alloc, &rule.condition)?,
            left,
            relation: rule.relation,
            sign: rule.sign,
            first,
            others,
            fault,
            place: rule.place,
        })
    }

    fn hierarchies(
        &self,
        alloc: Global,
        rules: &[HierarchyRule],
    ) -> Result<Items<HierarchyRule>, AllocError>
        ensures { IfOk result (λ made. made ≡ map (hierarchy_with (writes self.now)) rules.now) }
    {
        let mut made = Items::new(alloc);
        for rule in rules {
            made.push(self.hierarchy(alloc, rule)?)?;
        }
        Ok(made)
    }

    fn ruleset(&self, alloc: Global, tree: &Ruleset) -> Result<Ruleset, AllocError>
        ensures { IfOk result (λ made. made ≡ ruleset_with (writes self.now) tree.now) }
    {
        match tree {
            Ruleset::Datapoint(of) => Ok(Ruleset::Datapoint(DatapointRules {
                name: of.name.copy()?,
                variables: copy_variables(alloc, of.variables.as_slice())?,
                rules: self.datapoints(alloc, of.rules.as_slice())?,
                place: of.place,
            })),
            Ruleset::Hierarchy(of) => Ok(Ruleset::Hierarchy(HierarchyRules {
                name: of.name.copy()?,
                variables: copy_optional_variables(alloc, &of.variables)?,
                component: of.component.copy()?,
                rules: self.hierarchies(alloc, of.rules.as_slice())?,
                place: of.place,
            })),
        }
    }

    /// The rulesets with their expressions written.
    pub(crate) fn rulesets(
        &self,
        alloc: Global,
        rulesets: &[Ruleset],
    ) -> Result<Items<Ruleset>, AllocError>
        ensures { IfOk result (λ made. made ≡ map (ruleset_with (writes self.now)) rulesets.now) }
    {
        let mut made = Items::new(alloc);
        for tree in rulesets {
            made.push(self.ruleset(alloc, tree)?)?;
        }
        Ok(made)
    }
}
