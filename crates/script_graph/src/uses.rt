// Which statements use the results of which.
ghost use Rattle.std.specs.Prelude.{◌≡◌, map, true, ⊤};
ghost use Rattle.std.specs.List.{flat_map};
ghost use Rattle.script_graph.specs.Mentions.{of_statement, of_ruleset, of_datapoint, of_hierarchy, of_condition, mentions};
ghost use Rattle.script_graph.specs.Scopes.{Answers, first_unknown, uses};
ghost use Rattle.script_graph.specs.ScopeViews.{names_in};
ghost use Rattle.script_graph.specs.Faults.{uses_in};

use crate::fault::GraphStop;
use crate::scope::Scope;
use shortest_cycles::Graph;
use sqlite_items::Items;
use std::alloc::Global;
use vtl_syntax::{DatapointRule, Expr, HierarchyRule, Ruleset, Statement};

impl Scope<'_> {
    /// For each statement those whose results it uses, in the order in which it mentions them, or the first name that
    /// stands for nothing.
    pub(crate) fn graph_of(
        &self,
        alloc: Global,
        statements: &[Statement],
    ) -> Result<Graph, GraphStop>
        ensures { Answers (first_unknown (names_in self.now) (flat_map of_statement statements.now)) (λ graph. graph ≡ map (uses_in (names_in self.now)) statements.now) result }
    {
        let mut graph = Items::new(alloc);
        for statement in statements {
            let mut uses = Items::new(alloc);
            self.put_expr(&statement.expr, false, &mut uses)?;
            graph.push(uses)?;
        }
        Ok(graph)
    }

    /// Whether the names in rulesets stand for something, or the first that doesn't.
    pub(crate) fn want_rulesets(&self, alloc: Global, rulesets: &[Ruleset]) -> Result<(), GraphStop>
        ensures { Answers (first_unknown (names_in self.now) (flat_map of_ruleset rulesets.now)) (λ _. ⊤) result }
    {
        for ruleset in rulesets {
            self.want_ruleset_names(alloc, ruleset)?;
        }
        Ok(())
    }

    fn want_ruleset_names(&self, alloc: Global, rules: &Ruleset) -> Result<(), GraphStop>
        ensures { Answers (first_unknown (names_in self.now) (of_ruleset rules.now)) (λ _. ⊤) result }
    {
        match rules {
            Ruleset::Datapoint(rules) => self.want_datapoint(alloc, rules.rules.as_slice()),
            Ruleset::Hierarchy(rules) => self.want_hierarchy(alloc, rules.rules.as_slice()),
        }
    }

    fn want_datapoint(&self, alloc: Global, rules: &[DatapointRule]) -> Result<(), GraphStop>
        ensures { Answers (first_unknown (names_in self.now) (flat_map of_datapoint rules.now)) (λ _. ⊤) result }
    {
        for rule in rules {
            self.want_rule(alloc, rule)?;
        }
        Ok(())
    }

    fn want_rule(&self, alloc: Global, rule: &DatapointRule) -> Result<(), GraphStop>
        ensures { Answers (first_unknown (names_in self.now) (of_datapoint rule.now)) (λ _. ⊤) result }
    {
        self.want_condition(alloc, &rule.condition)?;
        self.want_expr(alloc, &rule.expr)
    }

    fn want_hierarchy(&self, alloc: Global, rules: &[HierarchyRule]) -> Result<(), GraphStop>
        ensures { Answers (first_unknown (names_in self.now) (flat_map of_hierarchy rules.now)) (λ _. ⊤) result }
    {
        for rule in rules {
            self.want_condition(alloc, &rule.condition)?;
        }
        Ok(())
    }

    fn want_condition(&self, alloc: Global, condition: &Option<Expr>) -> Result<(), GraphStop>
        ensures { Answers (first_unknown (names_in self.now) (of_condition condition.now)) (λ _. ⊤) result }
    {
        match condition {
            Some(condition) => self.want_expr(alloc, condition),
            None => Ok(()),
        }
    }

    /// Whether the names in an expression of a rule stand for something.
    fn want_expr(&self, alloc: Global, tree: &Expr) -> Result<(), GraphStop>
        ensures { Answers (first_unknown (names_in self.now) (mentions tree.now true)) (λ _. ⊤) result }
    {
        // Inside a rule no name is that of a statement's result.
        let mut uses = Items::new(alloc);
        self.put_expr(tree, true, &mut uses)
    }
}
