// The uses that an expression mentions.
ghost use Rattle.std.specs.Prelude.{◌++◌, ◌∷◌, [], true};
ghost use Rattle.script_graph.specs.Mentions as said;
ghost use Rattle.script_graph.specs.Scopes.{PutsUses};
ghost use Rattle.script_graph.specs.ScopeViews.{names_in};

use crate::fault::GraphStop;
use crate::scope::Scope;
use crate::sort::NameSort;
use sqlite_items::{Boxed, Items};
use vtl_syntax::{Clause, Expr, Groups, Item, JoinOperand, SubstrRange};
use vtl_values::{Place, Word};

impl Scope<'_> {
    /// Puts the statements whose results the expression mentions, in the order of the text, or tells the first name that
    /// stands for nothing. Inside of clauses, rules and `having` names are those of components.
    #[cycle(walk)]
    pub(crate) fn put_expr(
        &self,
        tree: &Expr,
        inside: bool,
        uses: &mut Items<usize>,
    ) -> Result<(), GraphStop>
        ensures { PutsUses (names_in self.now) (said.mentions tree.now inside) uses.old uses.new result }
    {
        match tree {
            Expr::If {
                condition,
                holds,
                fails,
                ..
            } => self.put_three(condition.get(), holds.get(), fails.get(), inside, uses),
            Expr::Or { left, right, .. } => self.put_both(left.get(), right.get(), inside, uses),
            Expr::And { left, right, .. } => self.put_both(left.get(), right.get(), inside, uses),
            Expr::Compare { left, right, .. } => {
                self.put_both(left.get(), right.get(), inside, uses)
            }
            Expr::In { left, .. } => self.put_expr(left.get(), inside, uses),
            Expr::Sum { left, right, .. } => self.put_both(left.get(), right.get(), inside, uses),
            Expr::Product { left, right, .. } => {
                self.put_both(left.get(), right.get(), inside, uses)
            }
            Expr::Signed { operand, .. } => self.put_expr(operand.get(), inside, uses),
            Expr::Member { operand, .. } => self.put_expr(operand.get(), inside, uses),
            Expr::Clause {
                operand,
                clause,
                ..
            } => self.put_with_clause(operand.get(), clause.get(), inside, uses),
            Expr::Literal { .. } => Ok(()),
            Expr::Name { name, place } => self.put_name(name, *place, inside, uses),
            Expr::Bracket { inner, .. } => self.put_expr(inner.get(), inside, uses),
            Expr::Unary { operand, .. } => self.put_expr(operand.get(), inside, uses),
            Expr::Round { operand, .. } => self.put_expr(operand.get(), inside, uses),
            Expr::Binary { left, right, .. } => {
                self.put_both(left.get(), right.get(), inside, uses)
            }
            Expr::Between { operand, .. } => self.put_expr(operand.get(), inside, uses),
            Expr::MatchCharacters { operand, .. } => self.put_expr(operand.get(), inside, uses),
            Expr::Substr { operand, range, .. } => {
                self.put_with_range(operand.get(), range, inside, uses)
            }
            Expr::Replace {
                operand,
                pattern,
                by,
                ..
            } => self.put_replace(operand.get(), pattern.get(), by, inside, uses),
            Expr::ExistsIn { left, right, .. } => {
                self.put_both(left.get(), right.get(), inside, uses)
            }
            Expr::Sets {
                first,
                second,
                others,
                ..
            } => self.put_sets(first.get(), second.get(), others.as_slice(), inside, uses),
            Expr::Difference { left, right, .. } => {
                self.put_both(left.get(), right.get(), inside, uses)
            }
            Expr::Join {
                first,
                second,
                others,
                filter,
                calc,
                keep,
                rename,
                ..
            } => {
                self.put_operands(first.get(), second.get(), others.as_slice(), inside, uses)?;
                self.put_clauses(filter, calc, keep, rename, uses)
            }
            Expr::Aggregate {
                operand,
                groups,
                ..
            } => self.put_with_groups(operand.get(), groups, inside, uses),
            Expr::Window { operand, .. } => self.put_expr(operand.get(), inside, uses),
            Expr::CountAll { .. } => Ok(()),
            Expr::Offset { operand, .. } => self.put_expr(operand.get(), inside, uses),
            Expr::Rank { .. } => Ok(()),
            Expr::CheckDatapoint {
                operand,
                ruleset,
                ruleset_place,
                ..
            } => self.put_with_ruleset(
                operand.get(),
                NameSort::Datapoint,
                ruleset,
                *ruleset_place,
                inside,
                uses,
            ),
            Expr::Hierarchy {
                operand,
                ruleset,
                ruleset_place,
                ..
            } => self.put_with_ruleset(
                operand.get(),
                NameSort::Hierarchy,
                ruleset,
                *ruleset_place,
                inside,
                uses,
            ),
            Expr::CheckHierarchy {
                operand,
                ruleset,
                ruleset_place,
                ..
            } => self.put_with_ruleset(
                operand.get(),
                NameSort::Hierarchy,
                ruleset,
                *ruleset_place,
                inside,
                uses,
            ),
            Expr::Check {
                operand,
                imbalance,
                ..
            } => self.put_with_optional(operand.get(), imbalance, inside, uses),
            Expr::Time { operand, .. } => self.put_expr(operand.get(), inside, uses),
            Expr::Timeshift { operand, .. } => self.put_expr(operand.get(), inside, uses),
            Expr::FillTimeSeries { operand, .. } => self.put_expr(operand.get(), inside, uses),
            Expr::CallOf { arguments, .. } => self.put_each(arguments.as_slice(), inside, uses),
            Expr::Typed { expr, .. } => self.put_expr(expr.get(), inside, uses),
        }
    }

    /// A name that is an expression.
    fn put_name(
        &self,
        name: &Word,
        place: Place,
        inside: bool,
        uses: &mut Items<usize>,
    ) -> Result<(), GraphStop>
        ensures { PutsUses (names_in self.now) (said.name_mentions name.now place inside) uses.old uses.new result }
    {
        if inside {
            Ok(())
        } else {
            self.put(NameSort::DataSet, name, place, uses)
        }
    }

    #[cycle(walk)]
    fn put_both(
        &self,
        first: &Expr,
        second: &Expr,
        inside: bool,
        uses: &mut Items<usize>,
    ) -> Result<(), GraphStop>
        ensures { PutsUses (names_in self.now) (said.mentions first.now inside ++ said.mentions second.now inside) uses.old uses.new result }
    {
        self.put_expr(first, inside, uses)?;
        self.put_expr(second, inside, uses)
    }

    #[cycle(walk)]
    fn put_three(
        &self,
        first: &Expr,
        second: &Expr,
        third: &Expr,
        inside: bool,
        uses: &mut Items<usize>,
    ) -> Result<(), GraphStop>
        ensures { PutsUses (names_in self.now) ((said.mentions first.now inside ++ said.mentions second.now inside) ++ said.mentions third.now inside) uses.old uses.new result }
    {
        self.put_both(first, second, inside, uses)?;
        self.put_expr(third, inside, uses)
    }

    #[cycle(walk)]
    fn put_each(
        &self,
        trees: &[Expr],
        inside: bool,
        uses: &mut Items<usize>,
    ) -> Result<(), GraphStop>
        ensures { PutsUses (names_in self.now) (said.each said.mentions trees.now inside) uses.old uses.new result }
    {
        for tree in trees {
            self.put_expr(tree, inside, uses)?;
        }
        Ok(())
    }

    #[cycle(walk)]
    fn put_optional(
        &self,
        tree: &Option<Boxed<Expr>>,
        inside: bool,
        uses: &mut Items<usize>,
    ) -> Result<(), GraphStop>
        ensures { PutsUses (names_in self.now) (said.optional said.mentions tree.now inside) uses.old uses.new result }
    {
        match tree {
            Some(tree) => self.put_expr(tree.get(), inside, uses),
            None => Ok(()),
        }
    }

    #[cycle(walk)]
    fn put_with_optional(
        &self,
        tree: &Expr,
        other: &Option<Boxed<Expr>>,
        inside: bool,
        uses: &mut Items<usize>,
    ) -> Result<(), GraphStop>
        ensures { PutsUses (names_in self.now) (said.mentions tree.now inside ++ said.optional said.mentions other.now inside) uses.old uses.new result }
    {
        self.put_expr(tree, inside, uses)?;
        self.put_optional(other, inside, uses)
    }

    #[cycle(walk)]
    fn put_replace(
        &self,
        operand: &Expr,
        pattern: &Expr,
        by: &Option<Boxed<Expr>>,
        inside: bool,
        uses: &mut Items<usize>,
    ) -> Result<(), GraphStop>
        ensures { PutsUses (names_in self.now) ((said.mentions operand.now inside ++ said.mentions pattern.now inside) ++ said.optional said.mentions by.now inside) uses.old uses.new result }
    {
        self.put_both(operand, pattern, inside, uses)?;
        self.put_optional(by, inside, uses)
    }

    #[cycle(walk)]
    fn put_sets(
        &self,
        first: &Expr,
        second: &Expr,
        others: &[Expr],
        inside: bool,
        uses: &mut Items<usize>,
    ) -> Result<(), GraphStop>
        ensures { PutsUses (names_in self.now) ((said.mentions first.now inside ++ said.mentions second.now inside) ++ said.each said.mentions others.now inside) uses.old uses.new result }
    {
        self.put_both(first, second, inside, uses)?;
        self.put_each(others, inside, uses)
    }

    #[cycle(walk)]
    fn put_with_range(
        &self,
        tree: &Expr,
        range: &Option<SubstrRange>,
        inside: bool,
        uses: &mut Items<usize>,
    ) -> Result<(), GraphStop>
        ensures { PutsUses (names_in self.now) (said.mentions tree.now inside ++ said.optional said.range_mentions range.now inside) uses.old uses.new result }
    {
        self.put_expr(tree, inside, uses)?;
        self.put_range(range, inside, uses)
    }

    #[cycle(walk)]
    fn put_range(
        &self,
        range: &Option<SubstrRange>,
        inside: bool,
        uses: &mut Items<usize>,
    ) -> Result<(), GraphStop>
        ensures { PutsUses (names_in self.now) (said.optional said.range_mentions range.now inside) uses.old uses.new result }
    {
        match range {
            Some(range) => {
                self.put_with_optional(range.start.get(), &range.length, inside, uses)
            }
            None => Ok(()),
        }
    }

    #[cycle(walk)]
    fn put_with_ruleset(
        &self,
        tree: &Expr,
        sort: NameSort,
        name: &Word,
        place: Place,
        inside: bool,
        uses: &mut Items<usize>,
    ) -> Result<(), GraphStop>
        ensures { PutsUses (names_in self.now) (said.mentions tree.now inside ++ said.mention sort name.now place ∷ []) uses.old uses.new result }
    {
        self.put_expr(tree, inside, uses)?;
        self.put(sort, name, place, uses)
    }

    /// What stands after `having`, if anything does.
    #[cycle(walk)]
    fn put_groups(
        &self,
        groups: &Option<Boxed<Groups>>,
        uses: &mut Items<usize>,
    ) -> Result<(), GraphStop>
        ensures { PutsUses (names_in self.now) (said.optional_inside said.groups_mentions groups.now) uses.old uses.new result }
    {
        match groups {
            Some(groups) => self.put_optional(&groups.get().having, true, uses),
            None => Ok(()),
        }
    }

    #[cycle(walk)]
    fn put_with_groups(
        &self,
        tree: &Expr,
        groups: &Option<Boxed<Groups>>,
        inside: bool,
        uses: &mut Items<usize>,
    ) -> Result<(), GraphStop>
        ensures { PutsUses (names_in self.now) (said.mentions tree.now inside ++ said.optional_inside said.groups_mentions groups.now) uses.old uses.new result }
    {
        self.put_expr(tree, inside, uses)?;
        self.put_groups(groups, uses)
    }

    #[cycle(walk)]
    fn put_with_clause(
        &self,
        tree: &Expr,
        clause: &Clause,
        inside: bool,
        uses: &mut Items<usize>,
    ) -> Result<(), GraphStop>
        ensures { PutsUses (names_in self.now) (said.mentions tree.now inside ++ said.clause_mentions clause.now true) uses.old uses.new result }
    {
        self.put_expr(tree, inside, uses)?;
        self.put_clause(clause, uses)
    }

    #[cycle(walk)]
    fn put_clause(&self, clause: &Clause, uses: &mut Items<usize>) -> Result<(), GraphStop>
        ensures { PutsUses (names_in self.now) (said.clause_mentions clause.now true) uses.old uses.new result }
    {
        match clause {
            Clause::Filter { condition, .. } => self.put_expr(condition.get(), true, uses),
            Clause::Calc { items, .. } => self.put_items(items.as_slice(), uses),
            Clause::Aggr { items, groups, .. } => {
                self.put_items(items.as_slice(), uses)?;
                self.put_groups(groups, uses)
            }
            Clause::Keep { .. } => Ok(()),
            Clause::Drop { .. } => Ok(()),
            Clause::Rename { .. } => Ok(()),
            Clause::Sub { .. } => Ok(()),
            Clause::Unpivot { .. } => Ok(()),
        }
    }

    #[cycle(walk)]
    fn put_items(&self, items: &[Item], uses: &mut Items<usize>) -> Result<(), GraphStop>
        ensures { PutsUses (names_in self.now) (said.each said.item_mentions items.now true) uses.old uses.new result }
    {
        for item in items {
            self.put_item(item, uses)?;
        }
        Ok(())
    }

    #[cycle(walk)]
    fn put_item(&self, item: &Item, uses: &mut Items<usize>) -> Result<(), GraphStop>
        ensures { PutsUses (names_in self.now) (said.item_mentions item.now true) uses.old uses.new result }
    {
        self.put_expr(item.expr.get(), true, uses)
    }

    #[cycle(walk)]
    fn put_operand(
        &self,
        operand: &JoinOperand,
        inside: bool,
        uses: &mut Items<usize>,
    ) -> Result<(), GraphStop>
        ensures { PutsUses (names_in self.now) (said.operand_mentions operand.now inside) uses.old uses.new result }
    {
        self.put_expr(operand.expr.get(), inside, uses)
    }

    #[cycle(walk)]
    fn put_two_operands(
        &self,
        first: &JoinOperand,
        second: &JoinOperand,
        inside: bool,
        uses: &mut Items<usize>,
    ) -> Result<(), GraphStop>
        ensures { PutsUses (names_in self.now) (said.operand_mentions first.now inside ++ said.operand_mentions second.now inside) uses.old uses.new result }
    {
        self.put_operand(first, inside, uses)?;
        self.put_operand(second, inside, uses)
    }

    #[cycle(walk)]
    fn put_each_operand(
        &self,
        operands: &[JoinOperand],
        inside: bool,
        uses: &mut Items<usize>,
    ) -> Result<(), GraphStop>
        ensures { PutsUses (names_in self.now) (said.each said.operand_mentions operands.now inside) uses.old uses.new result }
    {
        for operand in operands {
            self.put_operand(operand, inside, uses)?;
        }
        Ok(())
    }

    /// The operands of a join.
    #[cycle(walk)]
    fn put_operands(
        &self,
        first: &JoinOperand,
        second: &JoinOperand,
        others: &[JoinOperand],
        inside: bool,
        uses: &mut Items<usize>,
    ) -> Result<(), GraphStop>
        ensures { PutsUses (names_in self.now) ((said.operand_mentions first.now inside ++ said.operand_mentions second.now inside) ++ said.each said.operand_mentions others.now inside) uses.old uses.new result }
    {
        self.put_two_operands(first, second, inside, uses)?;
        self.put_each_operand(others, inside, uses)
    }

    #[cycle(walk)]
    fn put_optional_clause(
        &self,
        clause: &Option<Boxed<Clause>>,
        uses: &mut Items<usize>,
    ) -> Result<(), GraphStop>
        ensures { PutsUses (names_in self.now) (said.optional_inside said.clause_mentions clause.now) uses.old uses.new result }
    {
        match clause {
            Some(clause) => self.put_clause(clause.get(), uses),
            None => Ok(()),
        }
    }

    #[cycle(walk)]
    fn put_clause_pair(
        &self,
        first: &Option<Boxed<Clause>>,
        second: &Option<Boxed<Clause>>,
        uses: &mut Items<usize>,
    ) -> Result<(), GraphStop>
        ensures { PutsUses (names_in self.now) (said.optional_inside said.clause_mentions first.now ++ said.optional_inside said.clause_mentions second.now) uses.old uses.new result }
    {
        self.put_optional_clause(first, uses)?;
        self.put_optional_clause(second, uses)
    }

    /// The clauses of a join.
    #[cycle(walk)]
    fn put_clauses(
        &self,
        filter: &Option<Boxed<Clause>>,
        calc: &Option<Boxed<Clause>>,
        keep: &Option<Boxed<Clause>>,
        rename: &Option<Boxed<Clause>>,
        uses: &mut Items<usize>,
    ) -> Result<(), GraphStop>
        ensures { PutsUses (names_in self.now) ((said.optional_inside said.clause_mentions filter.now ++ said.optional_inside said.clause_mentions calc.now) ++ (said.optional_inside said.clause_mentions keep.now ++ said.optional_inside said.clause_mentions rename.now)) uses.old uses.new result }
    {
        self.put_clause_pair(filter, calc, uses)?;
        self.put_clause_pair(keep, rename, uses)
    }
}
