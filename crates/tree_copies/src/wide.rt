// Expressions with several others in them, or with a clause; joins and checks, made anew.
ghost use Rattle.std.specs.Prelude.{◌≡◌, ◌<◌, IfOk};
ghost use Rattle.std.specs.Option.{option_map};
ghost use Rattle.vtl_syntax.specs.declared.expr.Clause.{size-Clause};
ghost use Rattle.vtl_syntax.specs.declared.expr.Expr.{size-Expr};
ghost use Rattle.tree_copies.specs.Made.{made, clause_made};
ghost use Rattle.tree_copies.specs.Parts.{MakesParts, if_some};
ghost use Rattle.tree_copies.specs.Shapes.{shape_of, more_parts, other_parts, joined, checked, by_hierarchy};

use crate::lists::copy_optional_word;
use crate::maker::{Maker, Naming};
use sqlite_items::Boxed;
use std::alloc::{AllocError, Global};
use vtl_syntax::{Clause, Expr};

/// The clauses of a join.
#[derive(Drop)]
struct JoinClauses {
    filter: Option<Boxed<Clause>>,
    calc: Option<Boxed<Clause>>,
    keep: Option<Boxed<Clause>>,
    rename: Option<Boxed<Clause>>,
}

impl<W: Naming + Copy, F: Fn(Global, &W, &Expr) -> Result<Expr, AllocError> + Copy> Maker<
    '_,
    W,
    F,
> {
    /// An expression with others or a clause in it.
    pub(crate) fn more_parts(&self) -> Result<Expr, AllocError>
        requires makes { MakesParts self.now.tree.now (W.name self.now.by.now) (W.call self.now.by.now) (F.pre self.now.expression self.now.alloc self.now.by) (F.post self.now.expression self.now.alloc self.now.by) }
        requires shape { shape_of self.now.tree.now ≡ more_parts }
        ensures { IfOk result (λ answer. answer ≡ made (W.name self.now.by.now) (W.call self.now.by.now) self.now.tree.now) }
    {
        match self.tree {
            Expr::If {
                condition,
                holds,
                fails,
                place,
            } => Ok(Expr::If {
                condition: self.boxed(condition)?,
                holds: self.boxed(holds)?,
                fails: self.boxed(fails)?,
                place: *place,
            }),
            Expr::Clause {
                operand,
                clause,
                place,
            } => Ok(Expr::Clause {
                operand: self.boxed(operand)?,
                clause: self.boxed_clause(clause)?,
                place: *place,
            }),
            Expr::Substr {
                operand,
                range,
                place,
            } => Ok(Expr::Substr {
                operand: self.boxed(operand)?,
                range: self.optional_range(range)?,
                place: *place,
            }),
            _ => unreachable!(),
        }
    }

    /// The same, where how many there are is open.
    pub(crate) fn other_parts(&self) -> Result<Expr, AllocError>
        requires makes { MakesParts self.now.tree.now (W.name self.now.by.now) (W.call self.now.by.now) (F.pre self.now.expression self.now.alloc self.now.by) (F.post self.now.expression self.now.alloc self.now.by) }
        requires shape { shape_of self.now.tree.now ≡ other_parts }
        ensures { IfOk result (λ answer. answer ≡ made (W.name self.now.by.now) (W.call self.now.by.now) self.now.tree.now) }
    {
        match self.tree {
            Expr::Replace {
                operand,
                pattern,
                by,
                place,
            } => Ok(Expr::Replace {
                operand: self.boxed(operand)?,
                pattern: self.boxed(pattern)?,
                by: self.optional(by)?,
                place: *place,
            }),
            Expr::Sets {
                function,
                first,
                second,
                others,
                place,
            } => Ok(Expr::Sets {
                function: *function,
                first: self.boxed(first)?,
                second: self.boxed(second)?,
                others: self.each(others.as_slice())?,
                place: *place,
            }),
            Expr::Aggregate {
                function,
                operand,
                groups,
                place,
            } => Ok(Expr::Aggregate {
                function: *function,
                operand: self.boxed(operand)?,
                groups: self.optional_groups(groups)?,
                place: *place,
            }),
            _ => unreachable!(),
        }
    }

    /// A join.
    pub(crate) fn joined(&self) -> Result<Expr, AllocError>
        requires makes { MakesParts self.now.tree.now (W.name self.now.by.now) (W.call self.now.by.now) (F.pre self.now.expression self.now.alloc self.now.by) (F.post self.now.expression self.now.alloc self.now.by) }
        requires shape { shape_of self.now.tree.now ≡ joined }
        ensures { IfOk result (λ answer. answer ≡ made (W.name self.now.by.now) (W.call self.now.by.now) self.now.tree.now) }
    {
        match self.tree {
            Expr::Join {
                function,
                first,
                second,
                others,
                filter,
                calc,
                keep,
                rename,
                place,
            } => {
                let clauses = self.join_clauses(filter, calc, keep, rename)?;
                Ok(Expr::Join {
                    function: *function,
                    first: self.boxed_operand(first)?,
                    second: self.boxed_operand(second)?,
                    others: self.operands(others.as_slice())?,
                    filter: clauses.filter,
                    calc: clauses.calc,
                    keep: clauses.keep,
                    rename: clauses.rename,
                    place: *place,
                })
            }
            _ => unreachable!(),
        }
    }

    fn join_clauses(
        &self,
        filter: &Option<Boxed<Clause>>,
        calc: &Option<Boxed<Clause>>,
        keep: &Option<Boxed<Clause>>,
        rename: &Option<Boxed<Clause>>,
    ) -> Result<JoinClauses, AllocError>
        requires makes { MakesParts self.now.tree.now (W.name self.now.by.now) (W.call self.now.by.now) (F.pre self.now.expression self.now.alloc self.now.by) (F.post self.now.expression self.now.alloc self.now.by) }
        requires in_filter { if_some size-Clause filter.now < size-Expr self.now.tree.now }
        requires in_calc { if_some size-Clause calc.now < size-Expr self.now.tree.now }
        requires in_keep { if_some size-Clause keep.now < size-Expr self.now.tree.now }
        requires in_rename { if_some size-Clause rename.now < size-Expr self.now.tree.now }
        ensures { IfOk result (λ answer. answer ≡ record { filter = option_map (clause_made (W.name self.now.by.now) (W.call self.now.by.now)) filter.now; calc = option_map (clause_made (W.name self.now.by.now) (W.call self.now.by.now)) calc.now; keep = option_map (clause_made (W.name self.now.by.now) (W.call self.now.by.now)) keep.now; rename = option_map (clause_made (W.name self.now.by.now) (W.call self.now.by.now)) rename.now }) }
    {
        Ok(JoinClauses {
            filter: self.optional_clause(filter)?,
            calc: self.optional_clause(calc)?,
            keep: self.optional_clause(keep)?,
            rename: self.optional_clause(rename)?,
        })
    }

    /// A check.
    pub(crate) fn checked(&self) -> Result<Expr, AllocError>
        requires makes { MakesParts self.now.tree.now (W.name self.now.by.now) (W.call self.now.by.now) (F.pre self.now.expression self.now.alloc self.now.by) (F.post self.now.expression self.now.alloc self.now.by) }
        requires shape { shape_of self.now.tree.now ≡ checked }
        ensures { IfOk result (λ answer. answer ≡ made (W.name self.now.by.now) (W.call self.now.by.now) self.now.tree.now) }
    {
        match self.tree {
            Expr::CheckDatapoint {
                operand,
                ruleset,
                ruleset_place,
                output,
                place,
            } => Ok(Expr::CheckDatapoint {
                operand: self.boxed(operand)?,
                ruleset: ruleset.copy()?,
                ruleset_place: *ruleset_place,
                output: *output,
                place: *place,
            }),
            Expr::Check {
                operand,
                code,
                level,
                imbalance,
                output,
                place,
            } => Ok(Expr::Check {
                operand: self.boxed(operand)?,
                code: copy_optional_word(code)?,
                level: *level,
                imbalance: self.optional(imbalance)?,
                output: *output,
                place: *place,
            }),
            _ => unreachable!(),
        }
    }

    /// A hierarchy, or a check by one.
    pub(crate) fn by_hierarchy(&self) -> Result<Expr, AllocError>
        requires makes { MakesParts self.now.tree.now (W.name self.now.by.now) (W.call self.now.by.now) (F.pre self.now.expression self.now.alloc self.now.by) (F.post self.now.expression self.now.alloc self.now.by) }
        requires shape { shape_of self.now.tree.now ≡ by_hierarchy }
        ensures { IfOk result (λ answer. answer ≡ made (W.name self.now.by.now) (W.call self.now.by.now) self.now.tree.now) }
    {
        match self.tree {
            Expr::Hierarchy {
                operand,
                ruleset,
                ruleset_place,
                component,
                mode,
                input,
                output,
                place,
            } => Ok(Expr::Hierarchy {
                operand: self.boxed(operand)?,
                ruleset: ruleset.copy()?,
                ruleset_place: *ruleset_place,
                component: copy_optional_word(component)?,
                mode: *mode,
                input: *input,
                output: *output,
                place: *place,
            }),
            Expr::CheckHierarchy {
                operand,
                ruleset,
                ruleset_place,
                component,
                mode,
                input,
                output,
                place,
            } => Ok(Expr::CheckHierarchy {
                operand: self.boxed(operand)?,
                ruleset: ruleset.copy()?,
                ruleset_place: *ruleset_place,
                component: copy_optional_word(component)?,
                mode: *mode,
                input: *input,
                output: *output,
                place: *place,
            }),
            _ => unreachable!(),
        }
    }
}
