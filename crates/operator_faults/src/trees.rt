// The outline of an expression.
ghost use Rattle.std.specs.Prelude.{◌≡◌, [], ◌∷◌, ◌++◌, map, IfOk, OnOk};
ghost use Rattle.operator_faults.specs.Outlines as meant;

use crate::outline::{CallSite, Outline, Site, What, flags, new};
use sqlite_items::{Boxed, Items};
use std::alloc::{AllocError, Global};
use vtl_syntax::{Clause, Expr, Groups, Item, JoinOperand, SubstrRange};

/// The outline of the expression, or want of memory.
#[cycle(outline)]
pub fn outline_of(alloc: Global, tree: &Expr) -> Result<Outline, AllocError>
    ensures { IfOk result (λ o. o ≡ meant.outlined tree.now) }
{
    let mut parts = Items::new(alloc);
    put_parts(alloc, tree, &mut parts)?;
    let what = what_of(alloc, tree, parts.as_slice())?;
    Ok(new(what, parts))
}

/// What stands at the top, where the outlines of its parts are these.
fn what_of(alloc: Global, tree: &Expr, parts: &[Outline]) -> Result<What, AllocError>
    ensures { IfOk result (λ what. what ≡ meant.what_of tree.now parts.now) }
{
    match tree {
        Expr::Name { name, place } => Ok(What::Name(Site {
            name: name.copy()?,
            place: *place,
        })),
        Expr::CallOf { name, place, .. } => Ok(What::Call(CallSite {
            name: name.copy()?,
            place: *place,
            named: flags(alloc, parts)?,
        })),
        Expr::Literal { .. } => Ok(What::Plain),
        Expr::Typed { .. } => Ok(What::Plain),
        Expr::If { .. } => Ok(What::Level),
        Expr::Or { .. } => Ok(What::Level),
        Expr::And { .. } => Ok(What::Level),
        Expr::Compare { .. } => Ok(What::Level),
        Expr::In { .. } => Ok(What::Level),
        Expr::Sum { .. } => Ok(What::Level),
        Expr::Product { .. } => Ok(What::Level),
        Expr::Signed { .. } => Ok(What::Level),
        Expr::Member { .. } => Ok(What::Level),
        Expr::Clause { .. } => Ok(What::Level),
        Expr::Bracket { .. } => Ok(What::Level),
        Expr::Unary { .. } => Ok(What::Level),
        Expr::Round { .. } => Ok(What::Level),
        Expr::Binary { .. } => Ok(What::Level),
        Expr::Between { .. } => Ok(What::Level),
        Expr::MatchCharacters { .. } => Ok(What::Level),
        Expr::Substr { .. } => Ok(What::Level),
        Expr::Replace { .. } => Ok(What::Level),
        Expr::ExistsIn { .. } => Ok(What::Level),
        Expr::Sets { .. } => Ok(What::Level),
        Expr::Difference { .. } => Ok(What::Level),
        Expr::Join { .. } => Ok(What::Level),
        Expr::Aggregate { .. } => Ok(What::Level),
        Expr::Window { .. } => Ok(What::Level),
        Expr::CountAll { .. } => Ok(What::Level),
        Expr::Offset { .. } => Ok(What::Level),
        Expr::Rank { .. } => Ok(What::Level),
        Expr::CheckDatapoint { .. } => Ok(What::Level),
        Expr::Hierarchy { .. } => Ok(What::Level),
        Expr::CheckHierarchy { .. } => Ok(What::Level),
        Expr::Check { .. } => Ok(What::Level),
        Expr::Time { .. } => Ok(What::Level),
        Expr::Timeshift { .. } => Ok(What::Level),
        Expr::FillTimeSeries { .. } => Ok(What::Level),
    }
}

/// Puts the outlines of its parts after those that are there, in the order of the text.
#[cycle(outline)]
fn put_parts(alloc: Global, tree: &Expr, out: &mut Items<Outline>) -> Result<(), AllocError>
    ensures { OnOk result (out.new ≡ out.old ++ meant.parts_of tree.now) }
{
    match tree {
        Expr::If {
            condition,
            holds,
            fails,
            ..
        } => {
            put(alloc, condition.get(), out)?;
            put(alloc, holds.get(), out)?;
            put(alloc, fails.get(), out)
        }
        Expr::Or { left, right, .. } => put_two(
            outline_of(alloc, left.get())?,
            outline_of(alloc, right.get())?,
            out,
        ),
        Expr::And { left, right, .. } => put_two(
            outline_of(alloc, left.get())?,
            outline_of(alloc, right.get())?,
            out,
        ),
        Expr::Compare { left, right, .. } => put_two(
            outline_of(alloc, left.get())?,
            outline_of(alloc, right.get())?,
            out,
        ),
        Expr::In { left, .. } => put(alloc, left.get(), out),
        Expr::Sum { left, right, .. } => put_two(
            outline_of(alloc, left.get())?,
            outline_of(alloc, right.get())?,
            out,
        ),
        Expr::Product { left, right, .. } => put_two(
            outline_of(alloc, left.get())?,
            outline_of(alloc, right.get())?,
            out,
        ),
        Expr::Signed { operand, .. } => put(alloc, operand.get(), out),
        Expr::Member { operand, .. } => put(alloc, operand.get(), out),
        Expr::Clause {
            operand,
            clause,
            ..
        } => {
            put(alloc, operand.get(), out)?;
            put_inside(alloc, clause.get(), out)
        }
        Expr::Literal { .. } => Ok(()),
        Expr::Name { .. } => Ok(()),
        Expr::Bracket { inner, .. } => put(alloc, inner.get(), out),
        Expr::Unary { operand, .. } => put(alloc, operand.get(), out),
        Expr::Round { operand, .. } => put(alloc, operand.get(), out),
        Expr::Binary { left, right, .. } => put_two(
            outline_of(alloc, left.get())?,
            outline_of(alloc, right.get())?,
            out,
        ),
        Expr::Between { operand, .. } => put(alloc, operand.get(), out),
        Expr::MatchCharacters { operand, .. } => put(alloc, operand.get(), out),
        Expr::Substr { operand, range, .. } => {
            put(alloc, operand.get(), out)?;
            put_range(alloc, range, out)
        }
        Expr::Replace {
            operand,
            pattern,
            by,
            ..
        } => {
            put(alloc, operand.get(), out)?;
            put(alloc, pattern.get(), out)?;
            put_optional(alloc, by, out)
        }
        Expr::ExistsIn { left, right, .. } => put_two(
            outline_of(alloc, left.get())?,
            outline_of(alloc, right.get())?,
            out,
        ),
        Expr::Sets {
            first,
            second,
            others,
            ..
        } => {
            put(alloc, first.get(), out)?;
            put(alloc, second.get(), out)?;
            each(alloc, others.as_slice(), out)
        }
        Expr::Difference { left, right, .. } => put_two(
            outline_of(alloc, left.get())?,
            outline_of(alloc, right.get())?,
            out,
        ),
        Expr::Join { .. } => put_join(alloc, tree, out),
        Expr::Aggregate {
            operand,
            groups,
            ..
        } => {
            put(alloc, operand.get(), out)?;
            put_groups(alloc, groups, out)
        }
        Expr::Window { operand, .. } => put(alloc, operand.get(), out),
        Expr::CountAll { .. } => Ok(()),
        Expr::Offset { operand, .. } => put(alloc, operand.get(), out),
        Expr::Rank { .. } => Ok(()),
        Expr::CheckDatapoint { operand, .. } => put(alloc, operand.get(), out),
        Expr::Hierarchy { operand, .. } => put(alloc, operand.get(), out),
        Expr::CheckHierarchy { operand, .. } => put(alloc, operand.get(), out),
        Expr::Check {
            operand,
            imbalance,
            ..
        } => {
            put(alloc, operand.get(), out)?;
            put_optional(alloc, imbalance, out)
        }
        Expr::Time { operand, .. } => put(alloc, operand.get(), out),
        Expr::Timeshift { operand, .. } => put(alloc, operand.get(), out),
        Expr::FillTimeSeries { operand, .. } => put(alloc, operand.get(), out),
        Expr::CallOf { arguments, .. } => each(alloc, arguments.as_slice(), out),
        Expr::Typed { expr, .. } => put(alloc, expr.get(), out),
    }
}

/// Puts the outline of an expression after those that are there.
#[cycle(outline)]
fn put(alloc: Global, tree: &Expr, out: &mut Items<Outline>) -> Result<(), AllocError>
    ensures { OnOk result (out.new ≡ out.old ++ meant.outlined tree.now ∷ []) }
{
    let outline = outline_of(alloc, tree)?;
    out.push(outline)
}

/// Puts two outlines after those that are there.
fn put_two(left: Outline, right: Outline, out: &mut Items<Outline>) -> Result<(), AllocError>
    ensures { OnOk result (out.new ≡ out.old ++ left ∷ right ∷ []) }
{
    out.push(left)?;
    out.push(right)
}

/// The same, if there is one.
#[cycle(outline)]
fn put_optional(
    alloc: Global,
    tree: &Option<Boxed<Expr>>,
    out: &mut Items<Outline>,
) -> Result<(), AllocError>
    ensures { OnOk result (out.new ≡ out.old ++ meant.one_if meant.outlined tree.now) }
{
    match tree {
        Some(tree) => put(alloc, tree.get(), out),
        None => Ok(()),
    }
}

/// The same for each expression.
#[cycle(outline)]
fn each(alloc: Global, trees: &[Expr], out: &mut Items<Outline>) -> Result<(), AllocError>
    ensures { OnOk result (out.new ≡ out.old ++ map meant.outlined trees.now) }
{
    for tree in trees {
        put(alloc, tree, out)?;
    }
    Ok(())
}

#[cycle(outline)]
fn put_range(
    alloc: Global,
    range: &Option<SubstrRange>,
    out: &mut Items<Outline>,
) -> Result<(), AllocError>
    ensures { OnOk result (out.new ≡ out.old ++ meant.parts_if meant.range_outlined range.now) }
{
    match range {
        Some(range) => {
            put(alloc, range.start.get(), out)?;
            put_optional(alloc, &range.length, out)
        }
        None => Ok(()),
    }
}

/// What stands after `having`, if anything does.
#[cycle(outline)]
fn put_groups(
    alloc: Global,
    groups: &Option<Boxed<Groups>>,
    out: &mut Items<Outline>,
) -> Result<(), AllocError>
    ensures { OnOk result (out.new ≡ out.old ++ meant.parts_if meant.groups_outlined groups.now) }
{
    match groups {
        Some(groups) => put_having(alloc, &groups.get().having, out),
        None => Ok(()),
    }
}

#[cycle(outline)]
fn put_having(
    alloc: Global,
    having: &Option<Boxed<Expr>>,
    out: &mut Items<Outline>,
) -> Result<(), AllocError>
    ensures { OnOk result (out.new ≡ out.old ++ meant.having_if (meant.one_if meant.outlined having.now)) }
{
    match having {
        Some(having) => {
            let mut within = Items::new(alloc);
            put(alloc, having.get(), &mut within)?;
            out.push(new(What::Inside, within))
        }
        None => Ok(()),
    }
}

/// A clause after a data set.
#[cycle(outline)]
fn put_inside(alloc: Global, clause: &Clause, out: &mut Items<Outline>) -> Result<(), AllocError>
    ensures { OnOk result (out.new ≡ out.old ++ meant.inside (meant.clause_outlined clause.now) ∷ []) }
{
    let mut within = Items::new(alloc);
    put_clause(alloc, clause, &mut within)?;
    out.push(new(What::Inside, within))
}

/// What stands in a clause.
#[cycle(outline)]
fn put_clause(alloc: Global, clause: &Clause, out: &mut Items<Outline>) -> Result<(), AllocError>
    ensures { OnOk result (out.new ≡ out.old ++ meant.clause_outlined clause.now) }
{
    match clause {
        Clause::Filter { condition, .. } => put(alloc, condition.get(), out),
        Clause::Calc { items, .. } => put_items(alloc, items.as_slice(), out),
        Clause::Aggr { items, groups, .. } => {
            put_items(alloc, items.as_slice(), out)?;
            put_groups(alloc, groups, out)
        }
        Clause::Keep { .. } => Ok(()),
        Clause::Drop { .. } => Ok(()),
        Clause::Rename { .. } => Ok(()),
        Clause::Sub { .. } => Ok(()),
        Clause::Unpivot { .. } => Ok(()),
    }
}

#[cycle(outline)]
fn put_items(alloc: Global, items: &[Item], out: &mut Items<Outline>) -> Result<(), AllocError>
    ensures { OnOk result (out.new ≡ out.old ++ map meant.item_outlined items.now) }
{
    for item in items {
        put_item(alloc, item, out)?;
    }
    Ok(())
}

#[cycle(outline)]
fn put_item(alloc: Global, item: &Item, out: &mut Items<Outline>) -> Result<(), AllocError>
    ensures { OnOk result (out.new ≡ out.old ++ meant.item_outlined item.now ∷ []) }
{
    put(alloc, item.expr.get(), out)
}

/// The operands of a join, and its clauses.
#[cycle(outline)]
fn put_join(alloc: Global, tree: &Expr, out: &mut Items<Outline>) -> Result<(), AllocError>
    requires { meant.IsJoin tree.now }
    ensures { OnOk result (out.new ≡ out.old ++ meant.parts_of tree.now) }
{
    match tree {
        Expr::Join {
            first,
            second,
            others,
            filter,
            calc,
            keep,
            rename,
            ..
        } => {
            put_operand(alloc, first.get(), out)?;
            put_operand(alloc, second.get(), out)?;
            put_operands(alloc, others.as_slice(), out)?;
            put_joined(alloc, filter, out)?;
            put_joined(alloc, calc, out)?;
            put_joined(alloc, keep, out)?;
            put_joined(alloc, rename, out)
        }
        _ => unreachable!(),
    }
}

#[cycle(outline)]
fn put_operands(
    alloc: Global,
    operands: &[JoinOperand],
    out: &mut Items<Outline>,
) -> Result<(), AllocError>
    ensures { OnOk result (out.new ≡ out.old ++ map meant.operand_outlined operands.now) }
{
    for operand in operands {
        put_operand(alloc, operand, out)?;
    }
    Ok(())
}

#[cycle(outline)]
fn put_operand(
    alloc: Global,
    operand: &JoinOperand,
    out: &mut Items<Outline>,
) -> Result<(), AllocError>
    ensures { OnOk result (out.new ≡ out.old ++ meant.operand_outlined operand.now ∷ []) }
{
    put(alloc, operand.expr.get(), out)
}

/// A clause of a join, if there is one.
#[cycle(outline)]
fn put_joined(
    alloc: Global,
    clause: &Option<Boxed<Clause>>,
    out: &mut Items<Outline>,
) -> Result<(), AllocError>
    ensures { OnOk result (out.new ≡ out.old ++ meant.joined_if meant.clause_outlined clause.now) }
{
    match clause {
        Some(clause) => {
            let mut within = Items::new(alloc);
            put_clause(alloc, clause.get(), &mut within)?;
            out.push(new(What::InsideJoin, within))
        }
        None => Ok(()),
    }
}
