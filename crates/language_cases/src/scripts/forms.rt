// Expressions: a form with its place, with each part in brackets.
use crate::scripts::endings::push_ending;
use crate::scripts::fields::{push_at, push_integer, push_label, push_name, push_place, push_word};
use crate::scripts::own_words::{place_and_name, push_own_word};
use crate::scripts::parts::{push_comps, push_grouping, push_renames, push_sub_items};
use sqlite_items::Boxed;
use std::alloc::AllocError;
use vtl_syntax::{Clause, Expr, Groups, Item, JoinOperand, SubstrRange};

/// `LINE:COLUMN FORM ..`
#[cycle(forms)]
pub fn push_form(out: &mut String, tree: &Expr) -> Result<(), AllocError> {
    let (place, form) = place_and_name(tree);
    push_place(out, place)?;
    out.push_str(form)?;
    push_own_word(out, tree)?;
    push_first(out, tree)?;
    push_second(out, tree)?;
    push_more(out, tree)?;
    push_ending(out, tree)
}

/// ` (LINE:COLUMN FORM ..)`
#[cycle(forms)]
pub fn push_part(out: &mut String, tree: &Expr) -> Result<(), AllocError> {
    out.push_str(" (")?;
    push_form(out, tree)?;
    out.push_str(")")
}

#[cycle(forms)]
fn push_each(out: &mut String, trees: &[Expr]) -> Result<(), AllocError> {
    for tree in trees {
        push_part(out, tree)?;
    }
    Ok(())
}

// ` LABEL` and the part, or nothing.
#[cycle(forms)]
fn push_boxed(out: &mut String, label: &str, tree: &Option<Boxed<Expr>>) -> Result<(), AllocError> {
    match tree {
        Some(tree) => {
            push_label(out, label)?;
            push_part(out, tree.get())
        }
        None => Ok(()),
    }
}

/// ` LABEL` and the part, or nothing.
pub fn push_optional(out: &mut String, label: &str, tree: &Option<Expr>) -> Result<(), AllocError> {
    match tree {
        Some(tree) => {
            push_label(out, label)?;
            push_part(out, tree)
        }
        None => Ok(()),
    }
}

// Its first operand, where it has operands.
#[cycle(forms)]
fn push_first(out: &mut String, tree: &Expr) -> Result<(), AllocError> {
    match tree {
        Expr::If { condition, .. } => push_part(out, condition.get()),
        Expr::Or { left, .. } => push_part(out, left.get()),
        Expr::And { left, .. } => push_part(out, left.get()),
        Expr::Compare { left, .. } => push_part(out, left.get()),
        Expr::In { left, .. } => push_part(out, left.get()),
        Expr::Sum { left, .. } => push_part(out, left.get()),
        Expr::Product { left, .. } => push_part(out, left.get()),
        Expr::Signed { operand, .. } => push_part(out, operand.get()),
        Expr::Member { operand, .. } => push_part(out, operand.get()),
        Expr::Clause { operand, .. } => push_part(out, operand.get()),
        Expr::Bracket { inner, .. } => push_part(out, inner.get()),
        Expr::Unary { operand, .. } => push_part(out, operand.get()),
        Expr::Round { operand, .. } => push_part(out, operand.get()),
        Expr::Binary { left, .. } => push_part(out, left.get()),
        Expr::Between { operand, .. } => push_part(out, operand.get()),
        Expr::MatchCharacters { operand, .. } => push_part(out, operand.get()),
        Expr::Substr { operand, .. } => push_part(out, operand.get()),
        Expr::Replace { operand, .. } => push_part(out, operand.get()),
        Expr::ExistsIn { left, .. } => push_part(out, left.get()),
        Expr::Sets { first, .. } => push_part(out, first.get()),
        Expr::Difference { left, .. } => push_part(out, left.get()),
        Expr::Join { first, .. } => push_joined(out, first.get()),
        Expr::Aggregate { operand, .. } => push_part(out, operand.get()),
        Expr::Window { operand, .. } => push_part(out, operand.get()),
        Expr::Offset { operand, .. } => push_part(out, operand.get()),
        Expr::CheckDatapoint { operand, .. } => push_part(out, operand.get()),
        Expr::Hierarchy { operand, .. } => push_part(out, operand.get()),
        Expr::CheckHierarchy { operand, .. } => push_part(out, operand.get()),
        Expr::Check { operand, .. } => push_part(out, operand.get()),
        Expr::Time { operand, .. } => push_part(out, operand.get()),
        Expr::Timeshift { operand, .. } => push_part(out, operand.get()),
        Expr::FillTimeSeries { operand, .. } => push_part(out, operand.get()),
        Expr::Typed { expr, .. } => push_part(out, expr.get()),
        _ => Ok(()),
    }
}

// The operands after it that it always has, if there are any.
#[cycle(forms)]
fn push_second(out: &mut String, tree: &Expr) -> Result<(), AllocError> {
    match tree {
        Expr::If { holds, fails, .. } => {
            push_part(out, holds.get())?;
            push_part(out, fails.get())
        }
        Expr::Or { right, .. } => push_part(out, right.get()),
        Expr::And { right, .. } => push_part(out, right.get()),
        Expr::Compare { right, .. } => push_part(out, right.get()),
        Expr::Sum { right, .. } => push_part(out, right.get()),
        Expr::Product { right, .. } => push_part(out, right.get()),
        Expr::Binary { right, .. } => push_part(out, right.get()),
        Expr::Replace { pattern, .. } => push_part(out, pattern.get()),
        Expr::ExistsIn { right, .. } => push_part(out, right.get()),
        Expr::Sets { second, .. } => push_part(out, second.get()),
        Expr::Difference { right, .. } => push_part(out, right.get()),
        Expr::Join { second, .. } => push_joined(out, second.get()),
        _ => Ok(()),
    }
}

// The parts that are many or may be left out, and what has parts of its own.
#[cycle(forms)]
fn push_more(out: &mut String, tree: &Expr) -> Result<(), AllocError> {
    match tree {
        Expr::Clause { clause, .. } => push_clause(out, clause.get()),
        Expr::Substr { range, .. } => push_range(out, range),
        Expr::Replace { by, .. } => push_boxed(out, "by", by),
        Expr::Sets { others, .. } => push_each(out, others.as_slice()),
        Expr::CallOf { arguments, .. } => push_each(out, arguments.as_slice()),
        Expr::Aggregate { groups, .. } => push_groups(out, groups),
        Expr::Check {
            code,
            level,
            imbalance,
            ..
        } => {
            push_name(out, "code", code)?;
            push_integer(out, "level", level)?;
            push_boxed(out, "imbalance", imbalance)
        }
        Expr::Join {
            others,
            filter,
            calc,
            keep,
            rename,
            ..
        } => {
            push_each_joined(out, others.as_slice())?;
            push_join_clause(out, filter)?;
            push_join_clause(out, calc)?;
            push_join_clause(out, keep)?;
            push_join_clause(out, rename)
        }
        _ => Ok(()),
    }
}

#[cycle(forms)]
fn push_range(out: &mut String, range: &Option<SubstrRange>) -> Result<(), AllocError> {
    match range {
        Some(range) => {
            push_at(out, range.place, "from")?;
            push_part(out, range.start.get())?;
            push_boxed(out, "length", &range.length)
        }
        None => Ok(()),
    }
}

// ` [LINE:COLUMN operand ..]`, an operand of a join.
#[cycle(forms)]
fn push_joined(out: &mut String, operand: &JoinOperand) -> Result<(), AllocError> {
    out.push_str(" [")?;
    push_place(out, operand.place)?;
    out.push_str("operand")?;
    push_part(out, operand.expr.get())?;
    push_name(out, "as", &operand.alias)?;
    out.push_str("]")
}

#[cycle(forms)]
fn push_each_joined(out: &mut String, operands: &[JoinOperand]) -> Result<(), AllocError> {
    for operand in operands {
        push_joined(out, operand)?;
    }
    Ok(())
}

// A clause of a join, where it has one.
#[cycle(forms)]
fn push_join_clause(out: &mut String, clause: &Option<Boxed<Clause>>) -> Result<(), AllocError> {
    match clause {
        Some(clause) => push_clause(out, clause.get()),
        None => Ok(()),
    }
}

// ` LINE:COLUMN CLAUSE ..`
#[cycle(forms)]
fn push_clause(out: &mut String, clause: &Clause) -> Result<(), AllocError> {
    match clause {
        Clause::Filter { condition, place } => {
            push_at(out, *place, "Filter")?;
            push_part(out, condition.get())
        }
        Clause::Calc { items, place } => {
            push_at(out, *place, "Calc")?;
            push_items(out, items.as_slice())
        }
        Clause::Keep { components, place } => {
            push_at(out, *place, "Keep")?;
            push_comps(out, components.as_slice())
        }
        Clause::Drop { components, place } => {
            push_at(out, *place, "Drop")?;
            push_comps(out, components.as_slice())
        }
        Clause::Rename { renames, place } => {
            push_at(out, *place, "Rename")?;
            push_renames(out, renames.as_slice())
        }
        Clause::Sub { items, place } => {
            push_at(out, *place, "Sub")?;
            push_sub_items(out, items.as_slice())
        }
        Clause::Unpivot {
            identifier,
            measure,
            place,
        } => {
            push_at(out, *place, "Unpivot")?;
            push_word(out, identifier)?;
            push_word(out, measure)
        }
        Clause::Aggr {
            items,
            groups,
            place,
        } => {
            push_at(out, *place, "Aggr")?;
            push_items(out, items.as_slice())?;
            push_groups(out, groups)
        }
    }
}

#[cycle(forms)]
fn push_items(out: &mut String, items: &[Item]) -> Result<(), AllocError> {
    for item in items {
        push_item(out, item)?;
    }
    Ok(())
}

#[cycle(forms)]
fn push_item(out: &mut String, item: &Item) -> Result<(), AllocError> {
    out.push_str(" (")?;
    push_place(out, item.place)?;
    if let Some(role) = &item.role {
        write!(out, "{role:?} ")?;
    }
    out.push_str(item.name.as_str())?;
    push_part(out, item.expr.get())?;
    out.push_str(")")
}

// A grouping, and its `having`.
#[cycle(forms)]
fn push_groups(out: &mut String, groups: &Option<Boxed<Groups>>) -> Result<(), AllocError> {
    let Some(groups) = groups else {
        return Ok(());
    };
    let groups = groups.get();
    push_at(out, groups.place, "groups")?;
    push_grouping(out, &groups.grouping)?;
    push_boxed(out, "having", &groups.having)
}
