// Expressions and clauses.
ghost use Rattle.std.specs.Prelude.{◌≡◌, [], ◌++◌, if◌then◌else◌, OnOk};
ghost use Rattle.std.specs.List.{flat_map};
ghost use Rattle.vtl_spelling.specs.Kinds.{◌&◌, one, key, comma, commas, open_paren, close_paren, optional};
ghost use Rattle.vtl_spelling.specs.Shapes.{shape_of, between_conditions, between_operands, own_word, behind_operand, one_operand_call, two_operands_call, operands_call, join_call, aggregate_call, check_call, hierarchical_call};
ghost use Rattle.vtl_spelling.specs.Trees.{spelled, clause_spelled, groups_spelled, item_spelled, operand_spelled, range_spelled};

use crate::calls::{
    check_output, count_all, datapoint_check, digits, fault, hierarchy, hierarchy_check, in_set,
    limits, offset, pattern, rank, rows, shift, span,
};
use crate::kinds::{FormWord, Spell, both, chosen, listed, push, worded};
use crate::parts::unsigned;
use sqlite_items::Boxed;
use std::alloc::AllocError;
use vtl_syntax::{Clause, Expr, Groups, Item, JoinOperand, SubstrRange};
use vtl_tokens::{Keyword, Sign, TokenKind};

#[cycle(spelling)]
pub(crate) fn expr(tree: &Expr, out: &mut Vec<TokenKind>) -> Result<(), AllocError>
    ensures { OnOk result (out.new.items ≡ out.old.items ++ spelled tree.now) }
{
    match tree {
        Expr::Literal { value, .. } => unsigned(value, out),
        Expr::Name { name, .. } => name.spell(out),
        Expr::CountAll { .. } => count_all(out),
        Expr::Rank { over, .. } => rank(over, out),
        Expr::Or { .. } => logical(tree, out),
        Expr::And { .. } => logical(tree, out),
        Expr::Compare { .. } => infix(tree, out),
        Expr::Sum { .. } => infix(tree, out),
        Expr::Product { .. } => infix(tree, out),
        Expr::If { .. } => form(tree, out),
        Expr::Signed { .. } => form(tree, out),
        Expr::Bracket { .. } => form(tree, out),
        Expr::In { .. } => tail(tree, out),
        Expr::Member { .. } => tail(tree, out),
        Expr::Clause { .. } => tail(tree, out),
        Expr::Unary { .. } => one_operand(tree, out),
        Expr::Round { .. } => one_operand(tree, out),
        Expr::Between { .. } => one_operand(tree, out),
        Expr::MatchCharacters { .. } => one_operand(tree, out),
        Expr::Binary { .. } => two_operands(tree, out),
        Expr::Difference { .. } => two_operands(tree, out),
        Expr::Substr { .. } => operands(tree, out),
        Expr::Replace { .. } => operands(tree, out),
        Expr::ExistsIn { .. } => two_operands(tree, out),
        Expr::Sets { .. } => operands(tree, out),
        Expr::Join { .. } => join(tree, out),
        Expr::Aggregate { .. } => aggregate(tree, out),
        Expr::Window { .. } => aggregate(tree, out),
        Expr::Offset { .. } => aggregate(tree, out),
        Expr::CheckDatapoint { .. } => check(tree, out),
        Expr::Hierarchy { .. } => hierarchical(tree, out),
        Expr::CheckHierarchy { .. } => hierarchical(tree, out),
        Expr::Check { .. } => check(tree, out),
        Expr::Time { .. } => one_operand(tree, out),
        Expr::Timeshift { .. } => one_operand(tree, out),
        Expr::FillTimeSeries { .. } => one_operand(tree, out),
        Expr::CallOf { .. } => operands(tree, out),
        Expr::Typed { expr, .. } => self::expr(expr.get(), out),
    }
}

/// `or`, `xor` or `and` between conditions.
#[cycle(spelling)]
fn logical(tree: &Expr, out: &mut Vec<TokenKind>) -> Result<(), AllocError>
    requires { shape_of tree.now ≡ between_conditions }
    ensures { OnOk result (out.new.items ≡ out.old.items ++ spelled tree.now) }
{
    match tree {
        Expr::Or {
            left,
            sign,
            right,
            ..
        } => {
            before(left.get(), sign.kind(), out)?;
            expr(right.get(), out)
        }
        Expr::And { left, right, .. } => {
            before(left.get(), TokenKind::Reserved(Keyword::And), out)?;
            expr(right.get(), out)
        }
        _ => unreachable!(),
    }
}

/// An operator between its operands.
#[cycle(spelling)]
fn infix(tree: &Expr, out: &mut Vec<TokenKind>) -> Result<(), AllocError>
    requires { shape_of tree.now ≡ between_operands }
    ensures { OnOk result (out.new.items ≡ out.old.items ++ spelled tree.now) }
{
    match tree {
        Expr::Compare {
            left,
            sign,
            right,
            ..
        } => {
            before(left.get(), sign.kind(), out)?;
            expr(right.get(), out)
        }
        Expr::Sum {
            left,
            sign,
            right,
            ..
        } => {
            before(left.get(), sign.kind(), out)?;
            expr(right.get(), out)
        }
        Expr::Product {
            left,
            sign,
            right,
            ..
        } => {
            before(left.get(), sign.kind(), out)?;
            expr(right.get(), out)
        }
        _ => unreachable!(),
    }
}

/// An operand, and the operator behind it.
#[cycle(spelling)]
fn before(operand: &Expr, kind: TokenKind, out: &mut Vec<TokenKind>) -> Result<(), AllocError>
    ensures { OnOk result (out.new.items ≡ out.old.items ++ (spelled operand.now & one kind)) }
{
    expr(operand, out)?;
    push(kind, out)
}

/// What begins with a word or a sign of its own, and is no call.
#[cycle(spelling)]
fn form(tree: &Expr, out: &mut Vec<TokenKind>) -> Result<(), AllocError>
    requires { shape_of tree.now ≡ own_word }
    ensures { OnOk result (out.new.items ≡ out.old.items ++ spelled tree.now) }
{
    match tree {
        Expr::If {
            condition,
            holds,
            fails,
            ..
        } => {
            behind(Keyword::If, condition.get(), out)?;
            behind(Keyword::Then, holds.get(), out)?;
            behind(Keyword::Else, fails.get(), out)
        }
        Expr::Signed { sign, operand, .. } => {
            push(sign.kind(), out)?;
            expr(operand.get(), out)
        }
        Expr::Bracket { inner, .. } => {
            Sign::LeftParen.spell(out)?;
            expr(inner.get(), out)?;
            Sign::RightParen.spell(out)
        }
        _ => unreachable!(),
    }
}

/// A word, and an expression behind it.
#[cycle(spelling)]
fn behind(word: Keyword, tree: &Expr, out: &mut Vec<TokenKind>) -> Result<(), AllocError>
    ensures { OnOk result (out.new.items ≡ out.old.items ++ (key word & spelled tree.now)) }
{
    word.spell(out)?;
    expr(tree, out)
}

/// What stands behind its only operand.
#[cycle(spelling)]
fn tail(tree: &Expr, out: &mut Vec<TokenKind>) -> Result<(), AllocError>
    requires { shape_of tree.now ≡ behind_operand }
    ensures { OnOk result (out.new.items ≡ out.old.items ++ spelled tree.now) }
{
    match tree {
        Expr::In {
            left,
            sign,
            set,
            ..
        } => {
            expr(left.get(), out)?;
            in_set(*sign, set, out)
        }
        Expr::Member { operand, name, .. } => {
            expr(operand.get(), out)?;
            both(&Sign::Hash, name, out)
        }
        Expr::Clause {
            operand,
            clause,
            ..
        } => {
            expr(operand.get(), out)?;
            Sign::LeftBracket.spell(out)?;
            self::clause(clause.get(), out)?;
            Sign::RightBracket.spell(out)
        }
        _ => unreachable!(),
    }
}

/// A call of one operand.
#[cycle(spelling)]
fn one_operand(tree: &Expr, out: &mut Vec<TokenKind>) -> Result<(), AllocError>
    requires { shape_of tree.now ≡ one_operand_call }
    ensures { OnOk result (out.new.items ≡ out.old.items ++ spelled tree.now) }
{
    match tree {
        Expr::Unary {
            function,
            operand,
            ..
        } => {
            call(function.kind(), operand.get(), out)?;
            Sign::RightParen.spell(out)
        }
        Expr::Round {
            function,
            operand,
            digits,
            ..
        } => {
            call(function.kind(), operand.get(), out)?;
            self::digits(digits, out)
        }
        Expr::Between {
            operand,
            low,
            high,
            ..
        } => {
            worded_call(Keyword::Between, operand.get(), out)?;
            limits(low, high, out)
        }
        Expr::MatchCharacters {
            operand,
            pattern,
            ..
        } => {
            worded_call(Keyword::MatchCharacters, operand.get(), out)?;
            self::pattern(pattern, out)
        }
        Expr::Time {
            function,
            operand,
            ..
        } => {
            call(function.kind(), operand.get(), out)?;
            Sign::RightParen.spell(out)
        }
        Expr::Timeshift { operand, shift, .. } => {
            worded_call(Keyword::Timeshift, operand.get(), out)?;
            self::shift(shift, out)
        }
        Expr::FillTimeSeries { operand, span, .. } => {
            worded_call(Keyword::FillTimeSeries, operand.get(), out)?;
            self::span(span, out)
        }
        _ => unreachable!(),
    }
}

/// A call of two operands.
#[cycle(spelling)]
fn two_operands(tree: &Expr, out: &mut Vec<TokenKind>) -> Result<(), AllocError>
    requires { shape_of tree.now ≡ two_operands_call }
    ensures { OnOk result (out.new.items ≡ out.old.items ++ spelled tree.now) }
{
    match tree {
        Expr::Binary {
            function,
            left,
            right,
            ..
        } => {
            call(function.kind(), left.get(), out)?;
            last_operand(right.get(), out)
        }
        Expr::Difference {
            function,
            left,
            right,
            ..
        } => {
            call(function.kind(), left.get(), out)?;
            last_operand(right.get(), out)
        }
        Expr::ExistsIn {
            left,
            right,
            rows,
            ..
        } => {
            worded_call(Keyword::ExistsIn, left.get(), out)?;
            next_operand(right.get(), out)?;
            self::rows(rows, out)
        }
        _ => unreachable!(),
    }
}

/// A call of some operands.
#[cycle(spelling)]
fn operands(tree: &Expr, out: &mut Vec<TokenKind>) -> Result<(), AllocError>
    requires { shape_of tree.now ≡ operands_call }
    ensures { OnOk result (out.new.items ≡ out.old.items ++ spelled tree.now) }
{
    match tree {
        Expr::Substr { operand, range, .. } => {
            worded_call(Keyword::Substr, operand.get(), out)?;
            optional_range(range, out)?;
            Sign::RightParen.spell(out)
        }
        Expr::Replace {
            operand,
            pattern,
            by,
            ..
        } => {
            worded_call(Keyword::Replace, operand.get(), out)?;
            next_operand(pattern.get(), out)?;
            optional_operand(by, out)?;
            Sign::RightParen.spell(out)
        }
        Expr::Sets {
            function,
            first,
            second,
            others,
            ..
        } => {
            call(function.kind(), first.get(), out)?;
            next_operand(second.get(), out)?;
            more_operands(others.as_slice(), out)?;
            Sign::RightParen.spell(out)
        }
        Expr::CallOf {
            name,
            arguments,
            ..
        } => {
            both(name, &Sign::LeftParen, out)?;
            self::arguments(arguments.as_slice(), out)?;
            Sign::RightParen.spell(out)
        }
        _ => unreachable!(),
    }
}

/// A join.
#[cycle(spelling)]
fn join(tree: &Expr, out: &mut Vec<TokenKind>) -> Result<(), AllocError>
    requires { shape_of tree.now ≡ join_call }
    ensures { OnOk result (out.new.items ≡ out.old.items ++ spelled tree.now) }
{
    let Expr::Join {
        function,
        first,
        second,
        others,
        filter,
        calc,
        keep,
        rename,
        ..
    } = tree
    else {
        unreachable!()
    };
    push(function.kind(), out)?;
    Sign::LeftParen.spell(out)?;
    join_operand(first.get(), out)?;
    next_join_operand(second.get(), out)?;
    more_join_operands(others.as_slice(), out)?;
    optional_clause(filter, out)?;
    optional_clause(calc, out)?;
    optional_clause(keep, out)?;
    optional_clause(rename, out)?;
    Sign::RightParen.spell(out)
}

/// A call over groups or over rows.
#[cycle(spelling)]
fn aggregate(tree: &Expr, out: &mut Vec<TokenKind>) -> Result<(), AllocError>
    requires { shape_of tree.now ≡ aggregate_call }
    ensures { OnOk result (out.new.items ≡ out.old.items ++ spelled tree.now) }
{
    match tree {
        Expr::Aggregate {
            function,
            operand,
            groups,
            ..
        } => {
            call(function.kind(), operand.get(), out)?;
            optional_groups(groups, out)?;
            Sign::RightParen.spell(out)
        }
        Expr::Window {
            function,
            operand,
            over,
            ..
        } => {
            call(function.kind(), operand.get(), out)?;
            both(over, &Sign::RightParen, out)
        }
        Expr::Offset {
            function,
            operand,
            offset,
            over,
            ..
        } => {
            call(function.kind(), operand.get(), out)?;
            self::offset(*offset, over, out)
        }
        _ => unreachable!(),
    }
}

/// A check of a condition or of the rules of a datapoint ruleset.
#[cycle(spelling)]
fn check(tree: &Expr, out: &mut Vec<TokenKind>) -> Result<(), AllocError>
    requires { shape_of tree.now ≡ check_call }
    ensures { OnOk result (out.new.items ≡ out.old.items ++ spelled tree.now) }
{
    match tree {
        Expr::CheckDatapoint {
            operand,
            ruleset,
            output,
            ..
        } => {
            worded_call(Keyword::CheckDatapoint, operand.get(), out)?;
            datapoint_check(ruleset, output, out)
        }
        Expr::Check {
            operand,
            code,
            level,
            imbalance,
            output,
            ..
        } => {
            worded_call(Keyword::Check, operand.get(), out)?;
            fault(code, level, out)?;
            optional_imbalance(imbalance, out)?;
            check_output(output, out)
        }
        _ => unreachable!(),
    }
}

/// A call by a hierarchical ruleset.
#[cycle(spelling)]
fn hierarchical(tree: &Expr, out: &mut Vec<TokenKind>) -> Result<(), AllocError>
    requires { shape_of tree.now ≡ hierarchical_call }
    ensures { OnOk result (out.new.items ≡ out.old.items ++ spelled tree.now) }
{
    match tree {
        Expr::Hierarchy {
            operand,
            ruleset,
            component,
            mode,
            input,
            output,
            ..
        } => {
            worded_call(Keyword::Hierarchy, operand.get(), out)?;
            both(&Sign::Comma, ruleset, out)?;
            hierarchy(component, mode, input, output, out)
        }
        Expr::CheckHierarchy {
            operand,
            ruleset,
            component,
            mode,
            input,
            output,
            ..
        } => {
            worded_call(Keyword::CheckHierarchy, operand.get(), out)?;
            both(&Sign::Comma, ruleset, out)?;
            hierarchy_check(component, mode, input, output, out)
        }
        _ => unreachable!(),
    }
}

#[cycle(spelling)]
fn optional_imbalance(
    imbalance: &Option<Boxed<Expr>>,
    out: &mut Vec<TokenKind>,
) -> Result<(), AllocError>
    ensures { OnOk result (out.new.items ≡ out.old.items ++ optional (λ e. key Keyword.Imbalance & spelled e) imbalance.now) }
{
    match imbalance {
        Some(imbalance) => behind(Keyword::Imbalance, imbalance.get(), out),
        None => Ok(()),
    }
}

/// The word of a call, and its first operand.
#[cycle(spelling)]
fn call(kind: TokenKind, operand: &Expr, out: &mut Vec<TokenKind>) -> Result<(), AllocError>
    ensures { OnOk result (out.new.items ≡ out.old.items ++ (one kind & open_paren & spelled operand.now)) }
{
    push(kind, out)?;
    Sign::LeftParen.spell(out)?;
    expr(operand, out)
}

#[cycle(spelling)]
fn next_operand(operand: &Expr, out: &mut Vec<TokenKind>) -> Result<(), AllocError>
    ensures { OnOk result (out.new.items ≡ out.old.items ++ (comma & spelled operand.now)) }
{
    Sign::Comma.spell(out)?;
    expr(operand, out)
}

/// A call that begins with that word.
#[cycle(spelling)]
fn worded_call(word: Keyword, operand: &Expr, out: &mut Vec<TokenKind>) -> Result<(), AllocError>
    ensures { OnOk result (out.new.items ≡ out.old.items ++ (key word & open_paren & spelled operand.now)) }
{
    call(TokenKind::Reserved(word), operand, out)
}

#[cycle(spelling)]
fn last_operand(operand: &Expr, out: &mut Vec<TokenKind>) -> Result<(), AllocError>
    ensures { OnOk result (out.new.items ≡ out.old.items ++ (comma & spelled operand.now & close_paren)) }
{
    next_operand(operand, out)?;
    Sign::RightParen.spell(out)
}

#[cycle(spelling)]
fn optional_operand(
    operand: &Option<Boxed<Expr>>,
    out: &mut Vec<TokenKind>,
) -> Result<(), AllocError>
    ensures { OnOk result (out.new.items ≡ out.old.items ++ optional (λ e. comma & spelled e) operand.now) }
{
    match operand {
        Some(operand) => next_operand(operand.get(), out),
        None => Ok(()),
    }
}

#[cycle(spelling)]
fn more_operands(operands: &[Expr], out: &mut Vec<TokenKind>) -> Result<(), AllocError>
    ensures { OnOk result (out.new.items ≡ out.old.items ++ flat_map (λ e. comma & spelled e) operands.now) }
{
    for operand in operands {
        next_operand(operand, out)?;
    }
    Ok(())
}

/// The arguments of a call of a defined operator.
#[cycle(spelling)]
fn arguments(arguments: &[Expr], out: &mut Vec<TokenKind>) -> Result<(), AllocError>
    ensures { OnOk result (out.new.items ≡ out.old.items ++ commas spelled arguments.now) }
{
    let mut some = false;
    for next in arguments {
        comma_behind(some, out)?;
        expr(next, out)?;
        some = true;
    }
    Ok(())
}

#[cycle(spelling)]
fn join_operand(operand: &JoinOperand, out: &mut Vec<TokenKind>) -> Result<(), AllocError>
    ensures { OnOk result (out.new.items ≡ out.old.items ++ operand_spelled operand.now) }
{
    expr(operand.expr.get(), out)?;
    worded(Keyword::As, &operand.alias, out)
}

#[cycle(spelling)]
fn next_join_operand(operand: &JoinOperand, out: &mut Vec<TokenKind>) -> Result<(), AllocError>
    ensures { OnOk result (out.new.items ≡ out.old.items ++ (comma & operand_spelled operand.now)) }
{
    Sign::Comma.spell(out)?;
    join_operand(operand, out)
}

#[cycle(spelling)]
fn more_join_operands(operands: &[JoinOperand], out: &mut Vec<TokenKind>) -> Result<(), AllocError>
    ensures { OnOk result (out.new.items ≡ out.old.items ++ flat_map (λ o. comma & operand_spelled o) operands.now) }
{
    for operand in operands {
        next_join_operand(operand, out)?;
    }
    Ok(())
}

#[cycle(spelling)]
fn optional_clause(
    clause: &Option<Boxed<Clause>>,
    out: &mut Vec<TokenKind>,
) -> Result<(), AllocError>
    ensures { OnOk result (out.new.items ≡ out.old.items ++ optional clause_spelled clause.now) }
{
    match clause {
        Some(clause) => self::clause(clause.get(), out),
        None => Ok(()),
    }
}

#[cycle(spelling)]
fn clause(clause: &Clause, out: &mut Vec<TokenKind>) -> Result<(), AllocError>
    ensures { OnOk result (out.new.items ≡ out.old.items ++ clause_spelled clause.now) }
{
    match clause {
        Clause::Filter { condition, .. } => behind(Keyword::Filter, condition.get(), out),
        Clause::Calc { items, .. } => {
            Keyword::Calc.spell(out)?;
            self::items(items.as_slice(), out)
        }
        Clause::Keep { components, .. } => listed(Keyword::Keep, components.as_slice(), out),
        Clause::Drop { components, .. } => listed(Keyword::Drop, components.as_slice(), out),
        Clause::Rename { renames, .. } => listed(Keyword::Rename, renames.as_slice(), out),
        Clause::Sub { items, .. } => listed(Keyword::Sub, items.as_slice(), out),
        Clause::Unpivot {
            identifier,
            measure,
            ..
        } => {
            both(&Keyword::Unpivot, identifier, out)?;
            both(&Sign::Comma, measure, out)
        }
        Clause::Aggr { items, groups, .. } => {
            Keyword::Aggr.spell(out)?;
            self::items(items.as_slice(), out)?;
            optional_groups(groups, out)
        }
    }
}

/// A comma, where something stands before.
fn comma_behind(something: bool, out: &mut Vec<TokenKind>) -> Result<(), AllocError>
    ensures { OnOk result (out.new.items ≡ out.old.items ++ (if something then comma else [])) }
{
    if something {
        Sign::Comma.spell(out)
    } else {
        Ok(())
    }
}

#[cycle(spelling)]
fn items(items: &[Item], out: &mut Vec<TokenKind>) -> Result<(), AllocError>
    ensures { OnOk result (out.new.items ≡ out.old.items ++ commas item_spelled items.now) }
{
    let mut some = false;
    for next in items {
        comma_behind(some, out)?;
        item(next, out)?;
        some = true;
    }
    Ok(())
}

#[cycle(spelling)]
fn item(item: &Item, out: &mut Vec<TokenKind>) -> Result<(), AllocError>
    ensures { OnOk result (out.new.items ≡ out.old.items ++ item_spelled item.now) }
{
    chosen(&item.role, out)?;
    both(&item.name, &Sign::Assign, out)?;
    expr(item.expr.get(), out)
}

#[cycle(spelling)]
fn groups(groups: &Groups, out: &mut Vec<TokenKind>) -> Result<(), AllocError>
    ensures { OnOk result (out.new.items ≡ out.old.items ++ groups_spelled groups.now) }
{
    groups.grouping.spell(out)?;
    match &groups.having {
        Some(having) => behind(Keyword::Having, having.get(), out),
        None => Ok(()),
    }
}

#[cycle(spelling)]
fn optional_groups(
    groups: &Option<Boxed<Groups>>,
    out: &mut Vec<TokenKind>,
) -> Result<(), AllocError>
    ensures { OnOk result (out.new.items ≡ out.old.items ++ optional groups_spelled groups.now) }
{
    match groups {
        Some(groups) => self::groups(groups.get(), out),
        None => Ok(()),
    }
}

#[cycle(spelling)]
fn range(range: &SubstrRange, out: &mut Vec<TokenKind>) -> Result<(), AllocError>
    ensures { OnOk result (out.new.items ≡ out.old.items ++ range_spelled range.now) }
{
    next_operand(range.start.get(), out)?;
    optional_operand(&range.length, out)
}

#[cycle(spelling)]
fn optional_range(range: &Option<SubstrRange>, out: &mut Vec<TokenKind>) -> Result<(), AllocError>
    ensures { OnOk result (out.new.items ≡ out.old.items ++ optional range_spelled range.now) }
{
    match range {
        Some(range) => self::range(range, out),
        None => Ok(()),
    }
}
