// Operators and operands that come to the same.
ghost use Rattle.std.specs.Prelude.{◌≡◌, true};
ghost use Rattle.data_set_typing.specs.Known as own;

use data_set_trees::{Form, Operand};
use scalar_trees::CheckedExpr;
use scalar_trees::typing::Typed;
use vtl_values::{CodeList, Codes, Component};

/// Whether both are the same operator, of those that are kept.
pub(crate) fn are_one_form(form: &Form, other: &Form) -> bool
    ensures { result ≡ true → form.now ≡ other.now }
{
    match (form, other) {
        (Form::Unary(operator), Form::Unary(second)) => operator == second,
        (Form::Binary(operator), Form::Binary(second)) => operator == second,
        (Form::Nvl, Form::Nvl) => true,
        (
            Form::Round { function, digits },
            Form::Round {
                function: second,
                digits: others,
            },
        ) => { function == second && digits == others }
        (Form::Substr, Form::Substr) => true,
        (Form::Replace, Form::Replace) => true,
        _ => false,
    }
}

#[tactic(auto, using(crate::proofs::Texts::texts_same))]
fn are_one_list(codes: &CodeList, others: &CodeList) -> bool
    ensures { result ≡ true → codes.now ≡ others.now }
{
    codes.as_slice() == others.as_slice()
}

fn allow_the_same(codes: &Codes, others: &Codes) -> bool
    ensures { result ≡ true → codes.now ≡ others.now }
{
    match (codes, others) {
        (Codes::Any, Codes::Any) => true,
        (Codes::Listed(codes), Codes::Listed(others)) => are_one_list(codes, others),
        _ => false,
    }
}

fn are_equal(component: &Component, other: &Component) -> bool
    ensures { result ≡ true → component.now ≡ other.now }
{
    component.name == other.name
        && component.role == other.role
        && component.kind == other.kind
        && allow_the_same(&component.codes, &other.codes)
}

/// Whether both are one structure, with the same code lists. It costs the number of components and of their codes.
fn are_one_structure(components: &[Component], others: &[Component]) -> bool
    ensures { result ≡ true → components.now ≡ others.now }
{
    match (components, others) {
        ([], []) => true,
        ([component, rest @ ..], [other, others @ ..]) => {
            are_equal(component, other) && are_one_structure(rest, others)
        }
        _ => false,
    }
}

/// Whether both are one literal.
fn are_one_literal(typed: &Typed, other: &Typed) -> bool
    ensures { result ≡ true → typed.now ≡ other.now }
{
    match (&typed.tree, &other.tree) {
        (CheckedExpr::Literal(value), CheckedExpr::Literal(second)) => {
            value == second && typed.kind == other.kind
        }
        _ => false,
    }
}

/// Whether both are data sets of one structure, or one literal.
fn are_alike(operand: &Operand, other: &Operand) -> bool
    ensures { result ≡ true → own.by_structure operand.now ≡ own.by_structure other.now }
{
    match (operand, other) {
        (Operand::DataSet(set), Operand::DataSet(second)) => {
            are_one_structure(set.structure.components(), second.structure.components())
        }
        (Operand::Scalar(typed), Operand::Scalar(second)) => are_one_literal(typed, second),
        _ => false,
    }
}

/// Whether one to three operands are alike, each with the other at its place.
pub(crate) fn are_all_alike(operands: &[Operand], others: &[Operand]) -> bool
    ensures { result ≡ true → own.by_structures operands.now ≡ own.by_structures others.now }
{
    match (operands, others) {
        ([operand], [other]) => are_alike(operand, other),
        ([left, right], [first, second]) => are_alike(left, first) && are_alike(right, second),
        ([left, middle, right], [first, second, third]) => {
            are_alike(left, first) && are_alike(middle, second) && are_alike(right, third)
        }
        _ => false,
    }
}
