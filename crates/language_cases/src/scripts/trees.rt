// The tree of a script: a line for each statement, ruleset, rule and operator.
use crate::scripts::fields::{push_choice, push_integer, push_name, push_place, push_word};
use crate::scripts::forms::{push_form, push_optional, push_part};
use crate::scripts::parts::push_variables;
use anyhow::Result;
use std::alloc::{AllocError, Global};
use vtl_syntax::{DatapointRule, DefinedOperator, FaultPart, HierarchyRule, Ruleset, Script};

/// The statements, the rulesets with their rules, and the operators.
pub fn tree(alloc: Global, script: &Script) -> Result<String> {
    let mut out = String::new(alloc);
    for statement in script.statements.as_slice() {
        let sign = if statement.persistent { "<-" } else { ":=" };
        push_place(&mut out, statement.place)?;
        write!(out, "{} {sign} ", statement.name.as_str())?;
        push_form(&mut out, &statement.expr)?;
        out.push_str("\n")?;
    }
    for ruleset in script.rulesets.as_slice() {
        push_ruleset(&mut out, ruleset)?;
    }
    for operator in script.operators.as_slice() {
        push_operator(&mut out, operator)?;
    }
    out.pop();
    Ok(out)
}

fn push_ruleset(out: &mut String, ruleset: &Ruleset) -> Result<(), AllocError> {
    match ruleset {
        Ruleset::Datapoint(rules) => {
            push_place(out, rules.place)?;
            write!(out, "datapoint {}", rules.name.as_str())?;
            push_variables(out, rules.variables.as_slice())?;
            for rule in rules.rules.as_slice() {
                push_datapoint_rule(out, rule)?;
            }
        }
        Ruleset::Hierarchy(rules) => {
            push_place(out, rules.place)?;
            write!(
                out,
                "hierarchy {} rule {}",
                rules.name.as_str(),
                rules.component.as_str()
            )?;
            if let Some(variables) = &rules.variables {
                push_variables(out, variables.as_slice())?;
            }
            for rule in rules.rules.as_slice() {
                push_hierarchy_rule(out, rule)?;
            }
        }
    }
    out.push_str("\n")
}

fn push_datapoint_rule(out: &mut String, rule: &DatapointRule) -> Result<(), AllocError> {
    out.push_str("\n  ")?;
    push_place(out, rule.place)?;
    out.push_str("rule")?;
    push_name(out, "named", &rule.name)?;
    push_optional(out, "when", &rule.condition)?;
    push_part(out, &rule.expr)?;
    push_fault(out, &rule.fault)
}

fn push_hierarchy_rule(out: &mut String, rule: &HierarchyRule) -> Result<(), AllocError> {
    out.push_str("\n  ")?;
    push_place(out, rule.place)?;
    out.push_str("rule")?;
    push_name(out, "named", &rule.name)?;
    push_optional(out, "when", &rule.condition)?;
    push_word(out, &rule.left)?;
    push_choice(out, &rule.relation)?;
    if let Some(sign) = &rule.sign {
        push_choice(out, sign)?;
    }
    push_word(out, &rule.first)?;
    for other in rule.others.as_slice() {
        out.push_str(" (")?;
        push_place(out, other.place)?;
        write!(out, "{:?} {})", other.sign, other.name.as_str())?;
    }
    push_fault(out, &rule.fault)
}

fn push_fault(out: &mut String, fault: &FaultPart) -> Result<(), AllocError> {
    out.push_str(" ")?;
    push_place(out, fault.place)?;
    out.push_str("fault")?;
    push_name(out, "code", &fault.code)?;
    push_integer(out, "level", &fault.level)
}

fn push_operator(out: &mut String, operator: &DefinedOperator) -> Result<(), AllocError> {
    push_place(out, operator.place)?;
    write!(out, "operator {}", operator.name.as_str())?;
    for param in operator.params.as_slice() {
        out.push_str(" (")?;
        push_place(out, param.place)?;
        write!(out, "{} {:?})", param.name.as_str(), param.sort)?;
    }
    if let Some(sort) = &operator.returns {
        out.push_str(" returns")?;
        push_choice(out, sort)?;
    }
    out.push_str(" ")?;
    push_form(out, &operator.body)?;
    out.push_str("\n")
}
