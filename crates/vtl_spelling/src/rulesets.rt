// Rulesets.
ghost use Rattle.std.specs.Prelude.{◌≡◌, ◌++◌, OnOk};
ghost use Rattle.vtl_spelling.specs.Kinds.{◌&◌, key, optional, commas};
ghost use Rattle.vtl_spelling.specs.Rulesets.{variable_spelled, label, condition_spelled, fault_spelled, signed_name_spelled, datapoint_rule_spelled, hierarchy_rule_spelled, datapoint_rules_spelled, hierarchy_rules_spelled, ruleset_spelled};

use crate::calls::fault;
use crate::kinds::{Spell, both, chosen, each, listed, push, separated, worded, written};
use crate::trees::expr;
use sqlite_items::Items;
use std::alloc::AllocError;
use vtl_syntax::{
    DatapointRule, DatapointRules, Expr, FaultPart, HierarchyRule, HierarchyRules, Ruleset,
    SignedName, Variable,
};
use vtl_tokens::{Keyword, Sign, TokenKind};
use vtl_values::Word;

impl Spell for Variable {
    ghost spelled = { variable_spelled };

    fn spell(&self, out: &mut Vec<TokenKind>) -> Result<(), AllocError> {
        self.name.spell(out)?;
        worded(Keyword::As, &self.alias, out)
    }
}

impl Spell for SignedName {
    ghost spelled = { signed_name_spelled };

    fn spell(&self, out: &mut Vec<TokenKind>) -> Result<(), AllocError> {
        push(written(self.sign), out)?;
        self.name.spell(out)
    }
}

impl Spell for FaultPart {
    ghost spelled = { fault_spelled };

    fn spell(&self, out: &mut Vec<TokenKind>) -> Result<(), AllocError> {
        fault(&self.code, &self.level, out)
    }
}

fn rule_name(name: &Option<Word>, out: &mut Vec<TokenKind>) -> Result<(), AllocError>
    ensures { OnOk result (out.new.items ≡ out.old.items ++ optional label name.now) }
{
    match name {
        Some(name) => both(name, &Sign::Colon, out),
        None => Ok(()),
    }
}

fn condition(condition: &Option<Expr>, out: &mut Vec<TokenKind>) -> Result<(), AllocError>
    ensures { OnOk result (out.new.items ≡ out.old.items ++ optional condition_spelled condition.now) }
{
    let Some(condition) = condition else {
        return Ok(());
    };
    Keyword::When.spell(out)?;
    expr(condition, out)?;
    Keyword::Then.spell(out)
}

impl Spell for DatapointRule {
    ghost spelled = { datapoint_rule_spelled };

    fn spell(&self, out: &mut Vec<TokenKind>) -> Result<(), AllocError> {
        rule_name(&self.name, out)?;
        condition(&self.condition, out)?;
        expr(&self.expr, out)?;
        self.fault.spell(out)
    }
}

impl Spell for HierarchyRule {
    ghost spelled = { hierarchy_rule_spelled };

    fn spell(&self, out: &mut Vec<TokenKind>) -> Result<(), AllocError> {
        rule_name(&self.name, out)?;
        condition(&self.condition, out)?;
        self.left.spell(out)?;
        push(written(self.relation), out)?;
        chosen(&self.sign, out)?;
        self.first.spell(out)?;
        each(self.others.as_slice(), out)?;
        self.fault.spell(out)
    }
}

impl Spell for DatapointRules {
    ghost spelled = { datapoint_rules_spelled };

    fn spell(&self, out: &mut Vec<TokenKind>) -> Result<(), AllocError> {
        both(&Keyword::Datapoint, &Keyword::Ruleset, out)?;
        both(&self.name, &Sign::LeftParen, out)?;
        Keyword::Variable.spell(out)?;
        separated(Sign::Comma, self.variables.as_slice(), out)?;
        both(&Sign::RightParen, &Keyword::Is, out)?;
        separated(Sign::Semicolon, self.rules.as_slice(), out)?;
        Keyword::End.spell(out)?;
        both(&Keyword::Datapoint, &Keyword::Ruleset, out)
    }
}

fn conditions(
    variables: &Option<Items<Variable>>,
    out: &mut Vec<TokenKind>,
) -> Result<(), AllocError>
    ensures { OnOk result (out.new.items ≡ out.old.items ++ optional (λ vs. key Keyword.Condition & commas variable_spelled vs) variables.now) }
{
    let Some(variables) = variables else {
        return Ok(());
    };
    listed(Keyword::Condition, variables.as_slice(), out)
}

impl Spell for HierarchyRules {
    ghost spelled = { hierarchy_rules_spelled };

    fn spell(&self, out: &mut Vec<TokenKind>) -> Result<(), AllocError> {
        both(&Keyword::Hierarchical, &Keyword::Ruleset, out)?;
        both(&self.name, &Sign::LeftParen, out)?;
        Keyword::Variable.spell(out)?;
        conditions(&self.variables, out)?;
        both(&Keyword::Rule, &self.component, out)?;
        both(&Sign::RightParen, &Keyword::Is, out)?;
        separated(Sign::Semicolon, self.rules.as_slice(), out)?;
        Keyword::End.spell(out)?;
        both(&Keyword::Hierarchical, &Keyword::Ruleset, out)
    }
}

impl Spell for Ruleset {
    ghost spelled = { ruleset_spelled };

    fn spell(&self, out: &mut Vec<TokenKind>) -> Result<(), AllocError> {
        match self {
            Ruleset::Datapoint(rules) => {
                both(&Keyword::Define, rules, out)?;
                Sign::Semicolon.spell(out)
            }
            Ruleset::Hierarchy(rules) => {
                both(&Keyword::Define, rules, out)?;
                Sign::Semicolon.spell(out)
            }
        }
    }
}
