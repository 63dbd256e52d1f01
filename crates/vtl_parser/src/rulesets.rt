// Rulesets.
ghost use Rattle.std.specs.Prelude.{◌≡◌};
ghost use Rattle.std.specs.Option.{option_map};
ghost use Rattle.vtl_tokens.specs.declared.keyword.Keyword.TheVariants as words;
ghost use Rattle.vtl_grammar.specs.Rules.{◌▸◌, word, expr, commas, listed};
ghost use Rattle.vtl_grammar.specs.Rulesets.{variable, variable_of, datapoint_rules, datapoint_rules_of, hierarchy_rules, hierarchy_rules_of};
ghost use Rattle.vtl_grammar.specs.Reading.{no_part, below, firsts, maybe};
ghost use Rattle.vtl_cursor.specs.Limits.{limits};
ghost use Rattle.vtl_cursor.specs.Plain.{read_plain};
ghost use Rattle.vtl_cursor.specs.Views.{Shows, ShowsDeep};
ghost use Rattle.vtl_parser.specs.RuleParts.{body_rule, body_of, variables_rule, variables_of, datapoint_parts, datapoint_parts_of, component_rule, component_of, conditions_rule, conditions_of, hierarchy_parts, hierarchy_parts_of, sides_rule, sides_of, rule_read};
ghost use Rattle.vtl_parser.specs.Nested.{ReadsBelow};

use crate::definition::Definition;
use crate::parser::{ListItem, Parser};
use sqlite_items::{Boxed, Items};
use std::alloc::Global;
use vtl_cursor::outputs::{error_code, error_level, label};
use vtl_cursor::rules::{fault_part, signed_names};
use vtl_cursor::{Cursor, Limit, Stop, choice, commas, optional_choice};
use vtl_syntax::{
    DatapointRule, DatapointRules, Expr, FaultPart, HierarchyRule, HierarchyRules, Ruleset,
    Variable,
};
use vtl_tokens::{Keyword, Sign};
use vtl_values::{Place, Word};

impl<F: Fn(Global, &mut Cursor<'_>, u8, u8) -> Result<(Boxed<Expr>, u8), Stop> + Copy> Parser<F> {
    /// `datapoint ruleset name (variable ..) is .. end datapoint ruleset`
    fn datapoint_rules(
        &self,
        cursor: &mut Cursor<'_>,
        place: Place,
    ) -> Result<(DatapointRules, u8), Stop>
        requires { ReadsBelow self.now.depth (F.pre self.now.expression) (F.post self.now.expression) }
        ensures { ShowsDeep (datapoint_rules_of place) cursor.new.tokens.now result (rule_read self.now.depth datapoint_rules cursor.old.tokens.now) }
    {
        let ((name, (variables, rules)), levels) = self.datapoint_parts::<DatapointRule>(cursor)?;
        let rules = DatapointRules {
            name,
            variables,
            rules,
            place,
        };
        Ok((rules, levels))
    }

    /// The name, the variables and the rules of a datapoint ruleset.
    #[tactic(auto, using(vtl_cursor::proofs::Shown::shown_deep, vtl_cursor::proofs::Shown::shown), unfolding(crate::specs::RuleParts::rule_read))]
    fn datapoint_parts<T: ListItem>(
        &self,
        cursor: &mut Cursor<'_>,
    ) -> Result<((Word, (Items<Variable>, Items<T>)), u8), Stop>
        requires { ReadsBelow self.now.depth (F.pre self.now.expression) (F.post self.now.expression) }
        ensures { ShowsDeep (datapoint_parts_of T.rule T.of) cursor.new.tokens.now result (rule_read self.now.depth (datapoint_parts T.rule) cursor.old.tokens.now) }
    {
        cursor.word(Keyword::Datapoint)?;
        cursor.word(Keyword::Ruleset)?;
        let name = cursor.name()?;
        let (parts, levels) = self.variables_and_rules::<T>(cursor)?;
        Ok(((name.value, parts), levels))
    }

    /// `(variable ..) is .. end datapoint ruleset`
    fn variables_and_rules<T: ListItem>(
        &self,
        cursor: &mut Cursor<'_>,
    ) -> Result<((Items<Variable>, Items<T>), u8), Stop>
        requires { ReadsBelow self.now.depth (F.pre self.now.expression) (F.post self.now.expression) }
        ensures { ShowsDeep (variables_of T.rule T.of) cursor.new.tokens.now result (read_plain limits (below limits self.now.depth) (variables_rule T.rule) cursor.old.tokens.now) }
    {
        cursor.sign(Sign::LeftParen)?;
        cursor.word(Keyword::Variable)?;
        let variables = commas::<Variable>(self.alloc, cursor)?;
        cursor.sign(Sign::RightParen)?;
        let (rules, levels) = self.body::<T>(cursor, Keyword::Datapoint)?;
        Ok(((variables, rules), levels))
    }

    /// `hierarchical ruleset name (variable condition .. rule name) is .. end hierarchical ruleset`
    fn hierarchy_rules(
        &self,
        cursor: &mut Cursor<'_>,
        place: Place,
    ) -> Result<(HierarchyRules, u8), Stop>
        requires { ReadsBelow self.now.depth (F.pre self.now.expression) (F.post self.now.expression) }
        ensures { ShowsDeep (hierarchy_rules_of place) cursor.new.tokens.now result (rule_read self.now.depth hierarchy_rules cursor.old.tokens.now) }
    {
        let ((name, (variables, (component, rules))), levels) = self.hierarchy_parts::<
            HierarchyRule,
        >(cursor)?;
        let rules = HierarchyRules {
            name,
            variables,
            component,
            rules,
            place,
        };
        Ok((rules, levels))
    }

    /// The name, the variables, the component and the rules of a hierarchical ruleset.
    #[tactic(auto, using(vtl_cursor::proofs::Shown::shown_deep, vtl_cursor::proofs::Shown::shown), unfolding(crate::specs::RuleParts::rule_read))]
    fn hierarchy_parts<T: ListItem>(
        &self,
        cursor: &mut Cursor<'_>,
    ) -> Result<((Word, (Option<Items<Variable>>, (Word, Items<T>))), u8), Stop>
        requires { ReadsBelow self.now.depth (F.pre self.now.expression) (F.post self.now.expression) }
        ensures { ShowsDeep (hierarchy_parts_of T.rule T.of) cursor.new.tokens.now result (rule_read self.now.depth (hierarchy_parts T.rule) cursor.old.tokens.now) }
    {
        cursor.word(Keyword::Hierarchical)?;
        cursor.word(Keyword::Ruleset)?;
        let name = cursor.name()?;
        let (parts, levels) = self.conditions_and_rules::<T>(cursor)?;
        Ok(((name.value, parts), levels))
    }

    /// `(variable condition .. rule name) is .. end hierarchical ruleset`
    fn conditions_and_rules<T: ListItem>(
        &self,
        cursor: &mut Cursor<'_>,
    ) -> Result<((Option<Items<Variable>>, (Word, Items<T>)), u8), Stop>
        requires { ReadsBelow self.now.depth (F.pre self.now.expression) (F.post self.now.expression) }
        ensures { ShowsDeep (conditions_of T.rule T.of) cursor.new.tokens.now result (read_plain limits (below limits self.now.depth) (conditions_rule T.rule) cursor.old.tokens.now) }
    {
        cursor.sign(Sign::LeftParen)?;
        cursor.word(Keyword::Variable)?;
        let variables = conditions(self.alloc, cursor)?;
        let (parts, levels) = self.component_and_rules::<T>(cursor)?;
        Ok(((variables, parts), levels))
    }

    /// `rule name) is .. end hierarchical ruleset`
    fn component_and_rules<T: ListItem>(
        &self,
        cursor: &mut Cursor<'_>,
    ) -> Result<((Word, Items<T>), u8), Stop>
        requires { ReadsBelow self.now.depth (F.pre self.now.expression) (F.post self.now.expression) }
        ensures { ShowsDeep (component_of T.rule T.of) cursor.new.tokens.now result (read_plain limits (below limits self.now.depth) (component_rule T.rule) cursor.old.tokens.now) }
    {
        cursor.word(Keyword::Rule)?;
        let component = cursor.name()?;
        cursor.sign(Sign::RightParen)?;
        let (rules, levels) = self.body::<T>(cursor, Keyword::Hierarchical)?;
        Ok(((component.value, rules), levels))
    }

    /// `is rules end kind ruleset`, and their levels.
    fn body<T: ListItem>(
        &self,
        cursor: &mut Cursor<'_>,
        kind: Keyword,
    ) -> Result<(Items<T>, u8), Stop>
        requires { ReadsBelow self.now.depth (F.pre self.now.expression) (F.post self.now.expression) }
        ensures { ShowsDeep (body_of T.rule kind T.of) cursor.new.tokens.now result (read_plain limits (below limits self.now.depth) (body_rule T.rule kind) cursor.old.tokens.now) }
    {
        cursor.word(Keyword::Is)?;
        let (rules, levels) = self.list::<T>(cursor, Sign::Semicolon, Limit::Rules)?;
        cursor.word(Keyword::End)?;
        cursor.word(kind)?;
        cursor.word(Keyword::Ruleset)?;
        Ok((rules, levels))
    }

    /// `when condition then`, or nothing; and its levels.
    fn condition(&self, cursor: &mut Cursor<'_>) -> Result<(Option<Boxed<Expr>>, u8), Stop>
        requires { ReadsBelow self.now.depth (F.pre self.now.expression) (F.post self.now.expression) }
        ensures { ShowsDeep (λ v. option_map (λ w. w.1.0) v) cursor.new.tokens.now result (maybe (firsts (word words.When)) (read_plain limits (below limits self.now.depth) (word words.When ▸ expr 0 ▸ word words.Then)) cursor.old.tokens.now) }
    {
        if !cursor.is_word(Keyword::When) {
            return Ok((None, 0));
        }
        cursor.word(Keyword::When)?;
        let (condition, levels) = self.operand(cursor, 0)?;
        cursor.word(Keyword::Then)?;
        Ok((Some(condition), levels))
    }
}

impl Definition for Ruleset {
    ghost use Rattle.vtl_grammar.specs.Rulesets.{ruleset_rule, ruleset_of};

    ghost rule = { ruleset_rule };

    ghost of = { ruleset_of };

    /// `datapoint ruleset ..` or `hierarchical ruleset ..`
    fn parse<F: Fn(Global, &mut Cursor<'_>, u8, u8) -> Result<(Boxed<Expr>, u8), Stop> + Copy>(
        parser: &Parser<F>,
        cursor: &mut Cursor<'_>,
        place: Place,
    ) -> Result<(Self, u8), Stop> {
        if cursor.is_word(Keyword::Datapoint) {
            let (rules, levels) = parser.datapoint_rules(cursor, place)?;
            return Ok((Ruleset::Datapoint(rules), levels));
        }
        let (rules, levels) = parser.hierarchy_rules(cursor, place)?;
        Ok((Ruleset::Hierarchy(rules), levels))
    }
}

impl ListItem for DatapointRule {
    ghost use Rattle.vtl_grammar.specs.Rulesets.{datapoint_rule, datapoint_rule_of};

    ghost rule = { datapoint_rule };

    ghost of = { datapoint_rule_of };

    /// `name : when condition then expr errorcode .. errorlevel ..`
    fn parse<F: Fn(Global, &mut Cursor<'_>, u8, u8) -> Result<(Boxed<Expr>, u8), Stop> + Copy>(
        parser: &Parser<F>,
        cursor: &mut Cursor<'_>,
    ) -> Result<(Self, u8), Stop> {
        let place = cursor.first_place();
        let name = label(cursor)?;
        let (condition, in_condition) = parser.condition(cursor)?;
        let (expr, in_expr) = parser.operand(cursor, 0)?;
        let code = error_code(cursor)?;
        let level = error_level(cursor)?;
        let fault = fault_part(code, level, place);
        let rule = datapoint_rule(name, condition, expr, fault, place);
        Ok((rule, in_condition.max(in_expr)))
    }
}

impl ListItem for HierarchyRule {
    ghost use Rattle.vtl_grammar.specs.Rulesets.{hierarchy_rule, hierarchy_rule_of};

    ghost rule = { hierarchy_rule };

    ghost of = { hierarchy_rule_of };

    /// `name : when condition then left = first + others errorcode .. errorlevel ..`
    fn parse<F: Fn(Global, &mut Cursor<'_>, u8, u8) -> Result<(Boxed<Expr>, u8), Stop> + Copy>(
        parser: &Parser<F>,
        cursor: &mut Cursor<'_>,
    ) -> Result<(Self, u8), Stop> {
        let place = cursor.first_place();
        let name = label(cursor)?;
        let (condition, levels) = parser.condition(cursor)?;
        let rule = sides(parser.alloc, cursor, name, unboxed(condition), place)?;
        Ok((rule, levels))
    }
}

/// What a rule of a hierarchy says behind its name and its condition.
#[tactic(auto, using(vtl_cursor::proofs::Shown::shown, crate::proofs::RuleFaults::same_fault))]
fn sides(
    alloc: Global,
    cursor: &mut Cursor,
    name: Option<Word>,
    condition: Option<Expr>,
    place: Place,
) -> Result<HierarchyRule, Stop>
    ensures { Shows (sides_of name condition place) cursor.new.tokens.now result (read_plain limits no_part sides_rule cursor.old.tokens.now) }
{
    let left = cursor.name()?;
    let relation = choice(cursor)?;
    let sign = optional_choice(cursor);
    let first = cursor.name()?;
    let others = signed_names(alloc, cursor)?;
    let code = error_code(cursor)?;
    let level = error_level(cursor)?;
    Ok(HierarchyRule {
        name,
        condition,
        left: left.value,
        relation,
        sign,
        first: first.value,
        others,
        fault: fault_part(code, level, place),
        place,
    })
}

/// `condition` and the variables of conditions, or nothing.
fn conditions(alloc: Global, cursor: &mut Cursor) -> Result<Option<Items<Variable>>, Stop>
    ensures { Shows (λ v. option_map (λ w. listed variable_of w.1) v) cursor.new.tokens.now result (maybe (firsts (word words.Condition)) (read_plain limits no_part (word words.Condition ▸ commas variable)) cursor.old.tokens.now) }
{
    if !cursor.is_word(Keyword::Condition) {
        return Ok(None);
    }
    cursor.word(Keyword::Condition)?;
    let variables = commas(alloc, cursor)?;
    Ok(Some(variables))
}

fn datapoint_rule(
    name: Option<Word>,
    condition: Option<Boxed<Expr>>,
    expr: Boxed<Expr>,
    fault: FaultPart,
    place: Place,
) -> DatapointRule
    ensures { result ≡ (record { name = name; condition = condition; expr = expr; fault = fault; place = place }) }
{
    DatapointRule {
        name,
        condition: unboxed(condition),
        expr: expr.into_inner(),
        fault,
        place,
    }
}

fn unboxed(expr: Option<Boxed<Expr>>) -> Option<Expr>
    ensures { result ≡ expr }
{
    match expr {
        Some(expr) => Some(expr.into_inner()),
        None => None,
    }
}
