// Scripts.
ghost use Rattle.std.specs.Prelude.{◌≡◌, ◌<◌, ◌-◌, length};
ghost use Rattle.vtl_tokens.specs.declared.sign.Sign.TheVariants as signs;
ghost use Rattle.vtl_grammar.specs.Rules.{either, sig};
ghost use Rattle.vtl_grammar.specs.Scripts.{a_ruleset, statement_rule, statement_of, is_arrow};
ghost use Rattle.vtl_grammar.specs.Reading.{no_part, starts};
ghost use Rattle.vtl_grammar.specs.ScriptReading.{any_left, definitions, kind_firsts};
ghost use Rattle.vtl_cursor.specs.Limits.{limits};
ghost use Rattle.vtl_cursor.specs.Plain.{read_plain};
ghost use Rattle.vtl_cursor.specs.Views.{Gives, Shows, ShowsDeep};
ghost use Rattle.vtl_parser.specs.Nested.{ReadsBelow};
ghost use Rattle.vtl_parser.specs.RuleParts.{rule_read};
ghost use Rattle.vtl_parser.specs.Scripts.{Advances, Begins, HasRoom, TellsDefinition, TellsKind, left_of, script_read, whole_read};

use crate::expression::expression;
use crate::parser::Parser;
use sqlite_items::{Boxed, Items};
use std::alloc::Global;
use vtl_cursor::{Cursor, Kind, Limit, Stop};
use vtl_syntax::{DefinedOperator, Expr, Ruleset, Script, Statement};
use vtl_tokens::{Keyword, Sign};

/// How many levels an expression may have.
const LEVELS: u8 = 64;

const MOST_STATEMENTS: usize = 256;

const MOST_RULESETS: usize = 64;

const MOST_OPERATORS: usize = 64;

/// What a script is made of.
#[derive(Clone, Copy)]
pub enum PieceKind {
    Statement,
    Ruleset,
    Operator,
}

/// A script up to the end, within the limits of the language.
pub fn whole(alloc: Global, cursor: &mut Cursor<'_>) -> Result<Script, Stop>
    ensures { Gives cursor.new.tokens.now result (whole_read cursor.old.tokens.now) }
{
    Parser {
        alloc,
        depth: LEVELS + 1,
        expression,
    }
    .script(cursor)
}

impl<F: Fn(Global, &mut Cursor<'_>, u8, u8) -> Result<(Boxed<Expr>, u8), Stop> + Copy> Parser<F> {
    /// A script up to the end.
    fn script(&self, cursor: &mut Cursor<'_>) -> Result<Script, Stop>
        requires reads { ReadsBelow self.now.depth (F.pre self.now.expression) (F.post self.now.expression) }
        requires some { 0 < self.now.depth }
        ensures { Gives cursor.new.tokens.now result (script_read (self.now.depth - 1) cursor.old.tokens.now) }
    {
        let mut script = Script {
            statements: Items::new(self.alloc),
            rulesets: Items::new(self.alloc),
            operators: Items::new(self.alloc),
        };
        while !cursor.tokens.is_empty() {
            self.piece(cursor, &mut script)?;
        }
        Ok(script)
    }

    /// One more statement, ruleset or operator.
    fn piece(&self, cursor: &mut Cursor<'_>, script: &mut Script) -> Result<(), Stop>
        requires reads { ReadsBelow self.now.depth (F.pre self.now.expression) (F.post self.now.expression) }
        requires some { 0 < self.now.depth }
        requires more { 0 < length cursor.old.tokens.now }
        requires few { HasRoom script.old }
        ensures { Advances (self.now.depth - 1) script.old script.new cursor.old.tokens.now cursor.new.tokens.now result }
    {
        match kind(cursor, script)? {
            PieceKind::Statement => self.push_statement(cursor, script),
            PieceKind::Ruleset => self.push_ruleset(cursor, script),
            PieceKind::Operator => self.push_operator(cursor, script),
        }
    }

    fn push_statement(&self, cursor: &mut Cursor<'_>, script: &mut Script) -> Result<(), Stop>
        requires reads { ReadsBelow self.now.depth (F.pre self.now.expression) (F.post self.now.expression) }
        requires some { 0 < self.now.depth }
        requires few { HasRoom script.old }
        requires begins { Begins PieceKind.Statement script.old cursor.old.tokens.now }
        ensures { Advances (self.now.depth - 1) script.old script.new cursor.old.tokens.now cursor.new.tokens.now result }
    {
        let (statement, _) = self.statement(cursor)?;
        script.statements.push(statement)?;
        Ok(())
    }

    fn push_ruleset(&self, cursor: &mut Cursor<'_>, script: &mut Script) -> Result<(), Stop>
        requires reads { ReadsBelow self.now.depth (F.pre self.now.expression) (F.post self.now.expression) }
        requires some { 0 < self.now.depth }
        requires few { HasRoom script.old }
        requires begins { Begins PieceKind.Ruleset script.old cursor.old.tokens.now }
        ensures { Advances (self.now.depth - 1) script.old script.new cursor.old.tokens.now cursor.new.tokens.now result }
    {
        let (ruleset, _) = self.definition::<Ruleset>(cursor)?;
        script.rulesets.push(ruleset)?;
        Ok(())
    }

    fn push_operator(&self, cursor: &mut Cursor<'_>, script: &mut Script) -> Result<(), Stop>
        requires reads { ReadsBelow self.now.depth (F.pre self.now.expression) (F.post self.now.expression) }
        requires some { 0 < self.now.depth }
        requires few { HasRoom script.old }
        requires begins { Begins PieceKind.Operator script.old cursor.old.tokens.now }
        ensures { Advances (self.now.depth - 1) script.old script.new cursor.old.tokens.now cursor.new.tokens.now result }
    {
        let (operator, _) = self.definition::<DefinedOperator>(cursor)?;
        script.operators.push(operator)?;
        Ok(())
    }

    /// A statement and the semicolon after it, and its levels.
    #[tactic(auto, using(vtl_cursor::proofs::Shown::shown_deep, vtl_cursor::proofs::Shown::shown), unfolding(crate::specs::RuleParts::rule_read))]
    fn statement(&self, cursor: &mut Cursor<'_>) -> Result<(Statement, u8), Stop>
        requires { ReadsBelow self.now.depth (F.pre self.now.expression) (F.post self.now.expression) }
        ensures { ShowsDeep statement_of cursor.new.tokens.now result (rule_read self.now.depth statement_rule cursor.old.tokens.now) }
    {
        let name = cursor.name()?;
        let persistent = assignment(cursor)?;
        let (expr, levels) = self.operand(cursor, 0)?;
        cursor.sign(Sign::Semicolon)?;
        let statement = Statement {
            name: name.value,
            persistent,
            expr: expr.into_inner(),
            place: name.place,
        };
        Ok((statement, levels))
    }
}

/// Whether the sign of an assignment is the arrow.
fn assignment(cursor: &mut Cursor) -> Result<bool, Stop>
    ensures { Shows is_arrow cursor.new.tokens.now result (read_plain limits no_part (either (sig signs.Arrow) (sig signs.Assign)) cursor.old.tokens.now) }
{
    if cursor.is_sign(Sign::Arrow) {
        cursor.sign(Sign::Arrow)?;
        return Ok(true);
    }
    cursor.sign(Sign::Assign)?;
    Ok(false)
}

/// The kind of the piece that begins there, of which one more may come. The cursor moves only to a fault.
fn kind(cursor: &mut Cursor, script: &Script) -> Result<PieceKind, Stop>
    requires more { 0 < length cursor.old.tokens.now }
    requires few { HasRoom script.now }
    ensures { TellsKind script.now cursor.old.tokens.now cursor.new.tokens.now result }
{
    if cursor.is_name() {
        if script.statements.len() == MOST_STATEMENTS {
            return Err(Stop::At(Kind::TooMany(Limit::Statements)));
        }
        return Ok(PieceKind::Statement);
    }
    if !cursor.is_word(Keyword::Define) {
        return Err(Stop::At(Kind::Expected));
    }
    if !may_define(script) {
        return Err(Stop::At(Kind::TooMany(Limit::Rulesets)));
    }
    let definition = *cursor;
    cursor.skip();
    let kind = definition_kind(cursor, script)?;
    *cursor = definition;
    Ok(kind)
}

/// Whether one more definition of some kind may come.
fn may_define(script: &Script) -> bool
    ensures { result ≡ any_left (left_of script.now) definitions }
{
    script.rulesets.len() < MOST_RULESETS || script.operators.len() < MOST_OPERATORS
}

/// The kind of the definition whose word after `define` stands there.
fn definition_kind(cursor: &Cursor, script: &Script) -> Result<PieceKind, Stop>
    requires few { HasRoom script.now }
    ensures { TellsDefinition script.now cursor.now.tokens.now result }
{
    if is_ruleset(cursor) {
        if script.rulesets.len() == MOST_RULESETS {
            return Err(Stop::At(Kind::TooMany(Limit::Rulesets)));
        }
        return Ok(PieceKind::Ruleset);
    }
    if !cursor.is_word(Keyword::Operator) {
        return Err(Stop::At(Kind::Expected));
    }
    if script.operators.len() == MOST_OPERATORS {
        return Err(Stop::At(Kind::TooMany(Limit::Operators)));
    }
    Ok(PieceKind::Operator)
}

/// Whether a ruleset stands there, after `define`.
fn is_ruleset(cursor: &Cursor) -> bool
    ensures { result ≡ starts (kind_firsts a_ruleset) cursor.now.tokens.now }
{
    cursor.is_word(Keyword::Datapoint) || cursor.is_word(Keyword::Hierarchical)
}
