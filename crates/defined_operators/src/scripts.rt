// Scripts whose expressions become others.
ghost use Rattle.std.specs.Prelude.{◌≡◌, map, IfOk};
ghost use Rattle.replaced_calls.specs.Scripts as meant;
ghost use Rattle.replaced_calls.specs.Scripts.{statement_with, script_with};
ghost use Rattle.defined_operators.specs.Writers.{writes, operator_with};

use crate::calling::Calling;
use crate::copies::copy_params;
use crate::uses::levels_to;
use crate::writer::Writer;
use sqlite_items::Items;
use std::alloc::{AllocError, Global};
use vtl_syntax::{DefinedOperator, Script, Statement};

impl Writer<'_> {
    fn statement(&self, alloc: Global, statement: &Statement) -> Result<Statement, AllocError>
        ensures { IfOk result (λ made. made ≡ statement_with (writes self.now) statement.now) }
    {
        Ok(Statement {
            name: statement.name.copy()?,
            persistent: statement.persistent,
            expr: self.write(alloc, &statement.expr)?,
            place: statement.place,
        })
    }

    fn statements(
        &self,
        alloc: Global,
        statements: &[Statement],
    ) -> Result<Items<Statement>, AllocError>
        ensures { IfOk result (λ made. made ≡ map (statement_with (writes self.now)) statements.now) }
    {
        let mut made = Items::new(alloc);
        for statement in statements {
            made.push(self.statement(alloc, statement)?)?;
        }
        Ok(made)
    }

    /// The script with its expressions written, and with these operators.
    fn script(
        &self,
        alloc: Global,
        script: &Script,
        operators: Items<DefinedOperator>,
    ) -> Result<Script, AllocError>
        ensures { IfOk result (λ made. made ≡ script_with (writes self.now) operators script.now) }
    {
        Ok(Script {
            statements: self.statements(alloc, script.statements.as_slice())?,
            rulesets: self.rulesets(alloc, script.rulesets.as_slice())?,
            operators,
        })
    }

    fn operator(
        &self,
        alloc: Global,
        operator: &DefinedOperator,
    ) -> Result<DefinedOperator, AllocError>
        ensures { IfOk result (λ made. made ≡ operator_with (writes self.now) operator.now) }
    {
        Ok(DefinedOperator {
            name: operator.name.copy()?,
            params: copy_params(alloc, operator.params.as_slice())?,
            returns: operator.returns,
            body: self.write(alloc, &operator.body)?,
            place: operator.place,
        })
    }

    fn operators(
        &self,
        alloc: Global,
        operators: &[DefinedOperator],
    ) -> Result<Items<DefinedOperator>, AllocError>
        ensures { IfOk result (λ made. made ≡ map (operator_with (writes self.now)) operators.now) }
    {
        let mut made = Items::new(alloc);
        for operator in operators {
            made.push(self.operator(alloc, operator)?)?;
        }
        Ok(made)
    }
}

/// The script with the sorts of its operators put to the arguments and results of all calls.
fn sorted_script(alloc: Global, script: &Script) -> Result<Script, AllocError>
    ensures { IfOk result (λ made. made ≡ meant.sorted_script script.now) }
{
    let writer = Writer {
        operators: script.operators.as_slice(),
        calling: Calling::Sorted,
        levels: &[],
        params: &[],
        arguments: &[],
    };
    let operators = writer.operators(alloc, script.operators.as_slice())?;
    writer.script(alloc, script, operators)
}

/// The script in which all calls are replaced, no more inside each other than there are operators.
fn calls_replaced(alloc: Global, script: &Script) -> Result<Script, AllocError>
    ensures { IfOk result (λ made. made ≡ meant.calls_replaced script.now) }
{
    let operators = script.operators.as_slice();
    let count = operators.len();
    let levels = levels_to(alloc, operators, count)?;
    let writer = Writer {
        operators,
        calling: Calling::Opened(count),
        levels: levels.as_slice(),
        params: &[],
        arguments: &[],
    };
    writer.script(alloc, script, Items::new(alloc))
}

/// The written-out script, or want of memory.
pub(crate) fn written_out(alloc: Global, script: &Script) -> Result<Script, AllocError>
    ensures { IfOk result (λ made. made ≡ meant.written_out script.now) }
{
    let sorted = sorted_script(alloc, script)?;
    calls_replaced(alloc, &sorted)
}
