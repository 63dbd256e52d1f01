// One statement after another.
ghost use Rattle.std.specs.Prelude.{◌≡◌, ◌<◌, Some, length, slice_get, IfOk, OnOk};
ghost use Rattle.statement_typing.specs.Names.{naming_of};
ghost use Rattle.script_typing.specs.States as meant;
ghost use Rattle.script_typing.specs.Views.{so_far};
ghost use Rattle.script_typing.specs.Scripts as whole;

use crate::lists::all_wait;
use crate::state::State;
use data_set_trees::checked::CheckedStatement;
use data_set_trees::{DataSet, Operand};
use scalar_trees::typing::{Fault, Refusal, TypeStop};
use shortest_cycles::targets_of;
use sqlite_items::{Items, at};
use statement_typing::{Names, check_expression};
use std::alloc::{AllocError, Global};
use vtl_syntax::{Ruleset, Statement};
use vtl_values::Structures;

/// How far the typing of a script has come: what names stand for, and what each statement has come to.
#[derive(Drop)]
struct Typing<'a> {
    alloc: Global,
    names: Names<'a>,
    states: Items<State>,
}

fn has_set(states: &[State], number: usize) -> bool
    ensures { result ≡ meant.has_set (slice_get states.now number) }
{
    match at(states, number) {
        Some(State::Has(_)) => true,
        Some(State::Fails(_)) => false,
        Some(State::Waits(_)) => false,
        None => false,
    }
}

/// Whether each of these statements has a data set.
fn all_have_sets(states: &[State], numbers: &[usize]) -> bool
    ensures { result ≡ meant.all_have_sets states.now numbers.now }
{
    for number in numbers {
        if !has_set(states, *number) {
            return false;
        }
    }
    true
}

fn with_set(statement: &Statement, set: DataSet) -> Result<CheckedStatement, AllocError>
    ensures { IfOk result (λ checked. checked ≡ meant.with_set statement.now set) }
{
    let DataSet { tree, structure } = set;
    Ok(CheckedStatement {
        name: statement.name.copy()?,
        persistent: statement.persistent,
        tree,
        structure,
    })
}

/// What a statement comes to, where all that it uses have data sets.
fn typed(alloc: Global, names: &Names<'_>, statement: &Statement) -> Result<State, AllocError>
    ensures { IfOk result (λ state. state ≡ meant.state_of statement.now (meant.statement_typed (naming_of names.now) statement.now)) }
{
    match check_expression(alloc, names, &statement.expr) {
        Ok(Operand::DataSet(set)) => Ok(State::Has(with_set(statement, set)?)),
        Ok(Operand::Scalar(_)) => Ok(State::Fails(Refusal {
            fault: Fault::WrongStructure,
            place: statement.place,
        })),
        Err(TypeStop::Refused(refusal)) => Ok(State::Fails(refusal)),
        Err(TypeStop::Memory) => Err(AllocError),
    }
}

/// What the statement with this number, which uses these, comes to in its turn, if to anything.
fn turn(
    alloc: Global,
    names: &Names<'_>,
    states: &[State],
    uses: &[usize],
    number: u64,
) -> Result<Option<State>, AllocError>
    ensures { IfOk result (λ next. next ≡ meant.turn (naming_of names.now) states.now uses.now (slice_get states.now number)) }
{
    match at(states, number as usize) {
        Some(State::Waits(statement)) => {
            if all_have_sets(states, uses) {
                Ok(Some(typed(alloc, names, statement.get())?))
            } else {
                Ok(None)
            }
        }
        Some(State::Has(_)) => Ok(None),
        Some(State::Fails(_)) => Ok(None),
        None => Ok(None),
    }
}

/// The name stands for the result of the statement with this number, where that has a data set.
fn put_name(names: &mut Names<'_>, number: u64, state: &State) -> Result<(), AllocError>
    ensures { OnOk result (naming_of names.new ≡ meant.with_result number state.now (naming_of names.old)) }
{
    match state {
        State::Has(statement) => {
            names.put(statement.name.copy()?, number, statement.structure.copy()?)
        }
        State::Fails(_) => Ok(()),
        State::Waits(_) => Ok(()),
    }
}

impl<'a> Typing<'a> {
    fn new(
        alloc: Global,
        structures: &'a Structures,
        rulesets: &'a [Ruleset],
        statements: Items<Statement>,
    ) -> Result<Typing<'a>, AllocError>
        ensures { IfOk result (λ typing. so_far typing ≡ meant.start structures.now rulesets.now statements) }
    {
        Ok(Typing {
            alloc,
            names: Names::new(alloc, structures, rulesets),
            states: all_wait(alloc, statements)?,
        })
    }

    /// The statement with this number comes to this. What it was written as goes.
    fn put(&mut self, number: u64, state: State) -> Result<(), AllocError>
        requires { number < length self.old.states }
        ensures { OnOk result (so_far self.new ≡ meant.comes_to number (Some state) (so_far self.old)) }
    {
        put_name(&mut self.names, number, &state)?;
        self.states.set(number as usize, state);
        Ok(())
    }

    /// The turn of the statement with this number, which uses these.
    fn take_turn(&mut self, uses: &[usize], number: u64) -> Result<(), AllocError>
        ensures { OnOk result (so_far self.new ≡ meant.after_turn uses.now number (so_far self.old)) }
    {
        match turn(
            self.alloc,
            &self.names,
            self.states.as_slice(),
            uses,
            number,
        )? {
            Some(state) => self.put(number, state),
            None => Ok(()),
        }
    }

    /// The turns of these statements, one after another. The graph has for each statement those that it uses.
    fn take_turns(&mut self, graph: &[Items<usize>], order: &[u64]) -> Result<(), AllocError>
        ensures { OnOk result (so_far self.new ≡ meant.after_turns graph.now order.now (so_far self.old)) }
    {
        for number in order {
            self.take_turn(targets_of(graph, *number as usize), *number)?;
        }
        Ok(())
    }
}

/// What the statements come to, typed one after another in this order, or want of memory. `graph` has for each statement
/// those that it uses. Each expression is looked at once, and goes when its statement is typed.
pub(crate) fn states_of(
    alloc: Global,
    structures: &Structures,
    rulesets: &[Ruleset],
    statements: Items<Statement>,
    graph: &[Items<usize>],
    order: &[u64],
) -> Result<Items<State>, AllocError>
    ensures { IfOk result (λ states. states ≡ whole.states_after structures.now rulesets.now graph.now statements order.now) }
{
    let mut typing = Typing::new(alloc, structures, rulesets, statements)?;
    typing.take_turns(graph, order)?;
    let Typing { states, .. } = typing;
    Ok(states)
}
