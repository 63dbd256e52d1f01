// A script with its structures worked out.
ghost use Rattle.std.specs.Prelude.{◌≡◌, ◌≤◌, true, None, Ok, All, length, IfOk, IfErr};
ghost use Rattle.vtl_syntax.specs.declared.script.Statement.{Statement as Statements};
ghost use Rattle.script_graph.specs.Faults.{first_fault, graph_of};
ghost use Rattle.script_graph.specs.Orders.{IsOrder, order_of};
ghost use Rattle.literal_ranges.specs.Ranges.{literals_in_range};
ghost use Rattle.script_typing.specs.Scripts as meant;

use crate::lists::checked_in;
use crate::state::State;
use crate::stop::ScriptStop;
use crate::typing::states_of;
use data_set_trees::checked::TypedScript;
use literal_ranges::{see_literals, see_rulesets};
use ruleset_faults::check_rulesets;
use scalar_trees::typing::Refusal;
use script_graph::{ScriptOrder, order};
use sqlite_items::Items;
use std::alloc::Global;
use vtl_syntax::{Script, Statement};
use vtl_values::Structures;

/// The fault of the first that has one.
fn first_refusal(states: &[State]) -> Option<Refusal>
    ensures { result ≡ meant.first_refusal states.now }
{
    for state in states {
        if let State::Fails(refusal) = state {
            return Some(*refusal);
        }
    }
    None
}

/// Looks at the literals of each statement, which tells that all are in range.
fn see_statements(statements: &[Statement])
    ensures { All (λ (t : Statements). literals_in_range t.expr ≡ true) statements.now }
{
    for statement in statements {
        see_literals(&statement.expr);
    }
}

/// The script with its structures worked out in this order; or the fault of types of the first statement that has one, or
/// want of memory.
fn typed_in_order(
    alloc: Global,
    script: Script,
    structures: Structures,
    ordered: ScriptOrder,
) -> Result<TypedScript, ScriptStop>
    requires few { length script.statements ≤ 256 }
    requires order { IsOrder (graph_of script structures) ordered.order.items }
    requires value { ordered.order.items ≡ order_of (graph_of script structures) }
    requires uses { ordered.uses ≡ graph_of script structures }
    ensures ok { IfOk result (λ typed. meant.statements_typed structures script ≡ Ok typed) }
    ensures inputs { IfOk result (λ typed. typed.inputs ≡ structures) }
    ensures err { IfErr result (meant.IsStatementStop structures script) }
{
    let ScriptOrder { order, uses } = ordered;
    let Script {
        statements,
        rulesets,
        ..
    } = script;
    see_statements(statements.as_slice());
    see_rulesets(rulesets.as_slice());
    let states = states_of(
        alloc,
        &structures,
        rulesets.as_slice(),
        statements,
        uses.as_slice(),
        order.as_slice(),
    )?;
    if let Some(refusal) = first_refusal(states.as_slice()) {
        return Err(ScriptStop::Refused(refusal));
    }
    let typed = checked_in(alloc, states)?;
    Ok(TypedScript::of(structures, typed, Items::from_vec(order)))
}

/// The script with its structures worked out, over inputs of these structures. Its order is that of its graph.
///
/// # Errors
/// The first fault of its names and uses; where there is none, the first fault of the first ruleset that has one by itself;
/// and else the fault of types of the first statement of the script that has one. A statement has none of its own where it
/// uses the result of one without a data set. A statement whose expression is a scalar is refused as `WrongStructure` at its
/// place. Each is told exactly where there is one; else want of memory alone.
///
/// # Costs
/// Each expression is typed once, and its literals are looked at once before; those of a ruleset are looked at once, and typed
/// once for each use. What was written of a statement goes as soon as the statement is typed.
pub fn check_script(
    alloc: Global,
    script: Script,
    structures: Structures,
) -> Result<TypedScript, ScriptStop>
    requires { length script.statements ≤ 256 }
    ensures ok { IfOk result (λ typed. meant.typed_of structures script ≡ Ok typed) }
    ensures graph { IfOk result (λ _. first_fault script structures ≡ None) }
    ensures inputs { IfOk result (λ typed. typed.inputs ≡ structures) }
    ensures err { IfErr result (meant.IsStop structures script) }
{
    let ordered = order(alloc, &script, &structures)?;
    check_rulesets(alloc, script.rulesets.as_slice())?;
    typed_in_order(alloc, script, structures, ordered)
}
