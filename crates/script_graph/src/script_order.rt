// The order of a script's statements, or why there is none.
ghost use Rattle.std.specs.Prelude.{◌≡◌, None, IfOk, IfErr};
ghost use Rattle.script_graph.specs.Scopes.{Answers, names_of};
ghost use Rattle.script_graph.specs.ScopeViews.{names_in};
ghost use Rattle.script_graph.specs.Orders.{IsOrder, order_of};
ghost use Rattle.script_graph.specs.Faults as meant;

use crate::both::both;
use crate::cycle::cycle_fault;
use crate::fault::GraphStop;
use crate::ordering::in_order;
use crate::repeats::{results, ruleset_names};
use crate::scope::Scope;
use shortest_cycles::Graph;
use std::alloc::Global;
use vtl_syntax::Script;
use vtl_values::Structures;

/// What the names in the script stand for, or the first that is given twice.
fn scope_of<'a>(
    alloc: Global,
    script: &'a Script,
    structures: &'a Structures,
) -> Result<Scope<'a>, GraphStop>
    ensures { Answers (meant.assigned_twice script.now structures.now) (λ scope. names_in scope ≡ names_of script.now structures.now) result }
{
    let rulesets = script.rulesets.as_slice();
    let (results, names) = both(
        results(alloc, structures, script.statements.as_slice()),
        ruleset_names(alloc, rulesets),
    )?;
    Ok(Scope::new(structures, results, rulesets, names))
}

/// For each statement those that it uses, or the first name that stands for nothing.
fn graph_of(alloc: Global, script: &Script, scope: &Scope) -> Result<Graph, GraphStop>
    requires { names_in scope.now ≡ names_of script.now scope.now.structures.now }
    ensures { Answers (meant.unknown script.now scope.now.structures.now) (λ graph. graph ≡ meant.graph_of script.now scope.now.structures.now) result }
{
    let (graph, ()) = both(
        scope.graph_of(alloc, script.statements.as_slice()),
        scope.want_rulesets(alloc, script.rulesets.as_slice()),
    )?;
    Ok(graph)
}

/// An order of a script's statements, as their numbers from 0, and for each statement those whose results it uses, in the
/// order in which it mentions them.
#[derive(Drop)]
pub struct ScriptOrder {
    pub order: Vec<u64>,
    pub uses: Graph,
}

/// The order in which the script's statements are worked out, as their numbers: each stands after those whose results it
/// uses, and of several that could come next the first in the script comes. And for each statement those whose results it
/// uses. The inputs are the data sets of the structures. Calls of defined operators are looked through, and their
/// definitions aren't looked at.
///
/// # Errors
/// The first fault of the first kind of which there is one: a statement or a ruleset that repeats a name, a name that
/// stands for nothing, a statement that depends on itself. Each is told exactly where there is one; else want of memory
/// alone.
///
/// # Costs
/// Each name and each expression is looked at once, and no word is copied but into a fault. For the order, each statement
/// takes a pass over those that haven't come yet, which looks at each up to its first use that hasn't come either. Only
/// where there is a cycle, for each statement as many passes over the uses as there are statements.
pub fn order(
    alloc: Global,
    script: &Script,
    structures: &Structures,
) -> Result<ScriptOrder, GraphStop>
    ensures ok { IfOk result (λ o. IsOrder (meant.graph_of script.now structures.now) o.order.items) }
    ensures value { IfOk result (λ o. o.order.items ≡ order_of (meant.graph_of script.now structures.now)) }
    ensures uses { IfOk result (λ o. o.uses ≡ meant.graph_of script.now structures.now) }
    ensures faultless { IfOk result (λ o. meant.first_fault script.now structures.now ≡ None) }
    ensures err { IfErr result (meant.IsStop script.now structures.now) }
{
    let scope = scope_of(alloc, script, structures)?;
    let graph = graph_of(alloc, script, &scope)?;
    if let Some(order) = in_order(alloc, graph.as_slice())? {
        return Ok(ScriptOrder { order, uses: graph });
    }
    match cycle_fault(alloc, script.statements.as_slice(), &graph)? {
        Some(fault) => Err(GraphStop::Fault(fault)),
        None => unreachable!(),
    }
}
