// The order of the numbers of a graph in which each comes after those to which it leads.
ghost use Rattle.std.specs.Prelude.{◌≡◌, not, map, replicate, false, length, IfOk, IfSome, IfNone};
ghost use Rattle.shortest_cycles.specs.Paths.{HasNoCycle};
ghost use Rattle.script_graph.specs.Orders as meant;

use shortest_cycles::{mark_at, targets_of};
use sqlite_items::Items;
use std::alloc::{AllocError, Global};

/// Whether it uses one that isn't marked.
fn waits(graph: &[Items<usize>], marks: &[bool], number: usize) -> bool
    ensures { result ≡ meant.waits graph.now marks.now number }
{
    let targets = targets_of(graph, number);
    for target in targets {
        if !mark_at(marks, *target) {
            return true;
        }
    }
    false
}

/// Whether it isn't marked, and uses none that isn't.
fn can_come(graph: &[Items<usize>], marks: &[bool], number: usize) -> bool
    ensures { result ≡ meant.can_come graph.now marks.now number }
{
    !mark_at(marks, number) && !waits(graph, marks, number)
}

/// The first that can come.
fn next_of(graph: &[Items<usize>], marks: &[bool]) -> Option<usize>
    ensures { result ≡ meant.next_of graph.now marks.now }
{
    for number in 0..graph.len() {
        if can_come(graph, marks, number) {
            return Some(number);
        }
    }
    None
}

/// So many that aren't marked.
fn unmarked(alloc: Global, count: usize) -> Result<Items<bool>, AllocError>
    ensures { IfOk result (λ marks. marks ≡ replicate count false) }
{
    let mut marks = Items::new(alloc);
    for _n in 0..count {
        marks.push(false)?;
    }
    Ok(marks)
}

/// An order in which each number comes after those to which it leads, and of several that could come next the first; none
/// exactly where the graph has a cycle. Or want of memory. For each number it takes a pass over those that haven't come yet.
pub fn in_order(alloc: Global, graph: &[Items<usize>]) -> Result<Option<Vec<u64>>, AllocError>
    requires { meant.LeadsWithin graph.now }
    ensures order { IfOk result (λ order. IfSome order (λ numbers. meant.IsOrder graph.now numbers.items)) }
    ensures none { IfOk result (λ order. IfNone order (HasNoCycle graph.now → ⊥)) }
{
    let mut marks = unmarked(alloc, graph.len())?;
    let mut order = Vec::new(alloc);
    for _n in 0..graph.len() {
        let Some(number) = next_of(graph, marks.as_slice()) else {
            return Ok(None);
        };
        order.push(number as u64)?;
        marks.set(number, true);
    }
    Ok(Some(order))
}
