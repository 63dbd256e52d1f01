// Cycles in a graph of numbers.
ghost use Rattle.std.specs.Prelude.{◌≡◌, ◌<◌, ◌∷◌, find, length, map, IfOk, OnOk, IfSome, IfNone};
ghost use Rattle.std.specs.List.{list_any};
ghost use Rattle.shortest_cycles.specs.Paths as path;
ghost use Rattle.shortest_cycles.specs.Cycles as meant;
ghost use Rattle.shortest_cycles.specs.Tables as table;

use sqlite_items::Items;
use std::alloc::{AllocError, Global};

/// For each number those to which it leads, in the order in which it mentions them.
pub type Graph = Items<Items<usize>>;

/// Whether the number is one of them.
pub fn contains(numbers: &[usize], number: usize) -> bool
    ensures { result ≡ path.contains numbers.now number }
{
    for n in numbers {
        if *n == number {
            return true;
        }
    }
    false
}

/// Puts the number at the end, if it isn't there.
pub fn put_once(number: usize, out: &mut Items<usize>) -> Result<(), AllocError>
    ensures { OnOk result (out.new ≡ path.put_once out.old number) }
{
    if contains(out.as_slice(), number) {
        Ok(())
    } else {
        out.push(number)
    }
}

/// Whether one of the numbers is marked.
fn is_marked(numbers: &[usize], marks: &[bool]) -> bool
    ensures { result ≡ list_any (table.mark_at marks.now) numbers.now }
{
    for number in numbers {
        if mark_at(marks, *number) {
            return true;
        }
    }
    false
}

/// Whether the number is marked.
pub fn mark_at(marks: &[bool], number: usize) -> bool
    ensures { result ≡ table.mark_at marks.now number }
{
    match marks.get(number) {
        Some(mark) => *mark,
        None => false,
    }
}

/// Which numbers lead to that one.
fn leading_to(alloc: Global, graph: &[Items<usize>], goal: usize) -> Result<Items<bool>, AllocError>
    ensures { IfOk result (λ marks. marks ≡ map (λ targets. path.contains targets goal) graph.now) }
{
    let mut marks = Items::new(alloc);
    for targets in graph {
        marks.push(contains(targets.as_slice(), goal))?;
    }
    Ok(marks)
}

/// Which numbers lead to one that is marked.
fn leading_to_marked(
    alloc: Global,
    graph: &[Items<usize>],
    marks: &[bool],
) -> Result<Items<bool>, AllocError>
    ensures { IfOk result (λ next. next ≡ map (list_any (table.mark_at marks.now)) graph.now) }
{
    let mut next = Items::new(alloc);
    for targets in graph {
        next.push(is_marked(targets.as_slice(), marks))?;
    }
    Ok(next)
}

/// For each number of steps, from 1 to how many numbers there are, which numbers come to that one by so many.
fn ways(
    alloc: Global,
    graph: &[Items<usize>],
    goal: usize,
) -> Result<Items<Items<bool>>, AllocError>
    ensures { IfOk result (λ ways. ways ≡ table.ways graph.now goal) }
{
    let mut ways = Items::new(alloc);
    let mut marks = leading_to(alloc, graph, goal)?;
    for _n in 0..graph.len() {
        let next = leading_to_marked(alloc, graph, marks.as_slice())?;
        ways.push(marks)?;
        marks = next;
    }
    Ok(ways)
}

/// The first of the numbers that is marked.
fn first_marked(numbers: &[usize], marks: &[bool]) -> Option<usize>
    ensures { result ≡ table.first_marked numbers.now marks.now }
{
    for number in numbers {
        if mark_at(marks, *number) {
            return Some(*number);
        }
    }
    None
}

/// The numbers to which that one leads.
pub fn targets_of(graph: &[Items<usize>], number: usize) -> &[usize]
    ensures { result.now ≡ path.targets_of graph.now number }
{
    match graph.get(number) {
        Some(targets) => targets.as_slice(),
        None => &[],
    }
}

/// Whether the number is marked in that row of the table.
fn is_on(ways: &[Items<bool>], steps: usize, start: usize) -> bool
    ensures { result ≡ table.is_on ways.now start steps }
{
    match ways.get(steps) {
        Some(marks) => mark_at(marks.as_slice(), start),
        None => false,
    }
}

/// The first number of steps by which the start comes to itself, less one.
fn shortest(ways: &[Items<bool>], start: usize) -> Option<usize>
    ensures { result ≡ find (table.is_on ways.now start) (meant.count_from 0 (length ways.now)) }
{
    for n in 0..ways.len() {
        if is_on(ways, n, start) {
            return Some(n);
        }
    }
    None
}

/// The first number to which the last one leads from which so many more steps, and one, come to the goal of the ways.
fn next_on(graph: &[Items<usize>], ways: &[Items<bool>], steps: usize, last: usize) -> Option<usize>
    ensures { result ≡ table.next_on graph.now ways.now steps last }
{
    match ways.get(steps) {
        Some(marks) => first_marked(targets_of(graph, last), marks.as_slice()),
        None => None,
    }
}

/// The numbers on the first of the shortest ways of the start to itself, the start first.
fn cycle_of(
    alloc: Global,
    graph: &[Items<usize>],
    start: usize,
) -> Result<Option<Items<usize>>, AllocError>
    ensures { IfOk result (λ cycle. cycle ≡ meant.cycle_of graph.now start) }
{
    let ways = ways(alloc, graph, start)?;
    match shortest(ways.as_slice(), start) {
        Some(left) => Ok(Some(cycle_on(alloc, graph, ways.as_slice(), start, left)?)),
        None => Ok(None),
    }
}

/// The start, and those on the first way of so many steps, and one, back to it.
fn cycle_on(
    alloc: Global,
    graph: &[Items<usize>],
    ways: &[Items<bool>],
    start: usize,
    left: usize,
) -> Result<Items<usize>, AllocError>
    requires table { ways.now ≡ table.ways graph.now start }
    requires within { left < length ways.now }
    ensures { IfOk result (λ cycle. cycle ≡ start ∷ meant.between graph.now left start start) }
{
    let mut cycle = Items::new(alloc);
    cycle.push(start)?;
    let mut last = start;
    for k in 0..left {
        last = put_next(graph, ways, left - 1 - k, last, &mut cycle)?;
    }
    Ok(cycle)
}

/// Puts the number that comes next, and gives it.
fn put_next(
    graph: &[Items<usize>],
    ways: &[Items<bool>],
    steps: usize,
    last: usize,
    out: &mut Items<usize>,
) -> Result<usize, AllocError>
    ensures { IfOk result (λ next. table.IsNext (table.next_on graph.now ways.now steps last) last out.old next out.new) }
{
    match next_on(graph, ways, steps, last) {
        Some(next) => {
            out.push(next)?;
            Ok(next)
        }
        None => Ok(last),
    }
}

/// The cycle of the first number that is on one, exactly where there is a cycle: the shortest, and of several the one
/// that is mentioned first. The first number of the answer is that one. Else want of memory alone.
///
/// # Costs
/// For each number up to that one, as many passes over the graph as there are numbers. So it is for graphs that have a
/// cycle, or for small ones.
pub fn first_cycle(alloc: Global, graph: &Graph) -> Result<Option<Items<usize>>, AllocError>
    ensures value { IfOk result (λ cycle. cycle ≡ meant.first_cycle graph.now) }
    ensures first { IfOk result (λ cycle. IfSome cycle (path.IsFirstCycle graph.now)) }
    ensures none { IfOk result (λ cycle. IfNone cycle (path.HasNoCycle graph.now)) }
{
    find_cycle(alloc, graph)
}

/// The cycle of the first number that is on one.
fn find_cycle(alloc: Global, graph: &Graph) -> Result<Option<Items<usize>>, AllocError>
    ensures { IfOk result (λ cycle. cycle ≡ meant.first_cycle graph.now) }
{
    for start in 0..graph.len() {
        let cycle = cycle_of(alloc, graph.as_slice(), start)?;
        if let Some(cycle) = cycle {
            return Ok(Some(cycle));
        }
    }
    Ok(None)
}
