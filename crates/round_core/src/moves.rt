// What the calls of a production make of its slots.
ghost use Rattle.std.specs.Prelude.{◌≡◌, ◌≤◌, ◌<◌, ◌+◌, ◌++◌, [], ℕ, IfOk, OnOk, length, count_by, slice_index_or, vec_capacity};
ghost use Rattle.std.specs.Arc.{arc_value};
ghost use Rattle.std.specs.FinMap as finmap;
ghost use Rattle.round_journal.specs.Releases.{and_page};
ghost use Rattle.round_journal.specs.Nodes.{published};
ghost use Rattle.round_core.specs.Slots.{EachSlot, SameHomes, HandedOn, names_it, pages_by, pages_in};
ghost use Rattle.round_core.specs.declared.slot.Slot.{Slot};
ghost use Rattle.round_core.specs.Steps.{IsPrepared, IsFirstNews, AreFirstNews, IsFirstSlot};

use crate::inputs::InputChange;
use crate::runs::nothing;
use crate::slot::{Slot, Stage};
use built_scripts::CheckedScript;
use data_set_trees::Source;
use data_set_trees::checked::CheckedStatement;
use point_sets::Delta;
use release_text::Pages;
use round_journal::Node;
use sqlite_items::Items;
use std::alloc::{AllocError, Global};
use std::sync::Arc;

/// Makes the slots ready for a round: each statement waits, and has the changes of the inputs that it names in their
/// places, and a change of nothing in the places of results.
pub fn prepare(
    alloc: Global,
    slots: &mut Vec<Slot>,
    changes: &[InputChange],
) -> Result<(), AllocError>
    ensures same { SameHomes slots.old.items slots.new.items }
    ensures ready { OnOk result (EachSlot (λ i slot. IsPrepared changes.now slot) slots.new.items) }
{
    let none = Arc::new(alloc, nothing(alloc))?;
    for i in 0..slots.len() {
        let slot = &mut slots[i];
        let news = first_news(alloc, slot.sources.as_slice(), changes, &none)?;
        slot.start(news);
    }
    Ok(())
}

/// The changes of the sources as a round is opened.
fn first_news(
    alloc: Global,
    sources: &[Source],
    changes: &[InputChange],
    none: &Arc<Delta>,
) -> Result<Vec<Arc<Delta>>, AllocError>
    requires { arc_value none.now ≡ finmap.empty }
    ensures { IfOk result (λ news. AreFirstNews changes.now news.items sources.now) }
{
    let mut news: Vec<Arc<Delta>> = Vec::new(alloc);
    for source in sources {
        news.push(first_change(*source, changes, none)?)?;
    }
    Ok(news)
}

/// The change of a source as a round is opened: that of its input, or of nothing.
fn first_change(
    source: Source,
    changes: &[InputChange],
    none: &Arc<Delta>,
) -> Result<Arc<Delta>, AllocError>
    requires { arc_value none.now ≡ finmap.empty }
    ensures { IfOk result (λ d. IsFirstNews changes.now d source) }
{
    let Source::Input(n) = source else {
        return none.clone();
    };
    if changes.len() <= n as usize {
        return none.clone();
    }
    let change = &changes[n as usize];
    match &change.older {
        Some(older) => older.clone(),
        None => {
            let same = none.clone()?;
            Ok(same)
        }
    }
}

/// Hands a result's changes on to the statements that name it, one to each.
pub fn hand_on(slots: &mut Vec<Slot>, statement: u64, deltas: Vec<Arc<Delta>>)
    requires { count_by (names_it statement) slots.old.items ≤ length deltas.items }
    ensures many { length slots.new.items ≡ length slots.old.items }
    ensures each { (i : ℕ) (d : Slot) → i < length slots.old.items → HandedOn statement deltas.items (slice_index_or slots.old.items i d) (slice_index_or slots.new.items i d) }
{
    let mut rest = deltas;
    for i in 0..slots.len() {
        let slot = &mut slots[i];
        slot.take_change(statement, &mut rest);
    }
}

/// Moves the pages of the statements that came back with a data set into the room of the release.
pub fn collect_pages(slots: &mut Vec<Slot>, room: &mut Vec<Pages>)
    requires { length room.old.items + length slots.old.items ≤ vec_capacity room.old }
    ensures pages { room.new.items ≡ room.old.items ++ pages_in slots.old.items }
    ensures same { SameHomes slots.old.items slots.new.items }
{
    for i in 0..slots.len() {
        let slot = &mut slots[i];
        push_pages(room, slot.take_pages());
    }
}

/// Adds pages, if there are some. There is room.
fn push_pages(room: &mut Vec<Pages>, pages: Option<Pages>)
    requires { length room.old.items < vec_capacity room.old }
    ensures pages { room.new.items ≡ room.old.items ++ and_page pages [] }
    ensures capacity { vec_capacity room.old ≤ vec_capacity room.new }
{
    if let Some(pages) = pages {
        match room.push(pages) {
            Ok(()) => {}
            Err(_) => {}
        }
    }
}

/// The slots of a script as its first round begins: no statement has worked yet.
pub fn first_slots(alloc: Global, script: &CheckedScript) -> Result<Vec<Slot>, AllocError>
    ensures many { IfOk result (λ slots. length slots.items ≡ length script.now.statements) }
    ensures each { IfOk result (λ slots. EachSlot (IsFirstSlot script.now) slots.items) }
{
    let mut slots: Vec<Slot> = Vec::new(alloc);
    let many = script.statements().len();
    for i in 0..many {
        slots.push(first_slot(alloc, script, i as u64)?)?;
    }
    Ok(slots)
}

fn first_slot(alloc: Global, script: &CheckedScript, i: u64) -> Result<Slot, AllocError>
    requires { i < length script.now.statements }
    ensures { IfOk result (IsFirstSlot script.now i) }
{
    let node = Node::of(alloc, script, i)?;
    Ok(Slot {
        sources: Items::from_slice(alloc, node.sources.as_slice())?,
        stage: Stage::Waiting,
        stamp: 0,
        news: Vec::new(alloc),
        node: Some(node),
    })
}

/// Adds the pages of a statement without points, where it is published.
fn push_first(
    alloc: Global,
    pages: &mut Vec<Pages>,
    statement: &CheckedStatement,
) -> Result<(), AllocError>
    ensures { OnOk result (pages.new.items ≡ pages.old.items ++ and_page (published statement.now finmap.empty) []) }
{
    if statement.persistent {
        pages.push(Pages::empty(alloc, &statement.name, &statement.structure)?)?;
        return Ok(());
    }
    Ok(())
}

/// The pages of release 0.
pub fn first_pages(alloc: Global, script: &CheckedScript) -> Result<Items<Pages>, AllocError>
    ensures { IfOk result (λ pages. pages ≡ pages_by (λ statement. published statement finmap.empty) script.now.statements) }
{
    let mut pages: Vec<Pages> = Vec::new(alloc);
    let statements = script.statements();
    for statement in statements {
        push_first(alloc, &mut pages, statement)?;
    }
    Ok(Items::from_vec(pages))
}
