// The place of a statement in a production.
ghost use Rattle.std.specs.Prelude.{◌≡◌, ◌<◌, ◌+◌, ◌++◌, ◌↔◌, ◌||◌, ◌∷◌, [], ℕ, List, IfOk, IfSome, IsSome, IsTrue, OnOk, OnErr, Some, None, true, false, length, map, take, slice_get, slice_index_or};
ghost use Rattle.std.specs.List.{All, AllZip, Contains};
ghost use Rattle.data_set_trees.specs.declared.tree.Source.{Source};
ghost use Rattle.data_set_trees.specs.declared.tree.Source.TheVariants.{Result as ResultOf};
ghost use Rattle.point_sets.specs.Changes.{Changes};
ghost use Rattle.round_core.specs.Slots.{settle_by, back_with, is_out, pages_of_stage, HandsOut, HandedOn, Remain, names_it, NamesAt, NamesNone};

use data_set_trees::Source;
use point_sets::Delta;
use release_text::Pages;
use round_journal::{Node, NodeFault, Settle};
use sqlite_items::Items;
use std::alloc::Global;
use std::mem;
use std::sync::Arc;

/// Where a statement is in a round, and what it came back with.
#[derive(Drop)]
pub enum Stage {
    /// It was not handed out.
    Waiting,
    Out,
    /// It has a data set: the points of all its operators' results, and the pages where it is published.
    Right { points: u64, pages: Option<Pages> },
    /// It has a fault, once to keep and once to tell.
    Wrong { kept: NodeFault, told: NodeFault },
    /// It was given up.
    Spoiled,
}

/// A statement: what it names, each once; where it is; the round that it was last worked in; the changes of what it
/// names, in the same order; and its node, if it isn't out.
#[derive(Drop)]
pub struct Slot {
    pub sources: Items<Source>,
    pub stage: Stage,
    pub stamp: u64,
    pub news: Vec<Arc<Delta>>,
    pub node: Option<Node>,
}

impl Slot {
    /// Hands out the node and its news, and says what becomes of the patches of the node's last work.
    pub fn hand_out(&mut self, alloc: Global, published: u64) -> (Settle, Vec<Arc<Delta>>, Node)
        requires { IsSome self.old.node }
        ensures { HandsOut self.old published result.0 result.1 result.2 self.new }
    {
        self.stage = Stage::Out;
        let settle = settle_of(self.stamp, published);
        let news = mem::replace(&mut self.news, Vec::new(alloc));
        let node = mem::replace(&mut self.node, None).unwrap();
        (settle, news, node)
    }

    /// Puts the node back.
    pub fn put(&mut self, round: u64, node: Node, stage: Stage)
        ensures { self.new ≡ back_with round node stage self.old }
    {
        self.stage = stage;
        self.stamp = round;
        self.node = Some(node);
    }

    /// Takes the pages with which the statement came back.
    pub fn take_pages(&mut self) -> Option<Pages>
        ensures pages { result ≡ pages_of_stage self.old.stage }
        ensures rest { self.new ≡ record self.old { stage = Stage.Waiting } }
    {
        match mem::replace(&mut self.stage, Stage::Waiting) {
            Stage::Right { points: _, pages } => pages,
            _ => None,
        }
    }

    /// Makes the statement wait, with these changes of what it names.
    pub fn start(&mut self, news: Vec<Arc<Delta>>)
        ensures { self.new ≡ record self.old { stage = Stage.Waiting; news = news } }
    {
        self.stage = Stage::Waiting;
        self.news = news;
    }

    /// Takes one of a result's changes, if the statement names it.
    pub fn take_change(&mut self, statement: u64, rest: &mut Vec<Arc<Delta>>)
        requires { names_it statement self.old ≡ true → 0 < length rest.old.items }
        ensures slot { HandedOn statement rest.old.items self.old self.new }
        ensures rest { Remain (names_it statement self.old) rest.old.items rest.new.items }
    {
        match self.place_of(statement) {
            None => {}
            Some(place) => match rest.pop() {
                None => {}
                Some(delta) => {
                    if place < self.news.len() {
                        self.news[place] = delta;
                    }
                }
            },
        }
    }

    /// Whether the statement was handed out and hasn't come back.
    pub fn is_out(&self) -> bool
        ensures { result ≡ is_out self.now }
    {
        match &self.stage {
            Stage::Out => true,
            _ => false,
        }
    }

    /// Whether the statement wasn't handed out in the open round.
    pub fn waits(&self) -> bool
        ensures { (result ≡ true) ↔ (self.now.stage ≡ Stage.Waiting) }
    {
        match &self.stage {
            Stage::Waiting => true,
            _ => false,
        }
    }

    /// Where the statement names the result with this number.
    pub fn place_of(&self, statement: u64) -> Option<usize>
        ensures found { IfSome result (λ k. NamesAt self.now.sources statement k) }
        ensures none { result ≡ None → NamesNone self.now.sources statement }
    {
        let sources = self.sources.as_slice();
        for (k, source) in sources.iter().enumerate() {
            if *source == Source::Result(statement) {
                return Some(k);
            }
        }
        None
    }
}

/// What becomes of the patches of a node's last work: they are put in place where its round was the one that was
/// published last.
fn settle_of(stamp: u64, published: u64) -> Settle
    ensures { result ≡ settle_by stamp published }
{
    if stamp > 0 && stamp == published {
        Settle::Apply
    } else {
        Settle::Forget
    }
}
