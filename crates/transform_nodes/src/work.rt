// Works, and what comes of them.
ghost use Rattle.std.specs.Prelude.{◌≡◌};

use crate::fault::NodeFault;
use crate::node::Node;
use data_model::steps::Steps;
use point_sets::Delta;
use release_text::Pages;
use std::alloc::Global;
use std::marker::Model;
use std::sync::Arc;
use std::sync::ledger::Ledger;
use std::thread::Threads;

/// Whether what the node's last work left pending became part of a release: it is put in place, or dropped.
#[derive(Clone, Copy, Debug, PartialEq, Eq)]
pub enum Settle {
    Apply,
    Forget,
}

/// A statement of a round that was handed out: the round, the prefixes of the last release and of the round, the news
/// of the node's sources in their order, and the node.
#[derive(Drop)]
pub struct Work {
    pub round: u64,
    pub statement: u64,
    pub base: u64,
    pub to: u64,
    pub settle: Settle,
    pub news: Vec<Arc<Delta>>,
    pub node: Node,
}

/// What a work came to: the change of the statement's result, once for each statement that uses it, with the number of
/// points of all its operators' results and the new pages where it is published; its fault, once to keep and once to
/// tell; or that memory was wanting.
#[derive(Drop)]
pub enum Finish {
    Right {
        deltas: Vec<Arc<Delta>>,
        points: u64,
        pages: Option<Pages>,
    },
    Fault {
        kept: NodeFault,
        told: NodeFault,
    },
    GaveUp,
}

/// The parts of a work that was done.
#[derive(Drop)]
pub struct DoneParts {
    pub round: u64,
    pub statement: u64,
    pub base: u64,
    pub to: u64,
    pub node: Node,
    pub finish: Finish,
}

/// A work that was done. `Work::run` and `Work::give_up` alone make one.
#[derive(Drop)]
pub struct Done {
    parts: DoneParts,
}

impl Model for Done {
    ghost use Rattle.transform_nodes.specs.declared.work.DoneParts.{DoneParts as Parts};
    ghost use Rattle.transform_nodes.specs.Nodes.{done_coded};

    ghost Value = { Parts };

    ghost coded = { done_coded };

    ghost view = { λ done. done.parts };
}

impl Work {
    ghost use Rattle.std.specs.Prelude.{List, ◌+◌, ◌≤◌, map};
    ghost use Rattle.std.specs.Arc.{arc_value};
    ghost use Rattle.held_index.specs.Reach.{changes_in};
    ghost use Rattle.point_sets.specs.DataSets.{DataSet};
    ghost use Rattle.data_set_trees.specs.checked.Scripts.{Script};
    ghost use Rattle.transform_nodes.specs.Nodes.{CanRun, DoneStandsFor, WorkStandsFor};
    ghost use Rattle.transform_nodes.specs.Reach.{work_reach};
    ghost use Rattle.transform_nodes.specs.declared.work.Finish.TheVariants.{GaveUp};
    ghost use denote.Param.Send.{IsSync};

    /// Settles the node, and carries the news through its tree. Where the statement has a data set on the new inputs,
    /// the done has its right change, unless memory is wanting; where it has a fault of its own there, the done has
    /// that. Whichever inputs the work stands for, the done stands for. It takes no more steps than the reaches of its
    /// operators together, and none where there is no change.
    pub fn run<R: Threads + Sync, L: Ledger>(
        self,
        rt: &R,
        alloc: Global,
        steps: &mut Steps<L>,
    ) -> Done
        requires stands { CanRun self }
        requires sync { IsSync R.row }
        ensures round { result.round ≡ self.round }
        ensures statement { result.statement ≡ self.statement }
        ensures base { result.base ≡ self.base }
        ensures to { result.to ≡ self.to }
        ensures stands { (s : Script) (xs ys : List DataSet) → WorkStandsFor s self xs ys → DoneStandsFor s result xs ys }
        ensures steps { (s : Script) (xs ys : List DataSet) → WorkStandsFor s self xs ys → steps.new ≤ steps.old + work_reach s self xs ys }
        ensures rests { changes_in (map arc_value self.news.items) ≡ 0 → steps.new ≤ steps.old }
    {
        let Work {
            round,
            statement,
            base,
            to,
            settle,
            news,
            mut node,
        } = self;
        node.settle(settle);
        let finish = node.run(rt, alloc, news.as_slice(), steps);
        Done {
            parts: DoneParts {
                round,
                statement,
                base,
                to,
                node,
                finish,
            },
        }
    }

    /// Settles the node and does no more: the done is given up, and stands for whatever the work stands for. It takes
    /// no memory.
    pub fn give_up(self) -> Done
        requires { CanRun self }
        ensures round { result.round ≡ self.round }
        ensures statement { result.statement ≡ self.statement }
        ensures base { result.base ≡ self.base }
        ensures to { result.to ≡ self.to }
        ensures finish { result.finish ≡ GaveUp }
        ensures stands { (s : Script) (xs ys : List DataSet) → WorkStandsFor s self xs ys → DoneStandsFor s result xs ys }
    {
        let Work {
            round,
            statement,
            base,
            to,
            settle,
            news: _,
            mut node,
        } = self;
        node.settle(settle);
        Done {
            parts: DoneParts {
                round,
                statement,
                base,
                to,
                node,
                finish: Finish::GaveUp,
            },
        }
    }
}

impl Done {
    pub fn parts(&self) -> &DoneParts
        ensures { result.now ≡ self.now }
    {
        &self.parts
    }

    /// All that came of the work.
    pub fn into_parts(self) -> DoneParts
        ensures { result ≡ self }
    {
        let Done { parts } = self;
        parts
    }
}
