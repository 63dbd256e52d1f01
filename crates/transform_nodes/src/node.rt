// Statements with what they hold.
ghost use Rattle.std.specs.Prelude.{◌≡◌, ◌<◌, IfOk, map, length};
ghost use Rattle.std.specs.FinMap.{empty};

use crate::build::{child_of, first_pages, sources_of, uses_of};
use crate::settle::settle_child;
use crate::work::Settle;
use built_scripts::CheckedScript;
use data_set_trees::Source;
use held_index::{Held, Patch};
use operator_rules::OperatorRule;
use release_text::Pages;
use sqlite_items::Items;
use std::alloc::{AllocError, Global};
use vtl_values::Place;

/// A name, by the number of its source in the node's list, or an operator.
#[cycle(tree)]
#[derive(Drop)]
pub enum Child {
    Name(u64),
    Tree(OpTree),
}

/// An operator at its place, with its operands; what its rule holds of them, and the number of points of its result;
/// and what is pending of these two since the last work.
#[cycle(tree)]
#[derive(Drop)]
pub struct OpTree {
    pub rule: OperatorRule,
    pub place: Place,
    pub children: Vec<Child>,
    pub held: Vec<Held>,
    pub points: u64,
    pub pending: Vec<Patch>,
    pub pending_points: u64,
}

/// A statement of a script, by its number: what it names, each once; how many statements name its result; its tree;
/// and, where it is published, its pages, and those that are pending since the last work.
pub struct Node {
    pub statement: u64,
    pub sources: Items<Source>,
    pub uses: u64,
    pub tree: Child,
    pub pages: Option<Pages>,
    pub pending_pages: Option<Pages>,
}

// Written out, so that who drops one calls this and doesn't go through what is in it.
impl Drop for Node {
    fn drop(self) {
        let Node {
            statement: _,
            sources: _,
            uses: _,
            tree: _,
            pages: _,
            pending_pages: _,
        } = self;
    }
}

impl Node {
    ghost use Rattle.transform_nodes.specs.Nodes.{CanSettle, HasSameParts, StandsAs, settled_pages, settled_tree};
    ghost use Rattle.transform_nodes.specs.Trees.{plain};
    ghost use Rattle.transform_nodes.specs.declared.work.Settle.TheVariants.{Forget};

    /// Puts what is pending in place, or drops it. It takes no memory.
    pub(crate) fn settle(&mut self, settle: Settle)
        requires { CanSettle settle (plain self.old.tree) }
        ensures parts { HasSameParts self.old self.new }
        ensures tree { plain self.new.tree ≡ settled_tree settle (plain self.old.tree) }
        ensures pages { self.new.pages ≡ settled_pages settle self.old }
    {
        settle_child(&mut self.tree, settle);
        match settle {
            Settle::Apply => self.pages = self.pending_pages.take(),
            Settle::Forget => self.pending_pages = None,
        }
    }

    /// The node of a statement, which stands for empty inputs.
    pub fn of(alloc: Global, script: &CheckedScript, statement: u64) -> Result<Node, AllocError>
        requires { statement < length script.now.statements }
        ensures number { IfOk result (λ node. node.statement ≡ statement) }
        ensures stands { IfOk result (StandsAs script.now (map (λ _. empty) script.now.inputs) Forget) }
    {
        let statements = script.statements();
        let named = &statements[statement as usize];
        let sources = sources_of(alloc, &named.tree)?;
        let uses = uses_of(alloc, statements, statement)?;
        let pages = first_pages(alloc, named)?;
        // The tree comes last, so that no step that may fail has to drop it.
        let tree = child_of(alloc, &named.tree, sources.as_slice())?;
        Ok(Node {
            statement,
            sources: Items::from_vec(sources),
            uses,
            tree,
            pages,
            pending_pages: None,
        })
    }
}
