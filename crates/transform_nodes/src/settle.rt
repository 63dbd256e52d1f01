// What the last work left pending is put in place, or dropped.
ghost use Rattle.std.specs.Prelude.{◌≡◌, [], map, length};
ghost use Rattle.transform_nodes.specs.Nodes.{all_settled, settled_tree, AllCanSettle, CanSettle};
ghost use Rattle.transform_nodes.specs.Settling.{own_settled, CanSettleOwn};
ghost use Rattle.transform_nodes.specs.Trees.{plain, plain_tree, plains_of};
ghost use Rattle.transform_nodes.specs.declared.work.Settle.TheVariants.{Apply, Forget};

use crate::node::{Child, OpTree};
use crate::work::Settle;
use held_index::{Held, Patch};
use std::mem;

/// Puts the patches of held operands in place. It takes no memory.
fn put_all(held: &mut Vec<Held>, pending: &mut Vec<Patch>)
    requires { length pending.old.items ≡ length held.old.items }
    ensures held { held.new.items ≡ pending.old.items }
    ensures pending { pending.new.items ≡ [] }
{
    while let Some(patch) = pending.pop() {
        let at = pending.len();
        let operand = &mut held[at];
        operand.apply(patch);
    }
}

/// Puts what is pending of an operator itself in place. It takes no memory.
fn apply_own(tree: &mut OpTree)
    requires { length tree.old.pending.items ≡ length tree.old.held.items }
    ensures { plain_tree tree.new ≡ own_settled Apply (plain_tree tree.old) }
{
    put_all(&mut tree.held, &mut tree.pending);
    tree.points = tree.pending_points;
    tree.pending_points = 0;
}

/// Drops what is pending of an operator itself. It takes no memory.
fn forget_own(tree: &mut OpTree)
    ensures { plain_tree tree.new ≡ own_settled Forget (plain_tree tree.old) }
{
    tree.pending.clear();
    tree.pending_points = 0;
}

/// Settles what is pending of an operator itself. It takes no memory.
fn settle_own(tree: &mut OpTree, settle: Settle)
    requires { CanSettleOwn settle (plain_tree tree.old) }
    ensures { plain_tree tree.new ≡ own_settled settle (plain_tree tree.old) }
{
    match settle {
        Settle::Apply => apply_own(tree),
        Settle::Forget => forget_own(tree),
    }
}

/// Settles a tree. It takes no memory.
#[cycle(settle)]
pub(crate) fn settle_child(child: &mut Child, settle: Settle)
    requires { CanSettle settle (plain child.old) }
    ensures { plain child.new ≡ settled_tree settle (plain child.old) }
{
    match mem::replace(child, Child::Name(0)) {
        Child::Name(number) => *child = Child::Name(number),
        Child::Tree(mut tree) => {
            settle_tree(&mut tree, settle);
            *child = Child::Tree(tree);
        }
    }
}

#[cycle(settle)]
fn settle_tree(tree: &mut OpTree, settle: Settle)
    requires { CanSettle settle (plain_tree tree.old) }
    ensures { plain_tree tree.new ≡ settled_tree settle (plain_tree tree.old) }
{
    settle_children(&mut tree.children, settle);
    settle_own(tree, settle);
}

#[cycle(settle)]
fn settle_children(children: &mut Vec<Child>, settle: Settle)
    requires { AllCanSettle settle (plains_of (map plain children.old.items)) }
    ensures { plains_of (map plain children.new.items) ≡ all_settled settle (plains_of (map plain children.old.items)) }
{
    for i in 0..children.len() {
        settle_child(&mut children[i], settle);
    }
}
