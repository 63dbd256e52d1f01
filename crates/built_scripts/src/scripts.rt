// Which scripts may be run.
ghost use Rattle.std.specs.Prelude.{◌≡◌, true, Some, None, if◌then◌else◌};
ghost use Rattle.std.specs.List.{All, list_all};
ghost use Rattle.data_set_trees.specs.checked.Expressions.{expression_of_node};
ghost use Rattle.built_scripts.specs.Built.{all_built, is_script_built, is_statement_built, is_tree_built, AreStructured, IsStatementStructured, IsTreeStructured};

use crate::operators::{have_structures, is_built};
use crate::script::CheckedScript;
use data_set_trees::checked::{CheckedStatement, TypedScript};
use data_set_trees::{DataSetNode, DataSetTree};

/// Whether all operators of a tree are built.
#[cycle(built)]
fn is_tree_built(tree: &DataSetTree) -> bool
    ensures built { result ≡ is_tree_built tree.now }
    ensures structured { result ≡ true → IsTreeStructured tree.now }
{
    match tree {
        DataSetTree::Name(_) => true,
        DataSetTree::Operator(node) => is_node_built(node),
    }
}

#[cycle(built)]
fn is_node_built(node: &DataSetNode) -> bool
    ensures built { result ≡ all_built (expression_of_node node.now) }
    ensures structured { result ≡ true → AreStructured (expression_of_node node.now) }
{
    have_structures(node.operands.as_slice(), &node.structure);
    is_built(node.operator.get()) && are_trees_built(node.children.as_slice())
}

#[cycle(built)]
fn are_trees_built(trees: &[DataSetTree]) -> bool
    ensures built { result ≡ list_all is_tree_built trees.now }
    ensures structured { result ≡ true → All IsTreeStructured trees.now }
{
    for tree in trees {
        if !is_tree_built(tree) {
            return false;
        }
    }
    true
}

fn are_statements_built(statements: &[CheckedStatement]) -> bool
    ensures built { result ≡ list_all is_statement_built statements.now }
    ensures structured { result ≡ true → All IsStatementStructured statements.now }
{
    for statement in statements {
        if !is_tree_built(&statement.tree) {
            return false;
        }
    }
    true
}

/// The script, where all its operators are built, so that it may be run; none where one of them isn't.
pub fn runnable(script: TypedScript) -> Option<CheckedScript>
    ensures { result ≡ (if is_script_built script then Some script else None) }
{
    if are_statements_built(script.statements()) {
        Some(CheckedScript::of(script))
    } else {
        None
    }
}
