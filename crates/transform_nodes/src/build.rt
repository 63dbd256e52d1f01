// Nodes are built.
ghost use Rattle.std.specs.Prelude.{◌≡◌, ◌++◌, ◌∷◌, [], IfOk, OnOk, Some, count_by, is_some, map, slice_get, if◌then◌else◌};
ghost use Rattle.std.specs.FinMap.{empty};
ghost use Rattle.std.specs.Option.{IfSome};
ghost use Rattle.data_set_trees.specs.checked.Expressions.{expression_of, expressions, expression_of_node};
ghost use Rattle.data_set_trees.specs.checked.Scripts as scripts;
ghost use Rattle.data_set_trees.specs.checked.Scripts.{names_in, names_in_all, names_result};
ghost use Rattle.operator_rules.specs.Rules.{AreWanted};
ghost use Rattle.transform_nodes.specs.Building.{is_among, nothing_held, AllCanBuild, AreBuilt, CanBuild, IsBuilt};
ghost use Rattle.transform_nodes.specs.Nodes.{published};
ghost use Rattle.transform_nodes.specs.Trees.{plain, plain_tree, plains_of, Operates};

use crate::node::{Child, OpTree};
use data_set_trees::checked::CheckedStatement;
use data_set_trees::{DataSetNode, DataSetTree, Source};
use held_index::{DeltaRule, Held, Want};
use operator_rules::OperatorRule;
use release_text::Pages;
use std::alloc::{AllocError, Global};
use vtl_values::{Place, Structure};

/// Adds what a tree names, from the first name to the last.
#[cycle(names)]
fn push_names(names: &mut Vec<Source>, tree: &DataSetTree) -> Result<(), AllocError>
    ensures { OnOk result (names.new.items ≡ names.old.items ++ names_in (expression_of tree.now)) }
{
    match tree {
        DataSetTree::Name(source) => {
            names.push(*source)?;
            Ok(())
        }
        DataSetTree::Operator(node) => push_all_names(names, node.children.as_slice()),
    }
}

#[cycle(names)]
fn push_all_names(names: &mut Vec<Source>, trees: &[DataSetTree]) -> Result<(), AllocError>
    ensures { OnOk result (names.new.items ≡ names.old.items ++ names_in_all (expressions (map expression_of trees.now))) }
{
    for tree in trees {
        push_names(names, tree)?;
    }
    Ok(())
}

/// Whether two names stand for the same.
fn is_same(one: Source, other: Source) -> bool
    ensures { result ≡ scripts.is_same one other }
{
    match (one, other) {
        (Source::Input(one), Source::Input(other)) => one == other,
        (Source::Result(one), Source::Result(other)) => one == other,
        _ => false,
    }
}

/// The number of a name among the sources.
fn number_of(sources: &[Source], name: Source) -> Option<u64>
    ensures found { is_some result ≡ is_among sources.now name }
    ensures place { IfSome result (λ n. slice_get sources.now n ≡ Some name) }
{
    for (i, source) in sources.iter().enumerate() {
        if is_same(name, *source) {
            return Some(i as u64);
        }
    }
    None
}

/// Adds a name after the sources, unless it is one of them.
fn add_once(sources: &mut Vec<Source>, name: Source) -> Result<(), AllocError>
    ensures { OnOk result (sources.new.items ≡ (if is_among sources.old.items name then sources.old.items else sources.old.items ++ name ∷ [])) }
{
    if number_of(sources.as_slice(), name).is_some() {
        return Ok(());
    }
    sources.push(name)?;
    Ok(())
}

/// Each name once, where it stands first.
fn once_each(alloc: Global, names: &[Source]) -> Result<Vec<Source>, AllocError>
    ensures { IfOk result (λ sources. sources.items ≡ scripts.once_each names.now) }
{
    let mut sources: Vec<Source> = Vec::new(alloc);
    for name in names {
        add_once(&mut sources, *name)?;
    }
    Ok(sources)
}

/// What a tree names, each once.
pub(crate) fn sources_of(alloc: Global, tree: &DataSetTree) -> Result<Vec<Source>, AllocError>
    ensures { IfOk result (λ sources. sources.items ≡ scripts.once_each (names_in (expression_of tree.now))) }
{
    let mut names: Vec<Source> = Vec::new(alloc);
    push_names(&mut names, tree)?;
    once_each(alloc, names.as_slice())
}

/// Whether a tree names the result of a statement.
fn names_it(alloc: Global, named: &CheckedStatement, statement: u64) -> Result<bool, AllocError>
    ensures { IfOk result (λ it. it ≡ names_result statement named.now) }
{
    let mut names: Vec<Source> = Vec::new(alloc);
    push_names(&mut names, &named.tree)?;
    Ok(number_of(names.as_slice(), Source::Result(statement)).is_some())
}

/// How many of the statements name the result of one.
pub(crate) fn uses_of(
    alloc: Global,
    statements: &[CheckedStatement],
    statement: u64,
) -> Result<u64, AllocError>
    ensures { IfOk result (λ uses. uses ≡ count_by (names_result statement) statements.now) }
{
    let mut uses: u64 = 0;
    for named in statements {
        if names_it(alloc, named, statement)? {
            uses += 1;
        }
    }
    Ok(uses)
}

/// What a rule wants held, without points.
fn nothing_held_of(
    alloc: Global,
    wants: &[Want],
    operands: &[Structure],
) -> Result<Vec<Held>, AllocError>
    requires { AreWanted wants.now operands.now }
    ensures { IfOk result (λ held. held.items ≡ map nothing_held wants.now) }
{
    let mut held: Vec<Held> = Vec::new(alloc);
    for want in wants {
        held.push(Held::empty(alloc, want, &operands[want.operand as usize])?)?;
    }
    Ok(held)
}

/// The tree of an expression over its sources, which stands for empty data sets.
#[cycle(build)]
pub(crate) fn child_of(
    alloc: Global,
    tree: &DataSetTree,
    sources: &[Source],
) -> Result<Child, AllocError>
    requires { CanBuild sources.now (expression_of tree.now) }
    ensures { IfOk result (λ child. IsBuilt sources.now (expression_of tree.now) (plain child)) }
{
    match tree {
        DataSetTree::Name(source) => match number_of(sources, *source) {
            Some(number) => Ok(Child::Name(number)),
            None => unreachable!(),
        },
        DataSetTree::Operator(node) => Ok(Child::Tree(tree_of(alloc, node, sources)?)),
    }
}

#[cycle(build)]
fn tree_of(alloc: Global, node: &DataSetNode, sources: &[Source]) -> Result<OpTree, AllocError>
    requires { CanBuild sources.now (expression_of_node node.now) }
    ensures { IfOk result (λ tree. IsBuilt sources.now (expression_of_node node.now) (plain_tree tree)) }
{
    let children = children_of(alloc, node.children.as_slice(), sources)?;
    let rule = OperatorRule::of(alloc, node)?;
    let held = nothing_held_of(alloc, rule.wants(), node.operands.as_slice())?;
    Ok(new_tree(alloc, rule, node.place, children, held))
}

/// An operator without points, of which nothing is pending.
fn new_tree(
    alloc: Global,
    rule: OperatorRule,
    place: Place,
    children: Vec<Child>,
    held: Vec<Held>,
) -> OpTree
    ensures { plain_tree result ≡ Operates rule place (plains_of (map plain children.items)) held.items 0 [] 0 }
{
    OpTree {
        rule,
        place,
        children,
        held,
        points: 0,
        pending: Vec::new(alloc),
        pending_points: 0,
    }
}

#[cycle(build)]
fn children_of(
    alloc: Global,
    trees: &[DataSetTree],
    sources: &[Source],
) -> Result<Vec<Child>, AllocError>
    requires { AllCanBuild sources.now trees.now }
    ensures { IfOk result (λ children. AreBuilt sources.now trees.now (map plain children.items)) }
{
    let mut children: Vec<Child> = Vec::new(alloc);
    for tree in trees {
        let child = child_of(alloc, tree, sources)?;
        children.push(child)?;
    }
    Ok(children)
}

/// The pages of a statement without points, where it is published.
pub(crate) fn first_pages(
    alloc: Global,
    statement: &CheckedStatement,
) -> Result<Option<Pages>, AllocError>
    ensures { IfOk result (λ pages. pages ≡ published statement.now empty) }
{
    if !statement.persistent {
        return Ok(None);
    }
    Ok(Some(Pages::empty(alloc, &statement.name, &statement.structure)?))
}
