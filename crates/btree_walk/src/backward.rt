//! The path from the root to the leaf that a backward walk is in. The items of its nodes are passed from the last one backwards.
ghost use Rattle.std.specs.Prelude.{◌≡◌, ◌<◌, [], Some, OnSome};
ghost use Rattle.btree_node.specs.Node.{view_of};
ghost use Rattle.btree_laws.specs.TreeState.{pairs_of};
ghost use Rattle.btree_walk.specs.Given.{KeepsLeftBefore};
ghost use Rattle.btree_walk.specs.Preceding.{AreAncestorsBefore, AreFetched, EndsAt, HasKept, HasKeptAbove, IsBelowBefore, IsPreviousAbove, kept_in_leaf, preceding_of};
ghost use Rattle.btree_walk.specs.Ranges.{IsLastOf, pair_now};
ghost use Rattle.btree_walk.specs.Rows.{run_left};

use crate::ancestors::{Ancestor, Ancestors};
use crate::fetched::{Fetched, fetch_before, take_or_fetch};
use btree_ext::{BTreeExt, Tree};
use btree_item::{Item, LEAF_SLOTS, SlotsIter};
use btree_node::{LeafNode, Node, NodesMut};

/// Returns the first `kept` items of a leaf, to be passed from the last one back.
#[inline]
pub(crate) fn run_to<'a, K, V>(
    leaf: Option<&'a LeafNode<K, V>>,
    kept: usize,
) -> Option<SlotsIter<'a, Item<K, V>>>
    requires { HasKept leaf kept }
    ensures { run_left result ≡ kept_in_leaf leaf.entry kept }
{
    let Some(leaf) = leaf else {
        return None;
    };
    let mut run = leaf.items().iter();
    for _ in kept..leaf.item_count() {
        run.next_back();
    }
    Some(run)
}

/// Passes the last item of a run and returns it.
#[inline]
pub(crate) fn last_in_run<'a, K, V>(
    run: &mut Option<SlotsIter<'a, Item<K, V>>>,
) -> Option<(&'a K, &'a V)>
    ensures { IsLastOf (run_left run.old) (pair_now result) (run_left run.new) }
{
    let Some(run) = run else {
        return None;
    };
    match run.next_back() {
        Some(item) => Some((item.key(), item.value())),
        None => None,
    }
}

// Returns the last item of an internal node that is not passed, and the child before it.
fn branch_before<'a, K, V>(node: &'a Node<K, V>, passed: usize) -> Option<(&'a Item<K, V>, usize)>
    ensures fits { OnSome result (passed < LEAF_SLOTS) }
    ensures last { EndsAt (view_of node.now) passed result }
{
    let count = node.item_count();
    if passed >= count {
        return None;
    }
    let index = count - passed - 1;
    let Some(child) = node.child_id_opt(index) else {
        return None;
    };
    match node.item_at_index(index) {
        Some(item) => Some((item, child)),
        None => unreachable!(),
    }
}

// Returns the rightmost leaf under a node and how many items it has, and appends the internal nodes on the path to it to the ancestors. Nodes
// that were fetched before are taken from `fetched`.
fn descend_last<'a, K: Ord + 'a, V: 'a, C: NodesMut<K, V> + 'a>(
    tree: &'a Tree<K, V, C>,
    top: usize,
    ancestors: &mut Ancestors<'a, K, V>,
    fetched: &mut Fetched<'a, K, V>,
) -> (&'a LeafNode<K, V>, usize)
    requires above { AreAncestorsBefore tree.now ancestors.old }
    requires below { IsBelowBefore tree.now ancestors.old top }
    requires fetched { AreFetched tree.now fetched.old }
    ensures above { AreAncestorsBefore tree.now ancestors.new }
    ensures fetched { AreFetched tree.now fetched.new }
    ensures kept { HasKept (Some result.0) result.1 }
    ensures left { KeepsLeftBefore tree.now top ancestors.old (Some result.0) result.1 ancestors.new }
{
    tree.tell_fits();
    let mut id = top;
    loop {
        let node = take_or_fetch(tree, fetched, id);
        match node {
            Node::Leaf(leaf) => return (leaf, leaf.item_count()),
            Node::Internal(inner) => {
                ancestors.push(Ancestor { node, passed: 0 });
                id = inner.child_id(inner.item_count());
            }
        }
    }
}

/// Returns the last leaf of a tree and how many items it has, and puts the internal nodes above it into the empty list of ancestors.
pub(crate) fn end<'a, K: Ord + 'a, V: 'a, C: NodesMut<K, V> + 'a>(
    tree: &'a Tree<K, V, C>,
    ancestors: &mut Ancestors<'a, K, V>,
    fetched: &mut Fetched<'a, K, V>,
) -> (Option<&'a LeafNode<K, V>>, usize)
    requires none { ancestors.old ≡ [] }
    requires fetched { AreFetched tree.now fetched.old }
    ensures above { AreAncestorsBefore tree.now ancestors.new }
    ensures fetched { AreFetched tree.now fetched.new }
    ensures kept { HasKept result.0 result.1 }
    ensures left { preceding_of tree.now result.0 result.1 ancestors.new ≡ pairs_of tree.now }
{
    tree.tell_fits();
    // For the prover: the length is a `usize`, so there are at most `MAX_LEVELS` levels.
    let _len = tree.len();
    let Some(root) = tree.root_id() else {
        return (None, 0);
    };
    let (leaf, kept) = descend_last(tree, root, ancestors, fetched);
    (Some(leaf), kept)
}

/// Returns the previous item of the ancestors, and the last leaf before it with the number of its items. It may fetch the leaves before that
/// one too.
pub(crate) fn previous_above<'a, K: Ord + 'a, V: 'a, C: NodesMut<K, V> + 'a>(
    tree: &'a Tree<K, V, C>,
    ancestors: &mut Ancestors<'a, K, V>,
    fetched: &mut Fetched<'a, K, V>,
) -> Option<((&'a K, &'a V), &'a LeafNode<K, V>, usize)>
    requires above { AreAncestorsBefore tree.now ancestors.old }
    requires fetched { AreFetched tree.now fetched.old }
    ensures above { AreAncestorsBefore tree.now ancestors.new }
    ensures fetched { AreFetched tree.now fetched.new }
    ensures kept { HasKeptAbove result }
    ensures left { IsPreviousAbove tree.now ancestors.old ancestors.new result }
{
    tree.tell_fits();
    while let Some(ancestor) = ancestors.pop() {
        let node = ancestor.node;
        let passed = ancestor.passed;
        if let Some((item, child)) = branch_before(node, passed) {
            ancestors.push(Ancestor {
                node,
                passed: passed + 1,
            });
            let (leaf, kept) = descend_last(tree, child, ancestors, fetched);
            fetch_before(tree, ancestors, fetched);
            return Some(((item.key(), item.value()), leaf, kept));
        }
    }
    None
}
