//! The last pair that is within an end bound, near a forward walk.
ghost use Rattle.std.specs.Prelude.{◌≡◌, Some};
ghost use Rattle.std.specs.BTreeMap.Range.{is_past_end};
ghost use Rattle.btree_item.specs.Pairs.{Ascends};
ghost use Rattle.btree_walk.specs.Bounds.{bound_key};
ghost use Rattle.btree_walk.specs.Given.{GivesLastWithin};
ghost use Rattle.btree_walk.specs.Near.{AreSomewhere, CutsLeaf, CutsRow, IsLastBelow, IsSomewhere, branch_now, child_in, list_below, list_under};
ghost use Rattle.btree_walk.specs.Rows.{AreAncestors, remaining_of};

use crate::ancestors::{Ancestors, next_in_leaf};
use btree_ext::{BTreeExt, Tree};
use btree_node::{LeafNode, Node, NodesMut};
use std::ops::Bound;

/// Returns whether a key is past an end bound.
#[inline]
pub(crate) fn is_past<K: Ord>(end: Bound<&K>, key: &K) -> bool
    ensures { result ≡ is_past_end K.cmp (bound_key end.entry) key.now }
{
    match end {
        Bound::Included(last) => last.cmp(key).is_lt(),
        Bound::Excluded(first) => first.cmp(key).is_le(),
        Bound::Unbounded => false,
    }
}

// Returns the last item of a leaf that is within an end bound, after those that are passed, and whether an item is past the bound.
fn last_of_leaf<'a, K: Ord, V>(
    leaf: Option<&'a LeafNode<K, V>>,
    passed: usize,
    end: Bound<&K>,
) -> (Option<(&'a K, &'a V)>, bool)
    ensures { CutsLeaf K.cmp (bound_key end.entry) leaf.entry passed result }
{
    let mut index = passed;
    let mut last = None;
    while let Some(pair) = next_in_leaf(leaf, index) {
        if is_past(end, pair.0) {
            return (last, true);
        }
        last = Some(pair);
        index += 1;
    }
    (last, false)
}

// The same for an internal node. The item is returned with the child after it.
fn last_of_row<'a, K: Ord, V>(
    node: &'a Node<K, V>,
    passed: usize,
    end: Bound<&K>,
) -> (Option<((&'a K, &'a V), usize)>, bool)
    ensures { CutsRow K.cmp (bound_key end.entry) node.now passed result }
{
    let mut index = passed;
    let mut last = None;
    while let Some((item, child)) = node.branch_at_index(index) {
        if is_past(end, item.key()) {
            return (last, true);
        }
        last = Some(((item.key(), item.value()), child));
        index += 1;
    }
    (last, false)
}

// Returns the last pair under a node that is within an end bound.
fn last_under<'a, K: Ord + 'a, V: 'a, C: NodesMut<K, V> + 'a>(
    tree: &'a Tree<K, V, C>,
    top: usize,
    end: Bound<&K>,
) -> Option<(&'a K, &'a V)>
    requires under { IsSomewhere tree.now top }
    requires rises { Ascends K.cmp (list_under tree.now top) }
    ensures { GivesLastWithin K.cmp end.entry (list_under tree.now top) result }
{
    tree.tell_fits();
    let mut last = None;
    let mut id = top;
    loop {
        let node = tree.node(id);
        match node {
            Node::Leaf(leaf) => return last_of_leaf(Some(leaf), 0, end).0.or(last),
            Node::Internal(inner) => match last_of_row(node, 0, end).0 {
                Some((pair, child)) => {
                    last = Some(pair);
                    id = child;
                }
                None => id = inner.first_child_id(),
            },
        }
    }
}

// Returns the last pair under the child of a branch that is within an end bound, or the item of the branch if there is none. Without a
// branch returns `other`.
fn last_below<'a, K: Ord + 'a, V: 'a, C: NodesMut<K, V> + 'a>(
    tree: &'a Tree<K, V, C>,
    branch: Option<((&'a K, &'a V), usize)>,
    other: Option<(&'a K, &'a V)>,
    end: Bound<&K>,
) -> Option<(&'a K, &'a V)>
    requires under { AreSomewhere tree.now (child_in (branch_now branch)) }
    requires rises { Ascends K.cmp (list_below tree.now (child_in (branch_now branch))) }
    ensures { IsLastBelow tree.now K.cmp (bound_key end.entry) branch.entry other.entry result }
{
    match branch {
        Some((pair, child)) => last_under(tree, child, end).or(Some(pair)),
        None => other,
    }
}

/// Returns the last pair that a forward walk has left and that is within an end bound. It looks at the nodes above the walk's leaf only as
/// far as it must, and at those under one of them.
pub(crate) fn last_within<'a, K: Ord + 'a, V: 'a, C: NodesMut<K, V> + 'a>(
    tree: &'a Tree<K, V, C>,
    leaf: Option<&'a LeafNode<K, V>>,
    passed: usize,
    ancestors: &Ancestors<'a, K, V>,
    end: Bound<&K>,
) -> Option<(&'a K, &'a V)>
    requires above { AreAncestors tree.now ancestors.now }
    requires rises { Ascends K.cmp (remaining_of tree.now leaf passed ancestors.now) }
    ensures { GivesLastWithin K.cmp end.entry
        (remaining_of tree.now leaf.entry passed ancestors.now) result }
{
    tree.tell_fits();
    let (last, stops) = last_of_leaf(leaf, passed, end);
    if stops {
        return last;
    }
    let mut branch = None;
    let mut level = ancestors.len();
    while level > 0 {
        level -= 1;
        if let Some(ancestor) = ancestors.get(level) {
            let (later, stops) = last_of_row(ancestor.node, ancestor.passed, end);
            branch = later.or(branch);
            if stops {
                return last_below(tree, branch, last, end);
            }
        }
    }
    last_below(tree, branch, last, end)
}
