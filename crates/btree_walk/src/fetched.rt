//! The leaves of one parent that a backward walk comes to next, fetched together.
ghost use Rattle.std.specs.Prelude.{◌≡◌, [], Some};
ghost use Rattle.std.specs.FinMap as map;
ghost use Rattle.btree_laws.specs.TreeState.{IsUsed};
ghost use Rattle.btree_walk.specs.Preceding.{AreAncestorsBefore, AreFetched, HasChildrenBefore};

use crate::ancestors::{Ancestor, Ancestors};
use btree_ext::{BTreeExt, Tree};
use btree_item::{LEAF_SLOTS, MIN_ITEMS, Slots};
use btree_node::{LeafNode, Node, NodesMut};

/// The leaves that a backward walk comes to next, each with its number, the next one last. They have one parent. They are fetched together,
/// so that the walk does not wait for each of them alone.
pub(crate) type Fetched<'a, K, V> = Slots<(usize, &'a Node<K, V>), LEAF_SLOTS>;

/// Returns the node with a number: the last one of `fetched` if it has that number, and else the one that the store has. `fetched` loses its
/// last node in either case.
#[inline]
pub(crate) fn take_or_fetch<'a, K: Ord + 'a, V: 'a, C: NodesMut<K, V> + 'a>(
    tree: &'a Tree<K, V, C>,
    fetched: &mut Fetched<'a, K, V>,
    id: usize,
) -> &'a Node<K, V>
    requires here { IsUsed tree.now id }
    requires fetched { AreFetched tree.now fetched.old }
    ensures value { map.get tree.now.nodes id ≡ Some result.now }
    ensures fetched { AreFetched tree.now fetched.new }
{
    tree.tell_fits();
    if let Some((last, node)) = fetched.pop() {
        if last == id {
            return node;
        }
    }
    tree.node(id)
}

// Reads an item near the start of a leaf and the last one, so that the lines of memory that hold them are loaded while those of other
// leaves are. It reads nothing of a leaf with fewer items than any but the root has.
#[inline]
fn read_early<K, V>(leaf: &LeafNode<K, V>) {
    let items = leaf.items();
    let count = items.len();
    if count < MIN_ITEMS {
        return;
    }
    let _near_start = items.get(MIN_ITEMS - 1).unwrap();
    let _last = items.get(count - 1).unwrap();
}

// Fetches the child before each item of an internal node that the walk has not passed, in order.
fn fetch_children<'a, K: Ord + 'a, V: 'a, C: NodesMut<K, V> + 'a>(
    tree: &'a Tree<K, V, C>,
    ancestor: &Ancestor<'a, K, V>,
    fetched: &mut Fetched<'a, K, V>,
)
    requires children { HasChildrenBefore tree.now ancestor.now }
    requires none { fetched.old ≡ [] }
    ensures { AreFetched tree.now fetched.new }
{
    tree.tell_fits();
    let count = ancestor.node.item_count();
    for index in 0..count.saturating_sub(ancestor.passed) {
        let Some(id) = ancestor.node.child_id_opt(index) else {
            return;
        };
        let node = tree.node(id);
        if let Node::Leaf(leaf) = node {
            read_early(leaf);
        }
        fetched.push((id, node));
    }
}

/// Fetches the leaves before the one that a walk has come to, below the same parent, if none are left that were fetched before.
pub(crate) fn fetch_before<'a, K: Ord + 'a, V: 'a, C: NodesMut<K, V> + 'a>(
    tree: &'a Tree<K, V, C>,
    ancestors: &Ancestors<'a, K, V>,
    fetched: &mut Fetched<'a, K, V>,
)
    requires above { AreAncestorsBefore tree.now ancestors.now }
    requires fetched { AreFetched tree.now fetched.old }
    ensures { AreFetched tree.now fetched.new }
{
    tree.tell_fits();
    if fetched.len() > 0 {
        return;
    }
    if let Some(parent) = ancestors.get(ancestors.len().saturating_sub(1)) {
        fetch_children(tree, parent, fetched);
    }
}
