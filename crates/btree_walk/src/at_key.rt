//! Where a walk is that starts at a key. It makes at most six comparisons in each node on the way.
ghost use Rattle.std.specs.Prelude.{◌≡◌, ◌≤◌, []};
ghost use Rattle.std.specs.declared.ops.Bound.TheVariants.{Included};
ghost use Rattle.btree_item.specs.Pairs.{Ascends};
ghost use Rattle.btree_node.specs.Node.{view_of};
ghost use Rattle.btree_view.specs.View.{items_of, size_of};
ghost use Rattle.btree_walk.specs.AtKey.{below_in, up_to_in};
ghost use Rattle.btree_walk.specs.Given.{HasLeftFrom, HasLeftUpTo};
ghost use Rattle.btree_walk.specs.Preceding.{AreAncestorsBefore, HasKept};
ghost use Rattle.btree_walk.specs.Rows.{AreAncestors};

use crate::ancestors::{Ancestor, Ancestors};
use btree_ext::{BTreeExt, Tree};
use btree_node::{LeafNode, Node, NodesMut};

// Returns how many items of a node have keys below `key`, and the child after them, or `None` if the key is in the node or the node is a
// leaf.
#[inline]
fn items_below<K: Ord, V>(node: &Node<K, V>, key: &K) -> (usize, Option<usize>)
    requires { Ascends K.cmp (items_of (view_of node.now)) }
    ensures { result ≡ below_in K.cmp key.now (view_of node.now) }
{
    match node.offset_of(key) {
        Ok(offset) => (offset.unwrap(), None),
        Err(gap) => gap,
    }
}

/// Starts a forward walk behind the items with keys below `key`. Returns the leaf there, and how many of its items are passed. The internal
/// nodes above it go into the empty list of ancestors.
pub(crate) fn start_from<'a, K: Ord + 'a, V: 'a, C: NodesMut<K, V> + 'a>(
    tree: &'a Tree<K, V, C>,
    key: &K,
    ancestors: &mut Ancestors<'a, K, V>,
) -> (Option<&'a LeafNode<K, V>>, usize)
    requires none { ancestors.old ≡ [] }
    ensures above { AreAncestors tree.now ancestors.new }
    ensures left { HasLeftFrom tree.now K.cmp (Included key.now) result.0 result.1 ancestors.new }
{
    tree.tell_fits();
    // For the prover: the length is a `usize`, so there are at most `MAX_LEVELS` levels.
    let _len = tree.len();
    let Some(root) = tree.root_id() else {
        return (None, 0);
    };
    let mut id = root;
    loop {
        let node = tree.node(id);
        let (passed, next) = items_below(node, key);
        match node {
            Node::Leaf(leaf) => return (Some(leaf), passed),
            Node::Internal(_) => {
                ancestors.push(Ancestor { node, passed });
                match next {
                    Some(child) => id = child,
                    None => return (None, 0),
                }
            }
        }
    }
}

// Returns how many items of a node have keys up to `key`, and the child after them, or `None` if the key is in the node or the node is a
// leaf.
#[inline]
fn items_up_to<K: Ord, V>(node: &Node<K, V>, key: &K) -> (usize, Option<usize>)
    requires { Ascends K.cmp (items_of (view_of node.now)) }
    ensures value { result ≡ up_to_in K.cmp key.now (view_of node.now) }
    ensures within { result.0 ≤ size_of (view_of node.now) }
{
    match node.offset_of(key) {
        Ok(offset) => (offset.unwrap() + 1, None),
        Err(gap) => gap,
    }
}

/// Starts a backward walk before the items with keys above `key`. Returns the leaf there, and how many of its items are left. The internal
/// nodes above it go into the empty list of ancestors.
pub(crate) fn end_at<'a, K: Ord + 'a, V: 'a, C: NodesMut<K, V> + 'a>(
    tree: &'a Tree<K, V, C>,
    key: &K,
    ancestors: &mut Ancestors<'a, K, V>,
) -> (Option<&'a LeafNode<K, V>>, usize)
    requires none { ancestors.old ≡ [] }
    ensures above { AreAncestorsBefore tree.now ancestors.new }
    ensures kept { HasKept result.0 result.1 }
    ensures left { HasLeftUpTo tree.now K.cmp (Included key.now) result.0 result.1 ancestors.new }
{
    tree.tell_fits();
    // For the prover: the length is a `usize`, so there are at most `MAX_LEVELS` levels.
    let _len = tree.len();
    let Some(root) = tree.root_id() else {
        return (None, 0);
    };
    let mut id = root;
    loop {
        let node = tree.node(id);
        let (kept, next) = items_up_to(node, key);
        match node {
            Node::Leaf(leaf) => return (Some(leaf), kept),
            Node::Internal(_) => {
                let passed = node.item_count() - kept;
                ancestors.push(Ancestor { node, passed });
                match next {
                    Some(child) => id = child,
                    None => return (None, 0),
                }
            }
        }
    }
}
