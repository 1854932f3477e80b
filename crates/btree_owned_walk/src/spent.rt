//! Nodes in which nothing is left.
ghost use Rattle.std.specs.Prelude.{◌≡◌, ◌↔◌, IsTrue};
ghost use Rattle.btree_laws.specs.TreeState.{IsUsed, KeepsRest, node_map};
ghost use Rattle.btree_owned_walk.specs.Ends.{IsClimbing, ReleasesSpent};
ghost use Rattle.btree_owned_walk.specs.Rest.{IsSpent};

use btree_node::NodesMut;
use btree_raw::RawBTree;

// Returns whether a node has no item left, and its one child is gone.
fn is_spent<K, V, C: NodesMut<K, V>>(tree: &RawBTree<K, V, C>, id: usize) -> bool
    requires { IsUsed tree.now id }
    ensures { IsTrue result ↔ IsSpent (node_map tree.now) id }
{
    tree.tell_fits();
    let node = tree.node(id);
    if node.item_count() > 0 {
        return false;
    }
    let Some(child) = node.child_id_opt(0) else {
        return true;
    };
    if tree.has_node(child) {
        return false;
    }
    true
}

/// Removes the nodes in which nothing is left, from one upward. Returns the lowest one that is left, or the last one that was removed.
pub(crate) fn release_spent<K: Drop, V: Drop, C: NodesMut<K, V>>(
    tree: &mut RawBTree<K, V, C>,
    start: usize,
) -> usize
    requires { IsClimbing (node_map tree.old) start }
    ensures released { ReleasesSpent (node_map tree.old) (node_map tree.new) start result }
    ensures rest { KeepsRest tree.old tree.new }
{
    tree.tell_fits();
    let mut id = start;
    while is_spent(tree, id) {
        let node = tree.release_node(id);
        let parent = node.parent();
        drop(node);
        match parent {
            Some(parent) => id = parent,
            None => return id,
        }
    }
    id
}
