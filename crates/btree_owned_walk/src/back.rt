//! The last item that is left.
ghost use Rattle.std.specs.Prelude.{◌≡◌};
ghost use Rattle.btree_laws.specs.TreeState.{KeepsRest, node_map};
ghost use Rattle.btree_owned_walk.specs.Ends.{HasLast, KeepsBack, StandsAtBack, TakesLast};

use crate::spent::release_spent;
use btree_item::Item;
use btree_node::NodesMut;
use btree_raw::RawBTree;
use btree_steps::Steps;

// Returns the node that has the last item, which is at or below one that is at the back.
fn last_node<K, V, C: NodesMut<K, V>>(tree: &RawBTree<K, V, C>, from: usize) -> usize
    requires { StandsAtBack (node_map tree.now) from }
    ensures last { HasLast (node_map tree.now) result }
    ensures back { KeepsBack (node_map tree.now) from result }
{
    tree.tell_fits();
    let mut id = from;
    // For the prover: there are at most 32 levels.
    let mut levels = Steps::new();
    loop {
        let node = tree.node(id);
        let Some(child) = node.child_id_opt(node.item_count()) else {
            return id;
        };
        if !tree.has_node(child) {
            return id;
        }
        id = child;
        levels.tick();
    }
}

// Takes the last item from the node that has it, at or below one that is at the back, and removes the nodes in which nothing is left.
fn take_last_below<K: Drop, V: Drop, C: NodesMut<K, V>>(
    tree: &mut RawBTree<K, V, C>,
    from: usize,
) -> (Item<K, V>, usize)
    requires { StandsAtBack (node_map tree.old) from }
    ensures taken { TakesLast (node_map tree.old) (node_map tree.new) from result.0 result.1 }
    ensures rest { KeepsRest tree.old tree.new }
{
    tree.tell_fits();
    let id = last_node(tree, from);
    let last = tree.node_mut(id);
    let (item, _child) = last.take_right();
    if last.item_count() > 0 {
        return (item, id);
    }
    let top = release_spent(tree, id);
    (item, top)
}

/// Takes the last item, from a node that is at the back. Nodes in which nothing is left then are removed. Returns the item and the lowest
/// node that is left of those above it, where the next step may begin.
///
/// A step from a leaf that keeps an item fetches the leaf once. Any other step asks the store for a node at most three times on its way
/// down, and at most three times on its way up.
pub fn take_last<K: Drop, V: Drop, C: NodesMut<K, V>>(
    tree: &mut RawBTree<K, V, C>,
    from: usize,
) -> (Item<K, V>, usize)
    requires { StandsAtBack (node_map tree.old) from }
    ensures taken { TakesLast (node_map tree.old) (node_map tree.new) from result.0 result.1 }
    ensures rest { KeepsRest tree.old tree.new }
{
    tree.tell_fits();
    let node = tree.node_mut(from);
    if let Some(_child) = node.child_id_opt(0) {
        return take_last_below(tree, from);
    }
    let (item, _child) = node.take_right();
    if node.item_count() > 0 {
        return (item, from);
    }
    let top = release_spent(tree, from);
    (item, top)
}
