//! The first item that is left.
ghost use Rattle.std.specs.Prelude.{◌≡◌};
ghost use Rattle.btree_laws.specs.TreeState.{KeepsRest, node_map};
ghost use Rattle.btree_owned_walk.specs.Ends.{HasFirst, KeepsFront, StandsAtFront, TakesFirst};

use crate::spent::release_spent;
use btree_item::Item;
use btree_node::NodesMut;
use btree_raw::RawBTree;
use btree_steps::Steps;

// Returns the node that has the first item, which is at or below one that is at the front.
fn first_node<K, V, C: NodesMut<K, V>>(tree: &RawBTree<K, V, C>, from: usize) -> usize
    requires { StandsAtFront (node_map tree.now) from }
    ensures first { HasFirst (node_map tree.now) result }
    ensures front { KeepsFront (node_map tree.now) from result }
{
    tree.tell_fits();
    let mut id = from;
    // For the prover: there are at most 32 levels.
    let mut levels = Steps::new();
    loop {
        let Some(child) = tree.node(id).child_id_opt(0) else {
            return id;
        };
        if !tree.has_node(child) {
            return id;
        }
        id = child;
        levels.tick();
    }
}

// Takes the first item from the node that has it, at or below one that is at the front, and removes the nodes in which nothing is left.
fn take_first_below<K: Drop, V: Drop, C: NodesMut<K, V>>(
    tree: &mut RawBTree<K, V, C>,
    from: usize,
) -> (Item<K, V>, usize)
    requires { StandsAtFront (node_map tree.old) from }
    ensures taken { TakesFirst (node_map tree.old) (node_map tree.new) from result.0 result.1 }
    ensures rest { KeepsRest tree.old tree.new }
{
    tree.tell_fits();
    let id = first_node(tree, from);
    let first = tree.node_mut(id);
    let (item, _child) = first.take_left();
    if first.item_count() > 0 {
        return (item, id);
    }
    let top = release_spent(tree, id);
    (item, top)
}

/// Takes the first item, from a node that is at the front. Nodes in which nothing is left then are removed. Returns the item and the lowest
/// node that is left of those above it, where the next step may begin.
///
/// A step from a leaf that keeps an item fetches the leaf once. Any other step asks the store for a node at most three times on its way
/// down, and at most three times on its way up.
pub fn take_first<K: Drop, V: Drop, C: NodesMut<K, V>>(
    tree: &mut RawBTree<K, V, C>,
    from: usize,
) -> (Item<K, V>, usize)
    requires { StandsAtFront (node_map tree.old) from }
    ensures taken { TakesFirst (node_map tree.old) (node_map tree.new) from result.0 result.1 }
    ensures rest { KeepsRest tree.old tree.new }
{
    tree.tell_fits();
    let node = tree.node_mut(from);
    if let Some(_child) = node.child_id_opt(0) {
        return take_first_below(tree, from);
    }
    let (item, _child) = node.take_left();
    if node.item_count() > 0 {
        return (item, from);
    }
    let top = release_spent(tree, from);
    (item, top)
}
