//! Removal of the last item under a node.
ghost use Rattle.btree_laws.specs.TreeState.{IsBTreeButLength, IsUsed, node_map};
ghost use Rattle.btree_raw.specs.LastItem.{TakesLast};
ghost use Rattle.btree_raw.specs.Steps.{HasCount, HasParent};
ghost use Rattle.btree_raw.specs.TreeSteps.{LosesItemOfFew};

use crate::raw::RawBTree;
use btree_item::Item;
use btree_node::NodesMut;

impl<K: Ord + Drop, V: Drop, C: NodesMut<K, V>> RawBTree<K, V, C> {
    /// Takes the last item out of the rightmost leaf under a node, and returns it with the number of that leaf. Nothing else changes:
    /// nothing is rebalanced, and the length stays. It reads one node of each level from the given one down. If there are fewer than
    /// 2^64 pairs, `rebalance` may then be called for the leaf.
    ///
    /// The contract requires a number that is used, see `has_node`, in a tree that is well formed except for its length, so that the leaf has
    /// an item.
    pub fn remove_rightmost_leaf_of(&mut self, id: usize) -> (Item<K, V>, usize)
        requires tree { IsBTreeButLength K.cmp self.old }
        requires used { IsUsed self.old id }
        ensures taken { TakesLast self.old self.new id result.0 result.1 }
        ensures tree { LosesItemOfFew self.old self.new K.cmp result.0 result.1 }
    {
        let (item, leaf, _count, _parent) = take_last_below(self, id);
        (item, leaf)
    }
}

/// Takes the last item out of the rightmost leaf under a node, as `remove_rightmost_leaf_of` does. Returns the item and the number of the
/// leaf, with what the leaf has then: how many items, and which parent.
pub fn take_last_below<K: Ord + Drop, V: Drop, C: NodesMut<K, V>>(
    tree: &mut RawBTree<K, V, C>,
    id: usize,
) -> (Item<K, V>, usize, usize, Option<usize>)
    requires tree { IsBTreeButLength K.cmp tree.old }
    requires used { IsUsed tree.old id }
    ensures taken { TakesLast tree.old tree.new id result.0 result.1 }
    ensures tree { LosesItemOfFew tree.old tree.new K.cmp result.0 result.1 }
    ensures count { HasCount (node_map tree.new) result.1 result.2 }
    ensures parent { HasParent (node_map tree.new) result.1 result.3 }
{
    tree.tell_fits();
    let mut lower = id;
    loop {
        let node = tree.node_mut(lower);
        match node.remove_rightmost_leaf() {
            Ok(item) => {
                let count = node.item_count();
                let parent = node.parent();
                return (item, lower, count, parent);
            }
            Err(child) => lower = child,
        }
    }
}
