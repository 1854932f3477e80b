//! The ends of a tree: the first and the last item, and the first and the last back address in a leaf.
ghost use Rattle.btree_laws.specs.TreeState.{IsBTree};
ghost use Rattle.btree_find.specs.Ends.{IsFirstBack, IsFirstItem, IsLastItem, IsLastValid};

use crate::navigation::{leftmost_leaf, rightmost_leaf};
use btree_item::{Address, Offset};
use btree_node::NodesMut;
use btree_raw::RawBTree;

/// Returns the address of the first item, or `None` if there are no pairs.
pub fn first_item_address<K: Ord, V, C: NodesMut<K, V>>(tree: &RawBTree<K, V, C>) -> Option<Address>
    requires tree { IsBTree K.cmp tree.now }
    ensures { IsFirstItem tree.now result }
{
    let Some(root) = tree.root_id() else {
        return None;
    };
    Some(Address::new(leftmost_leaf(tree, root), Offset::from(0)))
}

/// Returns the address of the last item, or `None` if there are no pairs.
pub fn last_item_address<K: Ord, V, C: NodesMut<K, V>>(tree: &RawBTree<K, V, C>) -> Option<Address>
    requires tree { IsBTree K.cmp tree.now }
    ensures { IsLastItem tree.now result }
{
    let Some(root) = tree.root_id() else {
        return None;
    };
    let (leaf, count) = rightmost_leaf(tree, root);
    Some(Address::new(leaf, Offset::from(count - 1)))
}

/// Returns offset 0 of the leftmost leaf, where a visit of the back addresses begins, or nowhere if there are no pairs.
pub fn first_back_address<K: Ord, V, C: NodesMut<K, V>>(tree: &RawBTree<K, V, C>) -> Address
    requires tree { IsBTree K.cmp tree.now }
    ensures { IsFirstBack tree.now result }
{
    let Some(root) = tree.root_id() else {
        return Address::nowhere();
    };
    Address::new(leftmost_leaf(tree, root), Offset::from(0))
}

/// Returns the address past the end of the rightmost leaf, or nowhere if there are no pairs.
pub fn last_valid_address<K: Ord, V, C: NodesMut<K, V>>(tree: &RawBTree<K, V, C>) -> Address
    requires tree { IsBTree K.cmp tree.now }
    ensures { IsLastValid tree.now result }
{
    let Some(root) = tree.root_id() else {
        return Address::nowhere();
    };
    let (leaf, count) = rightmost_leaf(tree, root);
    Address::new(leaf, Offset::from(count))
}
