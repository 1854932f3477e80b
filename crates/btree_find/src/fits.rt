//! Whether a key fits at the place of an address, or in the place of the item there.
//!
//! Each call compares at most two keys. To find each of their items it reads at most one node of each level, and then the item's node again.
ghost use Rattle.std.specs.Prelude.{◌↔◌, IsTrue};
ghost use Rattle.btree_laws.specs.TreeState.{IsBTree, IsUsed, IsValidIn};
ghost use Rattle.btree_find.specs.Fits.{FitsAt, FitsIn, ReplacesAt};
ghost use Rattle.btree_find.specs.Neighbours.{IsAboveItem, IsBelowItem};

use crate::navigation::{next_item_address, normalize, previous_item_address};
use btree_item::{Address, Offset};
use btree_node::NodesMut;
use btree_raw::RawBTree;
use std::cmp::Ordering;

// Returns whether a key is greater than that of the item at an address; true without an address or an item.
fn is_above<K: Ord, V, C: NodesMut<K, V>>(
    tree: &RawBTree<K, V, C>,
    before: Option<Address>,
    key: &K,
) -> bool
    ensures { IsTrue result ↔ IsAboveItem K.cmp key.now tree.now before }
{
    let Some(addr) = before else {
        return true;
    };
    match tree.item(addr) {
        Some(item) => item.key().cmp(key) == Ordering::Less,
        None => true,
    }
}

// Returns whether a key is less than that of the item at an address; true without an address or an item.
fn is_below<K: Ord, V, C: NodesMut<K, V>>(
    tree: &RawBTree<K, V, C>,
    after: Option<Address>,
    key: &K,
) -> bool
    ensures { IsTrue result ↔ IsBelowItem K.cmp key.now tree.now after }
{
    let Some(addr) = after else {
        return true;
    };
    match tree.item(addr) {
        Some(item) => key.cmp(item.key()) == Ordering::Less,
        None => true,
    }
}

/// Returns whether a key fits at the place of an address: whether it is greater than the key before the place and less than the key there.
pub fn fits_at<K: Ord, V, C: NodesMut<K, V>>(
    tree: &RawBTree<K, V, C>,
    addr: Address,
    key: &K,
) -> bool
    requires tree { IsBTree K.cmp tree.now }
    requires valid { IsValidIn tree.now addr }
    ensures { IsTrue result ↔ FitsAt K.cmp key.now tree.now addr }
{
    let previous = previous_item_address(tree, addr);
    is_above(tree, previous, key) && is_below(tree, normalize(tree, addr), key)
}

/// Returns whether an item is at an address and a key may replace its key: whether the key is greater than the key before it and less than
/// the key after it.
///
/// It reads the node of the address once before.
pub fn replaces_at<K: Ord, V, C: NodesMut<K, V>>(
    tree: &RawBTree<K, V, C>,
    addr: Address,
    key: &K,
) -> bool
    requires tree { IsBTree K.cmp tree.now }
    requires valid { IsValidIn tree.now addr }
    ensures { IsTrue result ↔ ReplacesAt K.cmp key.now tree.now addr }
{
    let Some(_item) = tree.item(addr) else {
        return false;
    };
    let previous = previous_item_address(tree, addr);
    is_above(tree, previous, key) && is_below(tree, next_item_address(tree, addr), key)
}

/// Returns whether a key is between the separators of a node, which must be in use: whether it is greater than the key before those under
/// the node and less than the key after them.
///
/// It reads the node itself once before.
pub fn key_fits_in<K: Ord, V, C: NodesMut<K, V>>(
    tree: &RawBTree<K, V, C>,
    id: usize,
    key: &K,
) -> bool
    requires tree { IsBTree K.cmp tree.now }
    requires used { IsUsed tree.now id }
    ensures { IsTrue result ↔ FitsIn K.cmp key.now tree.now id }
{
    tree.tell_fits();
    let count = tree.node(id).item_count();
    let start = Address::new(id, Offset::before());
    let end = Address::new(id, Offset::from(count));
    is_above(tree, previous_item_address(tree, start), key)
        && is_below(tree, normalize(tree, end), key)
}
