//! Removal at an address, by key and by another query.
ghost use Rattle.std.specs.Prelude.{◌≡◌, IfSome, IfNone, None};
ghost use Rattle.btree_item.specs.Pairs.{found};
ghost use Rattle.btree_laws.specs.TreeState.{IsBTree, IsValidIn, item_of, pairs_of};
ghost use Rattle.btree_raw.specs.Limit.{IsWithinLimit};
ghost use Rattle.btree_ext.specs.Remove.{HasChildBehind, IsInnerAt, IsRemoved, RemovesBy, RemovesByKey, removed};

use crate::taken::{Taken, settle, take_at, take_inner};
use btree_find::address_by;
use btree_item::{Address, Item, Query};
use btree_node::NodesMut;
use btree_raw::RawBTree;

/// Removes the item at an address. Returns it, with a back address at the place where it was. Returns `None`, and nothing changes, if there
/// is no item at the address. It frees at most as many nodes as the tree has levels and needs no new one. A leaf is
/// fetched once, unless another node is written before it is fixed.
///
/// An item of an internal node is replaced with the last one under the child before it. That child is fetched once more, to see whether it
/// is a leaf. `RawBTree::is_valid` decides whether an address is valid.
pub fn remove_at<K: Ord + Drop, V: Drop, C: NodesMut<K, V>>(
    tree: &mut RawBTree<K, V, C>,
    addr: Address,
) -> Option<(Item<K, V>, Address)>
    requires tree { IsBTree K.cmp tree.old }
    requires valid { IsValidIn tree.old addr }
    ensures removed { IfSome result (λ r. IsRemoved tree.old tree.new K.cmp addr r.0 r.1) }
    ensures vacant { IfNone result (item_of tree.old addr ≡ None) }
    ensures unchanged { IfNone result (tree.new ≡ tree.old) }
    ensures bounded { IsWithinLimit tree.old → IsWithinLimit tree.new }
{
    let Some(_root) = tree.root_id() else {
        return None;
    };
    match take_at(tree, addr) {
        Taken::Nothing => None,
        Taken::Leaf(item, count, parent) => {
            let id = addr.id;
            let at = settle(tree, id, count, parent, addr);
            Some((item, at))
        }
        Taken::Inner(left, right) => Some(remove_inner(tree, addr, left, right)),
    }
}

/// Removes the pair whose key is equal to the given one, and returns it. Returns `None`, and nothing changes, if there is none. It searches
/// once. It frees at most as many nodes as the tree has levels and needs no new one.
pub fn remove_entry<K: Ord + Drop, V: Drop, C: NodesMut<K, V>>(
    tree: &mut RawBTree<K, V, C>,
    key: &K,
) -> Option<Item<K, V>>
    requires { IsBTree K.cmp tree.old }
    ensures entry { result ≡ found K.cmp key.now (pairs_of tree.old) }
    ensures removed { pairs_of tree.new ≡ removed K.cmp key.now (pairs_of tree.old) }
    ensures removed_by_key { IfSome result (λ x. RemovesByKey tree.old tree.new K.cmp key.now x) }
    ensures unchanged { IfNone result (tree.new ≡ tree.old) }
    ensures bounded { IsWithinLimit tree.old → IsWithinLimit tree.new }
{
    remove_by(tree, key)
}

/// Removes the pair whose key a query is equal to, and returns it. Otherwise it does the same as `remove_entry`.
pub fn remove_by<K: Ord + Drop, Q: Query<K>, V: Drop, C: NodesMut<K, V>>(
    tree: &mut RawBTree<K, V, C>,
    query: &Q,
) -> Option<Item<K, V>>
    requires { IsBTree K.cmp tree.old }
    ensures entry { result ≡ found Q.compare query.now (pairs_of tree.old) }
    ensures removed { pairs_of tree.new ≡ removed Q.compare query.now (pairs_of tree.old) }
    ensures removed_by { IfSome result (λ x. RemovesBy tree.old tree.new K.cmp Q.compare query.now x) }
    ensures unchanged { IfNone result (tree.new ≡ tree.old) }
    ensures bounded { IsWithinLimit tree.old → IsWithinLimit tree.new }
{
    match address_by(tree, query) {
        Ok(addr) => match remove_at(tree, addr) {
            Some((item, _)) => Some(item),
            None => unreachable!(),
        },
        Err(_) => None,
    }
}

// Removes the item at an address of an internal node. `left` is the child before it: the last item under that takes its place. `right` is
// the child after it.
fn remove_inner<K: Ord + Drop, V: Drop, C: NodesMut<K, V>>(
    tree: &mut RawBTree<K, V, C>,
    addr: Address,
    left: usize,
    right: usize,
) -> (Item<K, V>, Address)
    requires tree { IsBTree K.cmp tree.old }
    requires inner { IsInnerAt tree.old addr left }
    requires behind { HasChildBehind tree.old addr right }
    ensures { IsRemoved tree.old tree.new K.cmp addr result.0 result.1 }
{
    let (item, leaf, count, parent, next) = take_inner(tree, addr, left, right);
    let at = settle(tree, leaf, count, parent, next);
    (item, at)
}
