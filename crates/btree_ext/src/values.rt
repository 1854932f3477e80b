//! Replacing a value, and writing to it.
ghost use Rattle.std.specs.Prelude.{◌≡◌, IfSome, Some};
ghost use Rattle.std.specs.Option.{option_copied_mut};
ghost use Rattle.std.specs.Borrow.{Lends, sem};
ghost use Rattle.btree_item.specs.Pairs.{found_value};
ghost use Rattle.btree_item.specs.contracts.item.Item.{the_row as item_row};
ghost use Rattle.btree_laws.specs.TreeState.{IsBTree, IsOccupiedIn, IsUsed, item_of, pairs_of};
ghost use Rattle.btree_ext.specs.Exchange.{IsValueExchanged};
ghost use Rattle.btree_ext.specs.KeyWritten.{key_written};
ghost use Rattle.btree_ext.specs.Lent.{lends_at_key, lends_value};
ghost use Rattle.btree_ext.specs.Outcomes.{ExchangesLent, ExchangesLentAt, ExchangesLentBy, value_below};

use btree_find::{address_by, address_in};
use btree_item::{Address, Item, Query};
use btree_node::NodesMut;
use btree_raw::RawBTree;
use std::mem;

/// Replaces the value of the item at an address. Returns the old value. It changes one node and needs no new one.
pub fn exchange<K: Ord, V, C: NodesMut<K, V>>(
    tree: &mut RawBTree<K, V, C>,
    addr: Address,
    value: V,
) -> V
    requires tree { IsBTree K.cmp tree.old }
    requires occupied { IsOccupiedIn tree.old addr }
    ensures { IsValueExchanged tree.old tree.new addr K.cmp result value }
{
    let (_key, old) = pair_mut(tree, addr);
    mem::replace(old, value)
}

fn key_and_value<'a, K, V>(item: &'a mut Item<K, V>) -> (&'a K, &'a mut V)
    ensures* writes_back { sem 𝓛
        (Lends (item_row K.row V.row) V.row item.entry result.1 (λ w. (item.old.0, w))) }
    ensures pair { (result.0.now, result.1.now) ≡ item.old }
{
    let pair = item.pair_mut();
    (&pair.0, &mut pair.1)
}

/// Returns the key of the item at an address, and its value for writing. It changes one node and needs no new one.
///
/// What is written is the new value of the item, and nothing else changes: the key stays, and so does every address.
pub fn pair_mut<'a, K: Ord + 'a, V: 'a, C: NodesMut<K, V>>(
    tree: &'a mut RawBTree<K, V, C>,
    addr: Address,
) -> (&'a K, &'a mut V)
    requires tree { IsBTree K.cmp tree.old }
    requires occupied { IsOccupiedIn tree.old addr }
    ensures* writes_back { sem 𝓛 (lends_value
        K.row V.row C.row C.Origin.row C.NodesMut tree.entry addr result.1) }
    ensures pair { item_of tree.old addr ≡ Some (result.0.now, result.1.now) }
    ensures exchanged { ExchangesLentAt K.cmp addr tree.old result.1 }
{
    tree.tell_fits();
    match tree.node_mut(addr.id).item_mut(addr.offset) {
        Some(item) => key_and_value(item),
        None => unreachable!(),
    }
}

fn value_mut<'a, K: Ord + 'a, V: 'a, C: NodesMut<K, V>>(
    tree: &'a mut RawBTree<K, V, C>,
    addr: Address,
) -> &'a mut V
    requires tree { IsBTree K.cmp tree.old }
    requires occupied { IsOccupiedIn tree.old addr }
    ensures* writes_back { sem 𝓛 (lends_value
        K.row V.row C.row C.Origin.row C.NodesMut tree.entry addr result) }
    ensures exchanged { ExchangesLentAt K.cmp addr tree.old result }
{
    let (_key, value) = pair_mut(tree, addr);
    value
}

/// Returns the value at a key under a node, which must be in use, for writing, or `None` if the key is not there.
///
/// What is written is the new value at the key, and nothing else changes: the stored key stays, and so does every address. It
/// needs no new node.
pub fn get_mut_in<'a, K: Ord + 'a, V: 'a, C: NodesMut<K, V>>(
    tree: &'a mut RawBTree<K, V, C>,
    key: &K,
    top: usize,
) -> Option<&'a mut V>
    requires tree { IsBTree K.cmp tree.old }
    requires used { IsUsed tree.old top }
    ensures* writes_back { sem 𝓛 (lends_at_key
        K.row V.row C.row C.Origin.row C.NodesMut tree.entry K.cmp key.now result) }
    ensures value { option_copied_mut result ≡ value_below K.cmp key.now tree.old top }
    ensures tree { (w : V) → IsBTree K.cmp (key_written K.cmp key.now tree.old w) }
    ensures exchanged { IfSome result (ExchangesLent K.cmp key.now tree.old) }
{
    match address_in(tree, top, key) {
        Ok(addr) => Some(value_mut(tree, addr)),
        Err(_) => None,
    }
}

/// Returns the value at the key that a query is equal to for writing, or `None` if it is not there, as `get_mut` does.
pub fn get_mut_by<'a, K: Ord + 'a, Q: Query<K>, V: 'a, C: NodesMut<K, V>>(
    tree: &'a mut RawBTree<K, V, C>,
    query: &Q,
) -> Option<&'a mut V>
    requires { IsBTree K.cmp tree.old }
    ensures* writes_back { sem 𝓛 (lends_at_key
        K.row V.row C.row C.Origin.row C.NodesMut tree.entry Q.compare query.now result) }
    ensures value { option_copied_mut result ≡ found_value Q.compare query.now (pairs_of tree.old) }
    ensures tree { (w : V) → IsBTree K.cmp (key_written Q.compare query.now tree.old w) }
    ensures exchanged { IfSome result (ExchangesLentBy K.cmp Q.compare query.now tree.old) }
{
    match address_by(tree, query) {
        Ok(addr) => Some(value_mut(tree, addr)),
        Err(_) => None,
    }
}

/// Returns the value at a key for writing, or `None` if the key is not there, as `get_mut_in` does under the root.
pub fn get_mut<'a, K: Ord + 'a, V: 'a, C: NodesMut<K, V>>(
    tree: &'a mut RawBTree<K, V, C>,
    key: &K,
) -> Option<&'a mut V>
    requires { IsBTree K.cmp tree.old }
    ensures* writes_back { sem 𝓛 (lends_at_key
        K.row V.row C.row C.Origin.row C.NodesMut tree.entry K.cmp key.now result) }
    ensures value { option_copied_mut result ≡ found_value K.cmp key.now (pairs_of tree.old) }
    ensures tree { (w : V) → IsBTree K.cmp (key_written K.cmp key.now tree.old w) }
    ensures exchanged { IfSome result (ExchangesLent K.cmp key.now tree.old) }
{
    match tree.root_id() {
        Some(root) => get_mut_in(tree, key, root),
        None => None,
    }
}
