//! Replacing key and value.
ghost use Rattle.std.specs.Prelude.{◌≡◌, Some};
ghost use Rattle.btree_laws.specs.TreeState.{IsBTree, item_of, pairs_of};
ghost use Rattle.btree_raw.specs.Limit.{IsWithinLimit};
ghost use Rattle.btree_find.specs.Fits.{ReplacesAt};
ghost use Rattle.btree_ext.specs.ByKey.{ReplaceOutcome};
ghost use Rattle.btree_ext.specs.Exchange.{IsExchanged, IsKeyExchanged};

use crate::insertion::insert_at_gap;
use btree_find::address_of;
use btree_item::{Address, Item, Refused};
use btree_node::NodesMut;
use btree_raw::RawBTree;

/// Replaces key and value of the item at an address. Returns the old pair. It changes one node and needs no new one.
///
/// `replaces_at` of `btree_find` decides whether a key may stand there.
pub fn replace_at<K: Ord, V, C: NodesMut<K, V>>(
    tree: &mut RawBTree<K, V, C>,
    addr: Address,
    key: K,
    value: V,
) -> (K, V)
    requires tree { IsBTree K.cmp tree.old }
    requires replaces { ReplacesAt K.cmp key tree.old addr }
    ensures old { item_of tree.old addr ≡ Some result }
    ensures exchanged { IsExchanged tree.old tree.new addr K.cmp (key, value) }
{
    tree.tell_fits();
    match tree.node_mut(addr.id).item_mut(addr.offset) {
        Some(item) => item.set(key, value),
        None => unreachable!(),
    }
}

/// Replaces the key of the item at an address. Returns the old key. It changes one node and needs no new one.
///
/// `replaces_at` of `btree_find` decides whether a key may stand there.
pub fn replace_key_at<K: Ord, V, C: NodesMut<K, V>>(
    tree: &mut RawBTree<K, V, C>,
    addr: Address,
    key: K,
) -> K
    requires tree { IsBTree K.cmp tree.old }
    requires replaces { ReplacesAt K.cmp key tree.old addr }
    ensures { IsKeyExchanged tree.old tree.new addr K.cmp result key }
{
    tree.tell_fits();
    match tree.node_mut(addr.id).item_mut(addr.offset) {
        Some(item) => item.set_key(key),
        None => unreachable!(),
    }
}

/// Inserts a pair by its key, or replaces key and value if an equal key is there. Returns the pair that was replaced. A refusal returns the
/// pair, and nothing but the count of refusals changes. It searches once.
pub fn replace<K: Ord + Drop, V: Drop, C: NodesMut<K, V>>(
    tree: &mut RawBTree<K, V, C>,
    key: K,
    value: V,
) -> Result<Option<(K, V)>, Refused<K, V>>
    requires { IsBTree K.cmp tree.old }
    ensures tree { IsBTree K.cmp tree.new }
    ensures outcome { ReplaceOutcome K.cmp key tree.old tree.new C.MayRefuse value result }
    ensures bounded { IsWithinLimit tree.old → IsWithinLimit tree.new }
{
    match address_of(tree, &key) {
        Ok(addr) => Ok(Some(replace_at(tree, addr, key, value))),
        Err(addr) => match insert_at_gap(tree, addr, Item::new(key, value)) {
            Ok(_) => Ok(None),
            Err(refused) => Err(refused),
        },
    }
}
