//! Insertion at an address.
ghost use Rattle.std.specs.Prelude.{◌≡◌, ◌≢◌, ◌<◌, None, IfOk, IfErr, IsSome};
ghost use Rattle.btree_laws.specs.TreeState.{IsBTree, IsLeafAddressIn, IsValidIn, node_map};
ghost use Rattle.btree_raw.specs.Insertion.{IsFullLeaf};
ghost use Rattle.btree_raw.specs.Limit.{IsWithinLimit};
ghost use Rattle.btree_find.specs.Fits.{FitsAt};
ghost use Rattle.btree_ext.specs.InsertAt.{InsertsAt, IsRefusedAt};

use crate::insertion::{insert_and_split, insert_at_gap};
use btree_find::leaf_address;
use btree_item::{Address, Item, Refused};
use btree_node::NodesMut;
use btree_raw::{NotAdded, RawBTree, add_item_at_leaf, need_above};

/// Inserts a pair at the place of an address, which its key fits, before the item there. An address of an internal node stands for the
/// one in a leaf at its place. Returns the address of the pair. It returns an error, with the pair, and nothing but the count of
/// refusals changes, if the store refuses a node that is needed, or if the length has reached its limit. At an address in a leaf that is
/// not full it fetches the leaf once.
///
/// The address must be valid and not at -1. `RawBTree::is_valid` decides whether an address is valid.
pub fn insert_at<K: Ord + Drop, V: Drop, C: NodesMut<K, V>>(
    tree: &mut RawBTree<K, V, C>,
    addr: Address,
    item: Item<K, V>,
) -> Result<Address, Refused<K, V>>
    requires tree { IsBTree K.cmp tree.old }
    requires valid { IsValidIn tree.old addr }
    requires back { IsSome addr.offset }
    requires fits { FitsAt K.cmp item.0 tree.old addr }
    ensures inserted { IfOk result (λ b. InsertsAt tree.old tree.new addr K.cmp b item) }
    ensures returned { IfErr result (λ r. (r.key, r.value) ≡ item) }
    ensures refused { IfErr result (λ r. IsRefusedAt tree.old tree.new addr C.MayRefuse r.cause) }
    ensures bounded { IsWithinLimit tree.old → IsWithinLimit tree.new }
{
    let Some(_root) = tree.root_id() else {
        return insert_by_leaf(tree, addr, item);
    };
    if tree.limit() <= tree.len() {
        return insert_by_leaf(tree, addr, item);
    }
    match add_item_at_leaf(tree, addr.id, addr.offset.unwrap(), item) {
        Ok(()) => {
            tree.set_len(tree.len() + 1);
            Ok(addr)
        }
        Err(NotAdded::Full(item, parent)) => insert_at_full_leaf(tree, addr, item, parent),
        Err(NotAdded::Inner(item)) => insert_by_leaf(tree, addr, item),
    }
}

// Does the same at an address in a leaf that is full, with its parent.
fn insert_at_full_leaf<K: Ord + Drop, V: Drop, C: NodesMut<K, V>>(
    tree: &mut RawBTree<K, V, C>,
    addr: Address,
    item: Item<K, V>,
    parent: Option<usize>,
) -> Result<Address, Refused<K, V>>
    requires tree { IsBTree K.cmp tree.old }
    requires some { tree.old.root ≢ None }
    requires valid { IsValidIn tree.old addr }
    requires back { IsSome addr.offset }
    requires fits { FitsAt K.cmp item.0 tree.old addr }
    requires room { tree.old.len < usize.MAX }
    requires granted { tree.old.len < tree.old.kept.limit }
    requires full { IsFullLeaf (node_map tree.old) addr.id parent }
    ensures inserted { IfOk result (λ b. InsertsAt tree.old tree.new addr K.cmp b item) }
    ensures returned { IfErr result (λ r. (r.key, r.value) ≡ item) }
    ensures refused { IfErr result (λ r. IsRefusedAt tree.old tree.new addr C.MayRefuse r.cause) }
    ensures bounded { IsWithinLimit tree.old → IsWithinLimit tree.new }
{
    let count = need_above(tree, addr.id, parent);
    insert_and_split(tree, addr, item, count)
}

// Does the same by way of the address in a leaf.
fn insert_by_leaf<K: Ord + Drop, V: Drop, C: NodesMut<K, V>>(
    tree: &mut RawBTree<K, V, C>,
    addr: Address,
    item: Item<K, V>,
) -> Result<Address, Refused<K, V>>
    requires tree { IsBTree K.cmp tree.old }
    requires valid { IsValidIn tree.old addr }
    requires back { IsSome addr.offset }
    requires fits { FitsAt K.cmp item.0 tree.old addr }
    ensures inserted { IfOk result (λ b. InsertsAt tree.old tree.new addr K.cmp b item) }
    ensures returned { IfErr result (λ r. (r.key, r.value) ≡ item) }
    ensures refused { IfErr result (λ r. IsRefusedAt tree.old tree.new addr C.MayRefuse r.cause) }
    ensures bounded { IsWithinLimit tree.old → IsWithinLimit tree.new }
{
    let leaf = leaf_address(tree, addr);
    insert_at_gap(tree, leaf, item)
}

/// Inserts a pair at an address in a leaf, or nowhere in the empty tree, as `insert_at` does; it reads no node to get to a leaf. Returns
/// the address of the pair, and the same errors as `insert_at`.
///
/// The address must be valid and not at -1, and the key must fit at its place.
pub fn insert_exactly_at<K: Ord + Drop, V: Drop, C: NodesMut<K, V>>(
    tree: &mut RawBTree<K, V, C>,
    addr: Address,
    item: Item<K, V>,
) -> Result<Address, Refused<K, V>>
    requires tree { IsBTree K.cmp tree.old }
    requires valid { IsValidIn tree.old addr }
    requires back { IsSome addr.offset }
    requires leaf { IsLeafAddressIn tree.old addr }
    requires fits { FitsAt K.cmp item.0 tree.old addr }
    ensures inserted { IfOk result (λ b. InsertsAt tree.old tree.new addr K.cmp b item) }
    ensures returned { IfErr result (λ r. (r.key, r.value) ≡ item) }
    ensures refused { IfErr result (λ r. IsRefusedAt tree.old tree.new addr C.MayRefuse r.cause) }
    ensures bounded { IsWithinLimit tree.old → IsWithinLimit tree.new }
{
    insert_at_gap(tree, addr, item)
}
