//! The steps that a removal and an update share. An item is taken out while the length still counts it, and then the length is set.
ghost use Rattle.std.specs.Prelude.{◌<◌, ◌^◌};
ghost use Rattle.btree_laws.specs.TreeState.{IsBTree, IsUsed};
ghost use Rattle.btree_raw.specs.Rebalance.{IsRebalanced};
ghost use Rattle.btree_ext.specs.Remove.{HasChildBehind, IsInnerAt, LeadsBehind};
ghost use Rattle.btree_ext.specs.Taken.{HasLost, IsTaken, TakesInner, one_less};

use btree_find::first_item_beside;
use btree_item::{Address, Item, MIN_ITEMS};
use btree_node::NodesMut;
use btree_raw::{RawBTree, rebalance_fetched, take_last_below};

/// What was taken out at an address.
#[derive(Drop)]
pub(crate) enum Taken<K, V> {
    /// No item is there.
    Nothing,
    /// The item of a leaf, with what the leaf has then: how many items, and which parent.
    Leaf(Item<K, V>, usize, Option<usize>),
    /// The item of an internal node stays. These are the children before it and after it.
    Inner(usize, usize),
}

/// Takes out the item at an address, if it is in a leaf. It fetches the node once.
#[inline]
pub(crate) fn take_at<K: Ord + Drop, V: Drop, C: NodesMut<K, V>>(
    tree: &mut RawBTree<K, V, C>,
    addr: Address,
) -> Taken<K, V>
    requires tree { IsBTree K.cmp tree.old }
    requires used { IsUsed tree.old addr.id }
    ensures { IsTaken tree.old tree.new K.cmp addr result }
{
    tree.tell_fits();
    let node = tree.node_mut(addr.id);
    match node.leaf_remove(addr.offset) {
        None => Taken::Nothing,
        Some(Ok(item)) => {
            let count = node.item_count();
            let parent = node.parent();
            Taken::Leaf(item, count, parent)
        }
        Some(Err(left)) => {
            let right = node.child_id(addr.offset.unwrap() + 1);
            Taken::Inner(left, right)
        }
    }
}

/// Puts the last item under `left`, the child before an item of an internal node, in the place of that item; `right` is the child after it.
/// Returns the item that was there, the leaf that the other one was in, with what it has then, and the address of the item after.
#[inline]
pub(crate) fn take_inner<K: Ord + Drop, V: Drop, C: NodesMut<K, V>>(
    tree: &mut RawBTree<K, V, C>,
    addr: Address,
    left: usize,
    right: usize,
) -> (Item<K, V>, usize, usize, Option<usize>, Address)
    requires tree { IsBTree K.cmp tree.old }
    requires inner { IsInnerAt tree.old addr left }
    requires behind { HasChildBehind tree.old addr right }
    ensures taken { TakesInner tree.old tree.new addr left result.0 result.1 }
    ensures lost { HasLost K.cmp tree.new result.1 result.2 result.3 result.4 }
    ensures behind { LeadsBehind tree.old addr result.4 }
{
    tree.tell_fits();
    let next = first_item_beside(tree, left, right);
    let (last, leaf, count, parent) = take_last_below(tree, left);
    let item = tree.node_mut(addr.id).replace(addr.offset, last);
    (item, leaf, count, parent, next)
}

/// Sets the length to one less, and fixes the underflow of a node that has lost an item: it has `count` items and this parent. Returns the
/// address of what was at `addr`. It does not fetch the node again, unless another node is written before it is fixed.
#[inline]
pub(crate) fn settle<K: Ord + Drop, V: Drop, C: NodesMut<K, V>>(
    tree: &mut RawBTree<K, V, C>,
    id: usize,
    count: usize,
    parent: Option<usize>,
    addr: Address,
) -> Address
    requires { HasLost K.cmp tree.old id count parent addr }
    ensures few { tree.old.len < 2 ^ 64 }
    ensures rebalanced { IsRebalanced (one_less tree.old) tree.new id K.cmp addr result }
{
    let len = tree.len();
    tree.set_len(len - 1);
    if count >= MIN_ITEMS {
        return addr;
    }
    rebalance_fetched(tree, id, count, parent, addr)
}
