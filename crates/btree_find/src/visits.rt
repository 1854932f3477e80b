//! Visits of the back addresses of a tree forwards, and of its front addresses backwards, step by step.
ghost use Rattle.std.specs.Prelude.{◌≡◌, ◌≤◌, Some};
ghost use Rattle.std.specs.FinMap as map;
ghost use Rattle.btree_node.specs.Node.{view_of};
ghost use Rattle.btree_view.specs.View.{size_of};
ghost use Rattle.btree_laws.specs.Addresses.{slot_before};
ghost use Rattle.btree_laws.specs.Focus.Positions.{address_at, address_before};
ghost use Rattle.btree_laws.specs.TreeState.{IsBTree, IsValidIn};
ghost use Rattle.btree_find.specs.Visits.{IsNextBack, IsPreviousFront};

use crate::navigation::{leftmost_leaf, rightmost_leaf};
use btree_item::{Address, Offset};
use btree_node::{Node, NodesMut};
use btree_raw::RawBTree;

fn back_after<'a, K: Ord + 'a, V: 'a, C: NodesMut<K, V>>(
    tree: &'a RawBTree<K, V, C>,
    node: &'a Node<K, V>,
    id: usize,
    offset: usize,
) -> Option<Address>
    requires tree { IsBTree K.cmp tree.now }
    requires node { map.get tree.now.nodes id ≡ Some node.now }
    requires within { offset ≤ size_of (view_of node.now) }
    ensures { IsNextBack tree.now (address_at id offset) result }
{
    tree.tell_fits();
    let count = node.item_count();
    if let Some(child) = node.child_id_opt(offset + 1) {
        return Some(Address::new(leftmost_leaf(tree, child), Offset::from(0)));
    }
    if offset < count {
        return Some(Address::new(id, Offset::from(offset + 1)));
    }
    let Some(parent) = node.parent() else {
        return None;
    };
    let index = tree.node(parent).child_index(id).unwrap();
    Some(Address::new(parent, Offset::from(index)))
}

/// Returns the back address after a back address, in the order of places, or `None` after the last one. After -1 of a node comes the first
/// back address under the node.
///
/// From the first back address, this visits each back address of the tree once.
pub fn next_back_address<K: Ord, V, C: NodesMut<K, V>>(
    tree: &RawBTree<K, V, C>,
    addr: Address,
) -> Option<Address>
    requires tree { IsBTree K.cmp tree.now }
    requires valid { IsValidIn tree.now addr }
    ensures { IsNextBack tree.now addr result }
{
    let Some(_root) = tree.root_id() else {
        return None;
    };
    tree.tell_fits();
    match addr.offset.value() {
        Some(offset) => back_after(tree, tree.node(addr.id), addr.id, offset),
        None => Some(Address::new(leftmost_leaf(tree, addr.id), Offset::from(0))),
    }
}

// Returns the address one before an offset of a node; before 0 comes -1.
fn slot_before(id: usize, offset: usize) -> Address
    ensures { result ≡ slot_before id offset }
{
    if offset == 0 {
        return Address::new(id, Offset::before());
    }
    Address::new(id, Offset::from(offset - 1))
}

fn front_before<'a, K: Ord + 'a, V: 'a, C: NodesMut<K, V>>(
    tree: &'a RawBTree<K, V, C>,
    node: &'a Node<K, V>,
    id: usize,
    offset: usize,
) -> Address
    requires tree { IsBTree K.cmp tree.now }
    requires node { map.get tree.now.nodes id ≡ Some node.now }
    requires within { offset ≤ size_of (view_of node.now) }
    ensures { IsPreviousFront tree.now (address_at id offset) (Some result) }
{
    tree.tell_fits();
    if let Some(child) = node.child_id_opt(offset) {
        let (leaf, count) = rightmost_leaf(tree, child);
        return slot_before(leaf, count);
    }
    slot_before(id, offset)
}

// Returns the front address before -1 of a node, which is in the node above.
fn front_above<'a, K: Ord + 'a, V: 'a, C: NodesMut<K, V>>(
    tree: &'a RawBTree<K, V, C>,
    node: &'a Node<K, V>,
    id: usize,
) -> Option<Address>
    requires tree { IsBTree K.cmp tree.now }
    requires node { map.get tree.now.nodes id ≡ Some node.now }
    ensures { IsPreviousFront tree.now (address_before id) result }
{
    tree.tell_fits();
    let Some(parent) = node.parent() else {
        return None;
    };
    let index = tree.node(parent).child_index(id).unwrap();
    Some(slot_before(parent, index))
}

/// Returns the front address before a front address, in the order of places, or `None` before the first one. Before the address past the
/// end of a node comes the last front address under the node.
///
/// From the last item, this visits each front address of the tree once.
pub fn previous_front_address<K: Ord, V, C: NodesMut<K, V>>(
    tree: &RawBTree<K, V, C>,
    addr: Address,
) -> Option<Address>
    requires tree { IsBTree K.cmp tree.now }
    requires valid { IsValidIn tree.now addr }
    ensures { IsPreviousFront tree.now addr result }
{
    let Some(_root) = tree.root_id() else {
        return None;
    };
    tree.tell_fits();
    let node = tree.node(addr.id);
    match addr.offset.value() {
        Some(offset) => Some(front_before(tree, node, addr.id, offset)),
        None => front_above(tree, node, addr.id),
    }
}
