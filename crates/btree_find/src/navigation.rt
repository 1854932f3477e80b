//! Navigation from an address to the items around its place.
ghost use Rattle.std.specs.Prelude.{◌≡◌, ◌≤◌, ◌<◌, Some};
ghost use Rattle.std.specs.FinMap as map;
ghost use Rattle.btree_node.specs.Node.{view_of};
ghost use Rattle.btree_view.specs.View.{size_of};
ghost use Rattle.btree_laws.specs.Focus.Positions.{address_at, address_before};
ghost use Rattle.btree_laws.specs.TreeState.{IsBTree, IsUsed, IsValidIn};
ghost use Rattle.btree_raw.specs.LastItem.{EndsInLeaf};
ghost use Rattle.btree_find.specs.Navigation.{AreBeside, BeginsInLeaf, IsLeafAddressFor, IsNext, IsNextOrBack, IsNormalized, IsPrevious, LeadsBefore, LeadsToItem, LeadsToNext};

use btree_item::{Address, Offset};
use btree_node::{Node, NodesMut};
use btree_raw::RawBTree;

/// Returns the leftmost leaf under a node.
pub fn leftmost_leaf<K: Ord, V, C: NodesMut<K, V>>(tree: &RawBTree<K, V, C>, top: usize) -> usize
    requires tree { IsBTree K.cmp tree.now }
    requires used { IsUsed tree.now top }
    ensures { BeginsInLeaf tree.now top result }
{
    tree.tell_fits();
    let mut id = top;
    loop {
        match tree.node(id).child_id_opt(0) {
            Some(child) => id = child,
            None => return id,
        }
    }
}

/// Returns the address of the first item under a node.
pub fn first_item<K: Ord, V, C: NodesMut<K, V>>(tree: &RawBTree<K, V, C>, id: usize) -> Address
    requires tree { IsBTree K.cmp tree.now }
    requires used { IsUsed tree.now id }
    ensures { LeadsToItem tree.now (address_before id) (Some result) }
{
    Address::new(leftmost_leaf(tree, id), Offset::from(0))
}

/// Returns the address of the first item under `right`, which is the child after `left` in a node. It reads `left`, and `right` and one
/// node of each level below it only if `left` is not a leaf.
pub fn first_item_beside<K: Ord, V, C: NodesMut<K, V>>(
    tree: &RawBTree<K, V, C>,
    left: usize,
    right: usize,
) -> Address
    requires tree { IsBTree K.cmp tree.now }
    requires beside { AreBeside tree.now left right }
    ensures { LeadsToItem tree.now (address_before right) (Some result) }
{
    tree.tell_fits();
    match tree.node(left).child_id_opt(0) {
        Some(_child) => first_item(tree, right),
        None => Address::new(right, Offset::from(0)),
    }
}

// Returns the address of the item at an offset of a node; past the last item, that of the item at the same place, which is in a node above.
fn item_from<'a, K: Ord + 'a, V: 'a, C: NodesMut<K, V>>(
    tree: &'a RawBTree<K, V, C>,
    start: &'a Node<K, V>,
    start_id: usize,
    start_offset: usize,
) -> Option<Address>
    requires tree { IsBTree K.cmp tree.now }
    requires node { map.get tree.now.nodes start_id ≡ Some start.now }
    requires within { start_offset ≤ size_of (view_of start.now) }
    ensures { LeadsToItem tree.now (address_at start_id start_offset) result }
{
    tree.tell_fits();
    let mut node = start;
    let mut id = start_id;
    let mut offset = start_offset;
    loop {
        if offset < node.item_count() {
            return Some(Address::new(id, Offset::from(offset)));
        }
        let Some(parent) = node.parent() else {
            return None;
        };
        node = tree.node(parent);
        offset = node.child_index(id).unwrap();
        id = parent;
    }
}

/// Returns the address of the item at the place of an address, which is the address itself if there is an item. Returns `None` if
/// the place is the number of pairs.
pub fn normalize<K: Ord, V, C: NodesMut<K, V>>(
    tree: &RawBTree<K, V, C>,
    addr: Address,
) -> Option<Address>
    requires tree { IsBTree K.cmp tree.now }
    requires valid { IsValidIn tree.now addr }
    ensures { IsNormalized tree.now addr result }
{
    let Some(_root) = tree.root_id() else {
        return None;
    };
    tree.tell_fits();
    match addr.offset.value() {
        Some(offset) => item_from(tree, tree.node(addr.id), addr.id, offset),
        None => Some(first_item(tree, addr.id)),
    }
}

// Returns the address of the item after the one at an offset of a node; past the last item, that of the item at the same place.
fn item_after<'a, K: Ord + 'a, V: 'a, C: NodesMut<K, V>>(
    tree: &'a RawBTree<K, V, C>,
    node: &'a Node<K, V>,
    id: usize,
    offset: usize,
) -> Option<Address>
    requires tree { IsBTree K.cmp tree.now }
    requires node { map.get tree.now.nodes id ≡ Some node.now }
    requires within { offset ≤ size_of (view_of node.now) }
    ensures { LeadsToNext tree.now (address_at id offset) result }
{
    tree.tell_fits();
    if offset >= node.item_count() {
        return item_from(tree, node, id, offset);
    }
    match node.child_id_opt(offset + 1) {
        Some(child) => Some(first_item(tree, child)),
        None => item_from(tree, node, id, offset + 1),
    }
}

/// Returns the address of the item after the one at an address. If there is no item, returns the address of the item at its place.
/// Returns `None` if there is no such item.
pub fn next_item_address<K: Ord, V, C: NodesMut<K, V>>(
    tree: &RawBTree<K, V, C>,
    addr: Address,
) -> Option<Address>
    requires tree { IsBTree K.cmp tree.now }
    requires valid { IsValidIn tree.now addr }
    ensures { IsNext tree.now addr result }
{
    let Some(_root) = tree.root_id() else {
        return None;
    };
    tree.tell_fits();
    match addr.offset.value() {
        Some(offset) => item_after(tree, tree.node(addr.id), addr.id, offset),
        None => Some(first_item(tree, addr.id)),
    }
}

/// Returns the rightmost leaf under a node, and how many items it has.
pub fn rightmost_leaf<K: Ord, V, C: NodesMut<K, V>>(
    tree: &RawBTree<K, V, C>,
    top: usize,
) -> (usize, usize)
    requires tree { IsBTree K.cmp tree.now }
    requires used { IsUsed tree.now top }
    ensures { EndsInLeaf tree.now top result }
{
    tree.tell_fits();
    let mut id = top;
    loop {
        let node = tree.node(id);
        let count = node.item_count();
        match node.child_id_opt(count) {
            Some(child) => id = child,
            None => return (id, count),
        }
    }
}

// Returns the address of the item before the first one under a node, which is in a node above.
fn item_before<'a, K: Ord + 'a, V: 'a, C: NodesMut<K, V>>(
    tree: &'a RawBTree<K, V, C>,
    start: &'a Node<K, V>,
    start_id: usize,
) -> Option<Address>
    requires tree { IsBTree K.cmp tree.now }
    requires node { map.get tree.now.nodes start_id ≡ Some start.now }
    ensures { LeadsBefore tree.now (address_before start_id) result }
{
    tree.tell_fits();
    let mut node = start;
    let mut id = start_id;
    loop {
        let Some(parent) = node.parent() else {
            return None;
        };
        node = tree.node(parent);
        let index = node.child_index(id).unwrap();
        if index > 0 {
            return Some(Address::new(parent, Offset::from(index - 1)));
        }
        id = parent;
    }
}

// Returns the address of the item before an offset of a node, in the node, below it or above it.
fn item_before_offset<'a, K: Ord + 'a, V: 'a, C: NodesMut<K, V>>(
    tree: &'a RawBTree<K, V, C>,
    node: &'a Node<K, V>,
    id: usize,
    offset: usize,
) -> Option<Address>
    requires tree { IsBTree K.cmp tree.now }
    requires node { map.get tree.now.nodes id ≡ Some node.now }
    requires within { offset ≤ size_of (view_of node.now) }
    ensures { LeadsBefore tree.now (address_at id offset) result }
{
    tree.tell_fits();
    if let Some(child) = node.child_id_opt(offset) {
        let (leaf, count) = rightmost_leaf(tree, child);
        return Some(Address::new(leaf, Offset::from(count - 1)));
    }
    if offset == 0 {
        return item_before(tree, node, id);
    }
    Some(Address::new(id, Offset::from(offset - 1)))
}

/// Returns the address of the item before the place of an address, or `None` at place 0.
pub fn previous_item_address<K: Ord, V, C: NodesMut<K, V>>(
    tree: &RawBTree<K, V, C>,
    addr: Address,
) -> Option<Address>
    requires tree { IsBTree K.cmp tree.now }
    requires valid { IsValidIn tree.now addr }
    ensures { IsPrevious tree.now addr result }
{
    let Some(_root) = tree.root_id() else {
        return None;
    };
    tree.tell_fits();
    let node = tree.node(addr.id);
    match addr.offset.value() {
        Some(offset) => item_before_offset(tree, node, addr.id, offset),
        None => item_before(tree, node, addr.id),
    }
}

/// Returns an address in a leaf with the place of an address: past the last item before the place, or -1 in the first leaf if the address
/// is at -1. An address in a leaf, or nowhere, is returned as it is.
pub fn leaf_address<K: Ord, V, C: NodesMut<K, V>>(
    tree: &RawBTree<K, V, C>,
    addr: Address,
) -> Address
    requires tree { IsBTree K.cmp tree.now }
    requires valid { IsValidIn tree.now addr }
    ensures { IsLeafAddressFor tree.now addr result }
{
    let Some(_root) = tree.root_id() else {
        return addr;
    };
    tree.tell_fits();
    let Some(offset) = addr.offset.value() else {
        return Address::new(leftmost_leaf(tree, addr.id), Offset::before());
    };
    let Some(child) = tree.node(addr.id).child_id_opt(offset) else {
        return addr;
    };
    let (leaf, count) = rightmost_leaf(tree, child);
    Address::new(leaf, Offset::from(count))
}

/// Returns the address of the next item, as `next_item_address` does, if there is one. Otherwise returns the offset after the address if an
/// item is at it, and else the address itself. Returns `None` if there are no pairs.
pub fn next_item_or_back_address<K: Ord, V, C: NodesMut<K, V>>(
    tree: &RawBTree<K, V, C>,
    addr: Address,
) -> Option<Address>
    requires tree { IsBTree K.cmp tree.now }
    requires valid { IsValidIn tree.now addr }
    ensures { IsNextOrBack tree.now addr result }
{
    let Some(_root) = tree.root_id() else {
        return None;
    };
    tree.tell_fits();
    let Some(offset) = addr.offset.value() else {
        return Some(first_item(tree, addr.id));
    };
    let node = tree.node(addr.id);
    if let Some(next) = item_after(tree, node, addr.id, offset) {
        return Some(next);
    }
    if offset < node.item_count() {
        return Some(Address::new(addr.id, Offset::from(offset + 1)));
    }
    Some(addr)
}
