//! Addresses as paths, read and written, and the places of addresses.
use crate::Reply;
use crate::words::number;
use btree_item::{Address, Offset};
use btree_node::{Node, NodesMut};
use btree_raw::RawBTree;

/// The most levels that a walk goes up or down.
pub(crate) const LEVELS: usize = 32;

/// Returns the number of the node that a word names: a path, such as `T02`, or a number, such as `@7`.
pub fn node<C: NodesMut<u64, u64>>(raw: &RawBTree<u64, u64, C>, word: &str) -> Option<usize> {
    if let Some(id) = word.strip_prefix('@') {
        return Some(number(id)? as usize);
    }
    let path = word.strip_prefix('T')?;
    let mut id = raw.root_id()?;
    for digit in path.as_bytes() {
        if !raw.has_node(id) {
            return None;
        }
        id = raw
            .node(id)
            .child_id_opt(digit.wrapping_sub(b'0') as usize)?;
    }
    Some(id)
}

/// Returns the offset that a word names, a number or -1.
pub fn offset(word: &str) -> Option<Offset> {
    if word == "-1" {
        return Some(Offset::before());
    }
    Some(Offset::from(number(word)? as usize))
}

/// Returns the address that a word names: `nowhere`, or a node and an offset, such as `T02:3`.
pub fn address<C: NodesMut<u64, u64>>(raw: &RawBTree<u64, u64, C>, word: &str) -> Option<Address> {
    if word == "nowhere" {
        return Some(Address::nowhere());
    }
    let (at, index) = word.split_once(':')?;
    Some(Address::new(node(raw, at)?, offset(index)?))
}

// Returns the parent of a node, if both are there, and which of its children the node is.
fn parent<C: NodesMut<u64, u64>>(raw: &RawBTree<u64, u64, C>, id: usize) -> Option<(usize, usize)> {
    if !raw.has_node(id) {
        return None;
    }
    let above = raw.node(id).parent()?;
    if !raw.has_node(above) {
        return None;
    }
    Some((above, raw.node(above).child_index(id)?))
}

fn glue_node<C: NodesMut<u64, u64>>(
    reply: &mut Reply,
    raw: &RawBTree<u64, u64, C>,
    id: usize,
    levels: usize,
) {
    if raw.root_id() == Some(id) {
        return reply.glue("T");
    }
    if levels > 0
        && let Some((above, index)) = parent(raw, id)
    {
        glue_node(reply, raw, above, levels - 1);
        return reply.glue_number(index as u64);
    }
    reply.glue("@");
    reply.glue_number(id as u64);
}

/// Adds a node to a reply: its path, or its number if it is not under the root.
pub fn put_node<C: NodesMut<u64, u64>>(reply: &mut Reply, raw: &RawBTree<u64, u64, C>, id: usize) {
    reply.word("");
    glue_node(reply, raw, id, LEVELS);
}

fn glue_offset(reply: &mut Reply, offset: Offset) {
    match offset.value() {
        Some(index) => reply.glue_number(index as u64),
        None => reply.glue("-1"),
    }
}

/// Adds an address to a reply, or `none`.
pub fn put_address<C: NodesMut<u64, u64>>(
    reply: &mut Reply,
    raw: &RawBTree<u64, u64, C>,
    addr: Option<Address>,
) {
    let Some(addr) = addr else {
        return reply.word("none");
    };
    if addr.is_nowhere() {
        return reply.word("nowhere");
    }
    put_node(reply, raw, addr.id);
    reply.glue(":");
    glue_offset(reply, addr.offset);
}

// Returns how many items a node and the nodes under it have, on so many levels at most.
fn items_under<C: NodesMut<u64, u64>>(
    raw: &RawBTree<u64, u64, C>,
    id: usize,
    levels: usize,
) -> u64 {
    if levels == 0 || !raw.has_node(id) {
        return 0;
    }
    let node = raw.node(id);
    let mut items = node.item_count() as u64;
    for index in 0..node.child_count() {
        if let Some(child) = node.child_id_opt(index) {
            items = items.wrapping_add(items_under(raw, child, levels - 1));
        }
    }
    items
}

// Returns how many items stand before the item at an index of a node, or at its end, among those under the node.
fn items_before<C: NodesMut<u64, u64>>(
    raw: &RawBTree<u64, u64, C>,
    node: &Node<u64, u64>,
    index: usize,
) -> u64 {
    let mut items = index as u64;
    for child in 0..index.saturating_add(1) {
        if let Some(child) = node.child_id_opt(child) {
            items = items.wrapping_add(items_under(raw, child, LEVELS));
        }
    }
    items
}

// Returns how many items stand before those under a node, going up so many levels at most.
fn start<C: NodesMut<u64, u64>>(raw: &RawBTree<u64, u64, C>, id: usize, levels: usize) -> u64 {
    if levels == 0 {
        return 0;
    }
    let Some((above, index)) = parent(raw, id) else {
        return 0;
    };
    let before = start(raw, above, levels - 1);
    if index == 0 || !raw.has_node(above) {
        return before;
    }
    before.wrapping_add(items_before(raw, raw.node(above), index - 1).wrapping_add(1))
}

/// Returns the place of an address whose node is under the root, counted by a walk: how many items stand before it.
pub fn place<C: NodesMut<u64, u64>>(raw: &RawBTree<u64, u64, C>, id: usize, offset: Offset) -> u64 {
    if !raw.has_node(id) {
        return 0;
    }
    let before = start(raw, id, LEVELS);
    match offset.value() {
        Some(index) => before.wrapping_add(items_before(raw, raw.node(id), index)),
        None => before,
    }
}
