//! Calls of a node that insert, exchange and remove an item.
ghost use Rattle.std.specs.Prelude.{◌≡◌, ◌≤◌, ◌↔◌, IfNone, IsTrue};
ghost use Rattle.btree_node.specs.Node.{view_of};
ghost use Rattle.btree_view.specs.Edits.{HasChildFor};
ghost use Rattle.btree_view.specs.View.{most_of, size_of};

use crate::asks::{is_valid, put_child, put_number, put_offset};
use crate::text::{PlainNode, put_item};
use book_text::Reply;
use btree_item::{Item, Offset};
use btree_node::Node;
use std::mem;

// Returns whether a node has room for one more item.
fn has_room(node: &PlainNode) -> bool
    ensures { IsTrue result ↔ (size_of (view_of node.now) ≤ most_of (view_of node.now)) }
{
    match node {
        Node::Leaf(leaf) => leaf.item_count() < 9,
        Node::Internal(node) => node.item_count() < 8,
    }
}

fn get_mut(node: &mut PlainNode, key: u64, value: u64, reply: &mut Reply) {
    if !is_valid(node) {
        return reply.word("not valid");
    }
    match node.get_mut(&key) {
        Ok(Some(here)) => reply.number(mem::replace(here, value)),
        Ok(None) => reply.word("none"),
        Err(child) => put_child(reply, child),
    }
}

fn find_mut(node: &mut PlainNode, key: u64, value: u64, reply: &mut Reply) {
    if !is_valid(node) {
        return reply.word("not valid");
    }
    match node.find_mut(&key) {
        Ok(here) => reply.number(mem::replace(here, value)),
        Err(Some(child)) => put_child(reply, child),
        Err(None) => reply.word("none"),
    }
}

fn insert_by_key(node: &mut PlainNode, key: u64, value: u64, reply: &mut Reply) {
    if node.child_count() == 0 && !has_room(node) {
        return reply.word("full");
    }
    if !is_valid(node) {
        return reply.word("not valid");
    }
    match node.insert_by_key(key, value) {
        Ok((offset, old)) => {
            put_offset(reply, offset);
            reply.value(old)
        }
        Err(error) => {
            reply.word("gap");
            reply.count(error.child_offset);
            put_child(reply, error.child_id);
            reply.pair(error.key, error.value)
        }
    }
}

/// Serves a call by key with a value. Returns whether the word is one.
pub(crate) fn put_by_key(
    node: &mut PlainNode,
    verb: &str,
    key: u64,
    value: u64,
    reply: &mut Reply,
) -> bool {
    match verb {
        "get_mut" => get_mut(node, key, value, reply),
        "find_mut" => find_mut(node, key, value, reply),
        "insert_by_key" => insert_by_key(node, key, value, reply),
        _ => return false,
    }
    true
}

fn item_mut(node: &mut PlainNode, offset: Offset, item: Item<u64, u64>, reply: &mut Reply) {
    match node.item_mut(offset) {
        Some(here) => {
            let old = mem::replace(here, item);
            put_item(reply, Some(&old))
        }
        None => reply.word("none"),
    }
}

fn replace(node: &mut PlainNode, offset: Offset, item: Item<u64, u64>, reply: &mut Reply) {
    let Some(index) = offset.value() else {
        return reply.word("not occupied");
    };
    if node.child_count() == 0 {
        return reply.word("not internal");
    }
    if index >= node.item_count() {
        return reply.word("not occupied");
    }
    let old = node.replace(offset, item);
    put_item(reply, Some(&old));
}

/// Serves a call at an offset with an item. Returns whether the word is one.
pub(crate) fn put_at(
    node: &mut PlainNode,
    verb: &str,
    offset: Offset,
    item: Item<u64, u64>,
    reply: &mut Reply,
) -> bool {
    match verb {
        "item_mut" => item_mut(node, offset, item, reply),
        "replace" => replace(node, offset, item, reply),
        "insert" => insert(node, offset, item, None, reply),
        _ => return false,
    }
    true
}

/// Returns why a node does not take an item and a child, if it does not: it has no room, or a leaf is given a child, or an internal node none.
pub fn objection(node: &PlainNode, child: Option<usize>) -> Option<&'static str>
    ensures room { IfNone result (size_of (view_of node.now) ≤ most_of (view_of node.now)) }
    ensures child { IfNone result (HasChildFor child (view_of node.now)) }
{
    if !has_room(node) {
        return Some("full");
    }
    match (node, child) {
        (Node::Leaf(_), Some(_)) => Some("takes no child"),
        (Node::Internal(_), None) => Some("takes a child"),
        (Node::Leaf(_), None) => None,
        (Node::Internal(_), Some(_)) => None,
    }
}

/// Inserts an item at an offset, and in an internal node a child after it.
pub(crate) fn insert(
    node: &mut PlainNode,
    offset: Offset,
    item: Item<u64, u64>,
    child: Option<usize>,
    reply: &mut Reply,
) {
    let Some(index) = offset.value() else {
        return reply.word("not valid");
    };
    if index > node.item_count() {
        return reply.word("not valid");
    }
    if let Some(objection) = objection(node, child) {
        return reply.word(objection);
    }
    node.insert(offset, item, child);
    reply.word("ok");
}

fn remove(node: &mut PlainNode, offset: Offset, reply: &mut Reply) {
    let Some(index) = offset.value() else {
        return reply.word("not occupied");
    };
    if index >= node.item_count() {
        return reply.word("not occupied");
    }
    match node {
        Node::Leaf(leaf) => {
            let item = leaf.remove(offset);
            put_item(reply, Some(&item))
        }
        Node::Internal(node) => {
            let (left, item, right) = node.remove(offset);
            reply.count(left);
            put_item(reply, Some(&item));
            reply.count(right)
        }
    }
}

fn leaf_remove(node: &mut PlainNode, offset: Offset, reply: &mut Reply) {
    match node.leaf_remove(offset) {
        Some(Ok(item)) => put_item(reply, Some(&item)),
        Some(Err(child)) => put_child(reply, child),
        None => reply.word("none"),
    }
}

/// Serves a call at an offset. Returns whether the word is one.
pub(crate) fn take_at(node: &mut PlainNode, verb: &str, offset: Offset, reply: &mut Reply) -> bool {
    match verb {
        "item" => put_item(reply, node.item(offset)),
        "remove" => remove(node, offset, reply),
        "leaf_remove" => leaf_remove(node, offset, reply),
        _ => return false,
    }
    true
}

fn remove_last(node: &mut PlainNode, reply: &mut Reply) {
    let Node::Leaf(leaf) = node else {
        return reply.word("not a leaf");
    };
    if leaf.item_count() == 0 {
        return reply.word("no item");
    }
    let item = leaf.remove_last();
    put_item(reply, Some(&item));
}

fn remove_rightmost_leaf(node: &mut PlainNode, reply: &mut Reply) {
    if node.child_count() == 0 && node.item_count() == 0 {
        return reply.word("no item");
    }
    match node.remove_rightmost_leaf() {
        Ok(item) => put_item(reply, Some(&item)),
        Err(child) => put_child(reply, child),
    }
}

fn pop_left(node: &mut PlainNode, reply: &mut Reply) {
    match node.pop_left() {
        Ok((item, child)) => {
            put_item(reply, Some(&item));
            put_number(reply, child)
        }
        Err(_) => reply.word("would underflow"),
    }
}

fn pop_right(node: &mut PlainNode, reply: &mut Reply) {
    match node.pop_right() {
        Ok((offset, item, child)) => {
            put_offset(reply, offset);
            put_item(reply, Some(&item));
            put_number(reply, child)
        }
        Err(_) => reply.word("would underflow"),
    }
}

/// Serves a call that takes an item at an end. Returns whether the word is one.
pub(crate) fn take_end(node: &mut PlainNode, verb: &str, reply: &mut Reply) -> bool {
    match verb {
        "remove_last" => remove_last(node, reply),
        "remove_rightmost_leaf" => remove_rightmost_leaf(node, reply),
        "pop_left" => pop_left(node, reply),
        "pop_right" => pop_right(node, reply),
        _ => return false,
    }
    true
}
