//! Calls of a node that push at an end, and those of two nodes.
ghost use Rattle.std.specs.Prelude.{◌≡◌, IfNone};
ghost use Rattle.btree_node.specs.Node.{view_of};
ghost use Rattle.btree_view.specs.Edits.{HaveRoom, is_internal};

use crate::asks::{put_balance, put_offset};
use crate::edits::objection;
use crate::text::{PlainNode, empty_leaf, put_item};
use book_text::Reply;
use btree_item::Item;
use btree_node::Node;
use std::mem;

fn push_left(node: &mut PlainNode, item: Item<u64, u64>, child: Option<usize>, reply: &mut Reply) {
    if let Some(objection) = objection(node, child) {
        return reply.word(objection);
    }
    node.push_left(item, child);
    reply.word("ok");
}

fn push_right(node: &mut PlainNode, item: Item<u64, u64>, child: Option<usize>, reply: &mut Reply) {
    if let Some(objection) = objection(node, child) {
        return reply.word(objection);
    }
    let offset = node.push_right(item, child);
    put_offset(reply, offset);
}

/// Serves a call that pushes an item, and in an internal node a child. Returns whether the word is one.
pub(crate) fn push(
    node: &mut PlainNode,
    verb: &str,
    item: Item<u64, u64>,
    child: Option<usize>,
    reply: &mut Reply,
) -> bool {
    match verb {
        "push_left" => push_left(node, item, child, reply),
        "push_right" => push_right(node, item, child, reply),
        _ => return false,
    }
    true
}

// Splits a node; the other one becomes the right part.
fn split(node: &mut PlainNode, other: &mut PlainNode, reply: &mut Reply) {
    if !node.is_overflowing() {
        return reply.word("not overflowing");
    }
    let (left, median, right) = node.split();
    *other = right;
    reply.count(left);
    put_item(reply, Some(&median));
}

// Returns why a separator and the items of the other node cannot be appended to one, if they cannot: they are of two kinds, or there is no
// room.
fn objection_to_joining(node: &PlainNode, other: &PlainNode) -> Option<&'static str>
    ensures kind { IfNone result (is_internal (view_of other.now) ≡ is_internal (view_of node.now)) }
    ensures room { IfNone result (HaveRoom (view_of node.now) (view_of other.now)) }
{
    let most = match (node, other) {
        (Node::Leaf(_), Node::Leaf(_)) => 8usize,
        (Node::Internal(_), Node::Internal(_)) => 7,
        _ => return Some("two kinds"),
    };
    if node.item_count() + other.item_count() > most {
        return Some("full");
    }
    None
}

/// Appends an item and what the other node holds, which becomes an empty leaf.
pub(crate) fn append(
    node: &mut PlainNode,
    other: &mut PlainNode,
    item: Item<u64, u64>,
    reply: &mut Reply,
) {
    if let Some(objection) = objection_to_joining(node, other) {
        return reply.word(objection);
    }
    let appended = mem::replace(other, empty_leaf());
    let offset = node.append(item, appended);
    put_offset(reply, offset);
}

/// Takes out the item between two children, and the number of the right one.
pub(crate) fn merge(node: &mut PlainNode, left: usize, right: usize, reply: &mut Reply) {
    if node.child_count() == 0 {
        return reply.word("not internal");
    }
    if right >= node.child_count() || right <= left || right - left != 1 {
        return reply.word("no such children");
    }
    let (left, left_id, right_id, item, balance) = node.merge(left, right);
    reply.count(left);
    reply.count(left_id);
    reply.count(right_id);
    put_item(reply, Some(&item));
    put_balance(reply, balance);
}

fn clone(node: &PlainNode, other: &mut PlainNode, reply: &mut Reply) {
    let copy: Result<_, _> = node.clone();
    if let Some(copy) = reply.granted(copy) {
        *other = copy;
        reply.word("ok");
    }
}

/// Serves a call of two nodes. Returns whether the word is one.
pub(crate) fn serve_both(
    node: &mut PlainNode,
    other: &mut PlainNode,
    verb: &str,
    reply: &mut Reply,
) -> bool {
    match verb {
        "split" => split(node, other, reply),
        "clone" => clone(node, other, reply),
        _ => return false,
    }
    true
}
