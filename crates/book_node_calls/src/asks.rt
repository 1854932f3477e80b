//! Calls of a node that change nothing.
ghost use Rattle.std.specs.Prelude.{◌≡◌, IsTrue};
ghost use Rattle.std.specs.Ordering.{nat_cmp};
ghost use Rattle.btree_item.specs.Pairs.{Ascends};
ghost use Rattle.btree_node.specs.Node.{view_of};
ghost use Rattle.btree_view.specs.View.{items_of};

use crate::names::glue_offset;
use crate::text::{PlainNode, put_item, put_node_text};
use book_text::{Reply, number, word};
use btree_item::Offset;
use btree_node::{Balance, Node};

/// Returns whether a node passes its own checks as a root, so that its keys ascend.
pub(crate) fn is_valid(node: &PlainNode) -> bool
    ensures { IsTrue result → Ascends nat_cmp (items_of (view_of node.now)) }
{
    node.validate(node.parent(), None, None).is_ok()
}

/// Adds the child to look in.
pub(crate) fn put_child(reply: &mut Reply, child: usize) {
    reply.word("child");
    reply.count(child);
}

/// Adds an offset.
pub(crate) fn put_offset(reply: &mut Reply, offset: Offset) {
    reply.word("");
    glue_offset(reply, offset);
}

/// Adds a number, or `none`.
pub(crate) fn put_number(reply: &mut Reply, number: Option<usize>) {
    match number {
        Some(number) => reply.count(number),
        None => reply.word("none"),
    }
}

/// Adds the word for a balance.
pub(crate) fn put_balance(reply: &mut Reply, balance: Balance) {
    reply.word(match balance {
        Balance::Balanced => "balanced",
        Balance::Overflow => "overflow",
        Balance::Underflow(false) => "underflow",
        Balance::Underflow(true) => "underflow empty",
    })
}

fn first_child_id(node: &PlainNode, reply: &mut Reply) {
    match node {
        Node::Internal(node) => reply.count(node.first_child_id()),
        Node::Leaf(_) => reply.word("not internal"),
    }
}

fn items(node: &PlainNode, reply: &mut Reply) {
    let Node::Leaf(leaf) = node else {
        return reply.word("not a leaf");
    };
    let items = leaf.items();
    for index in 0..items.len() {
        put_item(reply, items.get(index));
    }
    if items.len() == 0 {
        reply.word("empty");
    }
}

fn iter(node: &PlainNode, reply: &mut Reply) {
    let Node::Leaf(leaf) = node else {
        return reply.word("not a leaf");
    };
    for item in leaf.iter() {
        put_item(reply, Some(item));
    }
    reply.word("end");
}

fn branches(node: &PlainNode, reply: &mut Reply) {
    let Node::Internal(node) = node else {
        return reply.word("not internal");
    };
    for branch in node.branches().iter() {
        put_item(reply, Some(branch.as_item()));
        reply.count(branch.child);
    }
    reply.word("end");
}

// Adds the children, and what comes after the last one, twice.
fn children(node: &PlainNode, reply: &mut Reply) {
    let mut children = node.children();
    for _ in 0..node.child_count() + 2 {
        put_number(reply, children.next());
    }
}

// Adds the children, each between the items before and after it, and what comes after the last one, twice.
fn children_with_separators(node: &PlainNode, reply: &mut Reply) {
    let mut children = node.children_with_separators();
    for index in 0..node.child_count() + 2 {
        if index > 0 {
            reply.glue(",");
        }
        match children.next() {
            Some((before, child, after)) => {
                put_item(reply, before);
                reply.count(child);
                put_item(reply, after);
            }
            None => reply.word("none"),
        }
    }
}

fn child_id(node: &PlainNode, index: usize, reply: &mut Reply) {
    if node.child_id_opt(index).is_none() {
        return reply.word("no child");
    }
    reply.count(node.child_id(index));
}

fn separators(node: &PlainNode, index: usize, reply: &mut Reply) {
    if node.child_count() > 0 && index > node.item_count() {
        return reply.word("no child");
    }
    let (before, after) = node.separators(index);
    reply.value(before.copied());
    reply.value(after.copied());
}

fn get(node: &PlainNode, key: u64, reply: &mut Reply) {
    if !is_valid(node) {
        return reply.word("not valid");
    }
    match node.get(&key) {
        Ok(value) => reply.value(value.copied()),
        Err(child) => put_child(reply, child),
    }
}

fn offset_of(node: &PlainNode, key: u64, reply: &mut Reply) {
    if !is_valid(node) {
        return reply.word("not valid");
    }
    match node.offset_of(&key) {
        Ok(offset) => put_offset(reply, offset),
        Err((index, Some(child))) => {
            reply.word("gap");
            reply.count(index);
            put_child(reply, child)
        }
        Err((index, None)) => {
            reply.word("gap");
            reply.count(index)
        }
    }
}

// The same by the calls of a leaf and of an internal node.
fn kind_offset_of(node: &PlainNode, key: u64, reply: &mut Reply) {
    if !is_valid(node) {
        return reply.word("not valid");
    }
    match node {
        Node::Leaf(leaf) => match leaf.offset_of(&key) {
            Ok(offset) => put_offset(reply, offset),
            Err(gap) => {
                reply.word("gap");
                put_offset(reply, gap)
            }
        },
        Node::Internal(node) => match node.offset_of(&key) {
            Ok(offset) => put_offset(reply, offset),
            Err((index, child)) => {
                reply.word("gap");
                reply.count(index);
                put_child(reply, child)
            }
        },
    }
}

/// Serves a call of a word alone. Returns whether the word is one.
pub(crate) fn ask(node: &PlainNode, verb: &str, reply: &mut Reply) -> bool {
    match verb {
        "parent" => put_number(reply, node.parent()),
        "item_count" => reply.count(node.item_count()),
        "child_count" => reply.count(node.child_count()),
        "balance" => put_balance(reply, node.balance()),
        "is_full" => reply.truth(node.is_full()),
        "is_overflowing" => reply.truth(node.is_overflowing()),
        "is_underflowing" => reply.truth(node.is_underflowing()),
        _ => return ask_parts(node, verb, reply),
    }
    true
}

fn ask_parts(node: &PlainNode, verb: &str, reply: &mut Reply) -> bool {
    match verb {
        "show" => put_node_text(reply, node),
        "first_child_id" => first_child_id(node, reply),
        "items" => items(node, reply),
        "iter" => iter(node, reply),
        "branches" => branches(node, reply),
        "children" => children(node, reply),
        "children_with_separators" => children_with_separators(node, reply),
        _ => return false,
    }
    true
}

/// Serves a call of a number. Returns whether the word is one.
pub(crate) fn ask_number(node: &PlainNode, verb: &str, number: u64, reply: &mut Reply) -> bool {
    match verb {
        "child_index" => put_number(reply, node.child_index(number as usize)),
        "child_id" => child_id(node, number as usize, reply),
        "child_id_opt" => put_number(reply, node.child_id_opt(number as usize)),
        "separators" => separators(node, number as usize, reply),
        "get" => get(node, number, reply),
        "offset_of" => offset_of(node, number, reply),
        "kind_offset_of" => kind_offset_of(node, number, reply),
        _ => return false,
    }
    true
}

/// Returns the number that a word is, or none for the word `none`.
pub(crate) fn number_or_none(word: &str) -> Option<Option<u64>> {
    if word == "none" {
        return Some(None);
    }
    Some(Some(number(word)?))
}

/// Returns the two separators that a text names, each a number or `none`.
pub fn read_separators(text: &str) -> Option<(Option<u64>, Option<u64>)> {
    let (min, max) = word(text);
    Some((number_or_none(min)?, number_or_none(max)?))
}

/// Compares a node with the parent and the separators that are expected.
pub(crate) fn validate(
    node: &PlainNode,
    parent: Option<u64>,
    min: Option<u64>,
    max: Option<u64>,
    reply: &mut Reply,
) {
    let parent = parent.map(|id| id as usize);
    reply.validity(node.validate(parent, min.as_ref(), max.as_ref()));
}
