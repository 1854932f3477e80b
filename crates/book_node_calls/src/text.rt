//! A node as a text: `leaf under 5 0=0 1=10`, or `internal 100 3=30 101 7=70 102`.
use crate::names::{Raw, named, put_name};
use book_text::{Reply, pair, word};
use btree_item::{Item, Offset};
use btree_node::internal::Internal;
use btree_node::{LeafNode, Node, NodesMut};

/// A node in no tree, or one of a tree.
pub type PlainNode = Node<u64, u64>;

/// Returns a leaf without items or parent.
pub fn empty_leaf() -> PlainNode {
    Node::Leaf(LeafNode::empty(None))
}

/// Returns the item that a word such as `3=30` names.
pub fn read_item(word: &str) -> Option<Item<u64, u64>> {
    let (key, value) = pair(word)?;
    Some(Item::new(key, value))
}

// Returns the leaf of the items that a text names.
fn read_leaf(parent: Option<usize>, text: &str) -> Option<PlainNode> {
    if text == "" {
        return Some(Node::Leaf(LeafNode::empty(parent)));
    }
    let (first, rest) = word(text);
    let item = read_item(first)?;
    if rest == "" {
        return Some(Node::leaf(parent, item));
    }
    let mut leaf = LeafNode::new(parent, item);
    for word in rest.split(' ') {
        let item = read_item(word)?;
        if leaf.item_count() >= 9 {
            return None;
        }
        leaf.push_right(item);
    }
    Some(Node::Leaf(leaf))
}

// Adds the items and children that a text names to an internal node. Returns whether it names such, and there is room.
fn read_branches<C: NodesMut<u64, u64>>(
    raw: &Raw<C>,
    mark: Option<usize>,
    node: &mut Internal<u64, u64>,
    text: &str,
) -> Option<()> {
    let mut held: Option<(u64, u64)> = None;
    for word in text.split(' ') {
        let Some((key, value)) = held else {
            held = Some(pair(word)?);
            continue;
        };
        let child = named(raw, mark, word)?;
        if node.item_count() >= 8 {
            return None;
        }
        node.push_right(Item::new(key, value), child);
        held = None;
    }
    if held.is_some() { None } else { Some(()) }
}

// Returns the internal node of the children and items that a text names in turn.
fn read_internal<C: NodesMut<u64, u64>>(
    raw: &Raw<C>,
    mark: Option<usize>,
    parent: Option<usize>,
    text: &str,
) -> Option<PlainNode> {
    let (left, rest) = word(text);
    let (item, rest) = word(rest);
    let (right, rest) = word(rest);
    let left = named(raw, mark, left)?;
    let right = named(raw, mark, right)?;
    let item = read_item(item)?;
    if rest == "" {
        return Some(Node::binary(parent, left, item, right));
    }
    let mut node = Internal::binary(parent, left, item, right);
    read_branches(raw, mark, &mut node, rest)?;
    Some(Node::Internal(node))
}

/// Returns the node of a text, if it is one. A parent and children are named by their numbers, or as nodes of the tree.
pub fn read_node<C: NodesMut<u64, u64>>(
    raw: &Raw<C>,
    mark: Option<usize>,
    text: &str,
) -> Option<PlainNode> {
    let (kind, rest) = word(text);
    let (parent, rest) = match rest.strip_prefix("under ") {
        Some(rest) => {
            let (above, rest) = word(rest);
            (Some(named(raw, mark, above)?), rest)
        }
        None => (None, rest),
    };
    match kind {
        "leaf" => read_leaf(parent, rest),
        "internal" => read_internal(raw, mark, parent, rest),
        _ => None,
    }
}

/// Adds an item, or `none`.
pub fn put_item(reply: &mut Reply, item: Option<&Item<u64, u64>>) {
    match item {
        Some(item) => reply.pair(*item.key(), *item.value()),
        None => reply.word("none"),
    }
}

fn kind_word(node: &PlainNode) -> &'static str {
    match node {
        Node::Leaf(_) => "leaf",
        Node::Internal(_) => "internal",
    }
}

/// Adds the text of a node in no tree.
pub fn put_node_text(reply: &mut Reply, node: &PlainNode) {
    reply.word(kind_word(node));
    if let Some(parent) = node.parent() {
        reply.word("under");
        reply.count(parent);
    }
    for index in 0..10usize {
        if let Some(child) = node.child_id_opt(index) {
            reply.count(child);
        }
        if let Some(item) = node.item(Offset::from(index)) {
            put_item(reply, Some(item));
        }
    }
}

/// Adds the text of a node of a tree, in which other nodes are named.
pub fn put_node_of<C: NodesMut<u64, u64>>(
    reply: &mut Reply,
    raw: &Raw<C>,
    mark: Option<usize>,
    node: &PlainNode,
) {
    reply.word(kind_word(node));
    if let Some(parent) = node.parent() {
        reply.word("under");
        put_name(reply, raw, mark, parent);
    }
    for index in 0..10usize {
        if let Some(child) = node.child_id_opt(index) {
            put_name(reply, raw, mark, child);
        }
        if let Some(item) = node.item(Offset::from(index)) {
            put_item(reply, Some(item));
        }
    }
}
