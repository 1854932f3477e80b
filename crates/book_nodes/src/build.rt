//! Raw trees of a text: the keys in brackets, such as `((0 1 2) 3 (4 5 6))`, or how many items each leaf has, such as `[33]`.
ghost use Rattle.std.specs.Prelude.{◌≡◌, ◌∷◌, []};
ghost use Rattle.btree_node.specs.Node.{view_of};
ghost use Rattle.btree_view.specs.View.{children_of};

use book_node_calls::Raw;
use book_text::{Reply, number};
use btree_item::Item;
use btree_map::BTreeMap;
use btree_node::internal::Internal;
use btree_node::{ClearNodes, LeafNode, Node, NodesMut};
use std::alloc::Global;

// The most levels of a text.
const LEVELS: usize = 64;

// Returns the number at the front of a text, and what follows it.
fn leading(text: &str) -> Option<(u64, &str)> {
    let len = text
        .as_bytes()
        .iter()
        .position(|byte| !byte.is_ascii_digit())
        .unwrap_or(text.len());
    let (digits, rest) = text.split_at_checked(len)?;
    Some((number(digits)?, rest))
}

// Builds a leaf from the text after its first bracket. Returns its number, and what follows its last bracket.
fn build_leaf<'a, C: NodesMut<u64, u64>>(
    raw: &mut Raw<C>,
    text: &'a str,
) -> Option<(usize, &'a str)> {
    let (keys, rest) = text.split_once(')')?;
    let mut leaf: LeafNode<u64, u64> = LeafNode::empty(None);
    if keys != "" {
        for word in keys.split(' ') {
            let key = number(word)?;
            if leaf.item_count() >= 9 {
                return None;
            }
            leaf.push_right(Item::new(key, key));
        }
    }
    match raw.allocate_node(Node::Leaf(leaf)) {
        Ok(id) => Some((id, rest)),
        Err(_) => None,
    }
}

// Returns an internal node without items over a child.
fn over(child: usize) -> Node<u64, u64>
    ensures { children_of (view_of result) ≡ child ∷ [] }
{
    let mut node = Internal::binary(None, child, Item::new(0, 0), child);
    node.merge(0, 1);
    Node::Internal(node)
}

// Allocates an internal node without items over a child.
fn begin<C: NodesMut<u64, u64>>(raw: &mut Raw<C>, child: usize) -> Option<usize> {
    if !raw.has_node(child) {
        return None;
    }
    match raw.allocate_node(over(child)) {
        Ok(id) => Some(id),
        Err(_) => None,
    }
}

// Adds an item and a child to an internal node. Returns whether it has room.
fn add_child<C: NodesMut<u64, u64>>(raw: &mut Raw<C>, id: usize, key: u64, child: usize) -> bool {
    if !raw.has_node(child) || !raw.has_node(id) {
        return false;
    }
    raw.node_mut(child).set_parent(Some(id));
    if !raw.has_node(id) {
        return false;
    }
    match raw.node_mut(id) {
        Node::Internal(node) if node.item_count() < 8 => {
            node.push_right(Item::new(key, key), child);
            true
        }
        _ => false,
    }
}

// Builds the nodes of a text, of so many levels at most. Returns the number of the topmost one, and what follows.
fn build_nodes<'a, C: NodesMut<u64, u64>>(
    raw: &mut Raw<C>,
    text: &'a str,
    levels: usize,
) -> Option<(usize, &'a str)> {
    let inner = text.strip_prefix('(')?;
    if levels == 0 || !inner.starts_with('(') {
        return build_leaf(raw, inner);
    }
    let (first, rest) = build_nodes(raw, inner, levels - 1)?;
    let id = begin(raw, first)?;
    let mut rest = rest;
    for _ in 0..9 {
        if let Some(rest) = rest.strip_prefix(')') {
            return Some((id, rest));
        }
        let (key, after) = leading(rest.strip_prefix(' ')?)?;
        let (child, after) = build_nodes(raw, after.strip_prefix(' ')?, levels - 1)?;
        if !add_child(raw, id, key, child) {
            return None;
        }
        rest = after;
    }
    None
}

// Adds the keys of a leaf of so many items, from a key on. Returns the key after them.
fn number_leaf(keys: &mut Reply, next: u64, items: u64) -> u64 {
    keys.glue("(");
    for index in 0..items {
        if index > 0 {
            keys.glue(" ");
        }
        keys.glue_number(next.wrapping_add(index));
    }
    keys.glue(")");
    next.wrapping_add(items)
}

// Returns the text with keys of one that says how many items each leaf has. The keys number the items from 0.
fn numbered(alloc: Global, text: &str) -> Reply {
    let mut keys = Reply::new(alloc);
    let (mut next, mut is_after_child) = (0u64, false);
    for letter in text.as_bytes() {
        if *letter == b']' {
            keys.glue(")");
            continue;
        }
        if is_after_child {
            keys.glue(" ");
            keys.glue_number(next);
            keys.glue(" ");
            next = next.wrapping_add(1);
        }
        is_after_child = *letter != b'[';
        if is_after_child {
            next = number_leaf(&mut keys, next, letter.wrapping_sub(b'0') as u64);
        } else {
            keys.glue("(");
        }
    }
    keys
}

// Returns how many numbers a text has.
fn count_numbers(text: &str) -> usize {
    let (mut count, mut is_in_number) = (0usize, false);
    for letter in text.as_bytes() {
        let is_digit = letter.is_ascii_digit();
        if is_digit && !is_in_number {
            count = count.wrapping_add(1);
        }
        is_in_number = is_digit;
    }
    count
}

// Builds a tree of a text with keys in place of the one that is there. Returns whether the text is one.
fn build_keys<C: ClearNodes<u64, u64>>(raw: &mut Raw<C>, text: &str) -> bool {
    raw.clear();
    match build_nodes(raw, text, LEVELS) {
        Some((root, "")) => {
            raw.set_root_id(Some(root));
            raw.set_len(count_numbers(text));
            true
        }
        _ => false,
    }
}

/// Builds a tree in place of the one that is there; its length is the number of its items. Returns whether the text is that of a tree.
pub(crate) fn build<C: ClearNodes<u64, u64>>(raw: &mut Raw<C>, alloc: Global, text: &str) -> bool {
    if text.starts_with('(') {
        return build_keys(raw, text);
    }
    let keys = numbered(alloc, text);
    build_keys(raw, keys.as_str())
}

// Adds a node over another one, which is its first child. It has three keys, and one leaf as its other children.
fn add_level<C: NodesMut<u64, u64>>(
    raw: &mut Raw<C>,
    below: usize,
    key: u64,
    leaf: usize,
) -> Option<usize> {
    let id = begin(raw, below)?;
    for step in 0..3u64 {
        if !add_child(raw, id, key.wrapping_add(step), leaf) {
            return None;
        }
    }
    Some(id)
}

/// Builds a tree of so many internal nodes in place of the one that is there, each the first child of the one above. Node l, the root being
/// 1, has the keys 1000 - 10 l and the two after it. All other children are one leaf, whose keys are out of order.
pub(crate) fn build_tower<C: ClearNodes<u64, u64>>(raw: &mut Raw<C>, levels: u64) -> Option<()> {
    raw.clear();
    let (leaf, _) = build_leaf(raw, "1 0 2)")?;
    let mut top = leaf;
    for step in 0..levels {
        let level = levels - step;
        top = add_level(raw, top, 1000u64.wrapping_sub(level.wrapping_mul(10)), leaf)?;
    }
    raw.set_root_id(Some(top));
    Some(())
}

/// Inserts keys into a map, whose nodes then take the place of the tree. Returns `None` if a word is no number, or an insertion is refused.
pub(crate) fn build_by_map<C: NodesMut<u64, u64> + Drop>(
    raw: &mut Raw<C>,
    origin: C::Origin,
    keys: &str,
) -> Option<()> {
    let mut map: BTreeMap<u64, u64, C> = BTreeMap::new(origin);
    for word in keys.split(' ') {
        let key = number(word)?;
        if map.insert(key, key).is_err() {
            return None;
        }
    }
    *raw = map.into_raw();
    Some(())
}

// Adds how many items each leaf under a node has, of so many levels at most.
fn glue_counts<C: NodesMut<u64, u64>>(reply: &mut Reply, raw: &Raw<C>, id: usize, levels: usize) {
    if levels == 0 || !raw.has_node(id) {
        return reply.glue("?");
    }
    let node = raw.node(id);
    if node.child_count() == 0 {
        return reply.glue_number(node.item_count() as u64);
    }
    reply.glue("[");
    for index in 0..node.child_count() {
        if let Some(child) = node.child_id_opt(index) {
            glue_counts(reply, raw, child, levels - 1);
        }
    }
    reply.glue("]");
}

/// Adds the text of a tree that says how many items each leaf has, such as `[[333][3333]]`, or `none`.
pub(crate) fn put_counts<C: NodesMut<u64, u64>>(reply: &mut Reply, raw: &Raw<C>) {
    match raw.root_id() {
        Some(root) => {
            reply.word("");
            glue_counts(reply, raw, root, LEVELS)
        }
        None => reply.word("none"),
    }
}
