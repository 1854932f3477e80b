//! A whole tree as a text.
use crate::Reply;
use crate::places::{LEVELS, place, put_node};
use btree_item::Offset;
use btree_node::{LeafNode, Node, NodesMut};
use btree_raw::RawBTree;

fn leaf_shape(reply: &mut Reply, leaf: &LeafNode<u64, u64>) {
    reply.glue("(");
    let mut is_first = true;
    for item in leaf.iter() {
        if !is_first {
            reply.glue(" ");
        }
        is_first = false;
        reply.glue_number(*item.key());
    }
    reply.glue(")");
}

fn node_shape<C: NodesMut<u64, u64>>(
    reply: &mut Reply,
    raw: &RawBTree<u64, u64, C>,
    id: usize,
    levels: usize,
) {
    if levels == 0 || !raw.has_node(id) {
        return reply.glue("?");
    }
    let node = match raw.node(id) {
        Node::Leaf(leaf) => return leaf_shape(reply, leaf),
        Node::Internal(node) => node,
    };
    reply.glue("(");
    node_shape(reply, raw, node.first_child_id(), levels - 1);
    for branch in node.branches().iter() {
        reply.glue(" ");
        reply.glue_number(*branch.item.key());
        reply.glue(" ");
        node_shape(reply, raw, branch.child, levels - 1);
    }
    reply.glue(")");
}

/// Adds the keys of a tree, each node between brackets, such as `((0 1 2) 3 (4 5 6))`.
pub fn shape<C: NodesMut<u64, u64>>(reply: &mut Reply, raw: &RawBTree<u64, u64, C>) {
    reply.word("");
    match raw.root_id() {
        Some(root) => node_shape(reply, raw, root, LEVELS),
        None => reply.glue("()"),
    }
}

// Adds a node's keys, and the places of its offsets from -1 on.
fn draw_items<C: NodesMut<u64, u64>>(
    reply: &mut Reply,
    raw: &RawBTree<u64, u64, C>,
    node: &Node<u64, u64>,
    id: usize,
) {
    reply.word("places");
    reply.number(place(raw, id, Offset::before()));
    for index in 0..node.item_count() {
        reply.number(place(raw, id, Offset::from(index)));
        if let Some(item) = node.item(Offset::from(index)) {
            reply.word("<");
            reply.glue_number(*item.key());
            reply.glue(">");
        }
    }
    reply.number(place(raw, id, Offset::from(node.item_count())));
}

fn draw_node<C: NodesMut<u64, u64>>(
    reply: &mut Reply,
    raw: &RawBTree<u64, u64, C>,
    id: usize,
    levels: usize,
) {
    if levels == 0 || !raw.has_node(id) {
        return;
    }
    let node = raw.node(id);
    reply.line();
    put_node(reply, raw, id);
    reply.word("is node");
    reply.count(id);
    draw_items(reply, raw, node, id);
    for index in 0..node.child_count() {
        if let Some(child) = node.child_id_opt(index) {
            draw_node(reply, raw, child, levels - 1);
        }
    }
}

/// Adds a line for each node of a tree: its path, its number, the places of its offsets and, between them, its keys.
pub fn draw<C: NodesMut<u64, u64>>(reply: &mut Reply, raw: &RawBTree<u64, u64, C>) {
    reply.count(raw.node_count());
    reply.word("nodes");
    match raw.root_id() {
        Some(root) => draw_node(reply, raw, root, LEVELS),
        None => {}
    }
}
