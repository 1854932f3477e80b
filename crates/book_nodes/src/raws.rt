//! Calls of a raw tree.
ghost use Rattle.std.specs.Prelude.{IsTrue};
ghost use Rattle.btree_node.specs.Node.{view_of};
ghost use Rattle.btree_view.specs.View.{children_of};
ghost use Rattle.btree_raw.specs.Raw.{AreUsed};

use book_node_calls::{PlainNode, Raw, put_item, put_name, put_named, put_node_of};
use book_text::{Reply, place};
use btree_item::{Address, Cause};
use btree_node::NodesMut;
use std::alloc::Global;

/// Adds a node by its text.
pub(crate) fn put_node_at<C: NodesMut<u64, u64>>(
    raw: &Raw<C>,
    mark: Option<usize>,
    id: usize,
    reply: &mut Reply,
) {
    if !raw.has_node(id) {
        return reply.word("no node");
    }
    put_node_of(reply, raw, mark, raw.node(id));
}

// Returns whether each child of a node is in use.
fn are_used<C: NodesMut<u64, u64>>(raw: &Raw<C>, node: &PlainNode) -> bool
    ensures { IsTrue result → AreUsed raw.now.nodes (children_of (view_of node.now)) }
{
    for index in 0..node.child_count() {
        if !raw.has_node(node.child_id(index)) {
            return false;
        }
    }
    true
}

/// Allocates a node, which is the marked one then. A refused one comes back.
pub(crate) fn allocate_node<C: NodesMut<u64, u64>>(
    raw: &mut Raw<C>,
    mark: &mut Option<usize>,
    node: PlainNode,
    reply: &mut Reply,
) {
    if !are_used(raw, &node) {
        return reply.word("no node");
    }
    match raw.allocate_node(node) {
        Ok(id) => {
            *mark = Some(id);
            reply.word("ok")
        }
        Err(node) => {
            reply.word("refused");
            put_node_of(reply, raw, *mark, &node)
        }
    }
}

/// Releases a node, and adds its text.
pub(crate) fn release_node<C: NodesMut<u64, u64>>(
    raw: &mut Raw<C>,
    mark: Option<usize>,
    id: usize,
    reply: &mut Reply,
) {
    if !raw.has_node(id) {
        return reply.word("no node");
    }
    let node = raw.release_node(id);
    put_node_of(reply, raw, mark, &node);
}

/// Sets the parent of a node.
pub(crate) fn set_parent<C: NodesMut<u64, u64>>(
    raw: &mut Raw<C>,
    id: usize,
    parent: Option<usize>,
    reply: &mut Reply,
) {
    if !raw.has_node(id) {
        return reply.word("no node");
    }
    raw.node_mut(id).set_parent(parent);
    reply.word("ok");
}

/// Writes another node in place of one.
pub(crate) fn write_node<C: NodesMut<u64, u64>>(
    raw: &mut Raw<C>,
    id: usize,
    node: PlainNode,
    reply: &mut Reply,
) {
    if !raw.has_node(id) {
        return reply.word("no node");
    }
    *raw.node_mut(id) = node;
    reply.word("ok");
}

/// Rebalances a tree at a node, and adds the address that is answered.
pub(crate) fn rebalance<C: NodesMut<u64, u64>>(
    raw: &mut Raw<C>,
    mark: Option<usize>,
    id: usize,
    addr: Address,
    reply: &mut Reply,
) {
    if !raw.is_off_by_one(id) {
        return reply.word("not off by one");
    }
    if !raw.is_valid(addr) {
        return reply.word("not valid");
    }
    match raw.rebalance(id, addr) {
        Ok(at) => put_named(reply, raw, mark, &at),
        Err(cause) => reply.refused(cause),
    }
}

/// Takes the last item under a node, and adds it and its leaf.
pub(crate) fn remove_rightmost_leaf_of<C: NodesMut<u64, u64>>(
    raw: &mut Raw<C>,
    mark: Option<usize>,
    id: usize,
    reply: &mut Reply,
) {
    if raw.validate().is_err() {
        return reply.word("not valid");
    }
    if !raw.has_node(id) {
        return reply.word("no node");
    }
    let (item, leaf) = raw.remove_rightmost_leaf_of(id);
    put_item(reply, Some(&item));
    put_name(reply, raw, mark, leaf);
}

/// Compares a node with the parent and the separators that are expected, and adds how many levels are below it.
pub(crate) fn validate_node<C: NodesMut<u64, u64>>(
    raw: &Raw<C>,
    id: usize,
    parent: Option<usize>,
    min: Option<u64>,
    max: Option<u64>,
    reply: &mut Reply,
) {
    match raw.validate_node(id, parent, min.as_ref(), max.as_ref()) {
        Ok(depth) => reply.count(depth),
        Err(fault) => reply.validity(Err(fault)),
    }
}

/// Adds the place of an address, counted by a walk.
pub(crate) fn put_place<C: NodesMut<u64, u64>>(raw: &Raw<C>, addr: Address, reply: &mut Reply) {
    if !raw.is_valid(addr) {
        return reply.word("not valid");
    }
    reply.number(place(raw, addr.id, addr.offset));
}

/// Adds an address as it prints itself.
pub(crate) fn print(alloc: Global, addr: Address, reply: &mut Reply) {
    let text = format!(in alloc; "{addr}");
    if let Some(text) = reply.granted(text) {
        reply.word(text.as_str());
    }
}
