//! Insertion into raw trees at exactly an address.
use book_node_calls::{Raw, objection, put_named};
use book_text::Reply;
use btree_item::{Address, Item, Offset, Refused};
use btree_node::{Node, NodesMut};

type Inserted = Result<Address, Refused<u64, u64>>;

// Inserts an item into a tree without a root, if there are no nodes.
fn insert_first<C: NodesMut<u64, u64>>(raw: &mut Raw<C>, item: Item<u64, u64>) -> Option<Inserted> {
    if raw.root_id().is_some() || !raw.is_valid(Address::nowhere()) || raw.node_count() > 0 {
        return None;
    }
    Some(raw.insert_exactly_at(Address::nowhere(), item, None))
}

// Takes an item out of a leaf, and inserts it at the same address, if the tree is off by one there. So the contract is met.
fn put_back<C: NodesMut<u64, u64>>(
    raw: &mut Raw<C>,
    id: usize,
    offset: Offset,
) -> Option<Inserted> {
    let is_off = raw.is_off_by_one(id);
    if !raw.has_node(id) {
        return None;
    }
    let Some(Ok(item)) = raw.node_mut(id).leaf_remove(offset) else {
        return None;
    };
    if !is_off {
        return None;
    }
    Some(raw.insert_exactly_at(Address::new(id, offset), item, None))
}

// Takes an item and the child after it out of an internal node, and inserts both at the same address, if the tree is off by one there.
fn put_back_inner<C: NodesMut<u64, u64>>(
    raw: &mut Raw<C>,
    id: usize,
    index: usize,
) -> Option<Inserted> {
    let is_off = raw.is_off_by_one(id);
    if !raw.has_node(id) {
        return None;
    }
    let Node::Internal(node) = raw.node_mut(id) else {
        return None;
    };
    if index >= node.item_count() {
        return None;
    }
    let (_left, item, right) = node.remove(Offset::from(index));
    if !is_off {
        return None;
    }
    Some(raw.insert_exactly_at(Address::new(id, Offset::from(index)), item, Some(right)))
}

// Puts an item, and in an internal node a child after it, into a node at an index. Returns whether it was put there, or else adds why not.
fn put_in<C: NodesMut<u64, u64>>(
    raw: &mut Raw<C>,
    id: usize,
    index: usize,
    item: Item<u64, u64>,
    child: Option<usize>,
    reply: &mut Reply,
) -> bool {
    if !raw.has_node(id) {
        reply.word("no node");
        return false;
    }
    let node = raw.node_mut(id);
    if index > node.item_count() {
        reply.word("not valid");
        return false;
    }
    if let Some(objection) = objection(node, child) {
        reply.word(objection);
        return false;
    }
    node.insert(Offset::from(index), item, child);
    true
}

fn put_outcome<C: NodesMut<u64, u64>>(
    raw: &Raw<C>,
    mark: Option<usize>,
    inserted: Option<Inserted>,
    reply: &mut Reply,
) {
    match inserted {
        Some(Ok(at)) => put_named(reply, raw, mark, &at),
        Some(Err(refused)) => reply.refused_pair(refused.cause, refused.key, refused.value),
        None => reply.word("not off by one"),
    }
}

/// Inserts an item, and in an internal node a child after it, at exactly an address, if the tree is off by one with them.
pub(crate) fn insert_exactly_at<C: NodesMut<u64, u64>>(
    raw: &mut Raw<C>,
    mark: Option<usize>,
    addr: Address,
    item: Item<u64, u64>,
    child: Option<usize>,
    reply: &mut Reply,
) {
    if addr.is_nowhere() {
        let inserted = insert_first(raw, item);
        return put_outcome(raw, mark, inserted, reply);
    }
    let (id, Some(index)) = (addr.id, addr.offset.value()) else {
        return reply.word("not valid");
    };
    if !put_in(raw, id, index, item, child, reply) {
        return;
    }
    let inserted = match child {
        Some(_) => put_back_inner(raw, id, index),
        None => put_back(raw, id, Offset::from(index)),
    };
    put_outcome(raw, mark, inserted, reply);
}
