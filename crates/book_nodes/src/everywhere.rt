//! Rebalancing with each valid address of a tree.
use crate::build::build;
use book_node_calls::{Raw, named, put_named};
use book_text::{Reply, place, shape};
use btree_item::{Address, Offset};
use btree_node::{ClearNodes, NodesMut};
use std::alloc::Global;

// The most levels that a walk goes down.
const LEVELS: usize = 32;

// The most addresses of a tree.
const MOST: usize = 1000;

// Returns the address of a node and of the nodes under it that comes after so many, or how many are left to pass.
fn pass<C: NodesMut<u64, u64>>(
    raw: &Raw<C>,
    id: usize,
    levels: usize,
    to_pass: usize,
) -> Result<Address, usize> {
    if levels == 0 || !raw.has_node(id) {
        return Err(to_pass);
    }
    let node = raw.node(id);
    if to_pass == 0 {
        return Ok(Address::new(id, Offset::before()));
    }
    if to_pass <= node.item_count() + 1 {
        return Ok(Address::new(id, Offset::from(to_pass - 1)));
    }
    let mut left = to_pass - (node.item_count() + 2);
    for index in 0..node.child_count() {
        if let Some(child) = node.child_id_opt(index) {
            left = match pass(raw, child, levels - 1, left) {
                Ok(addr) => return Ok(addr),
                Err(left) => left,
            };
        }
    }
    Err(left)
}

// Returns the address of a tree that comes after so many, if there are more.
fn nth_address<C: NodesMut<u64, u64>>(raw: &Raw<C>, nth: usize) -> Option<Address> {
    pass(raw, raw.root_id()?, LEVELS, nth).ok()
}

// Returns how many addresses a tree has.
fn count_addresses<C: NodesMut<u64, u64>>(raw: &Raw<C>) -> usize {
    let Some(root) = raw.root_id() else {
        return 0;
    };
    match pass(raw, root, LEVELS, MOST) {
        Ok(_) => MOST,
        Err(left) => MOST.saturating_sub(left),
    }
}

// The place of an address, whether it is at -1, and the key of its item.
#[derive(Clone, Copy, PartialEq, Eq)]
struct Spot {
    place: u64,
    is_before: bool,
    key: Option<u64>,
}

fn find_spot<C: NodesMut<u64, u64>>(raw: &Raw<C>, addr: &Address) -> Spot {
    let key = raw.item(*addr).map(|item| *item.key());
    Spot {
        place: place(raw, addr.id, addr.offset),
        is_before: addr.offset.is_before(),
        key,
    }
}

// Returns whether an address leads to what another one led to before: it has the same place, and the same item if there was one. It is at
// -1 only if that one was.
fn leads_back(asked: Spot, found: Spot) -> bool {
    asked.place == found.place
        && (asked.key.is_none() || asked.key == found.key)
        && (asked.is_before || !found.is_before)
}

/// What is done for each address: the node that is rebalanced, the text of the tree, its length, and whether the addresses are listed.
#[derive(Clone, Copy)]
pub(crate) struct Plan<'a> {
    pub(crate) node: &'a str,
    pub(crate) text: &'a str,
    pub(crate) len: usize,
    pub(crate) is_listed: bool,
}

// Rebalances a tree with an address. Returns whether the address that is answered leads to what the given one led to.
fn is_followed<C: NodesMut<u64, u64>>(
    raw: &mut Raw<C>,
    id: usize,
    addr: Address,
    is_listed: bool,
    reply: &mut Reply,
) -> bool {
    if !raw.is_off_by_one(id) || !raw.is_valid(addr) {
        return false;
    }
    let asked = find_spot(raw, &addr);
    if is_listed {
        put_named(reply, raw, None, &addr);
        reply.word("to");
    }
    let Ok(at) = raw.rebalance(id, addr) else {
        return false;
    };
    if is_listed {
        put_named(reply, raw, None, &at);
    }
    raw.is_valid(at) && leads_back(asked, find_spot(raw, &at))
}

// Builds the tree anew, and rebalances it with the address that comes after so many. Returns whether that is followed.
fn follow<C: ClearNodes<u64, u64>>(
    raw: &mut Raw<C>,
    alloc: Global,
    plan: Plan<'_>,
    nth: usize,
    reply: &mut Reply,
) -> bool {
    if !build(raw, alloc, plan.text) {
        return false;
    }
    raw.set_len(plan.len);
    match (named(raw, None, plan.node), nth_address(raw, nth)) {
        (Some(id), Some(addr)) => {
            let is_followed = is_followed(raw, id, addr, plan.is_listed, reply);
            is_followed && raw.len() == plan.len
        }
        _ => false,
    }
}

// Follows each address, as long as the trees after it have one shape. Returns how many were followed.
fn follow_each<C: ClearNodes<u64, u64>>(
    raw: &mut Raw<C>,
    alloc: Global,
    plan: Plan<'_>,
    reply: &mut Reply,
) -> usize {
    let count = count_addresses(raw);
    let (mut first, mut now) = (Reply::new(alloc), Reply::new(alloc));
    for nth in 0..count {
        if plan.is_listed && nth > 0 {
            reply.glue(",");
        }
        if !follow(raw, alloc, plan, nth, reply) {
            return nth;
        }
        now.clear();
        shape(&mut now, raw);
        if nth == 0 {
            shape(&mut first, raw);
        }
        if first.as_str() != now.as_str() {
            return nth;
        }
    }
    count
}

/// Builds the tree of a text anew for each of its addresses, and rebalances it with that address. The reply lists the addresses with those
/// that were answered, or says how many addresses there are, and how many nodes before and after; or it says which address was not followed,
/// the first being 0.
pub(crate) fn rebalance_everywhere<C: ClearNodes<u64, u64>>(
    raw: &mut Raw<C>,
    alloc: Global,
    plan: Plan<'_>,
    reply: &mut Reply,
) {
    if !build(raw, alloc, plan.text) {
        return reply.word("not a tree");
    }
    let (count, nodes) = (count_addresses(raw), raw.node_count());
    let followed = follow_each(raw, alloc, plan, reply);
    if followed < count {
        reply.word("lost");
        return reply.count(followed);
    }
    if plan.is_listed {
        return;
    }
    reply.count(count);
    reply.word("addresses,");
    reply.count(nodes);
    reply.word("nodes to");
    reply.count(raw.node_count());
}
