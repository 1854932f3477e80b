//! Calls by address that change nothing.
use book_text::{Reply, node, number, offset, put_address, put_node, word};
use btree_ext::BTreeExt;
use btree_item::Address;
use btree_map::BTreeMap;
use btree_node::NodesMut;
use btree_steps::Steps;

type Map<C> = BTreeMap<u64, u64, C>;

// Returns the address of a key, or of its gap.
fn place_of<C: NodesMut<u64, u64>>(map: &Map<C>, key: u64) -> Address {
    match map.address_of(&key) {
        Ok(addr) => addr,
        Err(gap) => gap,
    }
}

/// Returns the number of the node that a word names: one as `T0`, with `of:3` that of a key's address or gap, or with `unused` one that no node
/// has.
pub(crate) fn map_node<C: NodesMut<u64, u64>>(map: &Map<C>, word: &str) -> Option<usize> {
    if word == "unused" {
        return (0..usize::MAX).find(|id| !map.has_node(*id));
    }
    match word.strip_prefix("of:") {
        Some(key) => Some(place_of(map, number(key)?).id),
        None => node(map.as_raw(), word),
    }
}

/// Returns the address that a word names: `nowhere`, a node and an offset as `T0:3`, or with `of:3` that of a key or of its gap.
pub(crate) fn map_address<C: NodesMut<u64, u64>>(map: &Map<C>, word: &str) -> Option<Address> {
    if word == "nowhere" {
        return Some(Address::nowhere());
    }
    let (at, index) = word.split_once(':')?;
    if at == "of" {
        return Some(place_of(map, number(index)?));
    }
    Some(Address::new(map_node(map, at)?, offset(index)?))
}

pub(crate) fn put_search<C: NodesMut<u64, u64>>(
    map: &Map<C>,
    found: Result<Address, Address>,
    reply: &mut Reply,
) {
    match found {
        Ok(addr) => {
            reply.word("found");
            put_address(reply, map.as_raw(), Some(addr))
        }
        Err(gap) => {
            reply.word("gap");
            put_address(reply, map.as_raw(), Some(gap))
        }
    }
}

// Adds an address of a visit, and returns the one after it.
fn visit<C: NodesMut<u64, u64>>(
    map: &Map<C>,
    addr: Address,
    is_forward: bool,
    reply: &mut Reply,
) -> Option<Address> {
    put_address(reply, map.as_raw(), Some(addr));
    if !map.is_valid(addr) {
        return None;
    }
    if is_forward {
        return map.next_back_address(addr);
    }
    map.previous_front_address(addr)
}

// Adds each back address in order, or each front address backwards.
fn visits<C: NodesMut<u64, u64>>(map: &Map<C>, is_forward: bool, reply: &mut Reply) {
    let mut next = if is_forward {
        Some(map.first_back_address())
    } else {
        map.last_item_address()
    };
    for _ in 0..u64::MAX {
        let Some(addr) = next else {
            break;
        };
        next = visit(map, addr, is_forward, reply);
    }
    reply.word("none");
}

fn ends<C: NodesMut<u64, u64>>(map: &Map<C>, verb: &str, reply: &mut Reply) -> bool {
    let raw = map.as_raw();
    match verb {
        "first_item_address" => put_address(reply, raw, map.first_item_address()),
        "last_item_address" => put_address(reply, raw, map.last_item_address()),
        "first_back_address" => put_address(reply, raw, Some(map.first_back_address())),
        "last_valid_address" => put_address(reply, raw, Some(map.last_valid_address())),
        "visit_backs" => visits(map, true, reply),
        "visit_fronts" => visits(map, false, reply),
        "root" => match map.root_id() {
            Some(root) => put_node(reply, raw, root),
            None => reply.word("none"),
        },
        _ => return false,
    }
    true
}

// Steps from an address that is valid.
fn navigate<C: NodesMut<u64, u64>>(
    map: &Map<C>,
    verb: &str,
    addr: Address,
    reply: &mut Reply,
) -> bool {
    if !map.is_valid(addr) {
        reply.word("not valid");
        return true;
    }
    let answer = match verb {
        "normalize" => map.normalize(addr),
        "next_item_address" => map.next_item_address(addr),
        "previous_item_address" => map.previous_item_address(addr),
        "next_item_or_back_address" => map.next_item_or_back_address(addr),
        "next_back_address" => map.next_back_address(addr),
        "previous_front_address" => map.previous_front_address(addr),
        "leaf_address" => Some(map.leaf_address(addr)),
        _ => return false,
    };
    put_address(reply, map.as_raw(), answer);
    true
}

// Asks whether a key fits at an address, or replaces the key there.
fn fitting<C: NodesMut<u64, u64>>(
    map: &Map<C>,
    verb: &str,
    addr: Address,
    key: u64,
    reply: &mut Reply,
) -> bool {
    if !map.is_valid(addr) {
        reply.word("not valid");
        return true;
    }
    match verb {
        "fits_at" => reply.truth(map.fits_at(addr, &key)),
        "replaces_at" => reply.truth(map.replaces_at(addr, &key)),
        _ => return false,
    }
    true
}

fn by_address<C: NodesMut<u64, u64>>(
    map: &Map<C>,
    verb: &str,
    words: &str,
    reply: &mut Reply,
) -> bool {
    let (first, more) = word(words);
    let Some(addr) = map_address(map, first) else {
        return false;
    };
    if let Some(key) = number(more) {
        return fitting(map, verb, addr, key, reply);
    }
    match verb {
        "is_valid" => reply.truth(map.is_valid(addr)),
        "item" => match map.item(addr) {
            Some(item) => reply.pair(*item.key(), *item.value()),
            None => reply.word("none"),
        },
        "pair_at" if map.item(addr).is_none() => reply.word("not occupied"),
        "pair_at" => {
            let (key, value) = map.pair_at(addr);
            reply.pair(*key, *value)
        }
        _ => return navigate(map, verb, addr, reply),
    }
    true
}

// Adds what a node is: its parent, and how many items and children it has.
fn put_content<C: NodesMut<u64, u64>>(map: &Map<C>, id: usize, reply: &mut Reply) {
    if !map.has_node(id) {
        return reply.word("no node");
    }
    let node = map.node(id);
    reply.word("parent");
    match node.parent() {
        Some(parent) => put_node(reply, map.as_raw(), parent),
        None => reply.word("none"),
    }
    reply.word("items");
    reply.count(node.item_count());
    reply.word("children");
    reply.count(node.child_count());
}

// Looks under a node.
fn under<C: NodesMut<u64, u64>>(
    map: &Map<C>,
    verb: &str,
    id: usize,
    key: u64,
    reply: &mut Reply,
) -> bool {
    if !map.has_node(id) {
        reply.word("no node");
        return true;
    }
    match verb {
        "get_in" => reply.value(map.get_in(&key, id).copied()),
        "address_in" => put_search(map, map.address_in(id, &key), reply),
        "key_fits_in" => reply.truth(map.key_fits_in(id, &key)),
        _ => return false,
    }
    true
}

// Compares a node and those below it with a parent and two separators, each of which may be `none`.
fn validate_node<C: NodesMut<u64, u64>>(map: &Map<C>, id: usize, words: &str, reply: &mut Reply) {
    if !map.has_node(id) {
        return reply.word("no node");
    }
    let (parent, rest) = word(words);
    let (low, high) = word(rest);
    let (low, high) = (number(low), number(high));
    match map.validate_node(id, map_node(map, parent), low.as_ref(), high.as_ref()) {
        Ok(depth) => reply.count(depth),
        Err(fault) => reply.validity(Err(fault)),
    }
}

fn by_node<C: NodesMut<u64, u64>>(
    map: &Map<C>,
    verb: &str,
    words: &str,
    reply: &mut Reply,
) -> bool {
    let (first, more) = word(words);
    let Some(id) = map_node(map, first) else {
        return false;
    };
    match (verb, number(more)) {
        ("has_node", _) => reply.truth(map.has_node(id)),
        ("node", _) => put_content(map, id, reply),
        ("validate_node", _) => validate_node(map, id, more, reply),
        (_, Some(key)) => return under(map, verb, id, key, reply),
        _ => return false,
    }
    true
}

/// Serves a call by address that changes nothing. Returns whether the words are one.
pub(crate) fn serve_addresses<C: NodesMut<u64, u64>>(
    map: &Map<C>,
    verb: &str,
    rest: &str,
    reply: &mut Reply,
) -> bool {
    match (verb, number(rest)) {
        ("address_of", Some(key)) => put_search(map, map.address_of(&key), reply),
        ("address_of_counted", Some(key)) => {
            let found = map.address_of_counted(&key, &mut Steps::new());
            put_search(map, found, reply)
        }
        ("has_node" | "node" | "validate_node" | "get_in" | "address_in" | "key_fits_in", None) =>
            return by_node(map, verb, rest, reply),
        (
            "is_valid"
            | "item"
            | "pair_at"
            | "fits_at"
            | "replaces_at"
            | "leaf_address"
            | "normalize",
            None,
        ) => return by_address(map, verb, rest, reply),
        _ if verb.ends_with("_address") && rest != "" => return by_address(map, verb, rest, reply),
        _ => return ends(map, verb, reply),
    }
    true
}
