//! Calls by address that change a map.
use crate::addresses::{map_address, map_node};
use crate::menu::{Action, given, read_action, write};
use book_text::{Reply, number, pair, put_address, word};
use btree_ext::{BTreeExt, BTreeExtMut};
use btree_item::{Address, Item, UpdateRefused};
use btree_map::BTreeMap;
use btree_node::NodesMut;

type Map<C> = BTreeMap<u64, u64, C>;

fn insert_at<C: NodesMut<u64, u64>>(
    map: &mut Map<C>,
    addr: Address,
    (key, value): (u64, u64),
    reply: &mut Reply,
) {
    let offset = addr.offset;
    if offset.is_before() || !map.is_valid(addr) {
        return reply.word("not valid");
    }
    if !map.fits_at(addr, &key) {
        return reply.word("unfit");
    }
    match map.insert_at(addr, Item::new(key, value)) {
        Ok(at) => put_address(reply, map.as_raw(), Some(at)),
        Err(refused) => reply.refused_pair(refused.cause, refused.key, refused.value),
    }
}

fn insert_exactly_at<C: NodesMut<u64, u64>>(
    map: &mut Map<C>,
    addr: Address,
    (key, value): (u64, u64),
    reply: &mut Reply,
) {
    let offset = addr.offset;
    if offset.is_before() || !map.is_valid(addr) {
        return reply.word("not valid");
    }
    let leaf = map.leaf_address(addr);
    if leaf != addr {
        return reply.word("not a leaf");
    }
    if !map.fits_at(addr, &key) {
        return reply.word("unfit");
    }
    match map.insert_exactly_at(addr, Item::new(key, value)) {
        Ok(at) => put_address(reply, map.as_raw(), Some(at)),
        Err(refused) => reply.refused_pair(refused.cause, refused.key, refused.value),
    }
}

fn replace_at<C: NodesMut<u64, u64>>(
    map: &mut Map<C>,
    addr: Address,
    (key, value): (u64, u64),
    reply: &mut Reply,
) {
    if !map.is_valid(addr) {
        return reply.word("not valid");
    }
    if !map.replaces_at(addr, &key) {
        return reply.word("unfit");
    }
    let (key, value) = map.replace_at(addr, key, value);
    reply.pair(key, value);
}

fn replace_key_at<C: NodesMut<u64, u64>>(
    map: &mut Map<C>,
    addr: Address,
    key: u64,
    reply: &mut Reply,
) {
    if !map.is_valid(addr) {
        return reply.word("not valid");
    }
    if !map.replaces_at(addr, &key) {
        return reply.word("unfit");
    }
    let old = map.replace_key_at(addr, key);
    reply.number(old);
}

fn replace_value_at<C: NodesMut<u64, u64>>(
    map: &mut Map<C>,
    addr: Address,
    value: u64,
    reply: &mut Reply,
) {
    if map.item(addr).is_none() {
        return reply.word("not occupied");
    }
    let old = map.replace_value_at(addr, value);
    reply.number(old);
}

fn remove_at<C: NodesMut<u64, u64>>(map: &mut Map<C>, addr: Address, reply: &mut Reply) {
    if !map.is_valid(addr) {
        return reply.word("not valid");
    }
    match map.remove_at(addr) {
        Some((item, at)) => {
            reply.pair(*item.key(), *item.value());
            put_address(reply, map.as_raw(), Some(at))
        }
        None => reply.word("none"),
    }
}

fn update_at<C: NodesMut<u64, u64>>(
    map: &mut Map<C>,
    addr: Address,
    action: Action,
    reply: &mut Reply,
) {
    if map.item(addr).is_none() {
        return reply.word("not occupied");
    }
    let found = map.update_at(addr, |found| (given(action, Some(found)), found));
    reply.number(found);
}

fn update_in<C: NodesMut<u64, u64>>(
    map: &mut Map<C>,
    id: usize,
    key: u64,
    action: Action,
    reply: &mut Reply,
) {
    if !map.has_node(id) {
        return reply.word("no node");
    }
    if !map.key_fits_in(id, &key) {
        return reply.word("unfit");
    }
    match map.update_in(id, key, |found| (given(action, found), found)) {
        Ok(found) => reply.value(found),
        Err(UpdateRefused { cause, key, action }) => {
            reply.refused_key(cause, key);
            let (given, _) = action(None);
            reply.word("gives");
            reply.value(given)
        }
    }
}

fn get_mut_in<C: NodesMut<u64, u64>>(
    map: &mut Map<C>,
    id: usize,
    key: u64,
    action: Action,
    reply: &mut Reply,
) {
    if !map.has_node(id) {
        return reply.word("no node");
    }
    match map.get_mut_in(&key, id) {
        Some(value) => reply.number(write(value, Some(action))),
        None => reply.word("none"),
    }
}

fn item_mut<C: NodesMut<u64, u64>>(
    map: &mut Map<C>,
    addr: Address,
    action: Action,
    reply: &mut Reply,
) {
    if !map.is_valid(addr) {
        return reply.word("not valid");
    }
    match map.item_mut(addr) {
        Some((key, value)) => reply.pair(*key, write(value, Some(action))),
        None => reply.word("none"),
    }
}

fn under<C: NodesMut<u64, u64>>(
    map: &mut Map<C>,
    verb: &str,
    words: &str,
    reply: &mut Reply,
) -> bool {
    let (at, rest) = word(words);
    let (key, by) = word(rest);
    let (Some(id), Some(key), Some(action)) = (map_node(map, at), number(key), read_action(by))
    else {
        return false;
    };
    if verb == "update_in" {
        update_in(map, id, key, action, reply);
    } else {
        get_mut_in(map, id, key, action, reply);
    }
    true
}

/// Serves a call by address that changes the map. Returns whether the words are one.
pub(crate) fn serve_edits<C: NodesMut<u64, u64>>(
    map: &mut Map<C>,
    verb: &str,
    rest: &str,
    reply: &mut Reply,
) -> bool {
    if verb == "update_in" || verb == "get_mut_in" {
        return under(map, verb, rest, reply);
    }
    let (first, more) = word(rest);
    let Some(addr) = map_address(map, first) else {
        return false;
    };
    if let ("replace_key_at", Some(key)) = (verb, number(more)) {
        replace_key_at(map, addr, key, reply);
        return true;
    }
    match (verb, pair(more), read_action(more)) {
        ("insert_at", Some(pair), _) => insert_at(map, addr, pair, reply),
        ("insert_exactly_at", Some(pair), _) => insert_exactly_at(map, addr, pair, reply),
        ("replace_at", Some(pair), _) => replace_at(map, addr, pair, reply),
        ("replace_value_at", _, Some(Action::Set(value))) => replace_value_at(
            map, addr, value, reply,
        ),
        ("item_mut", _, Some(action)) => item_mut(map, addr, action, reply),
        ("update_at", _, Some(action)) => update_at(map, addr, action, reply),
        ("remove_at", None, None) if more == "" => remove_at(map, addr, reply),
        _ => return false,
    }
    true
}
