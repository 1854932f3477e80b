//! Calls by key, and what a map is as a whole.
use crate::menu::{Action, given, read_action, write};
use book_text::{Reply, draw, number, pair, shape, word};
use btree_ext::BTreeExt;
use btree_item::UpdateRefused;
use btree_map::BTreeMap;
use btree_node::{ClearNodes, CloneNodes, Nodes, NodesMut};

type Map<C> = BTreeMap<u64, u64, C>;

/// Returns a pair by value.
pub(crate) fn copied(pair: Option<(&u64, &u64)>) -> Option<(u64, u64)> {
    match pair {
        Some((key, value)) => Some((*key, *value)),
        None => None,
    }
}

fn insert<C: NodesMut<u64, u64>>(map: &mut Map<C>, key: u64, value: u64, reply: &mut Reply) {
    match map.insert(key, value) {
        Ok(old) => reply.value(old),
        Err(refused) => reply.refused_pair(refused.cause, refused.key, refused.value),
    }
}

fn replace<C: NodesMut<u64, u64>>(map: &mut Map<C>, key: u64, value: u64, reply: &mut Reply) {
    match map.replace(key, value) {
        Ok(old) => reply.found(old),
        Err(refused) => reply.refused_pair(refused.cause, refused.key, refused.value),
    }
}

// Updates a value. A refused action comes back, and gives its value then.
fn update<C: NodesMut<u64, u64>>(map: &mut Map<C>, key: u64, action: Action, reply: &mut Reply) {
    match map.update(key, |found| (given(action, found), found)) {
        Ok(found) => reply.value(found),
        Err(UpdateRefused { cause, key, action }) => {
            reply.refused_key(cause, key);
            let (given, _) = action(None);
            reply.word("gives");
            reply.value(given)
        }
    }
}

fn get_mut<C: NodesMut<u64, u64>>(map: &mut Map<C>, key: u64, action: Action, reply: &mut Reply) {
    match map.get_mut(&key) {
        Some(value) => reply.number(write(value, Some(action))),
        None => reply.word("none"),
    }
}

fn by_key<C: NodesMut<u64, u64>>(
    map: &mut Map<C>,
    verb: &str,
    key: u64,
    reply: &mut Reply,
) -> bool {
    match verb {
        "get" => reply.value(map.get(&key).copied()),
        "contains_key" => reply.truth(map.contains_key(&key)),
        "get_key_value" => reply.found(copied(map.get_key_value(&key))),
        "index" if map.contains_key(&key) => reply.number(map[&key]),
        "index" => reply.word("absent"),
        "remove" => {
            let old = map.remove(&key);
            reply.value(old)
        }
        "remove_entry" => {
            let old = map.remove_entry(&key);
            reply.found(old)
        }
        "take" => {
            let old = map.take(&key);
            reply.found(old)
        }
        _ => return false,
    }
    true
}

fn list<C: NodesMut<u64, u64>>(map: &Map<C>, reply: &mut Reply) {
    if map.is_empty() {
        return reply.word("empty");
    }
    for (key, value) in map.iter() {
        reply.pair(*key, *value);
    }
}

// Gives the nodes of a clone, and looks at them.
fn into_raw<C: CloneNodes<u64, u64> + Drop>(map: &Map<C>, reply: &mut Reply) {
    let Ok(copy) = map.clone() else {
        return reply.word("no memory");
    };
    let raw = copy.into_raw();
    reply.validity(raw.validate());
    shape(reply, &raw);
    reply.count(raw.len());
    reply.count(raw.node_count());
}

// Gives the nodes of a clone, takes them back as a map, and adds its list.
fn from_raw<C: CloneNodes<u64, u64> + Drop>(map: &Map<C>, reply: &mut Reply) {
    let Ok(copy) = map.clone() else {
        return reply.word("no memory");
    };
    match BTreeMap::from_raw(copy.into_raw()) {
        Ok(map) => list(&map, reply),
        Err((_, fault)) => reply.validity(Err(fault)),
    }
}

fn ends<C: NodesMut<u64, u64>>(map: &mut Map<C>, verb: &str, reply: &mut Reply) -> bool {
    match verb {
        "first_key_value" => reply.found(copied(map.first_key_value())),
        "last_key_value" => reply.found(copied(map.last_key_value())),
        "pop_first" => {
            let pair = map.pop_first();
            reply.found(pair)
        }
        "pop_last" => {
            let pair = map.pop_last();
            reply.found(pair)
        }
        _ => return false,
    }
    true
}

fn whole<C: ClearNodes<u64, u64> + CloneNodes<u64, u64> + Drop>(
    map: &mut Map<C>,
    verb: &str,
    reply: &mut Reply,
) -> bool {
    match verb {
        "len" => reply.count(map.len()),
        "limit" => reply.count(map.limit()),
        "is_empty" => reply.truth(map.is_empty()),
        "nodes" => reply.count(map.node_count()),
        "stored" => reply.count(map.store().len()),
        "height" => reply.count(map.height()),
        "list" => list(map, reply),
        "debug" => reply.shown(map),
        "shape" => shape(reply, map.as_raw()),
        "draw" => draw(reply, map.as_raw()),
        "validate" => reply.validity(map.validate()),
        "into_raw" => into_raw(map, reply),
        "from_raw" => from_raw(map, reply),
        "clear" => {
            map.clear();
            reply.word("ok")
        }
        _ => return ends(map, verb, reply),
    }
    true
}

/// Serves a call by key, or one without arguments. Returns whether the words are one.
pub(crate) fn serve_keys<C: ClearNodes<u64, u64> + CloneNodes<u64, u64> + Drop>(
    map: &mut Map<C>,
    verb: &str,
    rest: &str,
    reply: &mut Reply,
) -> bool {
    if rest == "" {
        return whole(map, verb, reply);
    }
    if let Some(key) = number(rest) {
        return by_key(map, verb, key, reply);
    }
    if let Some((key, value)) = pair(rest) {
        match verb {
            "insert" => insert(map, key, value, reply),
            "replace" => replace(map, key, value, reply),
            _ => return false,
        }
        return true;
    }
    let (key, by) = word(rest);
    match (verb, number(key), read_action(by)) {
        ("update", Some(key), Some(action)) => update(map, key, action, reply),
        ("get_mut", Some(key), Some(action)) => get_mut(map, key, action, reply),
        _ => return false,
    }
    true
}
