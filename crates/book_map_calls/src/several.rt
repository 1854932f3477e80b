//! Calls of two maps, and of a map and a list of pairs.
use crate::lists::{pairs, put_left};
use book_text::{Reply, draw, number};
use btree_ext::BTreeExt;
use btree_map::BTreeMap;
use btree_node::{CloneNodes, NodesMut};
use std::alloc::Global;
use std::hash::{DefaultHasher, Hash, Hasher};

type Map<C> = BTreeMap<u64, u64, C>;

fn extend<C: NodesMut<u64, u64>>(map: &mut Map<C>, pairs: &[(u64, u64)], reply: &mut Reply) {
    let mut source = pairs.iter().copied();
    match map.extend(&mut source) {
        Ok(()) => reply.word("ok"),
        Err(refused) => reply.refused_pair(refused.cause, refused.key, refused.value),
    }
    put_left(&mut source, reply);
}

fn extend_copied<C: NodesMut<u64, u64>>(map: &mut Map<C>, other: &Map<C>, reply: &mut Reply) {
    let mut source = other.iter();
    match map.extend_copied(&mut source) {
        Ok(()) => reply.word("ok"),
        Err(refused) => reply.refused_pair(refused.cause, refused.key, refused.value),
    }
    put_left(&mut source, reply);
}

fn from_iter<C: NodesMut<u64, u64> + Drop>(
    map: &mut Map<C>,
    origin: C::Origin,
    pairs: &[(u64, u64)],
    reply: &mut Reply,
)
where
    C::Origin: Copy,
{
    let mut source = pairs.iter().copied();
    match BTreeMap::<u64, u64, C>::from_iter(origin, &mut source) {
        Ok(made) => {
            *map = made;
            reply.word("ok")
        }
        Err((made, refused)) => {
            *map = made;
            reply.refused_pair(refused.cause, refused.key, refused.value)
        }
    }
    put_left(&mut source, reply);
}

// Makes a map an empty one with a limit. Returns whether the word is a number.
fn limited<C: NodesMut<u64, u64> + Drop>(
    map: &mut Map<C>,
    origin: C::Origin,
    word: &str,
    reply: &mut Reply,
) -> bool
where
    C::Origin: Copy,
{
    let Some(limit) = number(word) else {
        return false;
    };
    *map = BTreeMap::with_limit(origin, limit as usize);
    reply.word("ok");
    true
}

// Adds what is left of a map.
fn put_rest<C: NodesMut<u64, u64>>(map: &Map<C>, reply: &mut Reply) {
    let mut source = map.iter();
    put_left(&mut source, reply);
}

fn append<C: NodesMut<u64, u64>>(map: &mut Map<C>, other: &mut Map<C>, reply: &mut Reply) {
    match map.append(other) {
        Ok(()) => reply.word("ok"),
        Err(refused) => reply.refused_pair(refused.cause, refused.key, refused.value),
    }
    put_rest(other, reply);
}

// Makes a map the pairs of the other one from a key on.
fn split_off<C: NodesMut<u64, u64> + Drop>(
    map: &mut Map<C>,
    origin: C::Origin,
    other: &mut Map<C>,
    key: u64,
    reply: &mut Reply,
) {
    match other.split_off(&key, C::empty(origin)) {
        Ok(moved) => {
            *map = moved;
            reply.word("ok")
        }
        Err((moved, refused)) => {
            *map = moved;
            reply.refused_pair(refused.cause, refused.key, refused.value)
        }
    }
}

// Makes a map a clone of the other one.
fn clone<C: CloneNodes<u64, u64> + Drop>(map: &mut Map<C>, other: &Map<C>, reply: &mut Reply) {
    match other.clone() {
        Ok(copy) => {
            *map = copy;
            reply.word("ok")
        }
        Err(_) => reply.word("no memory"),
    }
}

// Compares two maps, and the first with one over another store that has the pairs of the second.
fn compare<C: NodesMut<u64, u64>, D: NodesMut<u64, u64> + Drop>(
    map: &Map<C>,
    other: &Map<C>,
    origin: D::Origin,
    reply: &mut Reply,
)
where
    D::Origin: Copy,
{
    let mut copy: BTreeMap<u64, u64, D> = BTreeMap::new(origin);
    if copy.extend_copied(&mut other.iter()).is_err() {
        return reply.word("no memory");
    }
    reply.truth(*map == *other);
    reply.order(map.cmp(other));
    if let Some(order) = map.partial_cmp(other) {
        reply.order(order);
    }
    reply.truth(map.same_items(&copy));
    reply.order(map.compare_items(&copy));
}

fn hash_of<C: NodesMut<u64, u64>>(map: &Map<C>) -> u64 {
    let mut hasher = DefaultHasher::new();
    map.hash(&mut hasher);
    hasher.finish()
}

// Returns the hash of the keys and values in order, and of nothing else.
fn plain_hash_of<C: NodesMut<u64, u64>>(map: &Map<C>) -> u64 {
    let mut hasher = DefaultHasher::new();
    for (key, value) in map.iter() {
        key.hash(&mut hasher);
        value.hash(&mut hasher);
    }
    hasher.finish()
}

/// Adds everything that a map is: its nodes, with their numbers, and its pairs.
pub fn put_map<C: NodesMut<u64, u64>>(map: &Map<C>, reply: &mut Reply) {
    draw(reply, map.as_raw());
    reply.count(map.len());
    for (key, value) in map.iter() {
        reply.pair(*key, *value);
    }
}

// Returns whether two maps have the same nodes with the same numbers, and the same pairs.
fn have_same_nodes<C: NodesMut<u64, u64>>(alloc: Global, map: &Map<C>, other: &Map<C>) -> bool {
    let (mut first, mut second) = (Reply::new(alloc), Reply::new(alloc));
    put_map(map, &mut first);
    put_map(other, &mut second);
    first.as_str() == second.as_str()
}

fn of_two<C: CloneNodes<u64, u64> + Drop, D: NodesMut<u64, u64> + Drop>(
    alloc: Global,
    origin: D::Origin,
    map: &mut Map<C>,
    other: &mut Map<C>,
    verb: &str,
    reply: &mut Reply,
) -> bool
where
    D::Origin: Copy,
{
    match verb {
        "append" => append(map, other, reply),
        "clone" => clone(map, other, reply),
        "extend_copied" => extend_copied(map, other, reply),
        "compare" => compare::<C, D>(map, other, origin, reply),
        "equals" => reply.truth(*map == *other),
        "same_hash" => reply.truth(hash_of(map) == hash_of(other)),
        "plain_hash" => reply.truth(hash_of(map) == plain_hash_of(map)),
        "same_nodes" => reply.truth(have_same_nodes(alloc, map, other)),
        _ => return false,
    }
    true
}

/// Serves a call of two maps, or of a list of pairs. Returns whether the words are one.
pub(crate) fn serve_several<C: CloneNodes<u64, u64> + Drop, D: NodesMut<u64, u64> + Drop>(
    alloc: Global,
    origins: (C::Origin, D::Origin),
    map: &mut Map<C>,
    other: &mut Map<C>,
    verb: &str,
    rest: &str,
    reply: &mut Reply,
) -> bool
where
    C::Origin: Copy,
    D::Origin: Copy,
{
    if rest == "" {
        return of_two::<C, D>(alloc, origins.1, map, other, verb, reply);
    }
    if verb == "split_off"
        && let Some(key) = number(rest)
    {
        split_off(map, origins.0, other, key, reply);
        return true;
    }
    if verb == "limited" {
        return limited(map, origins.0, rest, reply);
    }
    if verb != "extend" && verb != "from_iter" {
        return false;
    }
    let Some(pairs) = pairs(alloc, rest, reply) else {
        return false;
    };
    if verb == "extend" {
        extend(map, pairs.as_slice(), reply);
    } else {
        from_iter(map, origins.0, pairs.as_slice(), reply);
    }
    true
}
