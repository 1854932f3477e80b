//! Calls that are done at each of many pairs, with what has to hold after each.
use book_map_calls::{Action, given, pairs};
use book_text::{Reply, nth, number, word};
use btree_ext::{BTreeExt, BTreeExtMut};
use btree_item::Item;
use btree_map::{BTreeMap, EntriesMut};
use btree_node::{ClearNodes, NodesMut};
use std::alloc::{AllocError, Global};
use std::collections;

type Map<C> = BTreeMap<u64, u64, C>;

type List = collections::BTreeMap<u64, u64>;

// Inserts this many keys, each so far after the one before, modulo their number, with 10 times the keys as values.
fn fill<C: NodesMut<u64, u64>>(map: &mut Map<C>, count: u64, step: u64, reply: &mut Reply) {
    for index in 0..count {
        let key = index.wrapping_mul(step) % count;
        if let Err(refused) = map.insert(key, key.wrapping_mul(10)) {
            return reply.refused_pair(refused.cause, refused.key, refused.value);
        }
    }
    reply.word("ok");
}

// Inserts pairs. Returns whether all were taken, and the map was well formed after each.
fn insert_each<C: NodesMut<u64, u64>>(map: &mut Map<C>, pairs: &[(u64, u64)]) -> bool {
    for (key, value) in pairs {
        if map.insert(*key, *value).is_err() || map.validate().is_err() {
            return false;
        }
    }
    true
}

// Inserts pairs, each at the address of its gap. Returns whether each is at the address that is returned.
fn insert_gaps<C: NodesMut<u64, u64>>(map: &mut Map<C>, pairs: &[(u64, u64)]) -> bool {
    for (key, value) in pairs {
        let Err(gap) = map.address_of(key) else {
            return false;
        };
        let Ok(at) = map.insert_exactly_at(gap, Item::new(*key, *value)) else {
            return false;
        };
        match map.item(at) {
            Some(item) if *item.key() == *key && *item.value() == *value => {}
            _ => return false,
        }
    }
    true
}

// Updates the value at each key of the pairs: none for an even one, the difference from 10000 for an odd one, and the value that is listed if
// there is none. Returns whether each answer was the value that was found, and the map was well formed after each.
fn update_each<C: NodesMut<u64, u64>>(map: &mut Map<C>, pairs: &[(u64, u64)]) -> bool {
    for (key, value) in pairs {
        let (old, action) = (map.get(key).copied(), Action::Turn(*value));
        match map.update(*key, |found| (given(action, found), found)) {
            Ok(found) if found == old && map.validate().is_ok() => {}
            _ => return false,
        }
    }
    true
}

fn listed(alloc: Global, pairs: &[(u64, u64)]) -> Result<List, AllocError> {
    let mut list: List = collections::BTreeMap::new(alloc);
    for (key, value) in pairs {
        if list.insert(*key, *value).is_err() {
            return Err(AllocError);
        }
    }
    Ok(list)
}

// Returns whether a map is well formed, and has the pairs of a list.
fn has_list<C: NodesMut<u64, u64>>(map: &Map<C>, list: &List) -> bool {
    let mut walk = map.iter();
    for (key, value) in list.iter() {
        if walk.next() != Some((key, value)) {
            return false;
        }
    }
    walk.next().is_none() && map.len() == list.len() && map.validate().is_ok()
}

// Removes the pairs by key, from an index on in steps of one size. Returns whether each was there once, and the list was right after each.
fn remove_each<C: NodesMut<u64, u64>>(
    map: &mut Map<C>,
    list: &mut List,
    pairs: &[(u64, u64)],
    (start, step): (u64, u64),
) -> bool {
    let mut index = start;
    for _ in pairs {
        let Some((key, value)) = pairs.get(index as usize) else {
            return false;
        };
        list.remove(key);
        if map.remove(key) != Some(*value) || map.remove(key).is_some() || !has_list(map, list) {
            return false;
        }
        index = index.wrapping_add(step) % (pairs.len() as u64);
    }
    true
}

// Takes a pair by its address, and puts it back at the answer. Returns whether that was done, and an address in a leaf stayed in a leaf.
fn put_back<C: NodesMut<u64, u64>>(map: &mut Map<C>, key: u64, value: u64) -> bool {
    let Ok(addr) = map.address_of(&key) else {
        return false;
    };
    let is_leaf = map.leaf_address(addr) == addr;
    let Some((item, at)) = map.remove_at(addr) else {
        return false;
    };
    let offset = at.offset;
    if item.into_pair() != (key, value) || offset.is_before() || !map.is_valid(at) {
        return false;
    }
    if is_leaf && map.leaf_address(at) != at || map.validate().is_err() {
        return false;
    }
    if !map.fits_at(at, &key) {
        return false;
    }
    map.insert_at(at, Item::new(key, value)).is_ok()
}

// Takes each pair and puts it back. Returns whether the list was the same after each.
fn put_all_back<C: NodesMut<u64, u64>>(
    map: &mut Map<C>,
    list: &List,
    pairs: &[(u64, u64)],
) -> bool {
    for (key, value) in pairs {
        if !put_back(map, *key, *value) || !has_list(map, list) {
            return false;
        }
    }
    true
}

// For each number of the pairs, takes each pair of the map of the first ones and puts it back.
fn put_back_each<C: ClearNodes<u64, u64>>(
    alloc: Global,
    map: &mut Map<C>,
    pairs: &[(u64, u64)],
) -> Result<bool, AllocError> {
    for count in 1..pairs.len().saturating_add(1) {
        let Some(first) = pairs.get(..count) else {
            return Ok(false);
        };
        map.clear();
        let list = listed(alloc, first)?;
        if !insert_each(map, first) || !put_all_back(map, &list, first) {
            return Ok(false);
        }
    }
    Ok(true)
}

// Returns how many neighbours the item of a key has, or none if one does not lead back.
fn neighbours_of<C: NodesMut<u64, u64>>(map: &Map<C>, key: &u64) -> Option<u64> {
    let Ok(addr) = map.address_of(key) else {
        return None;
    };
    let mut neighbours = 0u64;
    if let Some(next) = map.next_item_address(addr) {
        if next == addr || map.previous_item_address(next) != Some(addr) {
            return None;
        }
        neighbours = neighbours.wrapping_add(1);
    }
    if let Some(previous) = map.previous_item_address(addr) {
        if previous == addr || map.next_item_address(previous) != Some(addr) {
            return None;
        }
        neighbours = neighbours.wrapping_add(1);
    }
    Some(neighbours)
}

// Adds how many neighbours all items have, each of which leads back.
fn neighbours<C: NodesMut<u64, u64>>(map: &Map<C>, reply: &mut Reply) {
    let mut neighbours = 0u64;
    for (key, _value) in map.iter() {
        match neighbours_of(map, key) {
            Some(count) => neighbours = neighbours.wrapping_add(count),
            None => return reply.word("lost"),
        }
    }
    reply.number(neighbours);
}

// Takes so many pairs from the front of an iterator, and the others from its back. Returns whether all are those of `fill`, in order.
fn meets<C: NodesMut<u64, u64>>(map: &Map<C>, count: u64) -> bool {
    let mut pairs = map.iter();
    for at in 0..map.len() as u64 {
        let last = (map.len() as u64).wrapping_sub(1).wrapping_sub(at);
        let (key, pair) = if at < count {
            (at, pairs.next())
        } else {
            (last.wrapping_add(count), pairs.next_back())
        };
        if pair != Some((&key, &key.wrapping_mul(10))) {
            return false;
        }
    }
    pairs.next().is_none() && pairs.next_back().is_none()
}

// Returns whether a cursor shows a pair, and then passes or removes it.
fn passes<C: NodesMut<u64, u64>>(
    entries: &mut EntriesMut<'_, u64, u64, C>,
    pair: (u64, u64),
    removes: bool,
) -> bool {
    match entries.peek() {
        Some(item) if (*item.key(), *item.value()) == pair => {}
        _ => return false,
    }
    if removes {
        return entries.remove().map(|item| item.into_pair()) == Some(pair);
    }
    match entries.next() {
        Some((key, value)) => (*key, *value) == pair,
        None => false,
    }
}

// Passes the pairs before a place with a cursor, removes so many, and passes the others. Returns whether all are those of the other map, with
// the right number left before each.
fn cut<C: NodesMut<u64, u64>>(map: &mut Map<C>, other: &Map<C>, place: u64, count: u64) -> bool {
    let mut entries = map.entries_mut();
    let (mut left, mut at) = (other.len(), 0u64);
    for (key, value) in other.iter() {
        let removes = at >= place && at.wrapping_sub(place) < count;
        if entries.size_hint() != (left, Some(left))
            || !passes(&mut entries, (*key, *value), removes)
        {
            return false;
        }
        left = left.saturating_sub(1);
        at = at.wrapping_add(1);
    }
    entries.size_hint() == (0, Some(0)) && entries.remove().is_none() && entries.next().is_none()
}

// How many calls there were, by how many nodes a map became larger or smaller in all of them together, and how many it has.
#[derive(Drop)]
struct Moved {
    calls: u64,
    moved: u64,
    nodes: usize,
}

impl Moved {
    // Counts one more call, after which there are so many nodes. Returns whether no more nodes moved than there were calls.
    fn count(&mut self, nodes: usize) -> bool {
        self.calls = self.calls.wrapping_add(1);
        self.moved = self.moved.wrapping_add(self.nodes.abs_diff(nodes) as u64);
        self.nodes = nodes;
        self.moved <= self.calls
    }
}

// Inserts the keys below a count in an order. Returns whether all were taken, and no more nodes moved than there were calls.
fn move_in<C: NodesMut<u64, u64>>(
    map: &mut Map<C>,
    moved: &mut Moved,
    count: u64,
    step: &str,
) -> Option<bool> {
    for index in 0..count {
        let key = nth(index, count, step)?;
        if map.insert(key, key).is_err() || !moved.count(map.node_count()) {
            return Some(false);
        }
    }
    Some(true)
}

// Removes the same keys in an order.
fn move_out<C: NodesMut<u64, u64>>(
    map: &mut Map<C>,
    moved: &mut Moved,
    count: u64,
    step: &str,
) -> Option<bool> {
    for index in 0..count {
        let key = nth(index, count, step)?;
        if map.remove(&key).is_none() || !moved.count(map.node_count()) {
            return Some(false);
        }
    }
    Some(true)
}

// Inserts the keys below a count in one order into an empty map, and removes them in another one. Returns whether that was done, and after each
// call no more nodes had moved than there were calls.
fn moves<C: NodesMut<u64, u64>>(
    map: &mut Map<C>,
    count: u64,
    first: &str,
    second: &str,
) -> Option<bool> {
    let mut moved = Moved {
        calls: 0,
        moved: 0,
        nodes: map.node_count(),
    };
    Some(move_in(map, &mut moved, count, first)? && move_out(map, &mut moved, count, second)?)
}

// Does a loop over a list of pairs, of which one has two more words in front.
fn over_pairs<C: ClearNodes<u64, u64>>(
    alloc: Global,
    map: &mut Map<C>,
    verb: &str,
    order: (u64, u64),
    pairs: &[(u64, u64)],
) -> Result<Option<bool>, AllocError> {
    Ok(Some(match verb {
        "insert_each" => insert_each(map, pairs),
        "insert_gaps" => insert_gaps(map, pairs),
        "update_each" => update_each(map, pairs),
        "remove_each" => remove_each(map, &mut listed(alloc, pairs)?, pairs, order),
        "put_back_each" => put_back_each(alloc, map, pairs)?,
        _ => return Ok(None),
    }))
}

// Does a loop over the pairs of a text.
fn over_words<C: ClearNodes<u64, u64>>(
    alloc: Global,
    map: &mut Map<C>,
    (verb, words): (&str, &str),
    order: (u64, u64),
    reply: &mut Reply,
) -> Option<bool> {
    let pairs = pairs(alloc, words, reply)?;
    let done = over_pairs(alloc, map, verb, order, pairs.as_slice());
    reply.granted(done)?
}

/// Serves a loop over pairs. Returns whether the words are one.
pub(crate) fn serve_loops<C: ClearNodes<u64, u64>>(
    alloc: Global,
    map: &mut Map<C>,
    other: &Map<C>,
    words: &str,
    reply: &mut Reply,
) -> bool {
    let (verb, rest) = word(words);
    let (first, more) = word(rest);
    let (second, more) = word(more);
    let is_right = match (verb, number(first), number(second)) {
        ("neighbours", None, None) => {
            neighbours(map, reply);
            return true;
        }
        ("fill", Some(count), Some(step)) => {
            fill(map, count, step, reply);
            return true;
        }
        ("cut", Some(place), Some(count)) => Some(cut(map, other, place, count)),
        ("meets", Some(place), None) => Some(meets(map, place)),
        ("moves", Some(count), _) => moves(map, count, second, more),
        (_, start, step) => {
            let words = if verb == "remove_each" { more } else { rest };
            let order = (start.unwrap_or(0), step.unwrap_or(1));
            over_words(alloc, map, (verb, words), order, reply)
        }
    };
    match is_right {
        Some(is_right) => reply.truth(is_right),
        None => return false,
    }
    true
}
