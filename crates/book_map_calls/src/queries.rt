//! Calls by a key or by a place beside one.
use crate::addresses::put_search;
use crate::keys::copied;
use crate::menu::{Action, read_action, write};
use crate::walks::walk;
use book_text::{Reply, number, word};
use btree_ext::BTreeExt;
use btree_item::{After, Before, Query};
use btree_map::BTreeMap;
use btree_node::NodesMut;

type Map<C> = BTreeMap<u64, u64, C>;

/// A key, or the place before or after it.
#[derive(Clone, Copy)]
pub enum Spot {
    At(u64),
    Before(u64),
    After(u64),
}

/// Returns what a word as `3`, `<3` or `>3` names: a key, or the place before or after it.
pub fn read_spot(word: &str) -> Option<Spot> {
    if let Some(rest) = word.strip_prefix('<') {
        return Some(Spot::Before(number(rest)?));
    }
    if let Some(rest) = word.strip_prefix('>') {
        return Some(Spot::After(number(rest)?));
    }
    Some(Spot::At(number(word)?))
}

fn get_mut_by<Q: Query<u64>, C: NodesMut<u64, u64>>(
    map: &mut Map<C>,
    query: &Q,
    action: Action,
    reply: &mut Reply,
) {
    match map.get_mut_by(query) {
        Some(value) => reply.number(write(value, Some(action))),
        None => reply.word("none"),
    }
}

fn by_query<Q: Query<u64>, C: NodesMut<u64, u64>>(
    map: &mut Map<C>,
    verb: &str,
    query: &Q,
    action: Option<Action>,
    reply: &mut Reply,
) -> bool {
    match (verb, action) {
        ("get_by", None) => reply.value(map.get_by(query).copied()),
        ("contains_key_by", None) => reply.truth(map.contains_key_by(query)),
        ("get_key_value_by", None) => reply.found(copied(map.get_key_value_by(query))),
        ("address_by", None) => put_search(map, map.address_by(query), reply),
        ("get_mut_by", Some(action)) => get_mut_by(map, query, action, reply),
        ("remove_by", None) => {
            let old = map.remove_by(query);
            reply.value(old)
        }
        ("remove_entry_by", None) => {
            let old = map.remove_entry_by(query);
            reply.found(old)
        }
        _ => return false,
    }
    true
}

// Takes items from both ends of a range between two queries.
fn range_to<Q: Query<u64>, C: NodesMut<u64, u64>>(
    map: &Map<C>,
    start: &Q,
    end: Spot,
    ends: &str,
    reply: &mut Reply,
) {
    match end {
        Spot::At(key) => walk(map.range_by(start, &key), ends, reply),
        Spot::Before(key) => walk(map.range_by(start, &Before(&key)), ends, reply),
        Spot::After(key) => walk(map.range_by(start, &After(&key)), ends, reply),
    }
}

fn range_by<C: NodesMut<u64, u64>>(
    map: &Map<C>,
    start: Spot,
    words: &str,
    reply: &mut Reply,
) -> bool {
    let (end, ends) = word(words);
    let Some(end) = read_spot(end) else {
        return false;
    };
    match start {
        Spot::At(key) => range_to(map, &key, end, ends, reply),
        Spot::Before(key) => range_to(map, &Before(&key), end, ends, reply),
        Spot::After(key) => range_to(map, &After(&key), end, ends, reply),
    }
    true
}

/// Serves a call by a query. Returns whether the words are one.
pub(crate) fn serve_queries<C: NodesMut<u64, u64>>(
    map: &mut Map<C>,
    verb: &str,
    rest: &str,
    reply: &mut Reply,
) -> bool {
    let (first, rest) = word(rest);
    let Some(spot) = read_spot(first) else {
        return false;
    };
    if verb == "range_by" {
        return range_by(map, spot, rest, reply);
    }
    let action = read_action(rest);
    match spot {
        Spot::At(key) => by_query(map, verb, &key, action, reply),
        Spot::Before(key) => by_query(map, verb, &Before(&key), action, reply),
        Spot::After(key) => by_query(map, verb, &After(&key), action, reply),
    }
}
