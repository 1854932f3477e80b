//! Calls of a set by an element or by a place beside one.
use book_map_calls::{Spot, read_spot, walk};
use book_text::{Reply, word};
use btree_item::{After, Before, Query};
use btree_node::NodesMut;
use btree_set::BTreeSet;

type Set<C> = BTreeSet<u64, C>;

fn by_query<Q: Query<u64>, C: NodesMut<u64, ()>>(
    set: &mut Set<C>,
    verb: &str,
    query: &Q,
    reply: &mut Reply,
) -> bool {
    match verb {
        "contains_by" => reply.truth(set.contains_by(query)),
        "get_by" => reply.value(set.get_by(query).copied()),
        "remove_by" => {
            let was_there = set.remove_by(query);
            reply.truth(was_there)
        }
        "take_by" => {
            let taken = set.take_by(query);
            reply.value(taken)
        }
        _ => return false,
    }
    true
}

// Takes elements from both ends of a range between two queries.
fn range_to<Q: Query<u64>, C: NodesMut<u64, ()>>(
    set: &Set<C>,
    start: &Q,
    end: Spot,
    ends: &str,
    reply: &mut Reply,
) {
    match end {
        Spot::At(key) => walk(set.range_by(start, &key), ends, reply),
        Spot::Before(key) => walk(set.range_by(start, &Before(&key)), ends, reply),
        Spot::After(key) => walk(set.range_by(start, &After(&key)), ends, reply),
    }
}

fn range_by<C: NodesMut<u64, ()>>(
    set: &Set<C>,
    start: Spot,
    words: &str,
    reply: &mut Reply,
) -> bool {
    let (end, ends) = word(words);
    let Some(end) = read_spot(end) else {
        return false;
    };
    match start {
        Spot::At(key) => range_to(set, &key, end, ends, reply),
        Spot::Before(key) => range_to(set, &Before(&key), end, ends, reply),
        Spot::After(key) => range_to(set, &After(&key), end, ends, reply),
    }
    true
}

/// Serves a call by a query. Returns whether the words are one.
pub(crate) fn serve_queries<C: NodesMut<u64, ()>>(
    set: &mut Set<C>,
    verb: &str,
    words: &str,
    reply: &mut Reply,
) -> bool {
    let (first, rest) = word(words);
    let Some(spot) = read_spot(first) else {
        return false;
    };
    if verb == "range_by" {
        return range_by(set, spot, rest, reply);
    }
    match spot {
        Spot::At(key) => by_query(set, verb, &key, reply),
        Spot::Before(key) => by_query(set, verb, &Before(&key), reply),
        Spot::After(key) => by_query(set, verb, &After(&key), reply),
    }
}
