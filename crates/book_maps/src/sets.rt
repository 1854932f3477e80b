//! Calls of a set.
use crate::set_queries::serve_queries;
use book_map_calls::{Pick, picks, put_all, read_pick, walk, walk_known};
use book_text::{Reply, high, low, number, word};
use btree_node::{ClearNodes, CloneNodes, NodesMut};
use btree_set::{BTreeSet, DrainFilter};
use std::ops::Bound;

type Set<C> = BTreeSet<u64, C>;

fn insert<C: NodesMut<u64, ()>>(set: &mut Set<C>, element: u64, reply: &mut Reply) {
    match set.insert(element) {
        Ok(is_new) => reply.truth(is_new),
        Err(refused) => reply.refused_key(refused.cause, refused.key),
    }
}

fn replace<C: NodesMut<u64, ()>>(set: &mut Set<C>, element: u64, reply: &mut Reply) {
    match set.replace(element) {
        Ok(old) => reply.value(old),
        Err(refused) => reply.refused_key(refused.cause, refused.key),
    }
}

fn by_element<C: NodesMut<u64, ()>>(
    set: &mut Set<C>,
    verb: &str,
    element: u64,
    reply: &mut Reply,
) -> bool {
    match verb {
        "insert" => insert(set, element, reply),
        "replace" => replace(set, element, reply),
        "contains" => reply.truth(set.contains(&element)),
        "get" => reply.value(set.get(&element).copied()),
        "remove" => {
            let was_there = set.remove(&element);
            reply.truth(was_there)
        }
        "take" => {
            let taken = set.take(&element);
            reply.value(taken)
        }
        _ => return false,
    }
    true
}

/// Adds the elements of a set.
pub(crate) fn put_set<C: NodesMut<u64, ()>>(set: &Set<C>, reply: &mut Reply) {
    if set.is_empty() {
        return reply.word("empty");
    }
    for element in set {
        reply.number(*element);
    }
}

fn whole<C: ClearNodes<u64, ()>>(set: &mut Set<C>, verb: &str, reply: &mut Reply) -> bool {
    match verb {
        "len" => reply.count(set.len()),
        "limit" => reply.count(set.limit()),
        "is_empty" => reply.truth(set.is_empty()),
        "nodes" => reply.count(set.node_count()),
        "list" => put_set(set, reply),
        "debug" => reply.shown(set),
        "clear" => {
            set.clear();
            reply.word("ok")
        }
        "first" => reply.value(set.first().copied()),
        "last" => reply.value(set.last().copied()),
        "pop_first" => {
            let element = set.pop_first();
            reply.value(element)
        }
        "pop_last" => {
            let element = set.pop_last();
            reply.value(element)
        }
        _ => return false,
    }
    true
}

fn into_iter<C: CloneNodes<u64, ()> + Drop>(
    set: &Set<C>,
    verb: &str,
    ends: &str,
    reply: &mut Reply,
) {
    let Ok(copy) = set.clone() else {
        return reply.word("no memory");
    };
    if verb == "into_iter" {
        walk_known(copy.into_iter(), ends, reply)
    } else {
        put_all(copy.into_iter(), reply)
    }
}

// Takes so many elements of a drain, and drops it.
fn drain<C: NodesMut<u64, ()>>(set: &mut Set<C>, pick: Pick, count: u64, reply: &mut Reply) {
    let mut drain = set.drain_filter(move |element: &u64| picks(pick, *element));
    for _ in 0..count {
        reply.value(drain.next());
    }
    reply.word("dropped");
}

// Takes so many elements of a drain, with the hint before the first and after each, and finishes it.
fn finish<C: NodesMut<u64, ()>>(set: &mut Set<C>, pick: Pick, count: u64, reply: &mut Reply) {
    let mut drain = DrainFilter::new(set, move |element: &u64| picks(pick, *element));
    reply.hint(drain.size_hint());
    for _ in 0..count {
        reply.value(drain.next());
        reply.hint(drain.size_hint());
    }
    drain.finish();
    reply.word("finished");
}

// Keeps the elements that a test picks, and adds how often it was called.
fn retain<C: NodesMut<u64, ()>>(set: &mut Set<C>, pick: Pick, reply: &mut Reply) {
    let mut calls = 0u64;
    set.retain(|element: &u64| {
        calls = calls.wrapping_add(1);
        picks(pick, *element)
    });
    reply.word("calls");
    reply.number(calls);
}

fn by_test<C: NodesMut<u64, ()>>(
    set: &mut Set<C>,
    verb: &str,
    words: &str,
    reply: &mut Reply,
) -> bool {
    let (first, count) = word(words);
    match (verb, read_pick(first), number(count)) {
        ("retain", Some(pick), None) => retain(set, pick, reply),
        ("drain", Some(pick), Some(count)) => drain(set, pick, count, reply),
        ("finish", Some(pick), Some(count)) => finish(set, pick, count, reply),
        _ => return false,
    }
    true
}

fn by_bounds<C: NodesMut<u64, ()>>(
    set: &mut Set<C>,
    verb: &str,
    bounds: (Bound<&u64>, Bound<&u64>),
    ends: &str,
    reply: &mut Reply,
) {
    match verb {
        "range" if set.is_valid_range(&bounds) => walk(set.range(bounds), ends, reply),
        "range" => reply.word("not valid"),
        _ => {
            set.remove_range(bounds);
            reply.word("ok")
        }
    }
}

fn ranges<C: NodesMut<u64, ()>>(
    set: &mut Set<C>,
    verb: &str,
    words: &str,
    reply: &mut Reply,
) -> bool {
    let (start, rest) = word(words);
    let (end, ends) = word(rest);
    let (Some(start), Some(end)) = (low(start), high(end)) else {
        return false;
    };
    by_bounds(set, verb, (start.as_ref(), end.as_ref()), ends, reply);
    true
}

fn walks<C: CloneNodes<u64, ()> + Drop>(
    set: &mut Set<C>,
    verb: &str,
    words: &str,
    reply: &mut Reply,
) -> bool {
    match verb {
        "iter" => walk_known(set.iter(), words, reply),
        "into_iter" | "into_loop" => into_iter(set, verb, words, reply),
        "range" | "remove_range" => return ranges(set, verb, words, reply),
        _ => return false,
    }
    true
}

/// Serves a call of one set. Returns whether the words are one.
pub(crate) fn serve_sets<C: ClearNodes<u64, ()> + CloneNodes<u64, ()> + Drop>(
    set: &mut Set<C>,
    verb: &str,
    rest: &str,
    reply: &mut Reply,
) -> bool {
    if rest == "" && whole(set, verb, reply) {
        return true;
    }
    if let Some(element) = number(rest)
        && by_element(set, verb, element, reply)
    {
        return true;
    }
    match verb {
        "retain" | "drain" | "finish" => by_test(set, verb, rest, reply),
        _ => serve_queries(set, verb, rest, reply) || walks(set, verb, rest, reply),
    }
}
