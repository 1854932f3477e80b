//! Calls of a set of ranges.
use crate::ranges::{put_outcome, put_range, put_ranges, walk_ranges};
use book_text::{Reply, number, word};
use btree_node::{ClearNodes, NodesMut};
use btree_range_set::RangeSet;

// Serves a call that asks about the whole set.
fn ask<C: NodesMut<u64, u64>>(set: &RangeSet<C>, verb: &str, reply: &mut Reply) -> bool {
    match verb {
        "len" => reply.count(set.len()),
        "is_empty" => reply.truth(set.is_empty()),
        "nodes" => reply.count(set.store().len()),
        "list" => put_ranges(set.iter(), reply),
        "debug" => reply.shown(set),
        _ => return false,
    }
    true
}

// Serves a call of the whole set.
fn whole<C: ClearNodes<u64, u64>>(set: &mut RangeSet<C>, verb: &str, reply: &mut Reply) -> bool {
    match verb {
        "first" => put_range(set.first(), reply),
        "last" => put_range(set.last(), reply),
        "clear" => {
            set.clear();
            reply.word("ok")
        }
        _ => return ask(set, verb, reply),
    }
    true
}

fn by_number<C: NodesMut<u64, u64>>(
    set: &RangeSet<C>,
    verb: &str,
    number: u64,
    reply: &mut Reply,
) -> bool {
    match verb {
        "contains" => reply.truth(set.contains(number)),
        "get" => put_range(set.get(number), reply),
        _ => return false,
    }
    true
}

fn by_numbers<C: NodesMut<u64, u64>>(
    set: &mut RangeSet<C>,
    verb: &str,
    start: u64,
    end: u64,
    reply: &mut Reply,
) -> bool {
    match verb {
        "insert" => put_outcome(set.insert(start, end), reply),
        "remove" => put_outcome(set.remove(start, end), reply),
        "overlaps" => reply.truth(set.overlaps(start, end)),
        "gaps" => put_ranges(set.gaps(start, end), reply),
        "count" => reply.number(set.count(start, end)),
        _ => return false,
    }
    true
}

fn first_fit<C: NodesMut<u64, u64>>(
    set: &RangeSet<C>,
    start: u64,
    end: u64,
    size: &str,
    reply: &mut Reply,
) -> bool {
    let Some(size) = number(size) else {
        return false;
    };
    reply.value(set.first_fit(start, end, size));
    true
}

// Serves a call with two numbers, and with ends or a size.
fn between<C: NodesMut<u64, u64>>(
    set: &mut RangeSet<C>,
    verb: &str,
    start: u64,
    end: u64,
    rest: &str,
    reply: &mut Reply,
) -> bool {
    match verb {
        "overlapping" => walk_ranges(set.overlapping(start, end), rest, reply),
        "first_fit" => return first_fit(set, start, end, rest, reply),
        _ if rest == "" => return by_numbers(set, verb, start, end, reply),
        _ => return false,
    }
    true
}

// Serves a call with one number or two.
fn with_numbers<C: NodesMut<u64, u64>>(
    set: &mut RangeSet<C>,
    verb: &str,
    words: &str,
    reply: &mut Reply,
) -> bool {
    let (first, rest) = word(words);
    let (second, rest) = word(rest);
    match (number(first), number(second)) {
        (Some(number), None) => by_number(set, verb, number, reply),
        (Some(start), Some(end)) => between(set, verb, start, end, rest, reply),
        _ => false,
    }
}

/// Serves a call of a set of ranges. Returns whether the words are one.
pub(crate) fn serve_set<C: ClearNodes<u64, u64>>(
    set: &mut RangeSet<C>,
    words: &str,
    reply: &mut Reply,
) -> bool {
    let (verb, rest) = word(words);
    if rest == "" {
        return whole(set, verb, reply);
    }
    if verb == "iter" {
        walk_ranges(set.iter(), rest, reply);
        return true;
    }
    with_numbers(set, verb, rest, reply)
}
