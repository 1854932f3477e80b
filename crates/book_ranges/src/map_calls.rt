//! Calls of a map of ranges.
use crate::ranges::{Range, put_range, put_ranges, walk_ranges};
use book_text::{Reply, number, word};
use btree_item::Cause;
use btree_node::{ClearNodes, NodesMut};
use btree_range_map::{RangeCause, RangeMap, RangeRefused, Span};

type Map<C> = RangeMap<u64, C>;

fn put_cause(cause: RangeCause, reply: &mut Reply) {
    match cause {
        RangeCause::Store => reply.refused(Cause::Store),
        RangeCause::Count => reply.refused(Cause::Count),
        RangeCause::Clone => reply.word("clone"),
    }
}

// Adds `ok`, or the numbers and the value that were refused, and the cause.
fn put_insertion(outcome: Result<(), RangeRefused<Span<u64>>>, reply: &mut Reply) {
    match outcome {
        Ok(()) => reply.word("ok"),
        Err(refused) => {
            put_cause(refused.cause, reply);
            (refused.key, refused.value).put(reply)
        }
    }
}

// Adds `ok`, or the numbers that were refused, and the cause.
fn put_removal(outcome: Result<(), RangeRefused<u64>>, reply: &mut Reply) {
    match outcome {
        Ok(()) => reply.word("ok"),
        Err(refused) => {
            put_cause(refused.cause, reply);
            (refused.key, refused.value).put(reply)
        }
    }
}

// Serves a call that asks about the whole map.
fn ask<C: NodesMut<u64, Span<u64>>>(map: &Map<C>, verb: &str, reply: &mut Reply) -> bool {
    match verb {
        "len" => reply.count(map.len()),
        "is_empty" => reply.truth(map.is_empty()),
        "nodes" => reply.count(map.store().len()),
        "list" => put_ranges(map.iter(), reply),
        "debug" => reply.shown(map),
        _ => return false,
    }
    true
}

// Serves a call of the whole map.
fn whole<C: ClearNodes<u64, Span<u64>>>(map: &mut Map<C>, verb: &str, reply: &mut Reply) -> bool {
    match verb {
        "first" => put_range(map.first(), reply),
        "last" => put_range(map.last(), reply),
        "pop_first" => put_range(map.pop_first(), reply),
        "pop_last" => put_range(map.pop_last(), reply),
        "clear" => {
            map.clear();
            reply.word("ok")
        }
        _ => return ask(map, verb, reply),
    }
    true
}

fn by_number<C: NodesMut<u64, Span<u64>>>(
    map: &Map<C>,
    verb: &str,
    number: u64,
    reply: &mut Reply,
) -> bool {
    match verb {
        "contains" => reply.truth(map.contains(number)),
        "get" => reply.value(map.get(number).copied()),
        "get_range" => put_range(map.get_range(number), reply),
        _ => return false,
    }
    true
}

fn by_numbers<C: NodesMut<u64, Span<u64>>>(
    map: &mut Map<C>,
    verb: &str,
    start: u64,
    end: u64,
    reply: &mut Reply,
) -> bool {
    match verb {
        "remove" => put_removal(map.remove(start, end), reply),
        "overlaps" => reply.truth(map.overlaps(start, end)),
        "gaps" => put_ranges(map.gaps(start, end), reply),
        "count" => reply.number(map.count(start, end)),
        _ => return false,
    }
    true
}

// Adds a number to the values of some numbers, and how often the action was called.
fn update<C: NodesMut<u64, Span<u64>>>(
    map: &mut Map<C>,
    start: u64,
    end: u64,
    more: u64,
    reply: &mut Reply,
) {
    let mut calls = 0u64;
    let mut add = |value: &u64| {
        calls = calls.wrapping_add(1);
        value.wrapping_add(more)
    };
    let outcome = map.update(start, end, &mut add);
    put_insertion(outcome, reply);
    reply.word("calls");
    reply.number(calls);
}

fn by_value<C: NodesMut<u64, Span<u64>>>(
    map: &mut Map<C>,
    verb: &str,
    start: u64,
    end: u64,
    value: &str,
    reply: &mut Reply,
) -> bool {
    let Some(value) = number(value) else {
        return false;
    };
    match verb {
        "insert" => put_insertion(map.insert(start, end, value), reply),
        "update" => update(map, start, end, value, reply),
        _ => return false,
    }
    true
}

fn first_fit<C: NodesMut<u64, Span<u64>>>(
    map: &Map<C>,
    start: u64,
    end: u64,
    size: &str,
    reply: &mut Reply,
) -> bool {
    let Some(size) = number(size) else {
        return false;
    };
    reply.value(map.first_fit(start, end, size));
    true
}

// Serves a call with two numbers, and with ends, a size or a value.
fn between<C: NodesMut<u64, Span<u64>>>(
    map: &mut Map<C>,
    verb: &str,
    start: u64,
    end: u64,
    rest: &str,
    reply: &mut Reply,
) -> bool {
    match verb {
        "overlapping" => walk_ranges(map.overlapping(start, end), rest, reply),
        "first_fit" => return first_fit(map, start, end, rest, reply),
        _ if rest == "" => return by_numbers(map, verb, start, end, reply),
        _ => return by_value(map, verb, start, end, rest, reply),
    }
    true
}

// Serves a call with one number or two.
fn with_numbers<C: NodesMut<u64, Span<u64>>>(
    map: &mut Map<C>,
    verb: &str,
    words: &str,
    reply: &mut Reply,
) -> bool {
    let (first, rest) = word(words);
    let (second, rest) = word(rest);
    match (number(first), number(second)) {
        (Some(number), None) => by_number(map, verb, number, reply),
        (Some(start), Some(end)) => between(map, verb, start, end, rest, reply),
        _ => false,
    }
}

/// Serves a call of a map of ranges. Returns whether the words are one.
pub(crate) fn serve_map<C: ClearNodes<u64, Span<u64>>>(
    map: &mut Map<C>,
    words: &str,
    reply: &mut Reply,
) -> bool {
    let (verb, rest) = word(words);
    if rest == "" {
        return whole(map, verb, reply);
    }
    if verb == "iter" {
        walk_ranges(map.iter(), rest, reply);
        return true;
    }
    with_numbers(map, verb, rest, reply)
}
