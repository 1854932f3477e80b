//! Cursors that insert and remove pairs, drains, and what keeps pairs.
use crate::menu::{Action, Pick, Raise, picks, raised, read_pick, read_raise, read_step, write};
use book_text::{Reply, low, number, put_address, word};
use btree_ext::BTreeExt;
use btree_map::{BTreeMap, EntriesMut};
use btree_node::NodesMut;
use std::ops::Bound;

type Map<C> = BTreeMap<u64, u64, C>;

fn insert<C: NodesMut<u64, u64>>(
    entries: &mut EntriesMut<'_, u64, u64, C>,
    key: u64,
    value: u64,
    reply: &mut Reply,
) {
    if !entries.fits(&key) {
        return reply.word("unfit");
    }
    match entries.insert(key, value) {
        Ok(()) => reply.word("ok"),
        Err(refused) => reply.refused_pair(refused.cause, refused.key, refused.value),
    }
}

fn skip<C: NodesMut<u64, u64>>(entries: &mut EntriesMut<'_, u64, u64, C>, count: u64) {
    for _ in 0..count {
        entries.next();
    }
}

fn step<C: NodesMut<u64, u64>>(
    entries: &mut EntriesMut<'_, u64, u64, C>,
    word: &str,
    reply: &mut Reply,
) {
    let (verb, action) = read_step(word);
    match (verb, number(verb), action) {
        (_, Some(key), Some(Action::Set(value))) => insert(entries, key, value, reply),
        ("next", _, _) => match entries.next() {
            Some((key, value)) => reply.pair(*key, write(value, action)),
            None => reply.word("none"),
        },
        ("next_item", _, _) => match entries.next_item() {
            Some((key, value)) => reply.pair(*key, write(value, action)),
            None => reply.word("none"),
        },
        ("peek_mut", _, _) => match entries.peek_mut() {
            Some((key, value)) => reply.pair(*key, write(value, action)),
            None => reply.word("none"),
        },
        ("peek", _, None) => match entries.peek() {
            Some(item) => reply.pair(*item.key(), *item.value()),
            None => reply.word("none"),
        },
        ("remove", _, None) => {
            let removed = entries.remove().map(|item| item.into_pair());
            reply.found(removed)
        }
        ("hint", _, None) => reply.hint(entries.size_hint()),
        ("empty", _, None) => reply.truth(entries.is_empty()),
        _ => step_with_number(entries, verb, reply),
    }
}

fn step_with_number<C: NodesMut<u64, u64>>(
    entries: &mut EntriesMut<'_, u64, u64, C>,
    word: &str,
    reply: &mut Reply,
) {
    match word.split_once(':') {
        Some(("fits", key)) => match number(key) {
            Some(key) => reply.truth(entries.fits(&key)),
            None => {
                reply.unknown();
            }
        },
        Some(("skip", count)) => {
            skip(entries, number(count).unwrap_or(0));
        }
        _ => {
            reply.unknown();
        }
    }
}

// Takes the steps of a cursor.
fn steps<C: NodesMut<u64, u64>>(
    entries: &mut EntriesMut<'_, u64, u64, C>,
    words: &str,
    reply: &mut Reply,
) {
    if words == "" {
        return reply.word("dropped");
    }
    for word in words.split(' ') {
        step(entries, word, reply);
    }
}

// Adds the address where a cursor stands that starts at a bound.
fn address_from<C: NodesMut<u64, u64>>(map: &mut Map<C>, start: Bound<&u64>, reply: &mut Reply) {
    let entries = map.entries_mut_from(start);
    let at = entries.address();
    put_address(reply, map.as_raw(), at);
}

// Does a call of a cursor that starts at a bound.
fn from_bound<C: NodesMut<u64, u64>>(
    map: &mut Map<C>,
    verb: &str,
    words: &str,
    reply: &mut Reply,
) -> bool {
    let (start, rest) = word(words);
    let Some(start) = low(start) else {
        return false;
    };
    match verb {
        "entries_mut_from" => steps(&mut map.entries_mut_from(start.as_ref()), rest, reply),
        "address_from" => address_from(map, start.as_ref(), reply),
        _ => return false,
    }
    true
}

// Takes so many pairs of a drain that writes to the values, and drops it.
fn drain<C: NodesMut<u64, u64>>(
    map: &mut Map<C>,
    (pick, raise): (Pick, Raise),
    count: u64,
    reply: &mut Reply,
) {
    let mut calls = 0u64;
    let mut drain = map.drain_filter(move |key: &u64, value: &mut u64| {
        calls = calls.wrapping_add(1);
        *value = raised(raise, *value, calls);
        picks(pick, *key)
    });
    for _ in 0..count {
        reply.found(drain.next());
    }
    drop(drain);
    reply.word("dropped");
}

// Takes so many pairs of a drain, with the hint before the first and after each.
fn drain_with_hints<C: NodesMut<u64, u64>>(
    map: &mut Map<C>,
    pick: Pick,
    count: u64,
    reply: &mut Reply,
) {
    let mut drain = map.drain_filter(move |key: &u64, _value: &mut u64| picks(pick, *key));
    reply.hint(drain.size_hint());
    for _ in 0..count {
        reply.found(drain.next());
        reply.hint(drain.size_hint());
    }
    drop(drain);
    reply.word("dropped");
}

// Takes so many pairs of a drain that writes to the values, and finishes it.
fn finish<C: NodesMut<u64, u64>>(
    map: &mut Map<C>,
    (pick, raise): (Pick, Raise),
    count: u64,
    reply: &mut Reply,
) {
    let mut calls = 0u64;
    let mut drain = map.drain_filter(move |key: &u64, value: &mut u64| {
        calls = calls.wrapping_add(1);
        *value = raised(raise, *value, calls);
        picks(pick, *key)
    });
    for _ in 0..count {
        reply.found(drain.next());
    }
    drain.finish();
    reply.word("finished");
}

// Keeps the pairs that a test picks, and adds how often it was called.
fn retain<C: NodesMut<u64, u64>>(
    map: &mut Map<C>,
    (pick, raise): (Pick, Raise),
    reply: &mut Reply,
) {
    let mut calls = 0u64;
    map.retain(|key: &u64, value: &mut u64| {
        calls = calls.wrapping_add(1);
        *value = raised(raise, *value, calls);
        picks(pick, *key)
    });
    reply.word("calls");
    reply.number(calls);
}

/// Serves a cursor or a drain. Returns whether the words are one.
pub(crate) fn serve_cursors<C: NodesMut<u64, u64>>(
    map: &mut Map<C>,
    verb: &str,
    rest: &str,
    reply: &mut Reply,
) -> bool {
    if verb == "entries_mut" {
        steps(&mut map.entries_mut(), rest, reply);
        return true;
    }
    if from_bound(map, verb, rest, reply) {
        return true;
    }
    let (first, more) = word(rest);
    let Some(pick) = read_pick(first) else {
        return false;
    };
    let (count, by) = word(more);
    match (verb, number(count), read_raise(by), read_raise(more)) {
        ("retain", _, _, Some(raise)) => retain(map, (pick, raise), reply),
        ("drain", Some(count), Some(raise), _) => drain(map, (pick, raise), count, reply),
        ("drain", Some(count), None, _) if by == "hint" => drain_with_hints(
            map, pick, count, reply,
        ),
        ("finish", Some(count), Some(raise), _) => finish(map, (pick, raise), count, reply),
        _ => return false,
    }
    true
}
