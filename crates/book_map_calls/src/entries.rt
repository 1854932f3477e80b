//! Entries of maps.
use crate::menu::{Action, read_action, read_step, write};
use book_text::{Reply, number, pair, put_address, word};
use btree_ext::BTreeExt;
use btree_map::{BTreeMap, Entry, OccupiedEntry};
use btree_node::NodesMut;
use std::mem;

type Map<C> = BTreeMap<u64, u64, C>;

// Shows the entry of a key: its address and key, and then what its kind has.
fn show<C: NodesMut<u64, u64>>(map: &mut Map<C>, key: u64, reply: &mut Reply) {
    let entry = map.entry(key);
    let (at, asked) = (entry.address(), *entry.key());
    let (inner, key, value) = match entry {
        Entry::Occupied(entry) => (entry.address(), *entry.key(), Some(*entry.get())),
        Entry::Vacant(entry) => (entry.address(), *entry.key(), None),
    };
    put_address(reply, map.as_raw(), Some(at));
    reply.number(asked);
    reply.word(if value.is_some() {
        "occupied"
    } else {
        "vacant"
    });
    put_address(reply, map.as_raw(), Some(inner));
    match value {
        Some(value) => reply.pair(key, value),
        None => reply.number(key),
    }
}

// Does a step after which an entry is still there.
fn step<C: NodesMut<u64, u64>>(
    entry: &mut OccupiedEntry<'_, u64, u64, C>,
    word: &str,
    reply: &mut Reply,
) {
    match read_step(word) {
        ("key", None) => reply.number(*entry.key()),
        ("get", None) => reply.number(*entry.get()),
        ("insert", Some(Action::Set(value))) => {
            let old = entry.insert(value);
            reply.number(old)
        }
        ("get_mut", action) => reply.number(write(entry.get_mut(), action)),
        _ => {
            reply.unknown();
        }
    }
}

// Does the steps of the entry of a key, if it is there.
fn occupied<C: NodesMut<u64, u64>>(map: &mut Map<C>, key: u64, steps: &str, reply: &mut Reply) {
    let (first, last) = steps.rsplit_once(' ').unwrap_or(("", steps));
    let Entry::Occupied(mut entry) = map.entry(key) else {
        return reply.word("vacant");
    };
    for word in first.split(' ') {
        if word != "" {
            step(&mut entry, word, reply);
        }
    }
    match read_step(last) {
        ("into_mut", action) => reply.number(write(entry.into_mut(), action)),
        ("remove", None) => {
            let value = entry.remove();
            reply.number(value)
        }
        ("remove_entry", None) => {
            let (key, value) = entry.remove_entry();
            reply.pair(key, value)
        }
        _ => step(&mut entry, last, reply),
    }
}

// Reads the key of a vacant entry, or gets it back, or shows the entry.
fn vacant<C: NodesMut<u64, u64>>(map: &mut Map<C>, key: u64, step: &str, reply: &mut Reply) {
    let Entry::Vacant(entry) = map.entry(key) else {
        return reply.word("occupied");
    };
    match step {
        "key" => reply.number(*entry.key()),
        "debug" => reply.shown(&entry),
        _ => {
            let key = entry.into_key();
            reply.number(key)
        }
    }
}

// Inserts at a vacant entry, and writes to the value.
fn insert_vacant<C: NodesMut<u64, u64>>(
    map: &mut Map<C>,
    key: u64,
    value: u64,
    action: Option<Action>,
    reply: &mut Reply,
) {
    let Entry::Vacant(entry) = map.entry(key) else {
        return reply.word("occupied");
    };
    match entry.insert(value) {
        Ok(lent) => {
            write(lent, action);
            reply.number(*lent)
        }
        Err(refused) => reply.refused_pair(refused.cause, refused.key, refused.value),
    }
}

// Inserts a value if there is none, and writes to it; or writes to the one that is there, and inserts one if there is none.
fn or_insert<C: NodesMut<u64, u64>>(
    map: &mut Map<C>,
    verb: &str,
    (key, value): (u64, u64),
    action: Option<Action>,
    reply: &mut Reply,
) {
    let (entry, mut action) = (map.entry(key), action);
    let lent = match verb {
        "or_insert" => entry.or_insert(value),
        "or_insert_with" => entry.or_insert_with(move || value),
        "or_insert_with_key" => entry.or_insert_with_key(|key| *key),
        "or_default" => entry.or_default(),
        _ => {
            let before = mem::replace(&mut action, None);
            let entry = entry.and_modify(move |found| {
                write(found, before);
            });
            entry.or_insert(value)
        }
    };
    match lent {
        Ok(lent) => {
            write(lent, action);
            reply.number(*lent)
        }
        Err(refused) => reply.refused_pair(refused.cause, refused.key, refused.value),
    }
}

// Sets a value by the entry of its key, and reads the pair by the entry that comes back.
fn insert_entry<C: NodesMut<u64, u64>>(
    map: &mut Map<C>,
    (key, value): (u64, u64),
    reply: &mut Reply,
) {
    match map.entry(key).insert_entry(value) {
        Ok(entry) => reply.pair(*entry.key(), *entry.get()),
        Err(refused) => reply.refused_pair(refused.cause, refused.key, refused.value),
    }
}

// Reads the key or the value of the first entry, or of the last one, or shows or removes it.
fn of_end<C: NodesMut<u64, u64>>(map: &mut Map<C>, verb: &str, step: &str, reply: &mut Reply) {
    let end = if verb == "first_entry" {
        map.first_entry()
    } else {
        map.last_entry()
    };
    let Some(entry) = end else {
        return reply.word("none");
    };
    match step {
        "key" => reply.number(*entry.key()),
        "get" => reply.number(*entry.get()),
        "debug" => reply.shown(&entry),
        "remove" => {
            let value = entry.remove();
            reply.number(value)
        }
        "remove_entry" => {
            let (key, value) = entry.remove_entry();
            reply.pair(key, value)
        }
        _ => {
            reply.unknown();
        }
    }
}

// Returns the pair, or the key and 0, that a word names.
fn asked(word: &str) -> Option<(u64, u64)> {
    match pair(word) {
        Some(pair) => Some(pair),
        None => Some((number(word)?, 0)),
    }
}

/// Serves a call of entries. Returns whether the words are one.
pub(crate) fn serve_entries<C: NodesMut<u64, u64>>(
    map: &mut Map<C>,
    verb: &str,
    rest: &str,
    reply: &mut Reply,
) -> bool {
    let (first, more) = word(rest);
    match (verb, asked(first)) {
        ("first_entry" | "last_entry", _) => of_end(map, verb, rest, reply),
        ("entry", Some((key, _))) => show(map, key, reply),
        ("insert_entry", Some(pair)) => insert_entry(map, pair, reply),
        ("occupied", Some((key, _))) => occupied(map, key, more, reply),
        ("vacant", Some((key, _))) => {
            let (step, by) = word(more);
            match read_step(step) {
                ("key" | "debug" | "into_key", None) => vacant(map, key, step, reply),
                ("insert", Some(Action::Set(value))) => insert_vacant(
                    map,
                    key,
                    value,
                    read_action(by),
                    reply,
                ),
                _ => return false,
            }
        }
        ("or_insert" | "or_insert_with" | "or_insert_with_key" | "or_default", Some(pair)) =>
            or_insert(map, verb, pair, read_action(more), reply),
        ("and_modify", Some(pair)) => or_insert(map, verb, pair, read_action(more), reply),
        _ => return false,
    }
    true
}
