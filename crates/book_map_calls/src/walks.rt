//! Iterators. A word of letters says what is done in turn: f takes one from the front, b one from the back, h asks for the hint, l for the
//! number left.
ghost use Rattle.std.specs.Iterator.{IsFinite};

use crate::menu::{Action, read_action, write};
use book_text::{Reply, high, low, word};
use btree_map::{BTreeMap, IntoIter};
use btree_node::{CloneNodes, NodesMut};
use btree_walk::is_valid_range;
use std::iter::{DoubleEndedIterator, ExactSizeIterator};
use std::ops::Bound;

type Map<C> = BTreeMap<u64, u64, C>;

/// What an iterator yields.
pub trait Yielded {
    /// Adds it to a reply.
    fn put(self, reply: &mut Reply);
}

impl Yielded for u64 {
    fn put(self, reply: &mut Reply) {
        reply.number(self);
    }
}

impl Yielded for &u64 {
    fn put(self, reply: &mut Reply) {
        reply.number(*self);
    }
}

impl Yielded for (u64, u64) {
    fn put(self, reply: &mut Reply) {
        reply.pair(self.0, self.1);
    }
}

impl Yielded for (&u64, &u64) {
    fn put(self, reply: &mut Reply) {
        reply.pair(*self.0, *self.1);
    }
}

/// Adds what an iterator yields, or `none`.
pub(crate) fn put<T: Yielded>(item: Option<T>, reply: &mut Reply) {
    match item {
        Some(item) => item.put(reply),
        None => reply.word("none"),
    }
}

// Takes an item from one end of an iterator, or asks for the hint.
fn take<I: DoubleEndedIterator>(items: &mut I, end: u8, reply: &mut Reply)
where
    I::Item: Yielded,
    requires front { (state : I) → I.can_next state }
    requires back { (state : I) → I.can_next_back state }
{
    match end {
        b'f' => put(items.next(), reply),
        b'b' => put(items.next_back(), reply),
        b'h' => reply.hint(items.size_hint()),
        _ => reply.unknown(),
    }
}

/// Takes items from both ends of an iterator.
pub fn walk<I: DoubleEndedIterator + Drop>(items: I, ends: &str, reply: &mut Reply)
where
    I::Item: Yielded,
    requires front { (state : I) → I.can_next state }
    requires back { (state : I) → I.can_next_back state }
{
    let mut items = items;
    for end in ends.as_bytes() {
        take(&mut items, *end, reply);
    }
}

/// Takes items from both ends of an iterator that knows how many are left.
pub fn walk_known<I: DoubleEndedIterator + ExactSizeIterator + Drop>(
    items: I,
    ends: &str,
    reply: &mut Reply,
)
where
    I::Item: Yielded,
    requires front { (state : I) → I.can_next state }
    requires back { (state : I) → I.can_next_back state }
{
    let mut items = items;
    for end in ends.as_bytes() {
        if *end == b'l' {
            reply.left(items.len());
        } else {
            take(&mut items, *end, reply);
        }
    }
}

/// Adds all that an iterator yields.
pub fn put_all<I: Iterator + Drop>(items: I, reply: &mut Reply)
where
    I::Item: Yielded,
    requires can { I.can_next items }
    requires ends { IsFinite (I.remaining items) }
{
    for item in items {
        item.put(reply);
    }
}

// Says so of a range that was dropped at once.
fn say_dropped(ends: &str, reply: &mut Reply) {
    if ends == "" {
        return reply.word("dropped");
    }
}

// Takes pairs from both ends of an iterator that owns its map; n asks for the number of nodes that it holds.
fn walk_owned<C: NodesMut<u64, u64> + Drop>(
    pairs: IntoIter<u64, u64, C>,
    ends: &str,
    reply: &mut Reply,
) {
    let mut pairs = pairs;
    for end in ends.as_bytes() {
        match *end {
            b'n' => reply.nodes(pairs.node_count()),
            b'l' => reply.left(pairs.len()),
            _ => take(&mut pairs, *end, reply),
        }
    }
}

// Walks a clone that is owned.
fn owned<C: CloneNodes<u64, u64> + Drop>(
    map: &Map<C>,
    verb: &str,
    ends: &str,
    reply: &mut Reply,
) -> bool {
    let Ok(copy) = map.clone() else {
        reply.word("no memory");
        return true;
    };
    match verb {
        "into_iter" => walk_owned(IntoIter::new(copy), ends, reply),
        "into_keys" => walk_known(copy.into_keys(), ends, reply),
        "into_values" => walk_known(copy.into_values(), ends, reply),
        _ => put_all(copy.into_iter(), reply),
    }
    true
}

fn iter_mut<C: NodesMut<u64, u64>>(
    map: &mut Map<C>,
    ends: &str,
    action: Option<Action>,
    reply: &mut Reply,
) {
    let mut pairs = map.iter_mut();
    for end in ends.as_bytes() {
        match *end {
            b'f' => match pairs.next() {
                Some((key, value)) => reply.pair(*key, write(value, action)),
                None => reply.word("none"),
            },
            b'b' => match pairs.next_back() {
                Some((key, value)) => reply.pair(*key, write(value, action)),
                None => reply.word("none"),
            },
            b'h' => reply.hint(pairs.size_hint()),
            b'l' => reply.left(pairs.len()),
            _ => reply.unknown(),
        }
    }
}

fn values_mut<C: NodesMut<u64, u64>>(
    map: &mut Map<C>,
    ends: &str,
    action: Option<Action>,
    reply: &mut Reply,
) {
    let mut values = map.values_mut();
    for end in ends.as_bytes() {
        match *end {
            b'f' => match values.next() {
                Some(value) => reply.number(write(value, action)),
                None => reply.word("none"),
            },
            b'h' => reply.hint(values.size_hint()),
            b'l' => reply.left(values.len()),
            _ => reply.unknown(),
        }
    }
}

fn range_mut<C: NodesMut<u64, u64>>(
    map: &mut Map<C>,
    bounds: (Bound<&u64>, Bound<&u64>),
    ends: &str,
    action: Option<Action>,
    reply: &mut Reply,
) {
    if !is_valid_range(bounds) {
        return reply.word("not valid");
    }
    let mut pairs = map.range_mut(bounds);
    for end in ends.as_bytes() {
        match *end {
            b'f' => match pairs.next() {
                Some((key, value)) => reply.pair(*key, write(value, action)),
                None => reply.word("none"),
            },
            b'b' => match pairs.next_back() {
                Some((key, value)) => reply.pair(*key, write(value, action)),
                None => reply.word("none"),
            },
            b'e' => reply.truth(pairs.is_empty()),
            _ => reply.unknown(),
        }
    }
    say_dropped(ends, reply)
}

fn range<C: NodesMut<u64, u64>>(
    map: &Map<C>,
    bounds: (Bound<&u64>, Bound<&u64>),
    ends: &str,
    reply: &mut Reply,
) {
    if !is_valid_range(bounds) {
        return reply.word("not valid");
    }
    walk(map.range(bounds), ends, reply);
    say_dropped(ends, reply)
}

// Does a call of a range.
fn ranges<C: NodesMut<u64, u64>>(
    map: &mut Map<C>,
    verb: &str,
    words: &str,
    reply: &mut Reply,
) -> bool {
    let (start, rest) = word(words);
    let (end, rest) = word(rest);
    let (ends, by) = word(rest);
    let (Some(start), Some(end)) = (low(start), high(end)) else {
        return false;
    };
    let bounds = (start.as_ref(), end.as_ref());
    match (verb, read_action(by)) {
        ("is_valid_range", _) => reply.truth(map.is_valid_range(&bounds)),
        ("remove_range", _) => {
            map.remove_range(bounds);
            reply.word("ok")
        }
        ("range", _) => range(map, bounds, ends, reply),
        ("range_mut", action) => range_mut(map, bounds, ends, action, reply),
        _ => return false,
    }
    true
}

/// Serves an iterator. Returns whether the words are one.
pub(crate) fn serve_walks<C: CloneNodes<u64, u64> + Drop>(
    map: &mut Map<C>,
    verb: &str,
    rest: &str,
    reply: &mut Reply,
) -> bool {
    let (ends, by) = word(rest);
    let action = read_action(by);
    match verb {
        "iter" => walk_known(map.iter(), rest, reply),
        "keys" => walk_known(map.keys(), rest, reply),
        "values" => walk_known(map.values(), rest, reply),
        "loop" => put_all((&*map).into_iter(), reply),
        "into_iter" | "into_keys" | "into_values" | "into_loop" => return owned(
            map, verb, rest, reply,
        ),
        "iter_mut" => iter_mut(map, ends, action, reply),
        "values_mut" => values_mut(map, ends, action, reply),
        "range" | "range_mut" | "remove_range" | "is_valid_range" => return ranges(
            map, verb, rest, reply,
        ),
        _ => return false,
    }
    true
}
