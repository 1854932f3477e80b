//! Calls of two sets, and of a set and a list of elements.
ghost use Rattle.std.specs.Iterator.{IsFinite};

use book_map_calls::{numbers, put_left};
use book_text::{Reply, number};
use btree_node::{CloneNodes, NodesMut};
use btree_set::BTreeSet;
use std::alloc::Global;
use std::hash::{DefaultHasher, Hash, Hasher};

type Set<C> = BTreeSet<u64, C>;

// Adds what a merge yields, with the hint before each element and at the end.
fn put_merge<'a, I: Iterator<Item = &'a u64> + Drop>(items: I, reply: &mut Reply)
    requires can { (state : I) → I.can_next state }
    requires ends { IsFinite (I.remaining items) }
{
    let mut items = items;
    reply.hint(items.size_hint());
    while let Some(element) = items.next() {
        reply.number(*element);
        reply.hint(items.size_hint());
    }
    reply.word(if items.next().is_none() {
        "none"
    } else {
        "more"
    })
}

// Compares two sets, and the first with one over another store that has the elements of the second.
fn compare<C: NodesMut<u64, ()>, D: NodesMut<u64, ()>>(
    set: &Set<C>,
    other: &Set<C>,
    copy: &Set<D>,
    reply: &mut Reply,
) {
    reply.truth(*set == *other);
    reply.order(set.cmp(other));
    if let Some(order) = set.partial_cmp(other) {
        reply.order(order);
    }
    reply.truth(set.same_items(copy));
    reply.order(set.compare_items(copy));
}

// Merges a set with one over another store.
fn merge_with<C: NodesMut<u64, ()>, D: NodesMut<u64, ()>>(
    set: &Set<C>,
    copy: &Set<D>,
    verb: &str,
    reply: &mut Reply,
) -> bool {
    match verb {
        "union" => put_merge(set.union(copy), reply),
        "intersection" => put_merge(set.intersection(copy), reply),
        "difference" => put_merge(set.difference(copy), reply),
        "symmetric_difference" => put_merge(set.symmetric_difference(copy), reply),
        "is_disjoint" => reply.truth(set.is_disjoint(copy)),
        "is_subset" => reply.truth(set.is_subset(copy)),
        "is_superset" => reply.truth(set.is_superset(copy)),
        _ => return false,
    }
    true
}

// Merges a set with one over another store that has the elements of the other set, or compares them.
fn merge<C: NodesMut<u64, ()>, D: NodesMut<u64, ()> + Drop>(
    set: &Set<C>,
    other: &Set<C>,
    origin: D::Origin,
    verb: &str,
    reply: &mut Reply,
) -> bool
where
    D::Origin: Copy,
{
    let mut copy: BTreeSet<u64, D> = BTreeSet::new(origin);
    if copy.extend_copied(&mut other.iter()).is_err() {
        reply.word("no memory");
        return true;
    }
    if verb == "compare" {
        compare(set, other, &copy, reply);
        return true;
    }
    merge_with(set, &copy, verb, reply)
}

fn extend<C: NodesMut<u64, ()>>(set: &mut Set<C>, elements: &[u64], reply: &mut Reply) {
    let mut source = elements.iter().copied();
    match set.extend(&mut source) {
        Ok(()) => reply.word("ok"),
        Err(refused) => reply.refused_key(refused.cause, refused.key),
    }
    put_left(&mut source, reply);
}

fn extend_copied<C: NodesMut<u64, ()>>(set: &mut Set<C>, other: &Set<C>, reply: &mut Reply) {
    let mut source = other.iter();
    match set.extend_copied(&mut source) {
        Ok(()) => reply.word("ok"),
        Err(refused) => reply.refused_key(refused.cause, refused.key),
    }
    put_left(&mut source, reply);
}

fn from_iter<C: NodesMut<u64, ()> + Drop>(
    set: &mut Set<C>,
    origin: C::Origin,
    elements: &[u64],
    reply: &mut Reply,
)
where
    C::Origin: Copy,
{
    let mut source = elements.iter().copied();
    match BTreeSet::<u64, C>::from_iter(origin, &mut source) {
        Ok(made) => {
            *set = made;
            reply.word("ok")
        }
        Err((made, refused)) => {
            *set = made;
            reply.refused_key(refused.cause, refused.key)
        }
    }
    put_left(&mut source, reply);
}

// Adds what is left of a set.
fn put_rest<C: NodesMut<u64, ()>>(set: &Set<C>, reply: &mut Reply) {
    let mut source = set.iter();
    put_left(&mut source, reply);
}

fn append<C: NodesMut<u64, ()>>(set: &mut Set<C>, other: &mut Set<C>, reply: &mut Reply) {
    match set.append(other) {
        Ok(()) => reply.word("ok"),
        Err(refused) => reply.refused_key(refused.cause, refused.key),
    }
    put_rest(other, reply);
}

// Moves the elements of the other set from one on into a new set.
fn split_off<C: NodesMut<u64, ()> + Drop>(
    set: &mut Set<C>,
    origin: C::Origin,
    other: &mut Set<C>,
    element: u64,
    reply: &mut Reply,
) {
    match other.split_off(&element, C::empty(origin)) {
        Ok(moved) => {
            *set = moved;
            reply.word("ok")
        }
        Err((moved, refused)) => {
            *set = moved;
            reply.refused_key(refused.cause, refused.key)
        }
    }
}

// Makes a set a clone of the other one.
fn clone<C: CloneNodes<u64, ()> + Drop>(set: &mut Set<C>, other: &Set<C>, reply: &mut Reply) {
    match other.clone() {
        Ok(copy) => {
            *set = copy;
            reply.word("ok")
        }
        Err(_) => reply.word("no memory"),
    }
}

fn hash_of<C: NodesMut<u64, ()>>(set: &Set<C>) -> u64 {
    let mut hasher = DefaultHasher::new();
    set.hash(&mut hasher);
    hasher.finish()
}

// Makes a set an empty one with a limit. Returns whether the word is a number.
fn limited<C: NodesMut<u64, ()> + Drop>(
    set: &mut Set<C>,
    origin: C::Origin,
    word: &str,
    reply: &mut Reply,
) -> bool
where
    C::Origin: Copy,
{
    let Some(limit) = number(word) else {
        return false;
    };
    *set = BTreeSet::with_limit(origin, limit as usize);
    reply.word("ok");
    true
}

// Returns the hash of the elements in order, and of nothing else.
fn plain_hash_of<C: NodesMut<u64, ()>>(set: &Set<C>) -> u64 {
    let mut hasher = DefaultHasher::new();
    for element in set.iter() {
        element.hash(&mut hasher);
    }
    hasher.finish()
}

fn of_two<C: CloneNodes<u64, ()> + Drop>(
    set: &mut Set<C>,
    other: &mut Set<C>,
    verb: &str,
    reply: &mut Reply,
) -> bool {
    match verb {
        "append" => append(set, other, reply),
        "clone" => clone(set, other, reply),
        "extend_copied" => extend_copied(set, other, reply),
        "equals" => reply.truth(*set == *other),
        "same_hash" => reply.truth(hash_of(set) == hash_of(other)),
        "plain_hash" => reply.truth(hash_of(set) == plain_hash_of(set)),
        _ => return false,
    }
    true
}

/// Serves a call of two sets, or of a list of elements. Returns whether the words are one.
pub(crate) fn serve_merges<C: CloneNodes<u64, ()> + Drop, D: NodesMut<u64, ()> + Drop>(
    alloc: Global,
    origins: (C::Origin, D::Origin),
    set: &mut Set<C>,
    other: &mut Set<C>,
    verb: &str,
    rest: &str,
    reply: &mut Reply,
) -> bool
where
    C::Origin: Copy,
    D::Origin: Copy,
{
    if rest == "" {
        return of_two(set, other, verb, reply) || merge::<C, D>(set, other, origins.1, verb, reply);
    }
    if verb == "split_off"
        && let Some(element) = number(rest)
    {
        split_off(set, origins.0, other, element, reply);
        return true;
    }
    if verb == "limited" {
        return limited(set, origins.0, rest, reply);
    }
    if verb != "extend" && verb != "from_iter" {
        return false;
    }
    let Some(elements) = numbers(alloc, rest, reply) else {
        return false;
    };
    if verb == "extend" {
        extend(set, elements.as_slice(), reply);
    } else {
        from_iter(set, origins.0, elements.as_slice(), reply);
    }
    true
}
