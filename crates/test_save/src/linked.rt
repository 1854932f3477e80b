//! Images whose nodes are linked in any way: with cycles, with children of two nodes, and with children that are not there.
use crate::asserts::assert_same;
use crate::verdicts::{Tally, Verdict, tried};
use crate::words::{MAGIC, NONE, add_sum, bytes_of_words, put_word};
use std::alloc::Global;
use std::process::Abort;

// Appends a leaf with three items.
fn put_leaf(rt: &impl Abort, bytes: &mut Vec<u8>, parent: u64, least: u64) {
    let (second, third) = (least.wrapping_add(1), least.wrapping_add(2));
    for word in [1, parent, 3, least, 0, second, 0, third, 0] {
        put_word(rt, bytes, word);
    }
}

// Appends an internal node with one item.
fn put_internal(
    rt: &impl Abort,
    bytes: &mut Vec<u8>,
    parent: u64,
    (first, key, second): (u64, u64, u64),
) {
    for word in [2, parent, 1, first, key, 0, second] {
        put_word(rt, bytes, word);
    }
}

// Returns the image of an internal node and two leaves, with this root, these parents and these children.
fn family(
    rt: &impl Abort,
    alloc: Global,
    root: u64,
    (top, first, second): (u64, u64, u64),
    (left, right): (u64, u64),
) -> Vec<u8> {
    let mut bytes = bytes_of_words(rt, alloc, &[MAGIC, 1, root, 7, NONE, 3]);
    put_internal(rt, &mut bytes, top, (left, 3, right));
    put_leaf(rt, &mut bytes, first, 0);
    put_leaf(rt, &mut bytes, second, 4);
    add_sum(rt, &mut bytes);
    bytes
}

// The number of one of four nodes, of which the last is not there, or none: a digit of `links`.
fn id_in(links: u64, place: u64) -> u64 {
    match links.checked_div(place).unwrap_or(0) % 5 {
        4 => NONE,
        id => id,
    }
}

// Tries each pair of children, each of them under each parent.
fn try_children(rt: &impl Abort, alloc: Global, tally: &mut Tally, root: u64) {
    for links in 0..625u64 {
        let parents = (NONE, id_in(links, 1), id_in(links, 5));
        let children = (id_in(links, 25), id_in(links, 125));
        let bytes = family(rt, alloc, root, parents, children);
        let found = tried(rt, alloc, &bytes);
        let is_right = (root, parents, children) == (0, (NONE, 0, 0), (1, 2));
        assert_same(rt, found == Verdict::Opened, is_right);
        tally.count(rt, found);
    }
}

#[test]
fn one_of_all_families_is_a_tree(rt: HostRuntime) {
    let mut tally = Tally::NONE;
    for root in [0, 1, 2, 3, NONE] {
        try_children(&rt, rt.alloc(), &mut tally, root);
    }
    assert_same(&rt, (tally.opened, tally.images, tally.trees), (1, 0, 3124));
}
