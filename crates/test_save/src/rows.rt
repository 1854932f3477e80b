//! Files whose bytes and faults are known by hand.
use crate::asserts::{assert_same, assert_same_in, assert_true, given};
use crate::maps::Slots;
use crate::verdicts::{Verdict, tried, tried_in};
use crate::words::{MAGIC, NONE, bytes_of_words, file_of, put_word};
use btree_image::BadImage;
use btree_item::Fault;
use btree_map::BTreeMap;
use btree_more_stores::FixedSlab;
use btree_node::{Node, NodesMut};
use btree_save::bytes_of_map;
use std::alloc::Global;
use std::process::Abort;

// The file {7: 49}: root 0, length 1, no limit, one place, a leaf without a parent, one item.
const ONE_PAIR: [u64; 11] = [MAGIC, 1, 0, 1, NONE, 1, 1, NONE, 1, 7, 49];

// The check sum of that file, and of the file of no pair: the first words of two digests that another program made.
const SUM_OF_ONE_PAIR: u64 = 0x673e_7b44_6f75_dff4;

const SUM_OF_NOTHING: u64 = 0xc781_345f_71d7_04b0;

// Checks that the bytes of a map are these words and this check sum.
fn check_saved<C: NodesMut<u64, u64>>(
    rt: &impl Abort,
    alloc: Global,
    map: &BTreeMap<u64, u64, C>,
    words: &[u64],
    sum: u64,
) {
    let bytes = given(rt, bytes_of_map(alloc, map));
    let mut drawn = bytes_of_words(rt, alloc, words);
    put_word(rt, &mut drawn, sum);
    assert_same(rt, bytes.as_slice(), drawn.as_slice());
}

// Checks the bytes of a map of no pair and of one.
fn check_drawn<C: NodesMut<u64, u64> + Drop>(rt: &impl Abort, alloc: Global, origin: C::Origin) {
    let mut map: BTreeMap<u64, u64, C> = BTreeMap::new(origin);
    let nothing = [MAGIC, 1, NONE, 0, NONE, 0];
    check_saved(rt, alloc, &map, &nothing, SUM_OF_NOTHING);
    assert_true(rt, map.insert(7, 49).is_ok());
    check_saved(rt, alloc, &map, &ONE_PAIR, SUM_OF_ONE_PAIR);
}

#[test]
fn files_are_as_drawn(rt: HostRuntime) {
    check_drawn::<Slots>(&rt, rt.alloc(), rt.alloc());
}

// Checks what comes of a file of these words.
fn check_file(rt: &impl Abort, alloc: Global, words: &[u64], expected: Verdict) {
    let file = file_of(rt, alloc, words);
    assert_same(rt, tried(rt, alloc, &file), expected);
}

// Words of {7: 49} with one of them changed, and what comes of the file.
const CHANGED: [(usize, u64, Verdict); 13] = [
    (0, 7, Verdict::Image(BadImage::Magic, 0)),
    (1, 2, Verdict::Image(BadImage::Version, 8)),
    (6, 3, Verdict::Image(BadImage::Kind, 48)),
    (6, 0, Verdict::Image(BadImage::Vacant, 48)),
    (8, 0, Verdict::Image(BadImage::Count, 64)),
    (8, 10, Verdict::Image(BadImage::Count, 64)),
    (8, 2, Verdict::Image(BadImage::Value, 96)),
    (3, 2, Verdict::Tree(Fault::WrongLength)),
    (2, 1, Verdict::Tree(Fault::NoNode)),
    (4, 0, Verdict::Tree(Fault::OverLimit)),
    (2, NONE, Verdict::Tree(Fault::WrongLength)),
    (7, 0, Verdict::Tree(Fault::WrongParent)),
    (10, 50, Verdict::Opened),
];

#[test]
fn changed_words_have_their_faults(rt: HostRuntime) {
    for (at, word, expected) in CHANGED {
        let mut words = ONE_PAIR;
        if let Some(place) = words.get_mut(at) {
            *place = word;
        }
        check_file(&rt, rt.alloc(), &words, expected);
    }
}

// Checks what comes of the first bytes of {7: 49}.
fn check_front(rt: &impl Abort, alloc: Global, len: usize, expected: Verdict) {
    let mut file = file_of(rt, alloc, &ONE_PAIR);
    file.truncate(len);
    assert_same_in(rt, len, tried(rt, alloc, &file), expected);
}

#[test]
fn fronts_have_their_faults(rt: HostRuntime) {
    for (len, fault, at) in [
        (0, BadImage::Short, 0),
        (7, BadImage::Short, 0),
        (8, BadImage::Short, 8),
        (48, BadImage::Short, 48),
        (71, BadImage::Short, 64),
        (72, BadImage::Value, 72),
        (87, BadImage::Value, 80),
        (88, BadImage::Short, 88),
        (95, BadImage::Short, 88),
    ] {
        check_front(&rt, rt.alloc(), len, Verdict::Image(fault, at));
    }
    check_front(&rt, rt.alloc(), 96, Verdict::Opened);
}

#[test]
fn ends_have_their_faults(rt: HostRuntime) {
    let mut longer = file_of(&rt, rt.alloc(), &ONE_PAIR);
    assert_true(&rt, longer.push(0).is_ok());
    let found = tried(&rt, rt.alloc(), &longer);
    assert_same(&rt, found, Verdict::Image(BadImage::Trailing, 96));
    let mut other = file_of(&rt, rt.alloc(), &ONE_PAIR);
    if let Some(value) = other.get_mut(87) {
        *value = 50;
    }
    let found = tried(&rt, rt.alloc(), &other);
    assert_same(&rt, found, Verdict::Image(BadImage::Sum, 88));
}

// A leaf of nine items, which descend.
const NINE: [u64; 27] = [
    MAGIC, 1, 0, 9, NONE, 1, 1, NONE, 9, 9, 0, 8, 0, 7, 0, 6, 0, 5, 0, 4, 0, 3, 0, 2, 0, 1, 0,
];

// No root, and a node.
const ROOTLESS: [u64; 11] = [MAGIC, 1, NONE, 0, NONE, 1, 1, NONE, 1, 7, 49];

// An internal node that is its own child.
const CYCLE: [u64; 13] = [MAGIC, 1, 0, 1, NONE, 1, 2, NONE, 1, 0, 7, 49, 0];

// A leaf of three items that is both children of the root: its last key is not below the separator.
const SHARED: [u64; 22] = [
    MAGIC, 1, 0, 7, NONE, 2, 2, NONE, 1, 1, 2, 0, 1, 1, 0, 3, 1, 0, 2, 0, 3, 0,
];

#[test]
fn trees_have_their_faults(rt: HostRuntime) {
    let alloc = rt.alloc();
    check_file(&rt, alloc, &NINE, Verdict::Tree(Fault::Overflowing));
    check_file(&rt, alloc, &ROOTLESS, Verdict::Tree(Fault::Unreachable));
    check_file(&rt, alloc, &CYCLE, Verdict::Tree(Fault::WrongParent));
    check_file(&rt, alloc, &SHARED, Verdict::Tree(Fault::AboveSeparator));
}

type Table<const N: usize> = FixedSlab<Node<u64, u64>, N>;

// The map {7: 49}, whose node has number 5: the five places before it are vacant.
const AT_FIVE: [u64; 16] = [MAGIC, 1, 5, 1, NONE, 6, 0, 0, 0, 0, 0, 1, NONE, 1, 7, 49];

#[test]
fn a_table_refuses_numbers_past_its_end(rt: HostRuntime) {
    let file = file_of(&rt, rt.alloc(), &AT_FIVE);
    let found = tried_in::<Table<6>>(&rt, rt.alloc(), (), &file);
    assert_same(&rt, found, Verdict::Opened);
    let found = tried_in::<Table<5>>(&rt, rt.alloc(), (), &file);
    assert_same(&rt, found, Verdict::Store);
    let found = tried(&rt, rt.alloc(), &file);
    assert_same(&rt, found, Verdict::Opened);
}
