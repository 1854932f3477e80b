//! Look-up by a text, by a slice and by a place beside keys.
use crate::asserts::{assert_same, assert_same_in, assert_true, given};
use crate::samples::first_keys;
use btree_ext::BTreeExt;
use btree_item::{Address, After, AfterFirst, Before, BeforeFirst, Query};
use btree_map::{AfterAll, BTreeMap, BeforeAll};
use btree_node::{Node, NodesMut};
use btree_set::BTreeSet;
use btree_store::SlabStore;
use btree_walk::Range;
use std::alloc::Global;
use std::iter::DoubleEndedIterator;
use std::ops::Bound;
use std::process::Abort;

// Counts a word. A `String` is made for a word that is not there yet, and for no other.
fn count<C: NodesMut<String, u64>>(
    rt: &impl Abort,
    alloc: Global,
    counts: &mut BTreeMap<String, u64, C>,
    word: &str,
) {
    if let Some(count) = counts.get_mut_by(&word) {
        *count = count.wrapping_add(1);
        return;
    }
    let word = given(rt, String::from_str(alloc, word));
    assert_true(rt, counts.insert(word, 1).is_ok());
}

// Checks the calls by text at one word: how often it was counted, and none after it was taken out.
fn look_up<C: NodesMut<String, u64>>(
    rt: &impl Abort,
    counts: &mut BTreeMap<String, u64, C>,
    word: &str,
    expected: Option<u64>,
) {
    assert_same_in(rt, word, counts.get_by(&word).copied(), expected);
    assert_same_in(rt, word, counts.contains_key_by(&word), expected.is_some());
    let found = match counts.get_key_value_by(&word) {
        Some((key, value)) => Some((key.as_str() == word, *value)),
        None => None,
    };
    assert_same_in(rt, word, found, expected.map(|value| (true, value)));
    assert_same_in(rt, word, counts.remove_by(&word), expected);
    assert_same_in(rt, word, counts.remove_by(&word), None);
}

fn count_words<C: NodesMut<String, u64> + Drop>(rt: &impl Abort, origin: C::Origin, alloc: Global) {
    let mut counts: BTreeMap<String, u64, C> = BTreeMap::new(origin);
    for word in [
        "the", "cat", "and", "the", "dog", "and", "the", "bird", "there", "th",
    ] {
        count(rt, alloc, &mut counts, word);
    }
    assert_same(rt, counts.len(), 7);
    for (word, expected) in [
        ("the", Some(3)),
        ("and", Some(2)),
        ("th", Some(1)),
        ("t", None),
        ("then", None),
        ("", None),
    ] {
        look_up(rt, &mut counts, word, expected);
    }
    assert_same(rt, counts.len(), 4);
}

// A set of words, looked up by texts.
fn hold_words<C: NodesMut<String, ()> + Drop>(rt: &impl Abort, origin: C::Origin, alloc: Global) {
    let mut words: BTreeSet<String, C> = BTreeSet::new(origin);
    for word in ["the", "cat", "and", "the"] {
        let word = given(rt, String::from_str(alloc, word));
        assert_true(rt, words.insert(word).is_ok());
    }
    for (word, is_there) in [("the", true), ("cat", true), ("th", false)] {
        assert_same_in(rt, word, words.contains_by(&word), is_there);
        let found = words.get_by(&word).map(|stored| stored.as_str() == word);
        assert_same_in(rt, word, found.is_some(), is_there);
        assert_same_in(rt, word, found.unwrap_or(is_there), is_there);
    }
    assert_true(rt, words.remove_by(&"cat"));
    assert_true(rt, !words.remove_by(&"cat"));
    assert_true(rt, words.take_by(&"and").is_some());
    assert_true(rt, words.take_by(&"and").is_none());
    assert_same(rt, words.len(), 1);
}

// A set of lists of two numbers, looked up by slices.
fn hold_lists<C: NodesMut<Vec<u64>, ()> + Drop>(rt: &impl Abort, origin: C::Origin, alloc: Global) {
    let mut lists: BTreeSet<Vec<u64>, C> = BTreeSet::new(origin);
    for second in [1u64, 4, 2] {
        let mut list = Vec::new(alloc);
        given(rt, list.push(7));
        given(rt, list.push(second));
        assert_true(rt, lists.insert(list).is_ok());
    }
    for second in 0..5u64 {
        let list: &[u64] = &[7, second];
        let is_there = matches!(second, 1 | 2 | 4);
        assert_same_in(rt, second, lists.contains_by(&list), is_there);
        assert_same_in(rt, second, lists.remove_by(&list), is_there);
        assert_same_in(rt, second, lists.contains_by(&&list[..1]), false);
    }
    assert_same(rt, lists.len(), 0);
}

// The text of a number.
fn text_of(rt: &impl Abort, alloc: Global, number: u64) -> String {
    let mut text = String::new(alloc);
    given(rt, write!(text, "{number}"));
    text
}

// Checks the calls by text at one number of a map in which the texts of 10 to 53 have their numbers as values. Puts back what was removed.
fn look_up_number<C: NodesMut<String, u64>>(
    rt: &impl Abort,
    alloc: Global,
    map: &mut BTreeMap<String, u64, C>,
    number: u64,
) {
    let text = text_of(rt, alloc, number);
    let word = text.as_str();
    let expected = if 10 <= number && number < 54 {
        Some(number)
    } else {
        None
    };
    assert_same_in(rt, number, map.get_by(&word).copied(), expected);
    let found = map.get_key_value_by(&word).map(|pair| *pair.1);
    assert_same_in(rt, number, found, expected);
    let lent = map.get_mut_by(&word).map(|value| *value);
    assert_same_in(rt, number, lent, expected);
    let len = map.len();
    let removed = map.remove_entry_by(&word);
    assert_same_in(rt, number, map.contains_key_by(&word), false);
    let Some((key, value)) = removed else {
        assert_same_in(rt, number, None, expected);
        return;
    };
    assert_same_in(rt, number, Some(value), expected);
    assert_same_in(rt, number, map.len() + 1, len);
    assert_same_in(rt, number, map.insert(key, value).ok(), Some(None));
}

// The texts of 44 numbers, on three levels.
fn count_levels<C: NodesMut<String, u64> + Drop>(
    rt: &impl Abort,
    origin: C::Origin,
    alloc: Global,
) {
    let mut map: BTreeMap<String, u64, C> = BTreeMap::new(origin);
    for number in 10..54u64 {
        let inserted = map.insert(text_of(rt, alloc, number), number).is_ok();
        assert_true(rt, inserted);
    }
    assert_same(rt, map.height(), 3);
    for number in 0..60u64 {
        look_up_number(rt, alloc, &mut map, number);
    }
    assert_same(rt, count_between(&map, &"2", &"4"), 20);
    assert_same(rt, count_between(&map, &"200", &"22"), 1);
    assert_same(rt, count_between(&map, &After(&"20"), &"22"), 1);
    assert_same(rt, count_between(&map, &"4", &AfterAll), 14);
    assert_same(rt, count_between(&map, &BeforeAll, &"2"), 10);
}

// Both, over any store.
fn find_texts<C: NodesMut<String, u64> + Drop>(rt: &impl Abort, origin: C::Origin, alloc: Global)
where
    C::Origin: Copy,
{
    count_words::<C>(rt, origin, alloc);
    count_levels::<C>(rt, origin, alloc);
}

#[test]
fn texts_are_found(rt: HostRuntime) {
    find_texts::<SlabStore<Node<String, u64>>>(&rt, rt.alloc(), rt.alloc());
}

#[test]
fn lists_are_held_by_slice(rt: HostRuntime) {
    hold_lists::<SlabStore<Node<Vec<u64>, ()>>>(&rt, rt.alloc(), rt.alloc());
}

#[test]
fn words_are_held_by_text(rt: HostRuntime) {
    hold_words::<SlabStore<Node<String, ()>>>(&rt, rt.alloc(), rt.alloc());
}

// How many pairs are before an address.
fn place_of<K: Ord, C: NodesMut<K, u64>>(
    map: &BTreeMap<K, u64, C>,
    found: Result<Address, Address>,
) -> usize {
    let (Ok(addr) | Err(addr)) = found;
    let mut place = 0usize;
    let mut next = if map.is_valid(addr) {
        map.previous_item_address(addr)
    } else {
        None
    };
    for _ in 0..map.len() {
        if let Some(at) = next {
            place = place.wrapping_add(1);
            next = if map.is_valid(at) {
                map.previous_item_address(at)
            } else {
                None
            };
        }
    }
    place
}

// Checks where a query is: whether a key is equal to it, and how many pairs are before.
fn check_place<K: Ord, Q: Query<K>, C: NodesMut<K, u64>>(
    rt: &impl Abort,
    map: &BTreeMap<K, u64, C>,
    query: &Q,
    expected: (bool, usize),
) {
    let found = map.address_by(query);
    assert_same(rt, (found.is_ok(), place_of(map, found)), expected);
}

// Three entries each of the first parts 0, 2, .. 18, with the second parts 0, 10 and 20.
fn entries<C: NodesMut<(u64, u64), u64> + Drop>(rt: &impl Abort, origin: C::Origin) {
    let mut map: BTreeMap<(u64, u64), u64, C> = BTreeMap::new(origin);
    for number in 0..30u64 {
        let key = (number / 3 * 2, number % 3 * 10);
        assert_true(rt, map.insert(key, number).is_ok());
    }
    for first in 0..20u64 {
        let below = ((first + 1) / 2 * 3) as usize;
        let up_to = (first / 2 * 3 + 3) as usize;
        check_place(rt, &map, &BeforeFirst(&first), (false, below));
        check_place(rt, &map, &AfterFirst(&first), (false, up_to));
        let middle = (first, 10);
        let is_there = first % 2 == 0;
        let before = if is_there { below + 1 } else { below };
        check_place(rt, &map, &middle, (is_there, before));
        check_place(rt, &map, &Before(&middle), (false, before));
        let after = if is_there { before + 1 } else { before };
        check_place(rt, &map, &After(&middle), (false, after));
        check_entries(rt, &map, first);
    }
}

// Checks which pairs of a first part there are, from both ends: those with the values from 3 times its half on, or none.
fn check_entries<C: NodesMut<(u64, u64), u64>>(
    rt: &impl Abort,
    map: &BTreeMap<(u64, u64), u64, C>,
    first: u64,
) {
    let mut entries = map.range_by(&BeforeFirst(&first), &AfterFirst(&first));
    if first % 2 == 0 && first < 20 {
        let start = first / 2 * 3;
        for expected in [start, start + 1] {
            let given = entries.next().map(|pair| *pair.1);
            assert_same_in(rt, first, given, Some(expected));
        }
        let given = entries.next_back().map(|pair| *pair.1);
        assert_same_in(rt, first, given, Some(start + 2));
    }
    assert_same_in(rt, first, entries.next().is_none(), true);
    assert_same_in(rt, first, entries.next_back().is_none(), true);
}

// How many pairs are between two queries.
fn count_between<K: Ord, Q: Query<K>, R: Query<K>, C: NodesMut<K, u64>>(
    map: &BTreeMap<K, u64, C>,
    start: &Q,
    end: &R,
) -> usize {
    let mut count = 0usize;
    for _ in map.range_by(start, end) {
        count = count.wrapping_add(1);
    }
    count
}

// The first and the last key of a range.
fn ends<C: NodesMut<u64, u64>>(range: Range<'_, u64, u64, C>) -> (Option<u64>, Option<u64>) {
    let mut range = range;
    let first = range.next().map(|pair| *pair.0);
    (first, range.next_back().map(|pair| *pair.0))
}

// Each kind of range, of keys and of references to them.
fn kinds<C: NodesMut<u64, u64> + Drop>(rt: &impl Abort, origin: C::Origin) {
    let map = first_keys::<C>(rt, origin, 44);
    let (low, high) = (3, 7);
    assert_same(rt, ends(map.range(3..7)), (Some(3), Some(6)));
    assert_same(rt, ends(map.range(3..=7)), (Some(3), Some(7)));
    assert_same(rt, ends(map.range(40..)), (Some(40), Some(43)));
    assert_same(rt, ends(map.range(..3)), (Some(0), Some(2)));
    assert_same(rt, ends(map.range(..=3)), (Some(0), Some(3)));
    assert_same(rt, ends(map.range(..)), (Some(0), Some(43)));
    assert_same(rt, ends(map.range(&low..)), (Some(3), Some(43)));
    if map.is_valid_range(&(&low..&high)) {
        assert_same(rt, ends(map.range(&low..&high)), (Some(3), Some(6)));
    }
    let past = (Bound::Excluded(&low), Bound::Unbounded);
    assert_same(rt, ends(map.range(past)), (Some(4), Some(43)));
    assert_true(rt, map.is_valid_range(&(3..3)));
    assert_true(rt, !map.is_valid_range(&(7..3)));
}

#[test]
fn kinds_of_ranges_are_found(rt: HostRuntime) {
    kinds::<SlabStore<Node<u64, u64>>>(&rt, rt.alloc());
}

#[test]
fn places_beside_keys_are_found(rt: HostRuntime) {
    entries::<SlabStore<Node<(u64, u64), u64>>>(&rt, rt.alloc());
}
