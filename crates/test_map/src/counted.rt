//! Calls by key search once: at most six comparisons at each level, by keys that count them. An extension by ascending pairs
//! or elements, or by copies of them, compares each with the last one alone. An entry and an editing cursor insert and remove without any.
use crate::asserts::{assert_same, assert_same_in, assert_true, given};
use btree_ext::BTreeExt;
use btree_item::{After, Before, Query};
use btree_map::{BTreeMap, EntriesMut, Entry};
use btree_node::{Node, NodesMut};
use btree_set::BTreeSet;
use btree_store::SlabStore;
use std::cell::Cell;
use std::ops::RangeBounds;
use std::process::Abort;
use test_support::Counted;

/// A key or an element with a number, which counts how often it is compared.
pub(crate) trait Counting<'a> {
    fn counting(number: u32, compared: &'a Cell<u32>) -> Self;
}

impl<'a> Counting<'a> for Counted<'a> {
    fn counting(number: u32, compared: &'a Cell<u32>) -> Counted<'a> {
        Counted { number, compared }
    }
}

type Store<'a> = SlabStore<Node<Counted<'a>, u32>>;

// Returns whether the entry of a key is occupied.
fn has_entry<K: Ord + Drop, C: NodesMut<K, u32>>(map: &mut BTreeMap<K, u32, C>, key: K) -> bool {
    match map.entry(key) {
        Entry::Occupied(_) => true,
        Entry::Vacant(_) => false,
    }
}

// Checks whether a number was found, as odd ones are, with at most `most` comparisons.
fn check_found(rt: &impl Abort, number: u32, is_found: bool, compared: &Cell<u32>, most: u32) {
    let found = (is_found, compared.get() <= most);
    assert_same_in(rt, number, found, (number % 2 == 1, true));
}

// Asks for a key in three ways, each of which compares at most `most` keys.
fn ask<'a, K: Ord + Drop + Counting<'a>, C: NodesMut<K, u32>>(
    rt: &impl Abort,
    map: &mut BTreeMap<K, u32, C>,
    number: u32,
    compared: &'a Cell<u32>,
    most: u32,
) {
    let key = K::counting(number, compared);
    compared.set(0);
    let contains = map.contains_key(&key);
    check_found(rt, number, contains, compared, most);
    compared.set(0);
    let finds = map.get_key_value(&key).is_some();
    check_found(rt, number, finds, compared, most);
    compared.set(0);
    let is_occupied = has_entry(map, key);
    check_found(rt, number, is_occupied, compared, most);
}

// Puts a key back, if it was removed.
fn put_back<K: Ord + Drop, C: NodesMut<K, u32>>(
    rt: &impl Abort,
    map: &mut BTreeMap<K, u32, C>,
    key: K,
    value: Option<u32>,
) {
    if let Some(value) = value {
        assert_same(rt, map.insert(key, value).ok(), Some(None));
    }
}

// Finds the address of a key, and removes the key if it is there, by itself or as a query, each with no more comparisons than a look-up
// makes. Puts the key back.
fn remove_once<'a, K: Ord + Drop + Counting<'a>, C: NodesMut<K, u32>>(
    rt: &impl Abort,
    map: &mut BTreeMap<K, u32, C>,
    number: u32,
    compared: &'a Cell<u32>,
    is_query: bool,
) {
    let key = K::counting(number, compared);
    compared.set(0);
    let is_there = map.contains_key(&key);
    let most = compared.get();
    check_found(rt, number, is_there, compared, most);
    compared.set(0);
    let is_found = map.address_by(&key).is_ok();
    check_found(rt, number, is_found, compared, most);
    compared.set(0);
    let removed = if is_query {
        map.remove_by(&key)
    } else {
        map.remove(&key)
    };
    check_found(rt, number, removed.is_some(), compared, most);
    put_back(rt, map, key, removed);
}

// Seeks a place where no key is, with at most `most` comparisons.
fn seek_place<K: Ord, Q: Query<K>, C: NodesMut<K, u32>>(
    rt: &impl Abort,
    map: &BTreeMap<K, u32, C>,
    query: &Q,
    compared: &Cell<u32>,
    most: u32,
) {
    compared.set(0);
    let is_there = map.contains_key_by(query);
    assert_same(rt, (is_there, compared.get() <= most), (false, true));
}

// Seeks the places before and after a key: no more comparisons than for the key, and at most twice as many.
fn seek_beside<K: Ord, C: NodesMut<K, u32>>(
    rt: &impl Abort,
    map: &BTreeMap<K, u32, C>,
    key: &K,
    compared: &Cell<u32>,
) {
    seek_place(rt, &*map, &Before(key), compared, 18);
    seek_place(rt, &*map, &After(key), compared, 36);
}

// The same in a map that is empty, for the odd keys up to 87, on three levels.
fn asks_in<'a, K: Ord + Drop + Counting<'a>, C: NodesMut<K, u32> + Drop>(
    rt: &impl Abort,
    compared: &'a Cell<u32>,
    mut map: BTreeMap<K, u32, C>,
) {
    for value in 0..44u32 {
        let number = 2 * value + 1;
        assert_same_in(
            rt,
            number,
            map.insert(K::counting(number, compared), value).ok(),
            Some(None),
        );
    }
    assert_same_in(rt, 0u32, map.height(), 3);
    for number in 0..89u32 {
        ask(rt, &mut map, number, compared, 18);
        remove_once(rt, &mut map, number, compared, false);
        remove_once(rt, &mut map, number, compared, true);
        seek_beside(rt, &map, &K::counting(number, compared), compared);
    }
}

// Inserts a number where a cursor is. Returns how many comparisons that makes, or `None` if it does not fit there or is refused.
fn inserts_at_cursor<'a, K: Ord + Drop + Counting<'a>, C: NodesMut<K, u32>>(
    compared: &'a Cell<u32>,
    entries: &mut EntriesMut<'_, K, u32, C>,
    number: u32,
) -> Option<u32> {
    let key = K::counting(number, compared);
    if !entries.fits(&key) {
        return None;
    }
    compared.set(0);
    match entries.insert(key, number) {
        Ok(()) => Some(compared.get()),
        Err(_) => None,
    }
}

// Inserts a number that is absent by its entry. Returns how many comparisons that makes after the search, or `None` if it is refused.
fn inserts_at_entry<'a, K: Ord + Drop + Counting<'a>, C: NodesMut<K, u32>>(
    compared: &'a Cell<u32>,
    map: &mut BTreeMap<K, u32, C>,
    number: u32,
) -> Option<u32> {
    let Entry::Vacant(vacant) = map.entry(K::counting(number, compared)) else {
        return None;
    };
    compared.set(0);
    match vacant.insert(number) {
        Ok(_) => Some(compared.get()),
        Err(_) => None,
    }
}

// Enters a number, which may be there, by its entry. Returns how many comparisons that makes after the search, or `None` if it is refused.
fn enters<'a, K: Ord + Drop + Counting<'a>, C: NodesMut<K, u32>>(
    compared: &'a Cell<u32>,
    map: &mut BTreeMap<K, u32, C>,
    number: u32,
) -> Option<u32> {
    let entry = map.entry(K::counting(number, compared));
    compared.set(0);
    match entry.insert_entry(number) {
        Ok(_) => Some(compared.get()),
        Err(_) => None,
    }
}

// Removes a number by its entry. Returns how many comparisons that makes after the search, or `None` if it is absent.
fn removes_at_entry<'a, K: Ord + Drop + Counting<'a>, C: NodesMut<K, u32>>(
    compared: &'a Cell<u32>,
    map: &mut BTreeMap<K, u32, C>,
    number: u32,
) -> Option<u32> {
    let Entry::Occupied(occupied) = map.entry(K::counting(number, compared)) else {
        return None;
    };
    compared.set(0);
    drop(occupied.remove_entry());
    Some(compared.get())
}

// A cursor inserts the odd numbers up to 87 between the even ones, and removes all.
fn edits_by_cursor<'a, K: Ord + Drop + Counting<'a>, C: NodesMut<K, u32>>(
    rt: &impl Abort,
    compared: &'a Cell<u32>,
    map: &mut BTreeMap<K, u32, C>,
) {
    let mut entries = map.entries_mut();
    for half in 0..44u32 {
        assert_true(rt, entries.next().is_some());
        let made = inserts_at_cursor(compared, &mut entries, 2 * half + 1);
        assert_same_in(rt, half, made, Some(0));
    }
    let mut entries = map.entries_mut();
    compared.set(0);
    for place in 0..88u32 {
        assert_same_in(rt, place, entries.remove().is_some(), true);
    }
    assert_same(rt, compared.get(), 0);
}

// Entries insert the even numbers below 88 into a map that is empty, before a cursor edits, and after it insert those below 44, enter 44 from
// 22 on, and remove those below 44.
fn edits_in<'a, K: Ord + Drop + Counting<'a>, C: NodesMut<K, u32> + Drop>(
    rt: &impl Abort,
    compared: &'a Cell<u32>,
    mut map: BTreeMap<K, u32, C>,
) {
    for half in 0..44u32 {
        let made = inserts_at_entry(compared, &mut map, 2 * half);
        assert_same_in(rt, half, made, Some(0));
    }
    edits_by_cursor(rt, compared, &mut map);
    for number in 0..44u32 {
        let made = inserts_at_entry(compared, &mut map, number);
        assert_same_in(rt, number, made, Some(0));
    }
    for number in 0..44u32 {
        let made = enters(compared, &mut map, number.wrapping_add(22));
        assert_same_in(rt, number, made, Some(0));
    }
    for number in 0..44u32 {
        let made = removes_at_entry(compared, &mut map, number);
        assert_same_in(rt, number, made, Some(0));
    }
}

// Puts the numbers from one up to another into a map that is empty, and returns it.
fn numbers<'a, K: Ord + Drop + Counting<'a>, C: NodesMut<K, u32>>(
    rt: &impl Abort,
    compared: &'a Cell<u32>,
    mut map: BTreeMap<K, u32, C>,
    (start, end): (u32, u32),
) -> BTreeMap<K, u32, C> {
    for number in start..end {
        let replaced = map.insert(K::counting(number, compared), number).ok();
        assert_same_in(rt, number, replaced, Some(None));
    }
    map
}

// The numbers from one up to another are removed from those below 44: how many are left then, and how many comparisons it makes at most, 18
// for a search, and one of each number with the end.
const RANGES: [((u32, u32), usize, u32); 4] = [
    ((0, 44), 0, 63),
    ((10, 40), 14, 49),
    ((20, 21), 43, 20),
    ((30, 30), 44, 19),
];

// Removes a range. Returns how many comparisons it makes.
fn remove_counted<K: Ord + Drop, R: RangeBounds<K>, C: NodesMut<K, u32>>(
    map: &mut BTreeMap<K, u32, C>,
    range: R,
    compared: &Cell<u32>,
) -> u32
    requires { R.has_bounds range }
{
    compared.set(0);
    map.remove_range(range);
    compared.get()
}

fn removes_range<'a, K: Ord + Drop + Counting<'a>, C: NodesMut<K, u32> + Drop>(
    compared: &'a Cell<u32>,
    map: BTreeMap<K, u32, C>,
    (start, end): (u32, u32),
) -> (usize, u32) {
    let mut map = map;
    let low = K::counting(start, compared);
    let high = K::counting(end, compared);
    let made = remove_counted(&mut map, low..high, compared);
    (map.len(), made)
}

// Extends a map by the pairs of another one. Returns whether none was refused.
fn move_pairs<K: Ord + Drop, V: Drop, C: NodesMut<K, V> + Drop>(
    map: &mut BTreeMap<K, V, C>,
    from: BTreeMap<K, V, C>,
) -> bool {
    let mut source = from.into_iter();
    let is_done = map.extend(&mut source).is_ok();
    drop(source);
    is_done
}

// Extends a map by copies of the pairs of another one. Returns whether none was refused.
fn copy_pairs<K: Ord + Copy + Drop, V: Copy + Drop, C: NodesMut<K, V>>(
    map: &mut BTreeMap<K, V, C>,
    from: &BTreeMap<K, V, C>,
) -> bool {
    let mut source = from.iter();
    map.extend_copied(&mut source).is_ok()
}

// Extends a map by the pairs of another one, or by copies of them. Returns how many comparisons it made, or `None` if a pair was refused.
fn extends<'a, K: Ord + Copy + Drop + Counting<'a>, C: NodesMut<K, u32> + Drop>(
    compared: &'a Cell<u32>,
    map: &mut BTreeMap<K, u32, C>,
    from: BTreeMap<K, u32, C>,
    copies: bool,
) -> Option<u32> {
    compared.set(0);
    let is_done = if copies {
        copy_pairs(map, &from)
    } else {
        move_pairs(map, from)
    };
    if is_done { Some(compared.get()) } else { None }
}

// Returns how many comparisons an insertion makes.
fn inserts<'a, K: Ord + Drop + Counting<'a>, C: NodesMut<K, u32>>(
    compared: &'a Cell<u32>,
    map: &mut BTreeMap<K, u32, C>,
    number: u32,
) -> u32 {
    compared.set(0);
    drop(map.insert(K::counting(number, compared), number));
    compared.get()
}

// 44 pairs into an empty map make 43 comparisons, the next 44 one each. Of two that are not above the last one, the first makes one more than
// an insertion, and the other as many as an insertion. The maps are empty.
fn extends_in<'a, K: Ord + Copy + Drop + Counting<'a>, C: NodesMut<K, u32> + Drop>(
    rt: &impl Abort,
    compared: &'a Cell<u32>,
    (low, high): (BTreeMap<K, u32, C>, BTreeMap<K, u32, C>),
    (two, mut map): (BTreeMap<K, u32, C>, BTreeMap<K, u32, C>),
    copies: bool,
) {
    let low = numbers(rt, compared, low, (0, 44));
    let high = numbers(rt, compared, high, (44, 88));
    let two = numbers(rt, compared, two, (30, 32));
    assert_same(rt, extends(compared, &mut map, low, copies), Some(43));
    assert_same(rt, extends(compared, &mut map, high, copies), Some(44));
    let first = inserts(compared, &mut map, 30);
    let second = inserts(compared, &mut map, 31);
    let sum = first.wrapping_add(second).wrapping_add(1);
    assert_same(rt, extends(compared, &mut map, two, copies), Some(sum));
}

// Returns a map without pairs.
fn empty<'a, C: NodesMut<Counted<'a>, u32>>(origin: C::Origin) -> BTreeMap<Counted<'a>, u32, C> {
    BTreeMap::new(origin)
}

// Removes each range from a map of its own.
fn removes_ranges<'a, C: NodesMut<Counted<'a>, u32> + Drop>(
    rt: &impl Abort,
    compared: &'a Cell<u32>,
    origin: C::Origin,
)
where
    C::Origin: Copy,
{
    for (range, left, most) in RANGES {
        let map = numbers(rt, compared, empty::<C>(origin), (0, 44));
        let (len, made) = removes_range(compared, map, range);
        assert_same_in(rt, range.0, len, left);
        assert_same_in(rt, range.0, made <= most, true);
    }
}

// All of these, over maps in any store.
fn compares_in<'a, C: NodesMut<Counted<'a>, u32> + Drop>(
    rt: &impl Abort,
    compared: &'a Cell<u32>,
    origin: C::Origin,
)
where
    C::Origin: Copy,
{
    asks_in(rt, compared, empty::<C>(origin));
    edits_in(rt, compared, empty::<C>(origin));
    removes_ranges::<C>(rt, compared, origin);
    for copies in [false, true] {
        let (low, high) = (empty::<C>(origin), empty::<C>(origin));
        let (two, map) = (empty::<C>(origin), empty::<C>(origin));
        extends_in(rt, compared, (low, high), (two, map), copies);
    }
}

// Returns a set of the numbers from one up to another.
fn elements<'a, C: NodesMut<Counted<'a>, ()> + Drop>(
    rt: &impl Abort,
    compared: &'a Cell<u32>,
    origin: C::Origin,
    (start, end): (u32, u32),
) -> BTreeSet<Counted<'a>, C> {
    let mut source = (start..end).map(move |number| Counted { number, compared });
    given(
        rt,
        BTreeSet::<Counted<'a>, C>::from_iter(origin, &mut source),
    )
}

// Extends a set of 44 ascending elements, which was made by 43 comparisons, by the next 44, by one each. Of two that are not above the last
// one, the first makes one more than an insertion, and the other as many as an insertion.
fn extends_set<'a, K: Ord + Drop + Counting<'a>, C: NodesMut<K, ()> + Drop>(
    rt: &impl Abort,
    compared: &'a Cell<u32>,
    mut set: BTreeSet<K, C>,
) {
    assert_same(rt, compared.replace(0), 43);
    let mut high = (44..88u32).map(move |number| K::counting(number, compared));
    assert_true(rt, set.extend(&mut high).is_ok());
    assert_same(rt, compared.replace(0), 44);
    for number in 30..32u32 {
        let inserted = set.insert(K::counting(number, compared)).ok();
        assert_same(rt, inserted, Some(false));
    }
    let sought = compared.replace(0);
    let mut two = (30..32u32).map(move |number| K::counting(number, compared));
    assert_true(rt, set.extend(&mut two).is_ok());
    assert_same(rt, compared.get(), sought.wrapping_add(1));
}

// Extends a set by copies of the elements of another one. Returns whether none was refused.
fn copy_elements<T: Ord + Copy + Drop, C: NodesMut<T, ()>>(
    set: &mut BTreeSet<T, C>,
    from: &BTreeSet<T, C>,
) -> bool {
    let mut source = from.iter();
    set.extend_copied(&mut source).is_ok()
}

// The numbers of `extends_set` for copies of the elements of three sets, into one that is empty.
fn copies_set<'a, K: Ord + Copy + Drop + Counting<'a>, C: NodesMut<K, ()> + Drop>(
    rt: &impl Abort,
    compared: &'a Cell<u32>,
    mut set: BTreeSet<K, C>,
    (low, high, two): (BTreeSet<K, C>, BTreeSet<K, C>, BTreeSet<K, C>),
) {
    compared.set(0);
    assert_true(rt, copy_elements(&mut set, &low));
    assert_same(rt, compared.replace(0), 43);
    assert_true(rt, copy_elements(&mut set, &high));
    assert_same(rt, compared.replace(0), 44);
    for number in 30..32u32 {
        let inserted = set.insert(K::counting(number, compared)).ok();
        assert_same(rt, inserted, Some(false));
    }
    let sought = compared.replace(0);
    assert_true(rt, copy_elements(&mut set, &two));
    assert_same(rt, compared.get(), sought.wrapping_add(1));
}

// Both, over sets in any store.
fn compares_elements<'a, C: NodesMut<Counted<'a>, ()> + Drop>(
    rt: &impl Abort,
    compared: &'a Cell<u32>,
    origin: C::Origin,
)
where
    C::Origin: Copy,
{
    compared.set(0);
    let set = elements::<C>(rt, compared, origin, (0, 44));
    extends_set(rt, compared, set);
    let low = elements::<C>(rt, compared, origin, (0, 44));
    let high = elements::<C>(rt, compared, origin, (44, 88));
    let two = elements::<C>(rt, compared, origin, (30, 32));
    copies_set(rt, compared, BTreeSet::new(origin), (low, high, two));
}

#[test]
fn keys_are_compared_once(rt: HostRuntime) {
    let compared = Cell::new(0u32);
    compares_in::<Store<'_>>(&rt, &compared, rt.alloc());
}

#[test]
fn elements_are_compared_once(rt: HostRuntime) {
    let compared = Cell::new(0u32);
    compares_elements::<SlabStore<Node<Counted<'_>, ()>>>(&rt, &compared, rt.alloc());
}
