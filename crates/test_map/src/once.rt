//! Sixteen keys and values of which each one's drops are counted: the n-th digit of a sum to base 16 says how often that of the number n was
//! dropped. So one that is dropped twice does not make up for one that is not.
use crate::asserts::{assert_same, assert_same_in, assert_true};
use crate::counted_keys::{CountedKey, Weighed};
use btree_item::Refused;
use btree_map::{BTreeMap, Entry};
use btree_node::{ClearNodes, Node, NodesMut};
use btree_set::BTreeSet;
use btree_store::SlabStore;
use std::alloc::Global;
use std::cell::Cell;
use std::process::Abort;
use test_support::{Refusing, RefusingStore};

type Pairs<K, C> = BTreeMap<K, K, C>;

type PairNode<'a> = Node<CountedKey<'a>, CountedKey<'a>>;

type PairStore<'a> = SlabStore<PairNode<'a>>;

type ElementStore<'a> = SlabStore<Node<CountedKey<'a>, ()>>;

// Every number once.
const ALL: u64 = 0x1111_1111_1111_1111;

// What the drops of keys add up to, and those of values.
#[derive(Clone, Copy)]
struct Sums<'a> {
    keys: &'a Cell<u64>,
    values: &'a Cell<u64>,
}

impl Sums<'_> {
    // Counts from 0 again.
    fn begin(self) {
        self.keys.set(0);
        self.values.set(0);
    }
}

fn counted<'a, K: Weighed<'a>>(number: u64, drops: &'a Cell<u64>) -> K {
    let weight = 16u64.wrapping_pow(u32::try_from(number).unwrap_or(0));
    K::weighed(number, weight, drops)
}

fn pair<'a, K: Weighed<'a>>(number: u64, sums: Sums<'a>) -> (K, K) {
    (counted(number, sums.keys), counted(number, sums.values))
}

fn check(rt: &impl Abort, sums: Sums<'_>, keys: u64, values: u64) {
    assert_same(rt, (sums.keys.get(), sums.values.get()), (keys, values));
}

// Inserts the numbers from one to before another.
fn put<'a, K: Ord + Drop + Weighed<'a>, C: NodesMut<K, K>>(
    rt: &impl Abort,
    map: &mut Pairs<K, C>,
    sums: Sums<'a>,
    from: u64,
    to: u64,
) {
    for number in from..to {
        let (key, value) = pair(number, sums);
        assert_true(rt, map.insert(key, value).is_ok());
    }
}

// A key of which a drain asks whether its number is even.
trait Even {
    fn is_even(&self) -> bool;
}

impl Even for CountedKey<'_> {
    fn is_even(&self) -> bool {
        self.number % 2 == 0
    }
}

// Takes the first pair of a drain of the even numbers, and drops it and the drain.
fn drain_even<K: Even + Ord + Drop, V: Drop, C: NodesMut<K, V>>(
    rt: &impl Abort,
    map: &mut BTreeMap<K, V, C>,
) {
    let mut drain = map.drain_filter(|key: &K, _value: &mut V| key.is_even());
    assert_true(rt, drain.next().is_some());
}

// Drops keys and values of a map that is empty in each way: an equal key and the value that its own replaces, a pair that is replaced, pairs
// that are drained, one that is removed, those that are cleared, and those of the map itself.
fn drop_each<'a, K: Even + Ord + Drop + Weighed<'a>, C: ClearNodes<K, K> + Drop>(
    rt: &impl Abort,
    mut map: Pairs<K, C>,
    sums: Sums<'a>,
) {
    put(rt, &mut map, sums, 0, 16);
    check(rt, sums, 0, 0);
    put(rt, &mut map, sums, 3, 4);
    check(rt, sums, 0x1000, 0x1000);
    let (key, value) = pair(5, sums);
    assert_true(rt, map.replace(key, value).is_ok());
    check(rt, sums, 0x10_1000, 0x10_1000);
    drain_even(rt, &mut map);
    check(rt, sums, 0x0101_0101_0111_1101, 0x0101_0101_0111_1101);
    // The key that is asked for is dropped too.
    drop(map.remove(&counted(1, sums.keys)));
    check(rt, sums, 0x0101_0101_0111_1121, 0x0101_0101_0111_1111);
    map.clear();
    check(rt, sums, 0x1111_1111_1121_2121, 0x1111_1111_1121_2111);
    put(rt, &mut map, sums, 0, 16);
    drop(map);
    check(rt, sums, 0x2222_2222_2232_3232, 0x2222_2222_2232_3222);
}

// Updates the pair with a key, and keeps its value. Returns whether that was not refused.
fn keep<K: Ord + Drop, V: Drop, C: NodesMut<K, V>>(map: &mut BTreeMap<K, V, C>, key: K) -> bool {
    map.update(key, |value| (value, ())).is_ok()
}

// Updates the pair with a key, and removes it. Returns whether that was not refused.
fn unset<K: Ord + Drop, V: Drop, C: NodesMut<K, V>>(map: &mut BTreeMap<K, V, C>, key: K) -> bool {
    map.update(key, |value| (None, value.is_some())).is_ok()
}

// Drops what is not kept at a key that is there: of an entry the key that is asked for, a default, and a key whose value is removed; of an
// update the key that is given, and a pair that is removed.
fn drop_at_keys<'a, K: Ord + Drop + Weighed<'a>, C: NodesMut<K, K> + Drop>(
    rt: &impl Abort,
    mut map: Pairs<K, C>,
    sums: Sums<'a>,
) {
    put(rt, &mut map, sums, 0, 16);
    let (key, value) = pair(3, sums);
    assert_true(rt, map.entry(key).or_insert(value).is_ok());
    check(rt, sums, 0x1000, 0x1000);
    let Entry::Occupied(entry) = map.entry(counted(5, sums.keys)) else {
        panic!(rt; "vacant")
    };
    let value = entry.remove();
    check(rt, sums, 0x20_1000, 0x1000);
    drop(value);
    check(rt, sums, 0x20_1000, 0x10_1000);
    assert_true(rt, keep(&mut map, counted(7, sums.keys)));
    check(rt, sums, 0x1020_1000, 0x10_1000);
    assert_true(rt, unset(&mut map, counted(9, sums.keys)));
    check(rt, sums, 0x20_1020_1000, 0x10_0010_1000);
    drop(map);
    check(rt, sums, 0x1111_1121_2121_2111, 0x1111_1111_1111_2111);
}

// Extends a map of sixteen pairs by two that it has, and appends two others that it has. It drops the keys that come, and the values that are
// replaced.
fn replace_values<'a, K: Ord + Drop + Weighed<'a>, C: NodesMut<K, K> + Drop>(
    rt: &impl Abort,
    maps: (Pairs<K, C>, Pairs<K, C>),
    sums: Sums<'a>,
) {
    let (mut map, mut other) = maps;
    put(rt, &mut map, sums, 0, 16);
    let mut source = (2..4u64).map(move |number| pair::<K>(number, sums));
    assert_true(rt, map.extend(&mut source).is_ok());
    check(rt, sums, 0x1100, 0x1100);
    put(rt, &mut other, sums, 7, 9);
    assert_true(rt, map.append(&mut other).is_ok());
    check(rt, sums, 0x1_1000_1100, 0x1_1000_1100);
    drop(other);
    check(rt, sums, 0x1_1000_1100, 0x1_1000_1100);
    drop(map);
    check(rt, sums, 0x1111_1112_2111_2211, 0x1111_1112_2111_2211);
}

// Takes a key from each end of an iterator that owns a map. A value is dropped in the step that gives its key.
fn take_keys<'a, K: Ord + Drop + Weighed<'a>, C: NodesMut<K, K> + Drop>(
    rt: &impl Abort,
    mut map: Pairs<K, C>,
    sums: Sums<'a>,
) {
    put(rt, &mut map, sums, 0, 16);
    let mut given = map.into_keys();
    let first = given.next();
    check(rt, sums, 0, 0x1);
    let last = given.next_back();
    check(rt, sums, 0, 0x1000_0000_0000_0001);
    drop((first, last));
    check(rt, sums, 0x1000_0000_0000_0001, 0x1000_0000_0000_0001);
    drop(given);
    check(rt, sums, ALL, ALL);
}

// The same for values.
fn take_values<'a, K: Ord + Drop + Weighed<'a>, C: NodesMut<K, K> + Drop>(
    rt: &impl Abort,
    mut map: Pairs<K, C>,
    sums: Sums<'a>,
) {
    put(rt, &mut map, sums, 0, 16);
    let mut given = map.into_values();
    let first = given.next();
    check(rt, sums, 0x1, 0);
    let last = given.next_back();
    check(rt, sums, 0x1000_0000_0000_0001, 0);
    drop((first, last));
    check(rt, sums, 0x1000_0000_0000_0001, 0x1000_0000_0000_0001);
    drop(given);
    check(rt, sums, ALL, ALL);
}

// Takes the first element of a drain of the even numbers, and drops it and the drain.
fn drain_even_elements<T: Even + Ord + Drop, C: NodesMut<T, ()>>(
    rt: &impl Abort,
    set: &mut BTreeSet<T, C>,
) {
    let mut drain = set.drain_filter(|element: &T| element.is_even());
    assert_true(rt, drain.next().is_some());
}

// Drops elements of a set that is empty in each way: an equal one, one that is replaced, those that are drained, one that is removed, and those
// of the set itself.
fn drop_elements<'a, K: Even + Ord + Drop + Weighed<'a>, C: NodesMut<K, ()> + Drop>(
    rt: &impl Abort,
    mut set: BTreeSet<K, C>,
    drops: &'a Cell<u64>,
) {
    for number in 0..16u64 {
        assert_true(rt, set.insert(counted(number, drops)).is_ok());
    }
    assert_same(rt, drops.get(), 0);
    assert_true(rt, set.insert(counted(3, drops)).is_ok());
    assert_same(rt, drops.get(), 0x1000);
    assert_true(rt, set.replace(counted(5, drops)).is_ok());
    assert_same(rt, drops.get(), 0x10_1000);
    drain_even_elements(rt, &mut set);
    assert_same(rt, drops.get(), 0x0101_0101_0111_1101);
    // The element that is asked for is dropped too.
    assert_true(rt, set.remove(&counted(7, drops)));
    assert_same(rt, drops.get(), 0x0101_0101_2111_1101);
    drop(set);
    assert_same(rt, drops.get(), 0x1111_1111_2121_2111);
}

// Extends a set of sixteen elements by two that it has, and appends two others that it has. Those that come are dropped.
fn repeat_elements<'a, K: Ord + Drop + Weighed<'a>, C: NodesMut<K, ()> + Drop>(
    rt: &impl Abort,
    sets: (BTreeSet<K, C>, BTreeSet<K, C>),
    drops: &'a Cell<u64>,
) {
    let (mut set, mut other) = sets;
    let mut source = (0..16u64).map(move |number| counted::<K>(number, drops));
    assert_true(rt, set.extend(&mut source).is_ok());
    assert_same(rt, drops.get(), 0);
    let mut again = (2..4u64).map(move |number| counted::<K>(number, drops));
    assert_true(rt, set.extend(&mut again).is_ok());
    assert_same(rt, drops.get(), 0x1100);
    let mut more = (7..9u64).map(move |number| counted::<K>(number, drops));
    assert_true(rt, other.extend(&mut more).is_ok());
    assert_true(rt, set.append(&mut other).is_ok());
    assert_same(rt, drops.get(), 0x1_1000_1100);
    drop(other);
    assert_same(rt, drops.get(), 0x1_1000_1100);
    drop(set);
    assert_same(rt, drops.get(), 0x1111_1112_2111_2211);
}

#[test]
fn each_key_and_value_is_dropped_once(rt: HostRuntime) {
    let (keys, values) = (Cell::new(0u64), Cell::new(0u64));
    let sums = Sums {
        keys: &keys,
        values: &values,
    };
    drop_each::<CountedKey<'_>, PairStore<'_>>(&rt, BTreeMap::new(rt.alloc()), sums);
    sums.begin();
    drop_at_keys::<CountedKey<'_>, PairStore<'_>>(&rt, BTreeMap::new(rt.alloc()), sums);
    sums.begin();
    let maps = (BTreeMap::new(rt.alloc()), BTreeMap::new(rt.alloc()));
    replace_values::<CountedKey<'_>, PairStore<'_>>(&rt, maps, sums);
    sums.begin();
    take_keys::<CountedKey<'_>, PairStore<'_>>(&rt, BTreeMap::new(rt.alloc()), sums);
    sums.begin();
    take_values::<CountedKey<'_>, PairStore<'_>>(&rt, BTreeMap::new(rt.alloc()), sums);
}

#[test]
fn each_element_is_dropped_once(rt: HostRuntime) {
    let drops = Cell::new(0u64);
    let sets = (BTreeSet::new(rt.alloc()), BTreeSet::new(rt.alloc()));
    repeat_elements::<CountedKey<'_>, ElementStore<'_>>(&rt, sets, &drops);
    drops.set(0);
    drop_elements::<CountedKey<'_>, ElementStore<'_>>(&rt, BTreeSet::new(rt.alloc()), &drops);
}

// Drops what a call returned. Nothing was dropped by the call. Returns the number that was refused, if one was.
fn drop_refused<'a, K: Drop + Weighed<'a>>(
    rt: &impl Abort,
    answer: Result<(), Refused<K, K>>,
    sums: Sums<'a>,
) -> Option<u64> {
    check(rt, sums, 0, 0);
    match answer {
        Ok(()) => None,
        Err(back) => Some(back.key.number()),
    }
}

// Extends an empty map by sixteen pairs. Returns the number that was refused, and the sums after its pair is dropped and after the map is.
fn extend_some<'a, K: Ord + Drop + Weighed<'a>, C: NodesMut<K, K> + Drop>(
    rt: &impl Abort,
    mut map: Pairs<K, C>,
    sums: Sums<'a>,
) -> (Option<u64>, u64, u64) {
    let mut source = (0..16u64).map(move |number| pair::<K>(number, sums));
    let answer = map.extend(&mut source);
    let refused = drop_refused(rt, answer, sums);
    let came_back = sums.keys.get();
    check(rt, sums, came_back, came_back);
    drop(map);
    let all = sums.keys.get();
    check(rt, sums, all, all);
    (refused, came_back, all)
}

// Each node and each growth is refused in turn. The first node needs both, the ninth key needs two nodes, and the fourteenth one.
const EXTENDED: [(Option<u64>, u64, u64); 6] = [
    (Some(0), 0x1, 0x1),
    (Some(0), 0x1, 0x1),
    (Some(8), 0x1_0000_0000, 0x1_1111_1111),
    (Some(8), 0x1_0000_0000, 0x1_1111_1111),
    (Some(13), 0x10_0000_0000_0000, 0x11_1111_1111_1111),
    (None, 0, ALL),
];

type Refuses<'m, 'a> = RefusingStore<'m, SlabStore<PairNode<'a>, &'m Refusing<Global>>>;

#[test]
fn a_refused_extension_drops_each_pair_once(rt: HostRuntime) {
    let mut nth = 0u64;
    for expected in EXTENDED {
        nth = nth.wrapping_add(1);
        let memory = Refusing::over(rt.alloc(), nth);
        let (keys, values) = (Cell::new(0u64), Cell::new(0u64));
        let sums = Sums {
            keys: &keys,
            values: &values,
        };
        let map = BTreeMap::new((&memory, &memory));
        let found = extend_some::<CountedKey<'_>, Refuses<'_, '_>>(&rt, map, sums);
        assert_same_in(&rt, nth, found, expected);
    }
}

// Appends fifteen pairs to a map of one. Returns the number that was refused, and the sums after its pair is dropped, and after the other map.
fn append_some<'a, K: Ord + Drop + Weighed<'a>, C: NodesMut<K, K> + Drop>(
    rt: &impl Abort,
    maps: (Pairs<K, C>, Pairs<K, C>),
    memory: &Refusing<Global>,
    nth: u64,
    sums: Sums<'a>,
) -> (Option<u64>, u64, u64) {
    let (mut map, mut other) = maps;
    put(rt, &mut map, sums, 0, 1);
    put(rt, &mut other, sums, 1, 16);
    memory.refuse(nth);
    let answer = map.append(&mut other);
    let refused = drop_refused(rt, answer, sums);
    let came_back = sums.keys.get();
    check(rt, sums, came_back, came_back);
    drop(other);
    let left = sums.keys.get();
    check(rt, sums, left, left);
    drop(map);
    check(rt, sums, ALL, ALL);
    (refused, came_back, left)
}

const APPENDED: [(Option<u64>, u64, u64); 4] = [
    (Some(8), 0x1_0000_0000, 0x1111_1111_0000_0000),
    (Some(8), 0x1_0000_0000, 0x1111_1111_0000_0000),
    (Some(13), 0x10_0000_0000_0000, 0x1110_0000_0000_0000),
    (None, 0, 0),
];

#[test]
fn a_refused_append_drops_each_pair_once(rt: HostRuntime) {
    let mut nth = 0u64;
    for expected in APPENDED {
        nth = nth.wrapping_add(1);
        let memory = Refusing::over(rt.alloc(), 0);
        let (keys, values) = (Cell::new(0u64), Cell::new(0u64));
        let sums = Sums {
            keys: &keys,
            values: &values,
        };
        let maps = (
            BTreeMap::new((&memory, &memory)),
            BTreeMap::new((&memory, &memory)),
        );
        let found = append_some::<CountedKey<'_>, Refuses<'_, '_>>(&rt, maps, &memory, nth, sums);
        assert_same_in(&rt, nth, found, expected);
    }
}
