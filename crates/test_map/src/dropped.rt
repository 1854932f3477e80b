//! Values that count their drops: each is dropped once, by an iterator that owns a map, by a drain, and by `retain`.
use crate::asserts::{assert_same, assert_true, given, some};
use crate::drops::{Counted, Dropping, hundred};
use btree_ext::BTreeExt;
use btree_map::{BTreeMap, IntoIter};
use btree_node::{Node, NodesMut};
use btree_store::SlabStore;
use std::cell::Cell;
use std::process::Abort;

// Checks that a pair is there, and that its value knows its key.
fn check_pair<'a, V: Drop + Dropping<'a>>(rt: &impl Abort, pair: Option<(u64, V)>, key: u64) {
    let (found, value) = some(rt, pair);
    assert_same(rt, (found, value.key()), (key, key));
}

// Checks that no pair is left, at either end.
fn check_ended<V: Drop, C: NodesMut<u64, V> + Drop>(rt: &impl Abort, pairs: IntoIter<u64, V, C>) {
    let mut pairs = pairs;
    for _ in 0..2 {
        let ended = (pairs.next().is_none(), pairs.next_back().is_none());
        assert_same(rt, ended, (true, true));
        assert_same(rt, (pairs.len(), pairs.size_hint()), (0, (0, Some(0))));
    }
}

// Takes a hundred pairs, in each step from the front or from the back as it is that step's turn. Each key comes with its own value.
fn take_in_turns<'a, V: Drop + Dropping<'a>, C: NodesMut<u64, V> + Drop>(
    rt: &impl Abort,
    map: BTreeMap<u64, V, C>,
    drops: &Cell<u64>,
    turns: [bool; 2],
) {
    let mut pairs = IntoIter::new(map);
    let mut low = 0u64;
    let mut high = 99u64;
    for step in 0..100u64 {
        if turns[(step % 2) as usize] {
            check_pair(rt, pairs.next(), low);
            low = low.wrapping_add(1);
        } else {
            check_pair(rt, pairs.next_back(), high);
            high = high.wrapping_sub(1);
        }
        assert_same(rt, pairs.len() as u64, 99u64.wrapping_sub(step));
        assert_same(rt, drops.get(), step.wrapping_add(1));
    }
    check_ended(rt, pairs);
    assert_same(rt, drops.get(), 100);
}

// Takes so many pairs of a hundred, in each step from the front or from the back as it is that step's turn, and drops the others.
fn take_some<V: Drop, C: NodesMut<u64, V> + Drop>(
    rt: &impl Abort,
    map: BTreeMap<u64, V, C>,
    drops: &Cell<u64>,
    turns: [bool; 2],
    taken: u64,
) {
    let mut pairs = IntoIter::new(map);
    for step in 0..taken {
        if turns[(step % 2) as usize] {
            drop(pairs.next());
        } else {
            drop(pairs.next_back());
        }
    }
    assert_same(rt, drops.get(), taken);
    assert_same(rt, pairs.len() as u64, 100u64.wrapping_sub(taken));
    assert_same(rt, pairs.node_count() == 0, taken == 100);
    drop(pairs);
    assert_same(rt, drops.get(), 100);
}

// Takes so many of the odd keys that a drain picks, each of which is dropped, and drops the drain.
fn take_odd<V: Drop, C: NodesMut<u64, V>>(
    rt: &impl Abort,
    map: &mut BTreeMap<u64, V, C>,
    drops: &Cell<u64>,
    count: u64,
) {
    let mut drain = map.drain_filter(|key: &u64, _value: &mut V| *key % 2 == 1);
    for taken in 0..count {
        assert_true(rt, drain.next().is_some());
        assert_same(rt, drops.get(), taken.wrapping_add(1));
    }
}

// Drains the odd keys of a hundred, keeps every fourth key, and drops the map.
fn drain_and_retain<V: Drop, C: NodesMut<u64, V> + Drop>(
    rt: &impl Abort,
    map: BTreeMap<u64, V, C>,
    drops: &Cell<u64>,
    count: u64,
) {
    let mut map = map;
    take_odd(rt, &mut map, drops, count);
    assert_same(rt, (map.len(), drops.get()), (50, 50));
    map.retain(|key: &u64, _value: &mut V| *key % 4 == 0);
    assert_same(rt, (map.len(), drops.get()), (25, 75));
    drop(map);
    assert_same(rt, drops.get(), 100);
}

// Sets a value by the entry of a key that is there, removes a range of ten keys, and drops what is left.
fn set_and_remove<'a, V: Drop + Dropping<'a>, C: NodesMut<u64, V> + Drop>(
    rt: &impl Abort,
    map: BTreeMap<u64, V, C>,
    drops: &'a Cell<u64>,
) {
    let mut map = map;
    let value = V::dropping(5, drops);
    let entry = given(rt, map.entry(5).insert_entry(value));
    assert_same(rt, (*entry.key(), entry.get().key()), (5, 5));
    assert_same(rt, drops.get(), 1);
    map.remove_range(40..50);
    assert_same(rt, (drops.get(), map.len()), (11, 90));
    map.remove_range(40..=50);
    assert_same(rt, (drops.get(), map.len()), (12, 89));
    drop(map);
    assert_same(rt, drops.get(), 101);
}

// Splits a map at a key, which drops nothing, and drops both parts.
fn split<'a, C: NodesMut<u64, Counted<'a>> + Drop>(
    rt: &impl Abort,
    map: BTreeMap<u64, Counted<'a>, C>,
    origin: C::Origin,
    drops: &'a Cell<u64>,
) {
    let mut map = map;
    let moved = given(rt, map.split_off(&40, C::empty(origin)));
    assert_same(rt, (map.len(), moved.len(), drops.get()), (40, 60, 0));
    drop(moved);
    assert_same(rt, drops.get(), 60);
    drop(map);
    assert_same(rt, drops.get(), 100);
}

// Returns a map of a hundred values, of which none is dropped yet.
fn fresh<'a, C: NodesMut<u64, Counted<'a>> + Drop>(
    rt: &impl Abort,
    origin: C::Origin,
    drops: &'a Cell<u64>,
) -> BTreeMap<u64, Counted<'a>, C> {
    drops.set(0);
    some(rt, hundred(BTreeMap::new(origin), drops))
}

// All of these, over maps in any store.
fn drop_in<'a, C: NodesMut<u64, Counted<'a>> + Drop>(
    rt: &impl Abort,
    origin: C::Origin,
    drops: &'a Cell<u64>,
)
where
    C::Origin: Copy,
{
    for turns in [[true, true], [false, false], [true, false], [false, true]] {
        take_in_turns(rt, fresh::<C>(rt, origin, drops), drops, turns);
    }
    for taken in 0..101u64 {
        for turns in [[true, true], [false, false], [true, false]] {
            take_some(rt, fresh::<C>(rt, origin, drops), drops, turns, taken);
        }
    }
    for count in [0, 1, 25, 50] {
        drain_and_retain(rt, fresh::<C>(rt, origin, drops), drops, count);
    }
    set_and_remove(rt, fresh::<C>(rt, origin, drops), drops);
    split(rt, fresh::<C>(rt, origin, drops), origin, drops);
}

#[test]
fn each_value_is_dropped_once(rt: HostRuntime) {
    let drops = Cell::new(0u64);
    drop_in::<SlabStore<Node<u64, Counted<'_>>>>(&rt, rt.alloc(), &drops);
}
