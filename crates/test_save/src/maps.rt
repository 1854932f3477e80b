//! Maps to save, and checks that two maps are the same.
use crate::asserts::{assert_same, assert_true, given};
use btree_map::BTreeMap;
use btree_more_stores::SlotStore;
use btree_node::{Node, NodesMut};
use btree_save::bytes_of_map;
use std::alloc::Global;
use std::fmt::Debug;
use std::process::Abort;

/// The nodes of a map of numbers, in slots.
pub(crate) type Slots = SlotStore<Node<u64, u64>>;

// Returns the map of the numbers below `count`, each with its square, put in an order of their own.
fn all_squares<C: NodesMut<u64, u64> + Drop>(
    rt: &impl Abort,
    origin: C::Origin,
    count: u64,
) -> BTreeMap<u64, u64, C> {
    let mut map: BTreeMap<u64, u64, C> = BTreeMap::new(origin);
    for i in 0..count {
        let key = i.wrapping_mul(7) % count;
        assert_true(rt, map.insert(key, key.wrapping_mul(key)).is_ok());
    }
    map
}

/// Returns the map of the numbers below `count` without every third, each with its square. It had all of them before.
pub(crate) fn squares<C: NodesMut<u64, u64> + Drop>(
    rt: &impl Abort,
    origin: C::Origin,
    count: u64,
) -> BTreeMap<u64, u64, C> {
    let mut map = all_squares::<C>(rt, origin, count);
    for i in 0..count {
        if i % 3 == 0 {
            map.remove(&i);
        }
    }
    map
}

/// Returns the bytes of such a map.
pub(crate) fn saved_squares<C: NodesMut<u64, u64> + Drop>(
    rt: &impl Abort,
    alloc: Global,
    origin: C::Origin,
    count: u64,
) -> Vec<u8> {
    let map = squares::<C>(rt, origin, count);
    given(rt, bytes_of_map(alloc, &map))
}

/// Checks that a map is that of the squares below `count`.
pub(crate) fn check_squares<C: NodesMut<u64, u64>>(
    rt: &impl Abort,
    map: &BTreeMap<u64, u64, C>,
    count: u64,
) {
    let mut left = map.len();
    for key in 0..count {
        let found = map.get(&key).copied();
        if key % 3 == 0 {
            assert_same(rt, found, None);
        } else {
            assert_same(rt, found, Some(key.wrapping_mul(key)));
            left = left.wrapping_sub(1);
        }
    }
    assert_same(rt, left, 0);
}

/// Checks that two maps have the same pairs, in the same order.
pub(crate) fn check_same<
    K: Ord + Debug,
    V: PartialEq + Debug,
    C: NodesMut<K, V>,
    D: NodesMut<K, V>,
>(rt: &impl Abort, left: &BTreeMap<K, V, C>, right: &BTreeMap<K, V, D>) {
    let mut rest = right.iter();
    for (key, value) in left {
        assert_same(rt, rest.next(), Some((key, value)));
    }
    assert_same(rt, right.len(), left.len());
}
