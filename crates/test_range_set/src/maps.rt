//! Sets made from maps.
use crate::asserts::{assert_same, assert_true, given, refused};
use crate::checks::check_ranges;
use btree_ext::{BTreeExt, BTreeExtMut};
use btree_map::BTreeMap;
use btree_node::{Node, NodesMut};
use btree_range_set::RangeSet;
use btree_store::SlabStore;
use std::process::Abort;

// Returns a map of these pairs.
fn map_of<C: NodesMut<u64, u64> + Drop>(
    rt: &impl Abort,
    origin: C::Origin,
    pairs: &[(u64, u64)],
) -> BTreeMap<u64, u64, C> {
    let mut map: BTreeMap<u64, u64, C> = BTreeMap::new(origin);
    for (start, end) in pairs.iter().copied() {
        assert_true(rt, map.insert(start, end).is_ok());
    }
    map
}

// Checks that the set of these pairs has them as its ranges, and that its map has them still.
fn check_taken<C: NodesMut<u64, u64> + Drop>(
    rt: &impl Abort,
    origin: C::Origin,
    pairs: &[(u64, u64)],
) {
    let set = given(rt, RangeSet::from_map(map_of::<C>(rt, origin, pairs)));
    check_ranges(rt, &set, pairs);
    assert_same(rt, set.as_map().len(), pairs.len());
    assert_same(rt, set.into_map().len(), pairs.len());
}

// Checks that no set has these pairs, which come back.
fn check_returned<C: NodesMut<u64, u64> + Drop>(
    rt: &impl Abort,
    origin: C::Origin,
    pairs: &[(u64, u64)],
) {
    let map = refused(rt, RangeSet::from_map(map_of::<C>(rt, origin, pairs)));
    for (start, end) in pairs.iter() {
        assert_same(rt, map.get(start).copied(), Some(*end));
    }
    assert_same(rt, map.len(), pairs.len());
}

type Heap = SlabStore<Node<u64, u64>>;

#[test]
fn makes_sets_of_maps(rt: HostRuntime) {
    check_taken::<Heap>(&rt, rt.alloc(), &[]);
    check_taken::<Heap>(&rt, rt.alloc(), &[(0, u64::MAX)]);
    check_taken::<Heap>(&rt, rt.alloc(), &[(0, 1), (2, 5), (7, 8)]);
    check_returned::<Heap>(&rt, rt.alloc(), &[(3, 3)]);
    check_returned::<Heap>(&rt, rt.alloc(), &[(4, 2)]);
    check_returned::<Heap>(&rt, rt.alloc(), &[(0, 1), (2, 5), (5, 8)]);
    check_returned::<Heap>(&rt, rt.alloc(), &[(0, 3), (2, 5)]);
    check_returned::<Heap>(&rt, rt.alloc(), &[(0, 1), (7, 7)]);
}
