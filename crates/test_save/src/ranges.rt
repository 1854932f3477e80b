//! Sets and maps of ranges, which are saved as the maps behind them.
use crate::asserts::{assert_same, assert_true, given};
use btree_map::BTreeMap;
use btree_more_stores::{Fill, SlotStore};
use btree_node::{Node, NodesMut};
use btree_range_map::{RangeMap, Span};
use btree_range_set::RangeSet;
use btree_save::{bytes_of_map, map_of_bytes};
use std::alloc::Global;
use std::process::Abort;

// Checks that bytes are those of the set of these two ranges, and of no other.
fn check_ranges<C: Fill<Node<u64, u64>> + Drop>(rt: &impl Abort, origin: C::Origin, bytes: &[u8]) {
    let map: BTreeMap<u64, u64, C> = given(rt, map_of_bytes(origin, bytes));
    let again = given(rt, RangeSet::from_map(map));
    let mut ranges = again.iter();
    assert_same(rt, ranges.next(), Some((3, 12)));
    assert_same(rt, ranges.next(), Some((20, 25)));
    assert_same(rt, ranges.next(), None);
}

// Saves a set of ranges and opens it.
fn save_range_set<C: Fill<Node<u64, u64>, Origin = Global> + Drop>(rt: &impl Abort, alloc: Global) {
    let mut set: RangeSet<C> = RangeSet::new(alloc);
    for (start, end) in [(3, 9), (20, 25), (9, 12)] {
        assert_true(rt, set.insert(start, end).is_ok());
    }
    let bytes = given(rt, bytes_of_map(alloc, set.as_map()));
    check_ranges::<C>(rt, alloc, &bytes);
}

type Ends = SlotStore<Node<u64, u64>>;

#[test]
fn a_set_of_ranges_is_saved(rt: HostRuntime) {
    save_range_set::<Ends>(&rt, rt.alloc());
}

// Checks that the map behind a map of ranges has three of them.
fn check_spans<C: NodesMut<u64, Span<u8>>>(rt: &impl Abort, map: &BTreeMap<u64, Span<u8>, C>) {
    for (start, end, value) in [(3, 4, 1), (4, 6, 2), (6, 9, 1)] {
        assert_same(rt, map.get(&start).copied(), Some(Span { end, value }));
    }
    assert_same(rt, map.len(), 3);
}

// Saves a map of ranges, opens the map behind it, and gives it to a map of ranges.
fn save_range_map<C: Fill<Node<u64, Span<u8>>, Origin = Global> + Drop>(
    rt: &impl Abort,
    alloc: Global,
) {
    let mut map: RangeMap<u8, C> = RangeMap::new(alloc);
    for (start, end, value) in [(3, 9, 1), (4, 6, 2)] {
        assert_true(rt, map.insert(start, end, value).is_ok());
    }
    let bytes = given(rt, bytes_of_map(alloc, map.as_map()));
    let mut again: BTreeMap<u64, Span<u8>, C> = given(rt, map_of_bytes(alloc, &bytes));
    check_spans(rt, &again);
    let mut taken: RangeMap<u8, C> = RangeMap::new(alloc);
    assert_true(rt, taken.swap_map(&mut again));
    check_spans(rt, taken.as_map());
}

#[test]
fn a_map_of_ranges_is_saved(rt: HostRuntime) {
    save_range_map::<SlotStore<Node<u64, Span<u8>>>>(&rt, rt.alloc());
}
