//! Maps of ranges and the ordered maps behind them.
use crate::asserts::{assert_same, assert_true};
use crate::checks::{Heap, Ranges, check_ranges, fill};
use btree_ext::BTreeExt;
use btree_map::BTreeMap;
use btree_node::{ClearNodes, NodesMut};
use btree_range_map::{RangeMap, Span};
use std::alloc::Global;
use std::process::Abort;

const TWO: Ranges = &[(1, 4, 7), (4, 6, 8)];

// Puts these ranges into a map as its pairs.
fn put<C: NodesMut<u64, Span<u64>> + Drop>(
    rt: &impl Abort,
    map: &mut BTreeMap<u64, Span<u64>, C>,
    ranges: Ranges,
) {
    for (start, end, value) in ranges.iter().copied() {
        assert_true(rt, map.insert(start, Span { end, value }).is_ok());
    }
}

// Checks that a map has these ranges as its pairs.
fn check_pairs<C: NodesMut<u64, Span<u64>>>(
    rt: &impl Abort,
    map: &BTreeMap<u64, Span<u64>, C>,
    ranges: Ranges,
) {
    for (start, end, value) in ranges.iter().copied() {
        assert_same(rt, map.get(&start).copied(), Some(Span { end, value }));
    }
    assert_same(rt, map.len(), ranges.len());
}

// Checks that a map of two ranges takes these, and gives the two.
fn check_taken<C: ClearNodes<u64, Span<u64>> + Drop>(
    rt: &impl Abort,
    own: C::Origin,
    other: C::Origin,
    ranges: Ranges,
) {
    let mut two: RangeMap<u64, C> = RangeMap::new(own);
    let mut map: BTreeMap<u64, Span<u64>, C> = BTreeMap::new(other);
    fill(rt, &mut two, TWO);
    put(rt, &mut map, ranges);
    assert_true(rt, two.swap_map(&mut map));
    check_ranges(rt, &two, ranges);
    check_pairs(rt, two.as_map(), ranges);
    check_pairs(rt, &map, TWO);
}

// Checks so for a map without ranges, one of all numbers, and one in which two of three touch.
fn check_each_taken<C: ClearNodes<u64, Span<u64>, Origin = Global> + Drop>(
    rt: &impl Abort,
    alloc: Global,
) {
    check_taken::<C>(rt, alloc, alloc, &[]);
    check_taken::<C>(rt, alloc, alloc, &[(0, u64::MAX, 7)]);
    check_taken::<C>(rt, alloc, alloc, &[(0, 1, 7), (1, 5, 8), (7, 8, 8)]);
}

// Checks that it takes none of these, and keeps its own.
fn check_left<C: ClearNodes<u64, Span<u64>> + Drop>(
    rt: &impl Abort,
    own: C::Origin,
    other: C::Origin,
    ranges: Ranges,
) {
    let mut two: RangeMap<u64, C> = RangeMap::new(own);
    let mut map: BTreeMap<u64, Span<u64>, C> = BTreeMap::new(other);
    fill(rt, &mut two, TWO);
    put(rt, &mut map, ranges);
    assert_true(rt, !two.swap_map(&mut map));
    check_ranges(rt, &two, TWO);
    check_pairs(rt, &map, ranges);
}

// Checks so for ranges that are empty, that end before they start, that touch with equal values, and that meet.
fn check_each_left<C: ClearNodes<u64, Span<u64>, Origin = Global> + Drop>(
    rt: &impl Abort,
    alloc: Global,
) {
    check_left::<C>(rt, alloc, alloc, &[(3, 3, 7)]);
    check_left::<C>(rt, alloc, alloc, &[(4, 2, 7)]);
    check_left::<C>(rt, alloc, alloc, &[(0, 1, 7), (2, 5, 8), (5, 8, 8)]);
    check_left::<C>(rt, alloc, alloc, &[(0, 3, 7), (2, 5, 8)]);
    check_left::<C>(rt, alloc, alloc, &[(0, 1, 7), (7, 7, 8)]);
}

#[test]
fn takes_maps_of_ranges(rt: HostRuntime) {
    check_each_taken::<Heap>(&rt, rt.alloc());
}

#[test]
fn takes_no_other_maps(rt: HostRuntime) {
    check_each_left::<Heap>(&rt, rt.alloc());
}
