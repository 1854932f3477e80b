//! Maps that are extended by the ranges of an iterator.
use crate::asserts::{assert_same, assert_true, refused};
use crate::checks::{Heap, check_ranges, range};
use btree_node::NodesMut;
use btree_range_map::{RangeCause, RangeMap, Span};
use std::process::Abort;

// Passes the next range of an iterator, and returns it.
fn step<I: Iterator<Item = (u64, Span<u64>)>>(ranges: &mut I) -> Option<(u64, Span<u64>)>
    requires { (state : I) → I.can_next state }
{
    ranges.next()
}

// The ranges come in any order. They may overlap, touch and be empty, and the last one that has a number gives it its value.
fn extend_twice<C: NodesMut<u64, Span<u64>> + Drop>(rt: &impl Abort, origin: C::Origin) {
    let mut map: RangeMap<u64, C> = RangeMap::new(origin);
    let ranges: [(u64, Span<u64>); 6] = [
        range(5, 9, 1),
        range(1, 3, 1),
        range(20, 30, 2),
        range(9, 9, 3),
        range(25, 26, 4),
        range(3, 6, 1),
    ];
    let mut source = ranges.iter().copied();
    assert_true(rt, map.extend(&mut source).is_ok());
    check_ranges(
        rt,
        &map,
        &[(1, 9, 1), (20, 25, 2), (25, 26, 4), (26, 30, 2)],
    );
    assert_true(rt, map.extend(&mut source).is_ok());
    let ends: [(u64, Span<u64>); 2] = [range(0, 25, 2), range(30, u64::MAX, 2)];
    let mut source = ends.iter().copied();
    assert_true(rt, map.extend(&mut source).is_ok());
    check_ranges(rt, &map, &[(0, 25, 2), (25, 26, 4), (26, u64::MAX, 2)]);
}

// There may be two ranges. What comes before a refused one is in the map, and what comes after it is still there.
fn extend_a_full_map<C: NodesMut<u64, Span<u64>> + Drop>(
    rt: &impl Abort,
    mut map: RangeMap<u64, C>,
) {
    let ranges: [(u64, Span<u64>); 4] = [
        range(5, 9, 1),
        range(1, 3, 2),
        range(3, 4, 3),
        range(4, 5, 1),
    ];
    let mut source = ranges.iter().copied();
    let back = refused(rt, map.extend(&mut source));
    assert_same(rt, (back.key, back.value), range(3, 4, 3));
    assert_same(rt, back.cause, RangeCause::Count);
    check_ranges(rt, &map, &[(1, 3, 2), (5, 9, 1)]);
    assert_same(rt, step(&mut source), Some(range(4, 5, 1)));
}

#[test]
fn extends_by_ranges(rt: HostRuntime) {
    extend_twice::<Heap>(&rt, rt.alloc());
    extend_a_full_map::<Heap>(&rt, RangeMap::with_limit(rt.alloc(), 2));
}
