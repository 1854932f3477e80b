//! Maps that are compared, and clones.
use crate::asserts::{assert_same, assert_true, given};
use crate::checks::{Call, Heap, OneNode, Outcome, Ranges, call, check_ranges};
use btree_node::{CloneNodes, NodesMut};
use btree_range_map::{RangeCause, RangeMap, Span};
use std::process::Abort;

// Does calls, of which none is refused.
fn do_all<C: NodesMut<u64, Span<u64>> + Drop>(
    rt: &impl Abort,
    map: &mut RangeMap<u64, C>,
    calls: &[Call],
) {
    for wanted in calls.iter().copied() {
        assert_true(rt, call(map, wanted) == Outcome::Done);
    }
}

// Checks whether two maps give the same numbers the same values, asked of either.
fn check_same<C: NodesMut<u64, Span<u64>>, D: NodesMut<u64, Span<u64>>>(
    rt: &impl Abort,
    left: &RangeMap<u64, C>,
    right: &RangeMap<u64, D>,
    are: bool,
) {
    let found = (left.same_values(right), right.same_values(left));
    assert_same(rt, found, (are, are));
}

// Two maps that give the same numbers the same values, which came in different ways, and other ones.
fn compare<C: NodesMut<u64, Span<u64>> + Drop, D: NodesMut<u64, Span<u64>> + Drop>(
    rt: &impl Abort,
    mut map: RangeMap<u64, C>,
    mut other: RangeMap<u64, D>,
) {
    check_same(rt, &map, &other, true);
    do_all(rt, &mut map, &[(1, 9, Some(1)), (4, 5, Some(2))]);
    check_same(rt, &map, &other, false);
    do_all(
        rt,
        &mut other,
        &[(5, 9, Some(1)), (1, 4, Some(1)), (4, 5, Some(2))],
    );
    check_same(rt, &map, &other, true);
    do_all(rt, &mut other, &[(4, 5, Some(3))]);
    check_same(rt, &map, &other, false);
    do_all(rt, &mut other, &[(4, 5, None)]);
    check_same(rt, &map, &other, false);
    do_all(rt, &mut map, &[(4, 5, None)]);
    check_same(rt, &map, &other, true);
}

const TWO: Ranges = &[(1, 5, 1), (5, 9, 2)];

// A clone has the same ranges and limit. It changes by itself.
fn clone_one<C: CloneNodes<u64, Span<u64>> + Drop>(rt: &impl Abort, mut map: RangeMap<u64, C>) {
    do_all(rt, &mut map, &[(1, 5, Some(1)), (5, 9, Some(2))]);
    let mut copy = given(rt, map.clone());
    check_ranges(rt, &copy, TWO);
    assert_true(rt, copy == map);
    let more = (20, 30, Some(1));
    assert_true(
        rt,
        call(&mut copy, more) == Outcome::Refused(RangeCause::Count, more),
    );
    do_all(rt, &mut copy, &[(0, 2, None)]);
    assert_true(rt, copy != map);
    check_ranges(rt, &map, TWO);
    check_ranges(rt, &copy, &[(2, 5, 1), (5, 9, 2)]);
}

#[test]
fn compares_and_clones(rt: HostRuntime) {
    compare::<Heap, OneNode>(&rt, RangeMap::new(rt.alloc()), RangeMap::new(()));
    clone_one::<Heap>(&rt, RangeMap::with_limit(rt.alloc(), 2));
}
