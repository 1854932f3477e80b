//! Sets that are extended by the ranges of an iterator.
use crate::asserts::{assert_same, assert_true};
use crate::checks::{EIGHT, check_ranges, check_refused, fill, step};
use btree_item::Cause;
use btree_more_stores::FixedSlab;
use btree_node::{ClearNodes, Node};
use btree_range_set::RangeSet;
use btree_store::SlabStore;
use std::process::Abort;

// The ranges come in any order. They may overlap, touch and be empty.
fn extend_twice<C: ClearNodes<u64, u64> + Drop>(rt: &impl Abort, origin: C::Origin) {
    let mut set: RangeSet<C> = RangeSet::new(origin);
    let ranges: [(u64, u64); 7] = [(5, 7), (1, 3), (20, 30), (9, 9), (25, 26), (3, 5), (8, 2)];
    let mut source = ranges.iter().copied();
    assert_true(rt, set.extend(&mut source).is_ok());
    check_ranges(rt, &set, &[(1, 7), (20, 30)]);
    assert_true(rt, set.extend(&mut source).is_ok());
    check_ranges(rt, &set, &[(1, 7), (20, 30)]);
    let ends: [(u64, u64); 2] = [(0, 1), (30, u64::MAX)];
    let mut source = ends.iter().copied();
    assert_true(rt, set.extend(&mut source).is_ok());
    check_ranges(rt, &set, &[(0, 7), (20, u64::MAX)]);
}

// Eight ranges are as many as there may be. What comes before a refused range is in the set, and what comes after it is still there.
fn extend_a_full_set<C: ClearNodes<u64, u64> + Drop>(
    rt: &impl Abort,
    mut set: RangeSet<C>,
    cause: Cause,
) {
    fill(rt, &mut set, &EIGHT);
    let ranges: [(u64, u64); 4] = [(5, 6), (100, 101), (75, 80), (6, 10)];
    let mut source = ranges.iter().copied();
    check_refused(rt, set.extend(&mut source), cause, 100, 101);
    let mut left = EIGHT;
    left[0] = (0, 6);
    check_ranges(rt, &set, &left);
    assert_same(rt, step(&mut source), Some((75, 80)));
    assert_true(rt, set.extend(&mut source).is_ok());
    assert_same(rt, (set.len(), set.first()), (7, Some((0, 15))));
    assert_same(rt, set.last(), Some((70, 75)));
}

#[test]
fn extends_by_ranges(rt: HostRuntime) {
    extend_twice::<SlabStore<Node<u64, u64>>>(&rt, rt.alloc());
    extend_a_full_set::<FixedSlab<Node<u64, u64>, 1>>(&rt, RangeSet::new(()), Cause::Store);
    extend_a_full_set::<SlabStore<Node<u64, u64>>>(
        &rt,
        RangeSet::with_limit(rt.alloc(), 8),
        Cause::Count,
    );
}
