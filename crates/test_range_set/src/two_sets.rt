//! A set that is changed by another one, and two that are compared.
use crate::asserts::{assert_same, assert_true, given};
use crate::checks::{EIGHT, check_ranges, check_refused, fill};
use btree_item::{Cause, Refused};
use btree_more_stores::{FixedSlab, OddSlab};
use btree_node::{ClearNodes, CloneNodes, Node, NodesMut};
use btree_range_set::RangeSet;
use btree_store::SlabStore;
use std::process::Abort;

type Ranges = &'static [(u64, u64)];

// Two sets, their union, the first without the second, and their intersection.
const CASES: [(Ranges, Ranges, Ranges, Ranges, Ranges); 9] = [
    (&[], &[], &[], &[], &[]),
    (&[(1, 4)], &[], &[(1, 4)], &[(1, 4)], &[]),
    (&[], &[(1, 4)], &[(1, 4)], &[], &[]),
    (
        &[(1, 4), (6, 8)],
        &[(1, 4), (6, 8)],
        &[(1, 4), (6, 8)],
        &[],
        &[(1, 4), (6, 8)],
    ),
    (&[(1, 3)], &[(3, 5)], &[(1, 5)], &[(1, 3)], &[]),
    (
        &[(1, 5), (10, 15)],
        &[(3, 12), (20, 25)],
        &[(1, 15), (20, 25)],
        &[(1, 3), (12, 15)],
        &[(3, 5), (10, 12)],
    ),
    (
        &[(0, 100)],
        &[(10, 20), (30, 40)],
        &[(0, 100)],
        &[(0, 10), (20, 30), (40, 100)],
        &[(10, 20), (30, 40)],
    ),
    (
        &[(10, 20), (30, 40)],
        &[(0, 100)],
        &[(0, 100)],
        &[],
        &[(10, 20), (30, 40)],
    ),
    (
        &[(5, u64::MAX)],
        &[(0, 6), (u64::MAX - 1, u64::MAX)],
        &[(0, u64::MAX)],
        &[(6, u64::MAX - 1)],
        &[(5, 6), (u64::MAX - 1, u64::MAX)],
    ),
];

// Changes the first set of each case by the second, which stays.
fn change_each<C: ClearNodes<u64, u64> + Drop, D: ClearNodes<u64, u64> + Drop>(
    rt: &impl Abort,
    mut set: RangeSet<C>,
    mut other: RangeSet<D>,
) {
    for (first, second, union, difference, intersection) in CASES {
        fill(rt, &mut other, second);
        fill(rt, &mut set, first);
        assert_true(rt, set.union_with(&other).is_ok());
        check_ranges(rt, &set, union);
        fill(rt, &mut set, first);
        assert_true(rt, set.difference_with(&other).is_ok());
        check_ranges(rt, &set, difference);
        fill(rt, &mut set, first);
        assert_true(rt, set.intersect_with(&other).is_ok());
        check_ranges(rt, &set, intersection);
        check_ranges(rt, &other, second);
    }
}

#[test]
fn changes_by_another_set(rt: HostRuntime) {
    change_each::<SlabStore<Node<u64, u64>>, OddSlab<Node<u64, u64>>>(
        &rt,
        RangeSet::new(rt.alloc()),
        RangeSet::new(rt.alloc()),
    );
}

// A change by another set.
#[derive(Clone, Copy)]
enum Change {
    Union,
    Difference,
    Intersection,
}

// Makes the change.
fn change_set<C: NodesMut<u64, u64>, D: NodesMut<u64, u64>>(
    set: &mut RangeSet<C>,
    other: &RangeSet<D>,
    change: Change,
) -> Result<(), Refused<u64, u64>> {
    match change {
        Change::Union => set.union_with(other),
        Change::Difference => set.difference_with(other),
        Change::Intersection => set.intersect_with(other),
    }
}

// How a set of the ranges `EIGHT`, which may have no ninth, is changed by another one: the ranges of the other, the numbers that are refused, and
// the first range that is left. The others are left as they were.
const REFUSALS: [(Change, Ranges, (u64, u64), (u64, u64)); 9] = [
    (Change::Union, &[(80, 90)], (80, 90), (0, 5)),
    (Change::Union, &[(17, 18)], (17, 18), (0, 5)),
    (
        Change::Union,
        &[(3, 7), (17, 18), (75, 90)],
        (17, 18),
        (0, 7),
    ),
    (Change::Difference, &[(2, 3)], (2, 3), (0, 5)),
    (
        Change::Difference,
        &[(0, 1), (12, 13), (30, 35)],
        (12, 13),
        (1, 5),
    ),
    (
        Change::Intersection,
        &[(0, 12), (13, 100)],
        (12, 13),
        (0, 5),
    ),
    (
        Change::Intersection,
        &[(0, 11), (14, 100)],
        (11, 14),
        (0, 5),
    ),
    (Change::Intersection, &[(1, 12), (13, 30)], (12, 13), (1, 5)),
    (Change::Intersection, &[(0, 3), (4, 100)], (3, 4), (0, 5)),
];

// Returns the ranges `EIGHT` with another first one.
fn eight_from(first: (u64, u64)) -> [(u64, u64); 8] {
    let mut ranges = EIGHT;
    ranges[0] = first;
    ranges
}

// Changes a set that may have eight ranges by another one.
fn refuse<C: ClearNodes<u64, u64> + Drop, D: ClearNodes<u64, u64> + Drop>(
    rt: &impl Abort,
    mut set: RangeSet<C>,
    mut other: RangeSet<D>,
    cause: Cause,
) {
    for (change, ranges, (start, end), first) in REFUSALS {
        fill(rt, &mut set, &EIGHT);
        fill(rt, &mut other, ranges);
        let outcome = change_set(&mut set, &other, change);
        check_refused(rt, outcome, cause, start, end);
        check_ranges(rt, &set, &eight_from(first));
    }
}

#[test]
fn refuses_a_ninth_range(rt: HostRuntime) {
    refuse::<FixedSlab<Node<u64, u64>, 1>, SlabStore<Node<u64, u64>>>(
        &rt,
        RangeSet::new(()),
        RangeSet::new(rt.alloc()),
        Cause::Store,
    );
    refuse::<SlabStore<Node<u64, u64>>, SlabStore<Node<u64, u64>>>(
        &rt,
        RangeSet::with_limit(rt.alloc(), 8),
        RangeSet::new(rt.alloc()),
        Cause::Count,
    );
}

// Checks whether two sets have the same numbers, asked of either.
fn check_same<C: NodesMut<u64, u64>, D: NodesMut<u64, u64>>(
    rt: &impl Abort,
    left: &RangeSet<C>,
    right: &RangeSet<D>,
    are: bool,
) {
    let found = (left.same_numbers(right), right.same_numbers(left));
    assert_same(rt, found, (are, are));
}

// Two sets with the same numbers, which came in different ways, and with others.
fn compare<C: NodesMut<u64, u64> + Drop, D: NodesMut<u64, u64> + Drop>(
    rt: &impl Abort,
    mut set: RangeSet<C>,
    mut other: RangeSet<D>,
) {
    check_same(rt, &set, &other, true);
    assert_true(rt, set.insert(1, 9).is_ok());
    check_same(rt, &set, &other, false);
    for (start, end) in [(5, 9), (1, 3), (3, 5)] {
        assert_true(rt, other.insert(start, end).is_ok());
    }
    check_same(rt, &set, &other, true);
    assert_true(rt, other.remove(4, 5).is_ok());
    check_same(rt, &set, &other, false);
    assert_true(rt, set.remove(4, 5).is_ok());
    check_same(rt, &set, &other, true);
    assert_true(rt, other.insert(8, u64::MAX).is_ok());
    check_same(rt, &set, &other, false);
}

// A clone has the same ranges and limit. It changes by itself.
fn clone_one<C: CloneNodes<u64, u64> + Drop>(rt: &impl Abort, mut set: RangeSet<C>) {
    for (start, end) in EIGHT {
        assert_true(rt, set.insert(start, end).is_ok());
    }
    let mut copy = given(rt, set.clone());
    check_ranges(rt, &copy, &EIGHT);
    assert_true(rt, copy == set);
    check_refused(rt, copy.insert(80, 90), Cause::Count, 80, 90);
    assert_true(rt, copy.remove(0, 1).is_ok());
    assert_true(rt, copy != set);
    check_ranges(rt, &set, &EIGHT);
    check_ranges(rt, &copy, &eight_from((1, 5)));
}

#[test]
fn compares_and_clones(rt: HostRuntime) {
    compare::<SlabStore<Node<u64, u64>>, FixedSlab<Node<u64, u64>, 1>>(
        &rt,
        RangeSet::new(rt.alloc()),
        RangeSet::new(()),
    );
    clone_one::<SlabStore<Node<u64, u64>>>(&rt, RangeSet::with_limit(rt.alloc(), 8));
}
