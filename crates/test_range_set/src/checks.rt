//! Checks of sets, and sets to begin with.
use crate::asserts::{assert_same, assert_true, refused};
use btree_item::{Cause, Refused};
use btree_node::{ClearNodes, NodesMut};
use btree_range_set::RangeSet;
use std::process::Abort;

// Passes the next range of an iterator, and returns it.
pub(crate) fn step<I: Iterator<Item = (u64, u64)>>(ranges: &mut I) -> Option<(u64, u64)>
    requires { (state : I) → I.can_next state }
{
    ranges.next()
}

// Checks that an iterator gives exactly these ranges.
pub(crate) fn check_listed<I: Iterator<Item = (u64, u64)> + Drop>(
    rt: &impl Abort,
    ranges: I,
    expected: &[(u64, u64)],
)
    requires { (state : I) → I.can_next state }
{
    let mut ranges = ranges;
    for range in expected.iter() {
        assert_same(rt, step(&mut ranges), Some(*range));
    }
    assert_same(rt, step(&mut ranges), None);
}

// Checks the ranges of a set, from both ends, and how many there are.
pub(crate) fn check_ranges<C: NodesMut<u64, u64>>(
    rt: &impl Abort,
    set: &RangeSet<C>,
    expected: &[(u64, u64)],
) {
    check_listed(rt, set.iter(), expected);
    assert_same(rt, set.len(), expected.len());
    assert_same(rt, set.is_empty(), expected.is_empty());
    assert_same(rt, set.iter().next_back(), expected.last().copied());
}

// Checks that a call was refused for this cause, with its numbers.
pub(crate) fn check_refused(
    rt: &impl Abort,
    outcome: Result<(), Refused<u64, u64>>,
    cause: Cause,
    start: u64,
    end: u64,
) {
    let back = refused(rt, outcome);
    assert_same(rt, (back.cause, back.key, back.value), (cause, start, end));
}

// Gives a set these ranges, and no other.
pub(crate) fn fill<C: ClearNodes<u64, u64> + Drop>(
    rt: &impl Abort,
    set: &mut RangeSet<C>,
    ranges: &[(u64, u64)],
) {
    set.clear();
    for (start, end) in ranges.iter().copied() {
        assert_true(rt, set.insert(start, end).is_ok());
    }
}

// The ranges from 10i up to 10i + 5, for i from 0 to 7.
pub(crate) const EIGHT: [(u64, u64); 8] = [
    (0, 5),
    (10, 15),
    (20, 25),
    (30, 35),
    (40, 45),
    (50, 55),
    (60, 65),
    (70, 75),
];
