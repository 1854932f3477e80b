//! Checks of maps, and maps to begin with.
ghost use Rattle.std.specs.Prelude.{◌≡◌};

use crate::asserts::{assert_same, assert_true};
use btree_more_stores::FixedSlab;
use btree_node::{ClearNodes, Node, NodesMut};
use btree_range_map::{RangeCause, RangeMap, RangeRefused, Span};
use btree_store::SlabStore;
use std::process::Abort;

// The nodes of a map of numbers, over the heap and in a table of one.
pub(crate) type Heap = SlabStore<Node<u64, Span<u64>>>;

pub(crate) type OneNode = FixedSlab<Node<u64, Span<u64>>, 1>;

// Ranges, each as its start, its end and its value.
pub(crate) type Ranges = &'static [(u64, u64, u64)];

// Returns a range as a map gives it.
pub(crate) fn range(start: u64, end: u64, value: u64) -> (u64, Span<u64>)
    ensures { (result.0 ≡ start) × (result.1.end ≡ end) × (result.1.value ≡ value) }
{
    (start, Span { end, value })
}

// Returns a copy of a range that a map gave.
pub(crate) fn copied<V: Copy>(range: Option<(u64, &Span<V>)>) -> Option<(u64, Span<V>)> {
    match range {
        Some((start, span)) => Some((start, *span)),
        None => None,
    }
}

// Passes the next range of an iterator, and returns a copy of it.
fn step<'a, I: Iterator<Item = (u64, &'a Span<u64>)>>(ranges: &mut I) -> Option<(u64, Span<u64>)>
    requires { (state : I) → I.can_next state }
{
    copied(ranges.next())
}

// Checks that an iterator gives exactly these ranges.
pub(crate) fn check_listed<'a, I: Iterator<Item = (u64, &'a Span<u64>)> + Drop>(
    rt: &impl Abort,
    ranges: I,
    expected: &[(u64, u64, u64)],
)
    requires { (state : I) → I.can_next state }
{
    let mut ranges = ranges;
    for (start, end, value) in expected.iter().copied() {
        assert_same(rt, step(&mut ranges), Some(range(start, end, value)));
    }
    assert_same(rt, step(&mut ranges), None);
}

// Checks the ranges of a map, from both ends, and how many there are.
pub(crate) fn check_ranges<C: NodesMut<u64, Span<u64>>>(
    rt: &impl Abort,
    map: &RangeMap<u64, C>,
    expected: &[(u64, u64, u64)],
) {
    check_listed(rt, map.iter(), expected);
    assert_same(
        rt,
        (map.len(), map.iter().len()),
        (expected.len(), expected.len()),
    );
    assert_same(rt, map.is_empty(), expected.is_empty());
    let last = match expected.last().copied() {
        Some((start, end, value)) => Some(range(start, end, value)),
        None => None,
    };
    assert_same(rt, copied(map.iter().next_back()), last);
}

// A call that changes a map: an insertion of a value, or a removal.
pub(crate) type Call = (u64, u64, Option<u64>);

// What a call came to: it was done, or refused with these numbers.
#[derive(Clone, Copy, Debug, PartialEq, Drop)]
pub(crate) enum Outcome {
    Done,
    Refused(RangeCause, Call),
}

fn of_insertion(outcome: Result<(), RangeRefused<Span<u64>>>) -> Outcome {
    match outcome {
        Ok(()) => Outcome::Done,
        Err(refused) => {
            let Span { end, value } = refused.value;
            Outcome::Refused(refused.cause, (refused.key, end, Some(value)))
        }
    }
}

fn of_removal(outcome: Result<(), RangeRefused<u64>>) -> Outcome {
    match outcome {
        Ok(()) => Outcome::Done,
        Err(refused) => Outcome::Refused(refused.cause, (refused.key, refused.value, None)),
    }
}

// Does a call.
pub(crate) fn call<C: NodesMut<u64, Span<u64>>>(map: &mut RangeMap<u64, C>, call: Call) -> Outcome {
    let (start, end, value) = call;
    match value {
        Some(value) => of_insertion(map.insert(start, end, value)),
        None => of_removal(map.remove(start, end)),
    }
}

// Gives a map these ranges, and no other.
pub(crate) fn fill<C: ClearNodes<u64, Span<u64>> + Drop>(
    rt: &impl Abort,
    map: &mut RangeMap<u64, C>,
    ranges: &[(u64, u64, u64)],
) {
    map.clear();
    for (start, end, value) in ranges.iter().copied() {
        assert_true(rt, map.insert(start, end, value).is_ok());
    }
}
