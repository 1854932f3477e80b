//! Lists of two hundred calls, against a table of values.
use crate::asserts::{assert_same, assert_true};
use crate::checks::{Call, Heap, Outcome, call};
use btree_more_stores::{FixedSlab, Gate, OddSlab};
use btree_node::{Node, NodesMut};
use btree_range_map::{RangeCause, RangeMap, Span};
use btree_store::SlabMut;
use std::alloc::Global;
use std::process::Abort;

// Writes a value for the numbers from `start` up to `end`.
fn write(table: &mut [Option<u64>; 64], start: u64, end: u64, value: Option<u64>) {
    let mut number = 0u64;
    for entry in table.iter_mut() {
        if start <= number && number < end {
            *entry = value;
        }
        number = number.wrapping_add(1);
    }
}

// Returns how many runs of one value there are.
fn count_runs(table: &[Option<u64>; 64]) -> usize {
    let mut count = 0usize;
    let mut before = None;
    for value in table.iter() {
        if value.is_some() && *value != before {
            count = count.wrapping_add(1);
        }
        before = *value;
    }
    count
}

// Writes the ranges of a map into a table. Returns how many there are.
fn write_all<C: NodesMut<u64, Span<u64>>>(
    map: &RangeMap<u64, C>,
    table: &mut [Option<u64>; 64],
) -> usize {
    let mut ranges = 0usize;
    for (start, span) in map.iter() {
        write(table, start, span.end, Some(span.value));
        ranges = ranges.wrapping_add(1);
    }
    ranges
}

// Checks the value of each number, by `get` and by the ranges, which are as many as there are runs.
fn check_table<C: NodesMut<u64, Span<u64>>>(
    rt: &impl Abort,
    map: &RangeMap<u64, C>,
    table: &[Option<u64>; 64],
) {
    let mut listed: [Option<u64>; 64] = [None; 64];
    let ranges = write_all(map, &mut listed);
    let mut number = 0u64;
    for (value, is_listed) in table.iter().zip(listed.iter()) {
        assert_same(rt, (map.get(number).copied(), *is_listed), (*value, *value));
        number = number.wrapping_add(1);
    }
    let runs = count_runs(table);
    assert_same(rt, (map.len(), ranges), (runs, runs));
}

// A step of a sequence of numbers without a pattern.
fn next(state: u64) -> u64 {
    state
        .wrapping_mul(6364136223846793005)
        .wrapping_add(1442695040888963407)
}

// Returns a call on at most eight of the first 64 numbers: one of four is a removal.
fn drawn(state: u64) -> Call {
    let start = (state >> 33) % 64;
    let end = start.wrapping_add((state >> 45) % 9).min(64);
    match (state >> 60) % 4 {
        0 => (start, end, None),
        value => (start, end, Some(value)),
    }
}

// Does a call with the map and the table. Returns whether it was refused: with its numbers, with no change, and only where more ranges were
// wanted than there were.
fn is_refused<C: NodesMut<u64, Span<u64>>>(
    rt: &impl Abort,
    map: &mut RangeMap<u64, C>,
    table: &mut [Option<u64>; 64],
    wanted: Call,
    cause: RangeCause,
) -> bool {
    let mut after = *table;
    write(&mut after, wanted.0, wanted.1, wanted.2);
    match call(map, wanted) {
        Outcome::Done => {
            *table = after;
            false
        }
        Outcome::Refused(why, refused) => {
            assert_same(rt, (why, refused), (cause, wanted));
            assert_true(rt, count_runs(table) < count_runs(&after));
            true
        }
    }
}

// Runs a list of 200 calls, and checks all numbers after each. Returns how many were refused.
fn run<C: NodesMut<u64, Span<u64>> + Drop>(
    rt: &impl Abort,
    map: RangeMap<u64, C>,
    list: u64,
    cause: RangeCause,
) -> usize {
    let mut map = map;
    let mut table: [Option<u64>; 64] = [None; 64];
    let mut refusals = 0usize;
    let mut state = list;
    for _ in 0..200 {
        state = next(state);
        if is_refused(rt, &mut map, &mut table, drawn(state), cause) {
            refusals = refusals.wrapping_add(1);
        }
        check_table(rt, &map, &table);
    }
    refusals
}

// Runs a list over a store, which refuses nothing.
fn agree<C: NodesMut<u64, Span<u64>> + Drop>(rt: &impl Abort, origin: C::Origin, list: u64) {
    assert_same(
        rt,
        run::<C>(rt, RangeMap::new(origin), list, RangeCause::Store),
        0,
    );
}

// Runs a list within a limit, which is met.
fn agree_within<C: NodesMut<u64, Span<u64>> + Drop>(rt: &impl Abort, origin: C::Origin, list: u64) {
    assert_true(
        rt,
        run::<C>(rt, RangeMap::with_limit(origin, 5), list, RangeCause::Count) > 0,
    );
}

#[test]
fn agrees_with_a_table(rt: HostRuntime) {
    for list in 0..4 {
        agree::<Heap>(&rt, rt.alloc(), list);
        agree::<OddSlab<Node<u64, Span<u64>>>>(&rt, rt.alloc(), list);
        agree::<FixedSlab<Node<u64, Span<u64>>, 21>>(&rt, (), list);
        agree_within::<Heap>(&rt, rt.alloc(), list);
    }
}

// Returns an empty map whose store refuses one allocation.
fn gated_map(alloc: Global, refuses_at: usize) -> RangeMap<u64, Gate<Heap>> {
    let nodes = <Heap as SlabMut<Node<u64, Span<u64>>>>::empty(alloc);
    RangeMap::in_store(Gate::over(nodes, refuses_at))
}

// Runs a list with each allocation refused in turn, the first one at least, until a run needs fewer.
fn agree_behind_gates(rt: &impl Abort, alloc: Global, list: u64) {
    for refuses_at in 1..200 {
        let refusals = run(rt, gated_map(alloc, refuses_at), list, RangeCause::Store);
        if refusals == 0 {
            assert_true(rt, refuses_at > 1);
            return;
        }
        assert_same(rt, refusals, 1);
    }
    panic!(rt; "each run was refused");
}

#[test]
fn agrees_behind_a_gate(rt: HostRuntime) {
    for list in 0..4 {
        agree_behind_gates(&rt, rt.alloc(), list);
    }
}
