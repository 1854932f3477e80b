//! Lists of two hundred calls, against a table of truth values.
use crate::asserts::{assert_same, assert_true};
use btree_item::{Cause, Refused};
use btree_more_stores::{FixedSlab, Gate, OddSlab};
use btree_node::{Node, NodesMut};
use btree_range_set::RangeSet;
use btree_store::{SlabMut, SlabStore};
use std::alloc::Global;
use std::process::Abort;
use std::test::Fail;

// Writes a value for the numbers from `start` up to `end`.
fn write(table: &mut [bool; 64], start: u64, end: u64, is: bool) {
    let mut number = 0u64;
    for entry in table.iter_mut() {
        if start <= number && number < end {
            *entry = is;
        }
        number = number.wrapping_add(1);
    }
}

// Returns how many runs of true there are.
fn count_runs(table: &[bool; 64]) -> usize {
    let mut count = 0usize;
    let mut before = false;
    for is in table.iter() {
        if *is && !before {
            count = count.wrapping_add(1);
        }
        before = *is;
    }
    count
}

// Checks which numbers are in the set, by `contains` and by its ranges, which are as many as there are runs.
fn check_table<C: NodesMut<u64, u64>>(rt: &impl Abort, set: &RangeSet<C>, table: &[bool; 64]) {
    let mut listed = [false; 64];
    for (start, end) in set.iter() {
        write(&mut listed, start, end, true);
    }
    let mut number = 0u64;
    for (is, is_listed) in table.iter().zip(listed.iter()) {
        assert_same(rt, (set.contains(number), *is_listed), (*is, *is));
        number = number.wrapping_add(1);
    }
    assert_same(rt, set.len(), count_runs(table));
}

// Does a call: adds the numbers from `start` up to `end`, or takes them out.
fn call<C: NodesMut<u64, u64> + Drop>(
    set: &mut RangeSet<C>,
    start: u64,
    end: u64,
    adds: bool,
) -> Result<(), Refused<u64, u64>> {
    if adds {
        set.insert(start, end)
    } else {
        set.remove(start, end)
    }
}

// Runs a list of 200 calls, each with the set and the table, and checks all numbers after each. Returns how many were refused: for the
// store, with their numbers, and with no change.
fn run<C: NodesMut<u64, u64> + Drop>(rt: &impl Abort, set: RangeSet<C>, list: u64) -> usize {
    let mut set = set;
    let mut table = [false; 64];
    let mut refusals = 0usize;
    let mut state = list;
    for _ in 0..200 {
        state = state
            .wrapping_mul(6364136223846793005)
            .wrapping_add(1442695040888963407);
        let start = (state >> 33) % 64;
        let end = start.wrapping_add((state >> 45) % 9).min(64);
        let adds = (state >> 60) % 2 == 0;
        match call(&mut set, start, end, adds) {
            Ok(()) => write(&mut table, start, end, adds),
            Err(refused) => {
                assert_same(rt, refused.cause, Cause::Store);
                assert_same(rt, (refused.key, refused.value), (start, end));
                refusals = refusals.wrapping_add(1);
            }
        }
        check_table(rt, &set, &table);
    }
    refusals
}

// Runs a list over a store, which refuses nothing.
fn agree<C: NodesMut<u64, u64> + Drop>(rt: &impl Abort, origin: C::Origin, list: u64) {
    assert_same(rt, run::<C>(rt, RangeSet::new(origin), list), 0);
}

#[test]
fn agrees_with_a_table(rt: HostRuntime) {
    for list in 0..4 {
        agree::<SlabStore<Node<u64, u64>>>(&rt, rt.alloc(), list);
        agree::<OddSlab<Node<u64, u64>>>(&rt, rt.alloc(), list);
        agree::<FixedSlab<Node<u64, u64>, 11>>(&rt, (), list);
    }
}

// Returns an empty set whose store refuses one allocation.
fn gated_set(alloc: Global, refuses_at: usize) -> RangeSet<Gate<SlabStore<Node<u64, u64>>>> {
    let nodes = <SlabStore<Node<u64, u64>> as SlabMut<Node<u64, u64>>>::empty(alloc);
    RangeSet::in_store(Gate::over(nodes, refuses_at))
}

// Runs a list with each allocation refused in turn, the first one at least, until a run needs fewer.
fn agree_behind_gates(rt: &impl Abort, alloc: Global, list: u64) -> Result<(), Fail> {
    for refuses_at in 1..200 {
        let refusals = run(rt, gated_set(alloc, refuses_at), list);
        if refusals == 0 {
            assert_true(rt, refuses_at > 1);
            return Ok(());
        }
        assert_same(rt, refusals, 1);
    }
    Err(Fail::from("each run was refused"))
}

#[test]
fn agrees_behind_a_gate(rt: HostRuntime) -> Result<(), Fail> {
    for list in 0..4 {
        agree_behind_gates(&rt, rt.alloc(), list)?;
    }
    Ok(())
}
