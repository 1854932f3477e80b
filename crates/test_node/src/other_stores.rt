//! A store that is full, one whose numbers are odd, and one that refuses one insertion.
use crate::asserts::{assert_same, assert_same_in, assert_true};
use btree_more_stores::{FixedSlab, Gate, OddSlab};
use btree_store::{Clear, Slab, SlabClone, SlabMut, SlabStore};
use std::alloc::Global;
use std::process::Abort;
use std::test::Fail;

// Inserts the values from 0 to 3, and returns those that are refused.
fn refused_of_four<S: SlabMut<u32>>(store: &mut S, alloc: Global) -> Result<Vec<u32>, Fail> {
    let mut refused = Vec::new(alloc);
    for value in 0..4 {
        if let Err(back) = store.insert(value) {
            refused.push(back)?;
        }
    }
    Ok(refused)
}

// Checks which of four values a store refuses, and that it holds the others.
fn check_refused<S: SlabMut<u32>>(
    rt: &impl Abort,
    store: &mut S,
    refused: &[u32],
    alloc: Global,
) -> Result<(), Fail> {
    let before = store.len();
    let answers = refused_of_four(store, alloc)?;
    assert_same(rt, answers.as_slice(), refused);
    assert_same(
        rt,
        store.len().checked_sub(before),
        4_usize.checked_sub(refused.len()),
    );
    Ok(())
}

#[test]
fn a_table_refuses_if_it_is_full(rt: HostRuntime) -> Result<(), Fail> {
    let mut none: FixedSlab<u32, 0> = FixedSlab::empty(());
    check_refused(&rt, &mut none, &[0, 1, 2, 3], rt.alloc())?;
    let mut two: FixedSlab<u32, 2> = FixedSlab::empty(());
    check_refused(&rt, &mut two, &[2, 3], rt.alloc())?;
    let copy = two.try_clone()?;
    two.clear();
    assert_same(&rt, (two.len(), copy.len()), (0, 2));
    check_refused(&rt, &mut two, &[2, 3], rt.alloc())
}

// A place is used again once its value was removed.
#[test]
fn a_table_uses_its_places_again(rt: HostRuntime) -> Result<(), Fail> {
    let mut two: FixedSlab<u32, 2> = FixedSlab::empty(());
    for value in 0..10 {
        let Ok(id) = two.insert(value) else {
            return Err(Fail::from("refused"));
        };
        assert_true(&rt, two.get(id).is_some());
        assert_same(&rt, two.remove(id), value);
        assert_same_in(&rt, value, two.get(id).is_none(), true);
    }
    check_refused(&rt, &mut two, &[2, 3], rt.alloc())
}

#[test]
fn odd_numbers_go_down(rt: HostRuntime) -> Result<(), Fail> {
    let mut store: OddSlab<u32> = OddSlab::empty(rt.alloc());
    for value in 0..10 {
        let Ok(id) = store.insert(value) else {
            return Err(Fail::from("refused"));
        };
        assert_same_in(&rt, value, id % 2, 1);
        assert_same_in(&rt, value, store.get(id).copied(), Some(value));
    }
    assert_same(&rt, store.get(usize::MAX - 2).copied(), Some(0));
    assert_same(&rt, store.get(usize::MAX - 3), None);
    store.clear();
    check_refused(&rt, &mut store, &[], rt.alloc())
}

#[test]
fn a_gate_refuses_one_insertion(rt: HostRuntime) -> Result<(), Fail> {
    for nth in 0..5 {
        let mut gate = Gate::over(SlabStore::empty(rt.alloc()), nth);
        let refused = refused_of_four(&mut gate, rt.alloc())?;
        match refused.first() {
            Some(value) => assert_same(&rt, *value as usize + 1, nth),
            None => assert_same(&rt, nth, 0),
        }
        assert_same_in(&rt, nth, gate.len().checked_add(refused.len()), Some(4));
        check_refused(&rt, &mut gate, &[], rt.alloc())?;
    }
    Ok(())
}

// What the store behind it refuses, a gate refuses too. It counts on through a `clear`.
#[test]
fn a_gate_before_a_table(rt: HostRuntime) -> Result<(), Fail> {
    let two: FixedSlab<u32, 2> = FixedSlab::empty(());
    let mut gate = Gate::over(two, 6);
    check_refused(&rt, &mut gate, &[2, 3], rt.alloc())?;
    gate.clear();
    check_refused(&rt, &mut gate, &[1, 3], rt.alloc())?;
    assert_true(&rt, gate.insert(0).is_err());
    Ok(())
}
