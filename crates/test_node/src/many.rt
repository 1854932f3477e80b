//! A slab that is filled with many values, none of which it refuses.
use crate::any_store::{insert_both, raise};
use crate::asserts::{assert_same, assert_same_in, assert_true};
use btree_store::{Clear, Slab, SlabMut, SlabStore};
use std::alloc::Global;
use std::process::Abort;
use std::test::Fail;

const VALUES: u32 = 4096;

// Inserts the values from 0 on, none of which may be refused, and lists their numbers.
fn fill<S: SlabMut<u32>>(
    rt: &impl Abort,
    store: &mut S,
    numbers: &mut Vec<usize>,
) -> Result<(), Fail> {
    for value in 0..VALUES {
        match store.insert(value) {
            Ok(id) => numbers.push(id)?,
            Err(_) => panic!(rt; "{value} is refused"),
        }
    }
    Ok(())
}

// Checks that the values from 0 on are under these numbers.
fn check_values<S: Slab<u32>>(rt: &impl Abort, store: &S, numbers: &[usize]) {
    for (value, id) in (0..VALUES).zip(numbers) {
        assert_same(rt, store.get(*id).copied(), Some(value));
    }
}

// Removes the values, in the order in which they were inserted.
fn take_out<S: SlabMut<u32>>(rt: &impl Abort, store: &mut S, numbers: &[usize]) {
    for (value, id) in (0..VALUES).zip(numbers) {
        if store.get(*id).is_none() {
            panic!(rt; "{value} is absent");
        }
        assert_same_in(rt, value, store.remove(*id), value);
        assert_same_in(rt, value, store.get(*id).copied(), None);
    }
}

// Fills a store and empties it, twice.
fn take_every_value<S: SlabMut<u32> + Drop>(
    rt: &impl Abort,
    store: S,
    alloc: Global,
) -> Result<(), Fail> {
    let mut store = store;
    for round in 0..2 {
        let mut numbers = Vec::new(alloc);
        fill(rt, &mut store, &mut numbers)?;
        assert_same_in(rt, round, store.len(), VALUES as usize);
        check_values(rt, &store, numbers.as_slice());
        take_out(rt, &mut store, numbers.as_slice());
        assert_same_in(rt, round, store.len(), 0);
    }
    Ok(())
}

#[test]
fn takes_every_value(rt: HostRuntime) -> Result<(), Fail> {
    take_every_value::<SlabStore<u32>>(&rt, SlabStore::empty(rt.alloc()), rt.alloc())
}

// Writes to two values, of which one is the greatest, and clears the store.
fn write_and_clear<S: Clear<u32> + Drop>(rt: &impl Abort, store: S) {
    let mut store = store;
    let Some((first, second)) = insert_both(&mut store, 3, u32::MAX) else {
        panic!(rt; "refused")
    };
    match store.get_mut(first) {
        Some(value) => *value = 7,
        None => panic!(rt; "absent"),
    }
    assert_true(rt, raise(&mut store, first));
    assert_true(rt, !raise(&mut store, second));
    assert_same(rt, store.get(first).copied(), Some(8));
    assert_same(rt, store.get(second).copied(), Some(u32::MAX));
    assert_same(rt, store.get(usize::MAX).copied(), None);
    assert_true(rt, store.get_mut(usize::MAX).is_none());
    store.clear();
    assert_same(rt, store.len(), 0);
    assert_same(rt, (store.get(first), store.get(second)), (None, None));
    assert_true(rt, store.insert(9).is_ok());
}

#[test]
fn writes_and_clears(rt: HostRuntime) {
    write_and_clear::<SlabStore<u32>>(&rt, SlabStore::empty(rt.alloc()));
}
