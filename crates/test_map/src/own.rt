//! Maps over stores of one's own.
use crate::asserts::{assert_same, assert_same_in, assert_true};
use crate::fixed::check_table;
use crate::samples::first_keys;
use btree_ext::BTreeExt;
use btree_more_stores::OddSlab;
use btree_node::{Node, NodesMut};
use btree_store::SlabMut;
use example_stores::{OnePlace, VecStore};
use std::process::Abort;

#[test]
fn one_place_holds_one_leaf(rt: HostRuntime) {
    check_table::<OnePlace<Node<u64, u64>>>(&rt, (), 8, 1);
}

// Fills a map and empties it again, twice.
fn fill_and_empty<C: NodesMut<u64, u64> + Drop>(rt: &impl Abort, origin: C::Origin) {
    let mut map = first_keys::<C>(rt, origin, 44);
    assert_same(rt, (map.len(), map.node_count()), (44, 12));
    for key in 0..44 {
        assert_same(rt, map.remove(&key), Some(key.wrapping_mul(10)));
    }
    assert_same(rt, (map.len(), map.node_count()), (0, 0));
    for key in 0..9 {
        assert_true(rt, map.insert(key, key).is_ok());
    }
    assert_same(rt, (map.len(), map.node_count()), (9, 3));
}

#[test]
fn a_vec_holds_nodes(rt: HostRuntime) {
    fill_and_empty::<VecStore<Node<u64, u64>>>(&rt, rt.alloc());
}

// Puts many values into a store, which refuses none.
fn take_each<S: SlabMut<u32> + Drop>(rt: &impl Abort, origin: S::Origin) {
    S::note_fits();
    let mut store = S::empty(origin);
    for value in 0..4096 {
        assert_same_in(rt, value, store.insert(value).is_ok(), true);
    }
    assert_same(rt, store.len(), 4096);
}

#[test]
fn a_store_that_grows_takes_each_value(rt: HostRuntime) {
    take_each::<VecStore<u32>>(&rt, rt.alloc());
    take_each::<OddSlab<u32>>(&rt, rt.alloc());
}
