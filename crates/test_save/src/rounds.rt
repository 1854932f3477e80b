//! Maps that are saved and opened.
use crate::asserts::{assert_same, assert_true, given, some};
use crate::maps::{Slots, check_squares, squares};
use btree_ext::{BTreeExt, BTreeExtMut};
use btree_item::Address;
use btree_map::BTreeMap;
use btree_more_stores::Fill;
use btree_node::{Node, NodesMut};
use btree_save::{bytes_of_map, map_of_bytes, open, save};
use std::alloc::Global;
use std::io::Cursor;
use std::process::Abort;

// Saves a map and opens it. It is the same, and is saved as the same bytes.
fn check_round<C: Fill<Node<u64, u64>, Origin = Global> + Drop>(
    rt: &impl Abort,
    alloc: Global,
    count: u64,
) {
    let map = squares::<C>(rt, alloc, count);
    let bytes = given(rt, bytes_of_map(alloc, &map));
    let again: BTreeMap<u64, u64, C> = given(rt, map_of_bytes(alloc, &bytes));
    check_squares(rt, &again, count);
    let twice = given(rt, bytes_of_map(alloc, &again));
    assert_same(rt, twice.as_slice(), bytes.as_slice());
}

#[test]
fn opens_what_was_saved(rt: HostRuntime) {
    for count in [0, 1, 9, 44, 300] {
        check_round::<Slots>(&rt, rt.alloc(), count);
    }
}

// A map goes on after it was opened: at an address that was kept, and with insertions.
fn go_on<C: NodesMut<u64, u64> + Drop>(
    rt: &impl Abort,
    mut map: BTreeMap<u64, u64, C>,
    at: Address,
) {
    assert_true(rt, map.is_valid(at));
    let item = some(rt, map.item(at));
    assert_same(rt, (*item.key(), *item.value()), (7, 49));
    for key in 0..500u64 {
        assert_true(rt, map.insert(key, key).is_ok());
    }
    assert_same(rt, map.len(), 500);
    assert_true(rt, map.validate().is_ok());
}

// Saves a map to a writer and opens it from a reader.
fn save_and_go_on<C: Fill<Node<u64, u64>, Origin = Global> + Drop>(rt: &impl Abort, alloc: Global) {
    let map = squares::<C>(rt, alloc, 44);
    let at = given(rt, map.address_of(&7));
    let mut file = Vec::new(alloc);
    given(rt, save(alloc, &map, &mut file));
    let mut input = Cursor::new(file.as_slice());
    let again: BTreeMap<u64, u64, C> = given(rt, open(alloc, alloc, &mut input));
    go_on(rt, again, at);
}

#[test]
fn goes_on_at_a_kept_address(rt: HostRuntime) {
    save_and_go_on::<Slots>(&rt, rt.alloc());
}
