//! Maps over a fixed table of nodes.
use crate::asserts::{assert_same, assert_same_in, assert_true, given, refused};
use crate::samples::first_keys;
use btree_ext::BTreeExt;
use btree_item::Cause;
use btree_map::BTreeMap;
use btree_more_stores::FixedSlab;
use btree_node::{CloneNodes, Node, NodesMut};
use std::io;
use std::process::Abort;

pub(crate) type Table<const N: usize> = FixedSlab<Node<u64, u64>, N>;

/// Inserts the keys from 0 on. Those below `taken` are taken, on so many nodes, and the next one comes back.
pub(crate) fn check_table<C: NodesMut<u64, u64> + Drop>(
    rt: &impl Abort,
    origin: C::Origin,
    taken: u64,
    nodes: usize,
) {
    let mut map: BTreeMap<u64, u64, C> = BTreeMap::new(origin);
    for key in 0..taken {
        assert_same(rt, map.insert(key, key).ok(), Some(None));
    }
    let back = refused(rt, map.insert(taken, 5));
    assert_same(
        rt,
        (back.cause, back.key, back.value),
        (Cause::Store, taken, 5),
    );
    assert_same(rt, map.len() as u64, taken);
    assert_same(rt, map.node_count(), nodes);
}

#[test]
fn a_table_takes_what_its_nodes_hold(rt: HostRuntime) {
    check_table::<Table<0>>(&rt, (), 0, 0);
    check_table::<Table<1>>(&rt, (), 8, 1);
    check_table::<Table<2>>(&rt, (), 8, 1);
    check_table::<Table<11>>(&rt, (), 43, 9);
}

// Checks that a map has these pairs, in this order.
fn check_pairs<C: NodesMut<u64, u64>>(
    rt: &impl Abort,
    map: &BTreeMap<u64, u64, C>,
    expected: &[(u64, u64)],
) {
    let mut rest = expected.iter();
    for (key, value) in map {
        assert_same(rt, rest.next().copied(), Some((*key, *value)));
    }
    assert_same(rt, map.len(), expected.len());
}

// Appends three pairs to a map of eight keys on one node, which has no place for another. The first one replaces a value, and the second
// one comes back.
fn append_to_one<C: NodesMut<u64, u64> + Drop>(
    rt: &impl Abort,
    mut map: BTreeMap<u64, u64, C>,
    mut other: BTreeMap<u64, u64, C>,
) {
    for pair in [(3, 31), (8, 81), (9, 91)] {
        assert_true(rt, other.insert(pair.0, pair.1).is_ok());
    }
    let back = refused(rt, map.append(&mut other));
    assert_same(
        rt,
        (back.cause, back.key, back.value),
        (Cause::Store, 8, 81),
    );
    let (a, b, c) = ((0, 0), (1, 10), (2, 20));
    let (d, e, f) = ((3, 31), (4, 40), (5, 50));
    check_pairs(rt, &map, &[a, b, c, d, e, f, (6, 60), (7, 70)]);
    check_pairs(rt, &other, &[(9, 91)]);
}

// Sets a value by an update. A refusal is an error of input and output.
fn set_value<C: NodesMut<u64, u64>>(
    map: &mut BTreeMap<u64, u64, C>,
    key: u64,
    value: u64,
) -> io::Result<Option<u64>> {
    let old = map.update(key, |old| (Some(value), old))?;
    Ok(old)
}

// Updates an absent key of such a map, which is refused, and then one that is there.
fn update_in_one<C: NodesMut<u64, u64> + Drop>(rt: &impl Abort, mut map: BTreeMap<u64, u64, C>) {
    let back = refused(rt, map.update(8, |old| (Some(80), old.is_none())));
    assert_same(rt, (back.key, back.cause), (8, Cause::Store));
    let action = back.action;
    assert_same(rt, action(None), (Some(80), true));
    let error = refused(rt, set_value(&mut map, 8, 80));
    assert_same(rt, error.kind(), io::ErrorKind::OutOfMemory);
    assert_same(rt, set_value(&mut map, 7, 77).ok(), Some(Some(70)));
    assert_same(rt, map.len(), 8);
    assert_same(rt, map.update(3, |_| (None, 7u64)).ok(), Some(7));
    assert_same(rt, (map.len(), map.get(&3).copied()), (7, None));
}

// Both, over any store of one node.
fn hand_back<C: NodesMut<u64, u64> + Drop>(rt: &impl Abort, origin: C::Origin)
where
    C::Origin: Copy,
{
    append_to_one::<C>(rt, first_keys(rt, origin, 8), BTreeMap::new(origin));
    update_in_one::<C>(rt, first_keys(rt, origin, 8));
}

#[test]
fn a_table_of_one_node_hands_back(rt: HostRuntime) {
    hand_back::<Table<1>>(&rt, ());
}

fn clone_table<C: CloneNodes<u64, u64> + Drop>(rt: &impl Abort, origin: C::Origin) {
    let map = first_keys::<C>(rt, origin, 43);
    let copy = given(rt, map.clone());
    assert_true(rt, copy == map);
    assert_same(rt, (copy.len(), copy.node_count()), (43, 9));
}

#[test]
fn a_table_is_cloned(rt: HostRuntime) {
    clone_table::<Table<11>>(&rt, ());
}

// Inserts three keys for each node of a table, below 100 and each so far after the one before.
fn fill_by<C: NodesMut<u64, u64> + Drop>(
    rt: &impl Abort,
    mut map: BTreeMap<u64, u64, C>,
    nodes: u64,
    (first, step): (u64, u64),
) {
    let (mut key, most) = (first, nodes.wrapping_mul(3));
    for count in 0..most {
        assert_same_in(
            rt,
            (nodes, step, count),
            map.insert(key, count).ok(),
            Some(None),
        );
        key = key.wrapping_add(step) % 100;
    }
    assert_same(rt, map.len() as u64, most);
}

// In ascending and in descending order, and in steps of seven.
fn fill_thrice<C: NodesMut<u64, u64> + Drop>(rt: &impl Abort, origin: C::Origin, nodes: u64)
where
    C::Origin: Copy,
{
    for order in [(0, 1), (99, 99), (0, 7)] {
        fill_by::<C>(rt, BTreeMap::new(origin), nodes, order);
    }
}

#[test]
fn a_table_takes_three_pairs_for_each_node(rt: HostRuntime) {
    fill_thrice::<Table<1>>(&rt, (), 1);
    fill_thrice::<Table<2>>(&rt, (), 2);
    fill_thrice::<Table<3>>(&rt, (), 3);
    fill_thrice::<Table<4>>(&rt, (), 4);
    fill_thrice::<Table<5>>(&rt, (), 5);
    fill_thrice::<Table<6>>(&rt, (), 6);
    fill_thrice::<Table<7>>(&rt, (), 7);
    fill_thrice::<Table<8>>(&rt, (), 8);
    fill_thrice::<Table<9>>(&rt, (), 9);
    fill_thrice::<Table<10>>(&rt, (), 10);
    fill_thrice::<Table<11>>(&rt, (), 11);
    fill_thrice::<Table<12>>(&rt, (), 12);
}

// Makes a map of nine pairs in a table of one node: eight are in the map, and the ninth comes back.
fn collect_nine<C: NodesMut<u64, u64> + Drop>(rt: &impl Abort, origin: C::Origin) {
    let pairs = [
        (0, 0),
        (1, 10),
        (2, 20),
        (3, 30),
        (4, 40),
        (5, 50),
        (6, 60),
        (7, 70),
        (8, 80),
    ];
    let mut source = pairs.iter().copied();
    let (map, back) = refused(rt, BTreeMap::<u64, u64, C>::from_iter(origin, &mut source));
    assert_same(
        rt,
        (back.cause, back.key, back.value),
        (Cause::Store, 8, 80),
    );
    check_pairs(rt, &map, pairs.split_at(8).0);
    assert_same(rt, source.next(), None);
}

#[test]
fn a_table_of_one_node_collects_eight_pairs(rt: HostRuntime) {
    collect_nine::<Table<1>>(&rt, ());
}
