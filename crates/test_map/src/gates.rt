//! Maps and sets in a store that is there, behind a gate that refuses one node.
use crate::asserts::{assert_same, assert_same_in, assert_true, refused};
use btree_ext::BTreeExt;
use btree_item::Cause;
use btree_map::BTreeMap;
use btree_more_stores::Gate;
use btree_node::{Node, NodesMut};
use btree_set::BTreeSet;
use btree_store::{SlabMut, SlabStore};
use std::alloc::Global;
use std::process::Abort;
use std::test::Fail;
use test_support::content_of;

// The key of which the n-th node that 44 insertions need is refused: the first leaf, a root and a second leaf, a leaf each, and a leaf, a
// node beside the root and a new root.
const REFUSED: [Option<u64>; 14] = [
    None,
    Some(0),
    Some(8),
    Some(8),
    Some(13),
    Some(18),
    Some(23),
    Some(28),
    Some(33),
    Some(38),
    Some(43),
    Some(43),
    Some(43),
    None,
];

fn map_in<C: NodesMut<u64, u64> + Drop>(rt: &impl Abort, nodes: C) -> BTreeMap<u64, u64, C> {
    if nodes.len() != 0 {
        panic!(rt; "the store is not empty");
    }
    BTreeMap::in_store(nodes)
}

// Inserts a key. If it is refused, every node, the root and the length are as before, and the same insertion is taken then.
fn insert_again<C: NodesMut<u64, u64>>(
    rt: &impl Abort,
    map: &mut BTreeMap<u64, u64, C>,
    key: u64,
    alloc: Global,
) -> Result<bool, Fail> {
    let before = content_of(map.as_raw(), alloc)?;
    let Err(refused) = map.insert(key, 7) else {
        return Ok(false);
    };
    assert_same(rt, refused.cause, Cause::Store);
    assert_same(rt, (refused.key, refused.value), (key, 7));
    let after = content_of(map.as_raw(), alloc)?;
    assert_same(rt, after.as_str(), before.as_str());
    assert_same(rt, map.insert(key, 7).ok(), Some(None));
    Ok(true)
}

// Inserts the keys from 0 to 43, and returns the one that was refused, if there was one.
fn refused_key<C: NodesMut<u64, u64> + Drop>(
    rt: &impl Abort,
    nodes: C,
    alloc: Global,
) -> Result<Option<u64>, Fail> {
    let mut map = map_in(rt, nodes);
    let mut refused = None;
    for key in 0..44u64 {
        if insert_again(rt, &mut map, key, alloc)? {
            assert_same(rt, refused, None);
            refused = Some(key);
        }
    }
    assert_same(rt, (map.len(), map.node_count()), (44, 12));
    Ok(refused)
}

#[test]
fn a_gate_refuses_one_node_of_a_map(rt: HostRuntime) -> Result<(), Fail> {
    for (nth, key) in REFUSED.iter().enumerate() {
        let store: SlabStore<Node<u64, u64>> = SlabMut::empty(rt.alloc());
        let refused = refused_key(&rt, Gate::over(store, nth), rt.alloc())?;
        assert_same_in(&rt, nth, refused, *key);
    }
    Ok(())
}

// Inserts the elements from 0 on into a set in a store whose third node is refused, as that of the ninth element.
fn insert_elements<C: NodesMut<u64, ()> + Drop>(rt: &impl Abort, nodes: C) {
    if nodes.len() != 0 {
        panic!(rt; "the store is not empty");
    }
    let mut set: BTreeSet<u64, C> = BTreeSet::in_store(nodes);
    for element in 0..8 {
        assert_same(rt, set.insert(element).ok(), Some(true));
    }
    let back = refused(rt, set.insert(8));
    assert_same(rt, (back.cause, back.key), (Cause::Store, 8));
    assert_same(rt, set.len(), 8);
    assert_true(rt, !set.contains(&8));
    assert_same(rt, set.insert(8).ok(), Some(true));
}

#[test]
fn a_gate_refuses_one_node_of_a_set(rt: HostRuntime) {
    let store: SlabStore<Node<u64, ()>> = SlabMut::empty(rt.alloc());
    insert_elements(&rt, Gate::over(store, 3));
}
