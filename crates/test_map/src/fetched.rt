//! How often each node is asked for to be read, by a store that counts it. 44 ascending keys have twelve nodes on three levels, with the
//! numbers from 0 to 11.
use crate::asserts::{assert_same_in, given};
use crate::samples::first_keys;
use btree_map::BTreeMap;
use btree_node::{Node, NodesMut};
use btree_set::BTreeSet;
use btree_store::SlabStore;
use std::fmt::Debug;
use std::iter::DoubleEndedIterator;
use std::process::Abort;
use test_support::{Asked, AskedStore};

type Store<'m, V> = AskedStore<'m, SlabStore<Node<u64, V>>>;

// Returns on which level a key of the 44 is found, or is not: 19 in the root, each fifth key below it, and the others in a leaf.
fn level_of(key: u64) -> u64 {
    match key {
        19 => 1,
        4 | 9 | 14 | 24 | 29 | 34 | 39 => 2,
        _ => 3,
    }
}

// Checks how often nodes were asked for, and how often one of them at most, and begins anew.
fn check<N: PartialEq + Debug + Copy + Drop>(
    rt: &impl Abort,
    case: N,
    asked: &Asked,
    expected: (u64, u64),
) {
    assert_same_in(rt, case, (asked.all(), asked.most()), expected);
    asked.restart();
}

// A look-up asks for one node of each level down to the key's, each once. One for writing does too, and then asks for the node to write. An
// insertion of a present key and a removal of an absent one search once too.
fn look_up_each<C: NodesMut<u64, u64> + Drop>(rt: &impl Abort, origin: C::Origin, asked: &Asked) {
    let mut map = first_keys::<C>(rt, origin, 44);
    for key in 0..45u64 {
        let (levels, is_there) = (level_of(key), key < 44);
        asked.restart();
        assert_same_in(rt, key, map.get(&key).is_some(), is_there);
        check(rt, key, asked, (levels, 1));
        assert_same_in(rt, key, map.contains_key(&key), is_there);
        check(rt, key, asked, (levels, 1));
        assert_same_in(rt, key, map.get_mut(&key).is_some(), is_there);
        check(rt, key, asked, (levels, 1));
        if is_there {
            assert_same_in(rt, key, map.insert(key, key).is_ok(), true);
        } else {
            assert_same_in(rt, key, map.remove(&key), None);
        }
        check(rt, key, asked, (levels, 1));
    }
}

// Takes 44 items from one end of an iterator, and no other is there. A leaf has four items: the steps to its second one and on, up to the
// place `last` of it, ask for no node.
fn walk<I: DoubleEndedIterator + Drop>(
    rt: &impl Abort,
    items: I,
    is_back: bool,
    last: u64,
    asked: &Asked,
)
where
    I::Item: Drop,
    requires front { (state : I) → I.can_next state }
    requires back { (state : I) → I.can_next_back state }
{
    let mut items = items;
    for place in 0..45u64 {
        let before = asked.all();
        let given = if is_back {
            items.next_back().is_some()
        } else {
            items.next().is_some()
        };
        assert_same_in(rt, place, given, place < 44);
        if place % 5 > 0 && place % 5 <= last {
            assert_same_in(rt, place, asked.all(), before);
        }
    }
}

// How often a whole walk asks for nodes, and for one of them, at most: from the front for each of the twelve once. An iterator is made at the
// first leaf, so one from the back asks again for the three nodes of that path.
fn expected(is_back: bool) -> (u64, u64) {
    if is_back { (15, 2) } else { (12, 1) }
}

// Walks over all of 44 items, from one end. That an iterator is made asks for nodes too, before the walk.
fn check_walk<I: DoubleEndedIterator + Drop>(
    rt: &impl Abort,
    items: I,
    is_back: bool,
    asked: &Asked,
)
where
    I::Item: Drop,
    requires front { (state : I) → I.can_next state }
    requires back { (state : I) → I.can_next_back state }
{
    walk(rt, items, is_back, 3, asked);
    check(rt, is_back, asked, expected(is_back));
}

fn walk_map<C: NodesMut<u64, u64> + Drop>(rt: &impl Abort, origin: C::Origin, asked: &Asked) {
    let map = first_keys::<C>(rt, origin, 44);
    asked.restart();
    for is_back in [false, true] {
        check_walk(rt, map.iter(), is_back, asked);
        check_walk(rt, map.keys(), is_back, asked);
        check_walk(rt, map.values(), is_back, asked);
    }
}

fn walk_set<C: NodesMut<u64, ()> + Drop>(rt: &impl Abort, origin: C::Origin, asked: &Asked) {
    let set = given(rt, BTreeSet::<u64, C>::from_iter(origin, &mut (0..44u64)));
    asked.restart();
    for is_back in [false, true] {
        check_walk(rt, set.iter(), is_back, asked);
    }
}

// A step that begins at a leaf and leaves an item there reads no node. The one that takes the last item goes up, to free the leaf.
fn consume<C: NodesMut<u64, u64> + Drop>(
    rt: &impl Abort,
    origin: C::Origin,
    is_back: bool,
    asked: &Asked,
) {
    let map = first_keys::<C>(rt, origin, 44);
    asked.restart();
    walk(rt, map.into_iter(), is_back, 2, asked);
}

// A cursor that began before the first pair knows how many are left, also after an insertion: it reads no node for it.
fn count_left<C: NodesMut<u64, u64> + Drop>(rt: &impl Abort, origin: C::Origin, asked: &Asked) {
    let mut map = first_keys::<C>(rt, origin, 44);
    assert_same_in(rt, 0u64, map.remove(&0).is_some(), true);
    let mut pairs = map.entries_mut();
    if !pairs.fits(&0) {
        panic!(rt; "it does not fit")
    }
    assert_same_in(rt, 0u64, pairs.insert(0, 0).is_ok(), true);
    asked.restart();
    assert_same_in(rt, 0u64, pairs.size_hint(), (43, Some(43)));
    check(rt, 0u64, asked, (0, 0));
}

// All of these, over any stores of a map and of a set.
fn fetches<C: NodesMut<u64, u64> + Drop, D: NodesMut<u64, ()> + Drop>(
    rt: &impl Abort,
    (origin, of_set): (C::Origin, D::Origin),
    asked: &Asked,
)
where
    C::Origin: Copy,
    D::Origin: Copy,
{
    look_up_each::<C>(rt, origin, asked);
    walk_map::<C>(rt, origin, asked);
    consume::<C>(rt, origin, false, asked);
    consume::<C>(rt, origin, true, asked);
    count_left::<C>(rt, origin, asked);
    walk_set::<D>(rt, of_set, asked);
}

#[test]
fn a_call_fetches_few_nodes(rt: HostRuntime) {
    let asked = Asked::new();
    let origin = (rt.alloc(), &asked);
    fetches::<Store<'_, u64>, Store<'_, ()>>(&rt, (origin, origin), &asked);
}
