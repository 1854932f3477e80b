//! Entries over the store that an entry has if none is named, and the text of entries, and that of maps and sets in several lines.
use crate::asserts::assert_same;
use btree_map::{BTreeMap, Entry, OccupiedEntry, VacantEntry};
use btree_node::{Node, NodesMut};
use btree_set::BTreeSet;
use btree_store::SlabStore;
use std::alloc::Global;
use std::process::Abort;
use std::test::Fail;

type Map = BTreeMap<u64, u64, SlabStore<Node<u64, u64>>>;

// Returns the key that was asked for.
fn asked(entry: &VacantEntry<'_, u64, u64>) -> u64 {
    *entry.key()
}

// Returns the pair of an entry.
fn pair_of(entry: &OccupiedEntry<'_, u64, u64>) -> (u64, u64) {
    (*entry.key(), *entry.get())
}

// Checks a key's entry, and its text.
fn check_entry(
    rt: &impl Abort,
    alloc: Global,
    map: &mut Map,
    pair: (u64, Option<u64>),
    text: &str,
) -> Result<(), Fail> {
    let entry = map.entry(pair.0);
    let shown = format!(in alloc; "{entry:?}")?;
    assert_same(rt, shown.as_str(), text);
    match map.entry(pair.0) {
        Entry::Vacant(vacant) => assert_same(rt, (asked(&vacant), None), pair),
        Entry::Occupied(occupied) => {
            let (key, value) = pair_of(&occupied);
            assert_same(rt, (key, Some(value)), pair);
        }
    }
    Ok(())
}

#[test]
fn shows_entries(rt: HostRuntime) -> Result<(), Fail> {
    let mut map: Map = BTreeMap::new(rt.alloc());
    check_entry(&rt, rt.alloc(), &mut map, (1, None), "VacantEntry(1)")?;
    assert_same(&rt, map.insert(1, 2).ok(), Some(None));
    check_entry(
        &rt,
        rt.alloc(),
        &mut map,
        (1, Some(2)),
        "OccupiedEntry { key: 1, value: 2 }",
    )
}

// Shows a map without pairs, and one of two. The texts are those of the maps of `std`.
fn show_map<C: NodesMut<u64, u64> + Drop>(
    rt: &impl Abort,
    alloc: Global,
    mut map: BTreeMap<u64, u64, C>,
) -> Result<(), Fail> {
    let none = format!(in alloc; "{map:#?}")?;
    assert_same(rt, none.as_str(), "{}");
    for key in [2, 1] {
        assert_same(rt, map.insert(key, key).ok(), Some(None));
    }
    let two = format!(in alloc; "{map:#?}")?;
    assert_same(rt, two.as_str(), "{\n    1: 1,\n    2: 2,\n}");
    Ok(())
}

// Shows a set without elements, and one of two.
fn show_set<C: NodesMut<u64, ()> + Drop>(
    rt: &impl Abort,
    alloc: Global,
    mut set: BTreeSet<u64, C>,
) -> Result<(), Fail> {
    let none = format!(in alloc; "{set:#?}")?;
    assert_same(rt, none.as_str(), "{}");
    for element in [2, 1] {
        assert_same(rt, set.insert(element).ok(), Some(true));
    }
    let two = format!(in alloc; "{set:#?}")?;
    assert_same(rt, two.as_str(), "{\n    1,\n    2,\n}");
    Ok(())
}

#[test]
fn shows_maps_and_sets(rt: HostRuntime) -> Result<(), Fail> {
    show_map::<SlabStore<Node<u64, u64>>>(&rt, rt.alloc(), BTreeMap::new(rt.alloc()))?;
    show_set::<SlabStore<Node<u64, ()>>>(&rt, rt.alloc(), BTreeSet::new(rt.alloc()))
}
