//! Keys and elements that are equal and not the same.
ghost use Rattle.std.specs.Prelude.{nat_eq};
ghost use Rattle.std.proofs.Common.{rules};
ghost use Rattle.std.specs.Cmp.{partial_order_from_own_ties};
ghost use Rattle.std.specs.Cmp.Rules.{comparing};
ghost use Rattle.std.specs.Ordering.{as_partial_cmp, nat_cmp, on};

use crate::asserts::{assert_same, assert_true, given, some};
use btree_map::BTreeMap;
use btree_node::{Node, NodesMut};
use btree_set::BTreeSet;
use btree_store::SlabStore;
use std::cmp::Ordering;
use std::process::Abort;

// A key or an element that is compared by its number alone.
#[derive(Clone, Copy)]
struct Named {
    number: u64,
    name: char,
}

impl PartialEq for Named {
    ghost eq = { on (λ key. key.number) nat_eq };

    ghost laws = { Prim.search (comparing, rules) };

    fn eq(&self, other: &Self) -> bool {
        self.number == other.number
    }
}

impl Eq for Named {
    ghost laws = { Prim.search (comparing, rules) };
}

impl PartialOrd for Named {
    ghost partial_cmp = { as_partial_cmp (on (λ key. key.number) nat_cmp) };

    ghost laws = { partial_order_from_own_ties (Prim.search (comparing, rules)) (Prim.search (comparing, rules)) };

    fn partial_cmp(&self, other: &Self) -> Option<Ordering> {
        Some(self.cmp(other))
    }
}

impl Ord for Named {
    ghost cmp = { on (λ key. key.number) nat_cmp };

    ghost total = { Prim.search (comparing, rules) };

    ghost matches_partial_cmp = { Prim.search (comparing, rules) };

    ghost matches_eq = { Prim.search (comparing, rules) };

    fn cmp(&self, other: &Self) -> Ordering {
        self.number.cmp(&other.number)
    }
}

// A key or an element with a number and a name.
trait IsNamed {
    fn named(number: u64, name: char) -> Self;

    fn parts(&self) -> (u64, char);
}

impl IsNamed for Named {
    fn named(number: u64, name: char) -> Named {
        Named { number, name }
    }

    fn parts(&self) -> (u64, char) {
        (self.number, self.name)
    }
}

type MapStore = SlabStore<Node<Named, u64>>;

type SetStore = SlabStore<Node<Named, ()>>;

// Returns the name of the stored key with a number, and its value.
fn stored<K: Ord + Drop + IsNamed, C: NodesMut<K, u64>>(
    map: &BTreeMap<K, u64, C>,
    number: u64,
) -> Option<(char, u64)> {
    let (key, value) = map.get_key_value(&K::named(number, '?'))?;
    Some((key.parts().1, *value))
}

// Inserts a pair. Returns the value that was there.
fn put<K: Ord + Drop + IsNamed, C: NodesMut<K, u64>>(
    rt: &impl Abort,
    map: &mut BTreeMap<K, u64, C>,
    number: u64,
    name: char,
    value: u64,
) -> Option<u64> {
    given(rt, map.insert(K::named(number, name), value))
}

// Extends a map by the pairs of another one. Returns whether none was refused.
fn copy_pairs<K: Ord + Copy, C: NodesMut<K, u64>>(
    map: &mut BTreeMap<K, u64, C>,
    other: &BTreeMap<K, u64, C>,
) -> bool {
    let mut source = other.iter();
    map.extend_copied(&mut source).is_ok()
}

// Extends a map by copies of the pairs of another one, of which one has an equal key.
fn copy_equal_pairs<K: Ord + Copy + IsNamed, C: NodesMut<K, u64> + Drop>(
    rt: &impl Abort,
    mut map: BTreeMap<K, u64, C>,
    mut other: BTreeMap<K, u64, C>,
) {
    assert_true(rt, map.insert(K::named(1, 'a'), 9).is_ok());
    assert_true(rt, other.insert(K::named(1, 'e'), 10).is_ok());
    assert_true(rt, copy_pairs(&mut map, &other));
    assert_same(rt, stored(&map, 1), Some(('a', 10)));
    assert_same(rt, stored(&other, 1), Some(('e', 10)));
}

// Inserts and replaces a key that is equal to one of the map, and appends a map that has one.
fn put_equal<K: Ord + Drop + IsNamed, C: NodesMut<K, u64> + Drop>(
    rt: &impl Abort,
    mut map: BTreeMap<K, u64, C>,
    mut other: BTreeMap<K, u64, C>,
) {
    assert_same(rt, put(rt, &mut map, 1, 'a', 1), None);
    assert_same(rt, put(rt, &mut map, 2, 'a', 2), None);
    assert_same(rt, put(rt, &mut map, 2, 'b', 20), Some(2));
    assert_same(rt, stored(&map, 2), Some(('a', 20)));
    let key = K::named(2, 'c');
    let (key, value) = some(rt, given(rt, map.replace(key, 30)));
    assert_same(rt, (key.parts(), value), ((2, 'a'), 20));
    assert_same(rt, stored(&map, 2), Some(('c', 30)));
    assert_same(rt, put(rt, &mut other, 1, 'd', 9), None);
    assert_true(rt, map.append(&mut other).is_ok());
    assert_same(rt, stored(&map, 1), Some(('a', 9)));
    assert_same(rt, (map.len(), other.len()), (2, 0));
}

// Writes to the value of a key by its entry, and updates it.
fn change_equal<K: Ord + Drop + IsNamed, C: NodesMut<K, u64>>(
    rt: &impl Abort,
    map: &mut BTreeMap<K, u64, C>,
) {
    let value = given(rt, map.entry(K::named(1, 'b')).or_insert(7));
    *value = value.wrapping_add(1);
    assert_same(rt, stored(map, 1), Some(('a', 2)));
    assert_same(
        rt,
        map.update(K::named(1, 'b'), |old| (Some(3), old)).ok(),
        Some(Some(2)),
    );
    assert_same(rt, stored(map, 1), Some(('a', 3)));
}

// Does so with a key that is equal to the one of a map, adds pairs with equal keys, and removes the stored one.
fn reach_equal<K: Ord + Drop + IsNamed, C: NodesMut<K, u64> + Drop>(
    rt: &impl Abort,
    mut map: BTreeMap<K, u64, C>,
) {
    assert_same(rt, put(rt, &mut map, 1, 'a', 1), None);
    change_equal(rt, &mut map);
    let names = [(1, 'c', 4), (2, 'b', 5), (2, 'c', 6)];
    let mut source = names
        .iter()
        .map(|&(number, name, value)| (K::named(number, name), value));
    assert_true(rt, map.extend(&mut source).is_ok());
    assert_same(rt, stored(&map, 1), Some(('a', 4)));
    assert_same(rt, stored(&map, 2), Some(('b', 6)));
    let asked = K::named(1, 'd');
    let (key, value) = some(rt, map.remove_entry(&asked));
    assert_same(rt, (key.parts(), value), ((1, 'a'), 4));
    assert_same(rt, map.len(), 1);
}

// Makes a map of three pairs, of which two have equal keys.
fn collect_equal<C: NodesMut<Named, u64> + Drop>(rt: &impl Abort, origin: C::Origin) {
    let names = [(1, 'a', 1), (2, 'a', 2), (1, 'b', 3)];
    let mut source = names.iter().map(|&(number, name, value)| (Named::named(number, name), value));
    let map = given(
        rt,
        BTreeMap::<Named, u64, C>::from_iter(origin, &mut source),
    );
    assert_same(rt, map.len(), 2);
    assert_same(rt, stored(&map, 1), Some(('a', 3)));
}

// Inserts the numbers, each with the name, into a set that is empty, and returns it.
fn names<K: Ord + Drop + IsNamed, C: NodesMut<K, ()>>(
    rt: &impl Abort,
    set: BTreeSet<K, C>,
    numbers: &[u64],
    name: char,
) -> BTreeSet<K, C> {
    let mut set = set;
    for number in numbers {
        let number = *number;
        assert_true(rt, set.insert(K::named(number, name)).is_ok());
    }
    set
}

// Returns the number and the name of an element.
fn parts<K: IsNamed>(element: Option<&K>) -> Option<(u64, char)> {
    Some(element?.parts())
}

// Checks the union of {1, 2} with the name a and {2, 3} with the name b.
fn check_union<K: Ord + Drop + IsNamed, C: NodesMut<K, ()>>(
    rt: &impl Abort,
    left: &BTreeSet<K, C>,
    right: &BTreeSet<K, C>,
) {
    let mut either = left.union(right);
    assert_same(rt, either.size_hint(), (2, Some(4)));
    assert_same(rt, parts(either.next()), Some((1, 'a')));
    assert_same(rt, parts(either.next()), Some((2, 'b')));
    assert_same(rt, parts(either.next()), Some((3, 'b')));
    assert_same(rt, parts(either.next()), None);
}

// Checks the intersection and the difference of the same sets.
fn check_first<K: Ord + Drop + IsNamed, C: NodesMut<K, ()>>(
    rt: &impl Abort,
    left: &BTreeSet<K, C>,
    right: &BTreeSet<K, C>,
) {
    let mut both = left.intersection(right);
    assert_same(rt, parts(both.next()), Some((2, 'a')));
    assert_same(rt, parts(both.next()), None);
    let mut first_only = left.difference(right);
    assert_same(rt, parts(first_only.next()), Some((1, 'a')));
    assert_same(rt, parts(first_only.next()), None);
}

// Checks the symmetric difference of the same sets.
fn check_symmetric<K: Ord + Drop + IsNamed, C: NodesMut<K, ()>>(
    rt: &impl Abort,
    left: &BTreeSet<K, C>,
    right: &BTreeSet<K, C>,
) {
    let mut one = left.symmetric_difference(right);
    assert_same(rt, parts(one.next()), Some((1, 'a')));
    assert_same(rt, parts(one.next()), Some((3, 'b')));
    assert_same(rt, parts(one.next()), None);
}

// Merges two sets: the first has 1 and 2 with the name a, the second one 2 and 3 with the name b.
fn merge<K: Ord + Drop + IsNamed, C: NodesMut<K, ()> + Drop>(
    rt: &impl Abort,
    left: BTreeSet<K, C>,
    right: BTreeSet<K, C>,
) {
    let left = names(rt, left, &[1, 2], 'a');
    let right = names(rt, right, &[2, 3], 'b');
    check_union(rt, &left, &right);
    check_first(rt, &left, &right);
    check_symmetric(rt, &left, &right);
}

// Inserts and replaces an element that is equal to one of a set.
fn insert_equal<K: Ord + Drop + IsNamed, C: NodesMut<K, ()>>(
    rt: &impl Abort,
    set: &mut BTreeSet<K, C>,
) {
    let second = K::named(2, 'b');
    assert_same(rt, set.insert(K::named(2, 'b')).ok(), Some(false));
    assert_same(rt, parts(set.get(&second)), Some((2, 'a')));
    let old = given(rt, set.replace(K::named(2, 'b')));
    assert_same(rt, parts(old.as_ref()), Some((2, 'a')));
    assert_same(rt, parts(set.get(&second)), Some((2, 'b')));
}

// Extends a set by the elements of another one. Returns whether none was refused.
fn copy_elements<K: Ord + Copy, C: NodesMut<K, ()>>(
    set: &mut BTreeSet<K, C>,
    other: &BTreeSet<K, C>,
) -> bool {
    let mut source = other.iter();
    set.extend_copied(&mut source).is_ok()
}

// Extends a set by copies of the elements of another one, of which one is equal to one that is there.
fn copy_equal_elements<K: Ord + Copy + IsNamed, C: NodesMut<K, ()> + Drop>(
    rt: &impl Abort,
    mut set: BTreeSet<K, C>,
    mut other: BTreeSet<K, C>,
) {
    assert_true(rt, set.insert(K::named(3, 'c')).is_ok());
    assert_true(rt, other.insert(K::named(3, 'd')).is_ok());
    assert_true(rt, copy_elements(&mut set, &other));
    assert_same(rt, parts(set.last()), Some((3, 'c')));
}

// Inserts an equal element, and appends a set of which an element is equal to one that is there.
fn append_equal<K: Ord + Drop + IsNamed, C: NodesMut<K, ()> + Drop>(
    rt: &impl Abort,
    set: BTreeSet<K, C>,
    other: BTreeSet<K, C>,
) {
    let mut set = names(rt, set, &[1, 2], 'a');
    insert_equal(rt, &mut set);
    let mut other = names(rt, other, &[1, 3], 'c');
    assert_true(rt, set.append(&mut other).is_ok());
    assert_same(rt, parts(set.first()), Some((1, 'a')));
    assert_same(rt, parts(set.last()), Some((3, 'c')));
}

// Adds elements of which some are equal to those of a set, and takes and removes others by equal ones.
fn take_equal<K: Ord + Drop + IsNamed, C: NodesMut<K, ()> + Drop>(
    rt: &impl Abort,
    set: BTreeSet<K, C>,
) {
    let mut set = names(rt, set, &[1, 2, 3], 'a');
    let more = [(1, 'b'), (4, 'b'), (4, 'c')];
    let mut source = more.iter().map(|&(number, name)| K::named(number, name));
    assert_true(rt, set.extend(&mut source).is_ok());
    assert_same(rt, parts(set.first()), Some((1, 'a')));
    assert_same(rt, parts(set.last()), Some((4, 'b')));
    let asked = K::named(2, 'd');
    assert_true(rt, set.contains(&asked));
    assert_same(rt, parts(set.take(&asked).as_ref()), Some((2, 'a')));
    assert_true(rt, !set.remove(&asked));
    assert_same(rt, set.len(), 3);
}

#[test]
fn an_equal_key_stays_unless_it_is_replaced(rt: HostRuntime) {
    put_equal::<Named, MapStore>(&rt, BTreeMap::new(rt.alloc()), BTreeMap::new(rt.alloc()));
    copy_equal_pairs::<Named, MapStore>(&rt, BTreeMap::new(rt.alloc()), BTreeMap::new(rt.alloc()));
    reach_equal::<Named, MapStore>(&rt, BTreeMap::new(rt.alloc()));
    collect_equal::<MapStore>(&rt, rt.alloc());
}

#[test]
fn an_equal_element_stays_unless_it_is_replaced(rt: HostRuntime) {
    merge::<Named, SetStore>(&rt, BTreeSet::new(rt.alloc()), BTreeSet::new(rt.alloc()));
    append_equal::<Named, SetStore>(&rt, BTreeSet::new(rt.alloc()), BTreeSet::new(rt.alloc()));
    copy_equal_elements::<Named, SetStore>(
        &rt,
        BTreeSet::new(rt.alloc()),
        BTreeSet::new(rt.alloc()),
    );
    take_equal::<Named, SetStore>(&rt, BTreeSet::new(rt.alloc()));
}
