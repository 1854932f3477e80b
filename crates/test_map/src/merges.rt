//! How often merges of sets compare elements.
ghost use Rattle.std.specs.Iterator.{IsFinite};

use crate::asserts::{assert_same, assert_true};
use crate::counted::Counting;
use btree_node::{Node, NodesMut};
use btree_set::BTreeSet;
use btree_store::SlabStore;
use std::cell::Cell;
use std::process::Abort;
use test_support::Counted;

type Store<'a> = SlabStore<Node<Counted<'a>, ()>>;

// Inserts the numbers into a set that is empty, and returns it.
fn counted<'a, K: Ord + Drop + Counting<'a>, C: NodesMut<K, ()>>(
    rt: &impl Abort,
    set: BTreeSet<K, C>,
    compared: &'a Cell<u32>,
    numbers: &[u32],
) -> BTreeSet<K, C> {
    let mut set = set;
    for number in numbers {
        let number = *number;
        let inserted = set.insert(K::counting(number, compared)).ok();
        assert_same(rt, inserted, Some(true));
    }
    set
}

// Goes through a merge, and checks how many elements it yields, and how many steps compare two elements.
fn check_merge<I: Iterator + Drop>(
    rt: &impl Abort,
    merge: I,
    compared: &Cell<u32>,
    expected: (u32, u32),
)
where
    I::Item: Drop,
    requires can { I.can_next merge }
    requires ends { IsFinite (I.remaining merge) }
{
    let mut yielded = 0u32;
    compared.set(0);
    for _ in merge {
        yielded = yielded.wrapping_add(1);
    }
    assert_same(rt, (yielded, compared.get()), expected);
}

// Goes through each merge of two sets.
fn check_steps<K: Ord, C: NodesMut<K, ()>>(
    rt: &impl Abort,
    left: &BTreeSet<K, C>,
    right: &BTreeSet<K, C>,
    compared: &Cell<u32>,
) {
    check_merge(rt, left.union(right), compared, (13, 13));
    check_merge(rt, left.intersection(right), compared, (4, 13));
    check_merge(rt, left.difference(right), compared, (6, 13));
    check_merge(rt, left.symmetric_difference(right), compared, (9, 13));
}

// A merge compares nothing before its first step. The tests end at the first element that decides: 0 is in both, 2 only in the first set, and 3
// only in the second, where it is compared with 2 and 4.
fn check_ends<K: Ord, C: NodesMut<K, ()>>(
    rt: &impl Abort,
    left: &BTreeSet<K, C>,
    right: &BTreeSet<K, C>,
    compared: &Cell<u32>,
) {
    compared.set(0);
    let mut either = left.union(right);
    assert_same(rt, compared.get(), 0);
    assert_true(rt, either.next().is_some());
    assert_same(rt, compared.replace(0), 1);
    assert_true(rt, !left.is_disjoint(right));
    assert_same(rt, compared.replace(0), 1);
    assert_true(rt, !left.is_subset(right));
    assert_same(rt, compared.replace(0), 2);
    assert_true(rt, !left.is_superset(right));
    assert_same(rt, compared.replace(0), 3);
}

// Merges two sets. They have 10 and 7 numbers. Four are in both, the greatest among them: so neither ends before the other, and each of the
// 13 numbers is one step.
fn merge_counted<'a, K: Ord + Drop + Counting<'a>, C: NodesMut<K, ()> + Drop>(
    rt: &impl Abort,
    left: BTreeSet<K, C>,
    right: BTreeSet<K, C>,
    compared: &'a Cell<u32>,
) {
    let left = counted(rt, left, compared, &[0, 2, 4, 6, 8, 10, 12, 14, 16, 18]);
    let right = counted(rt, right, compared, &[0, 3, 6, 9, 12, 15, 18]);
    check_steps(rt, &left, &right, compared);
    check_ends(rt, &left, &right, compared);
}

#[test]
fn a_step_of_a_merge_compares_once(rt: HostRuntime) {
    let compared = Cell::new(0u32);
    let (left, right) = (BTreeSet::new(rt.alloc()), BTreeSet::new(rt.alloc()));
    merge_counted::<Counted<'_>, Store<'_>>(&rt, left, right, &compared);
}
