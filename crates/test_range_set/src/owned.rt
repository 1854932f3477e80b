//! Ranges by value, and sets as text.
use crate::asserts::{assert_same, assert_true};
use btree_node::{Node, NodesMut};
use btree_range_set::RangeSet;
use btree_store::SlabStore;
use std::alloc::Global;
use std::process::Abort;
use std::test::Fail;

// Returns a set of 45 ranges, the i-th of which has 3i and 3i + 1.
fn twos<C: NodesMut<u64, u64> + Drop>(rt: &impl Abort, origin: C::Origin) -> RangeSet<C> {
    let mut set: RangeSet<C> = RangeSet::new(origin);
    for i in 0..45 {
        assert_true(rt, set.insert(3 * i, 3 * i + 2).is_ok());
    }
    set
}

// Takes all ranges, in turn from the front and from the back, and then the one in the middle.
fn take_from_both_ends<C: NodesMut<u64, u64> + Drop>(rt: &impl Abort, origin: C::Origin) {
    let mut ranges = twos::<C>(rt, origin).into_iter();
    for i in 0..22 {
        let back = 132 - 3 * i;
        assert_same(rt, ranges.next(), Some((3 * i, 3 * i + 2)));
        assert_same(rt, ranges.next_back(), Some((back, back + 2)));
    }
    assert_same(rt, (ranges.len(), ranges.size_hint()), (1, (1, Some(1))));
    assert_same(rt, ranges.next_back(), Some((66, 68)));
    assert_same(rt, (ranges.next(), ranges.next_back()), (None, None));
    assert_same(rt, (ranges.len(), ranges.size_hint()), (0, (0, Some(0))));
}

// Takes the ranges in a loop, and those of a set that has none.
fn take_in_a_loop<C: NodesMut<u64, u64> + Drop>(
    rt: &impl Abort,
    set: RangeSet<C>,
    none: RangeSet<C>,
) {
    let mut next = 0u64;
    for range in set {
        assert_same(rt, range, (next, next.wrapping_add(2)));
        next = next.wrapping_add(3);
    }
    assert_same(rt, next, 135);
    let mut ranges = none.into_iter();
    assert_same(rt, ranges.len(), 0);
    assert_same(rt, (ranges.next_back(), ranges.next()), (None, None));
}

#[test]
fn takes_ranges(rt: HostRuntime) {
    take_from_both_ends::<SlabStore<Node<u64, u64>>>(&rt, rt.alloc());
    take_in_a_loop::<SlabStore<Node<u64, u64>>>(
        &rt,
        twos(&rt, rt.alloc()),
        RangeSet::new(rt.alloc()),
    );
}

// Shows a set without ranges, and one of three, in several lines.
fn show<C: NodesMut<u64, u64> + Drop>(
    rt: &impl Abort,
    alloc: Global,
    mut set: RangeSet<C>,
) -> Result<(), Fail> {
    let none = format!(in alloc; "{set:#?}")?;
    assert_same(rt, none.as_str(), "{}");
    assert_true(rt, set.insert(5, 9).is_ok());
    assert_true(rt, set.insert(1, 3).is_ok());
    assert_true(rt, set.insert(20, 30).is_ok());
    let three = format!(in alloc; "{set:#?}")?;
    assert_same(
        rt,
        three.as_str(),
        "{\n    1..3,\n    5..9,\n    20..30,\n}",
    );
    Ok(())
}

#[test]
fn shows_ranges(rt: HostRuntime) -> Result<(), Fail> {
    show::<SlabStore<Node<u64, u64>>>(&rt, rt.alloc(), RangeSet::new(rt.alloc()))
}
