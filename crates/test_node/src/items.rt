ghost use Rattle.std.specs.Prelude.{◌≡◌, ◌≤◌, length, map, IfOk};

use crate::asserts::{assert_same, assert_same_in, assert_true};
use btree_item::{
    Address, Cause, Fault, Item, Offset, Refused, Slots, UpdateRefused, binary_search_min,
};
use std::alloc::{AllocError, Global};
use std::cmp::Ordering;
use std::fmt::{Debug, Display};
use std::io;
use std::process::Abort;
use std::test::Fail;

fn printed<T: Display>(alloc: Global, value: &T) -> Result<String, AllocError> {
    let mut text = String::new(alloc);
    write!(text, "{value}")?;
    Ok(text)
}

fn shown<T: Debug>(alloc: Global, value: &T) -> Result<String, AllocError> {
    let mut text = String::new(alloc);
    write!(text, "{value:?}")?;
    Ok(text)
}

// Checks what a value is in a text, in both ways.
fn check_text<T: Display + Debug>(
    rt: &impl Abort,
    alloc: Global,
    value: &T,
    text: &str,
) -> Result<(), Fail> {
    assert_same(rt, printed(alloc, value)?.as_str(), text);
    assert_same(rt, shown(alloc, value)?.as_str(), text);
    Ok(())
}

#[test]
fn prints(rt: HostRuntime) -> Result<(), Fail> {
    for (address, text) in [
        (Address::new(0, Offset::from(1)), "@0:1"),
        (Address::new(3, Offset::before()), "@3:-1"),
        (Address::nowhere(), "@18446744073709551615:0"),
    ] {
        check_text(&rt, rt.alloc(), &address, text)?;
    }
    for (offset, text) in [
        (Offset::before(), "-1"),
        (Offset::from(0), "0"),
        (Offset::from(18446744073709551614), "18446744073709551614"),
    ] {
        check_text(&rt, rt.alloc(), &offset, text)?;
    }
    Ok(())
}

#[test]
fn prints_refusals(rt: HostRuntime) -> Result<(), Fail> {
    let refused = Refused {
        cause: Cause::Store,
        key: 1,
        value: 2,
    };
    assert_same(
        &rt,
        shown(rt.alloc(), &refused)?.as_str(),
        "Refused { cause: Store, key: 1, value: 2 }",
    );
    let refused = UpdateRefused {
        cause: Cause::Count,
        key: 3,
        action: (),
    };
    assert_same(
        &rt,
        shown(rt.alloc(), &refused)?.as_str(),
        "UpdateRefused { cause: Count, key: 3, .. }",
    );
    Ok(())
}

// Checks the printed text of a cause, and of refusals for it.
fn check_printed_cause(
    rt: &impl Abort,
    alloc: Global,
    cause: Cause,
    text: &str,
) -> Result<(), Fail> {
    assert_same(rt, printed(alloc, &cause)?.as_str(), text);
    let refused = Refused {
        cause,
        key: 1,
        value: 2,
    };
    assert_same(rt, printed(alloc, &refused)?.as_str(), text);
    let refused = UpdateRefused {
        cause,
        key: 3,
        action: (),
    };
    assert_same(rt, printed(alloc, &refused)?.as_str(), text);
    Ok(())
}

#[test]
fn prints_why(rt: HostRuntime) -> Result<(), Fail> {
    let full = "the length has reached its limit";
    check_printed_cause(&rt, rt.alloc(), Cause::Store, "no node could be allocated")?;
    check_printed_cause(&rt, rt.alloc(), Cause::Count, full)?;
    for (fault, text) in [
        (Fault::NoNode, "a node's number is not used"),
        (
            Fault::WrongParent,
            "a node's parent is not the node above it",
        ),
        (Fault::Overflowing, "a node has too many items"),
        (Fault::Underflowing, "a node has too few items"),
        (Fault::EmptyRoot, "the root has no item"),
        (Fault::Unsorted, "the keys of a node do not ascend"),
        (
            Fault::BelowSeparator,
            "a key is not greater than the separator before it",
        ),
        (
            Fault::AboveSeparator,
            "a key is not less than the separator after it",
        ),
        (Fault::TooDeep, "there are too many levels"),
        (Fault::NotBalanced, "two leaves are on different levels"),
        (Fault::WrongLength, "the length is not the number of items"),
        (Fault::Unreachable, "a node is not in the tree"),
        (Fault::OverLimit, "the length is greater than its limit"),
    ] {
        assert_same(&rt, printed(rt.alloc(), &fault)?.as_str(), text);
    }
    Ok(())
}

// Refuses for a cause, as a rebalance of a tree does.
fn refuse(cause: Cause) -> Result<(), Cause> {
    Err(cause)
}

// The same as an error of memory.
fn refuse_memory(cause: Cause) -> Result<(), AllocError> {
    refuse(cause)?;
    Ok(())
}

// The same as an error of input and output.
fn refuse_output(cause: Cause) -> io::Result<()> {
    refuse(cause)?;
    Ok(())
}

fn check_cause(rt: &impl Abort, cause: Cause) {
    assert_same(rt, refuse_memory(cause), Err(AllocError));
    match refuse_output(cause) {
        Ok(()) => panic!(rt; "not refused"),
        Err(error) => assert_same(rt, error.kind(), io::ErrorKind::OutOfMemory),
    }
}

#[test]
fn causes_become_errors(rt: HostRuntime) {
    check_cause(&rt, Cause::Store);
    check_cause(&rt, Cause::Count);
}

#[test]
fn orders_offsets(rt: HostRuntime) {
    let before = Offset::before();
    let first = Offset::from(0);
    let last = Offset::from(usize::MAX - 1);
    assert_true(&rt, before < first && first < last && before <= before);
    assert_same(&rt, Offset::from(usize::MAX), before);
    assert_same(&rt, before.cmp_index(0), Ordering::Less);
    assert_same(&rt, first.cmp_index(0), Ordering::Equal);
    assert_same(&rt, last.cmp_index(0), Ordering::Greater);
    assert_same(&rt, (before.value(), first.value()), (None, Some(0)));
    assert_true(&rt, before.is_before() && !first.is_before());
    assert_true(
        &rt,
        Address::nowhere().is_nowhere() && Address::nowhere().offset == first,
    );
}

#[test]
fn steps_offsets(rt: HostRuntime) {
    let mut offset = Offset::before();
    offset.incr();
    assert_same(&rt, offset, Offset::from(0));
    offset.decr();
    assert_same(&rt, offset, Offset::before());
    let mut offset = Offset::from(usize::MAX - 2);
    offset.incr();
    assert_same(&rt, offset.unwrap(), 18446744073709551614);
}

fn clone_of<K: Clone, V: Clone>(item: &Item<K, V>) -> Result<Item<K, V>, AllocError>
    requires key { (x y : K) → K.is_clone x y → y ≡ x }
    requires value { (x y : V) → V.is_clone x y → y ≡ x }
    ensures { IfOk result (λ copy. copy ≡ item.now) }
{
    item.clone()
}

#[test]
fn writes_items(rt: HostRuntime) {
    let mut item = Item::new(1, 10);
    let (key, value) = item.as_pair_mut();
    *key = 2;
    *value = 20;
    assert_same(&rt, item.as_pair(), (&2, &20));
    let (key, value) = item.pair_mut();
    *key = 3;
    *value = 30;
    assert_same(&rt, item.as_pair(), (&3, &30));
    *item.key_mut() = 4;
    *item.value_mut() = 40;
    assert_same(&rt, (*item.key(), *item.as_item().value()), (4, 40));
}

#[test]
fn sets_and_gives_up_items(rt: HostRuntime) -> Result<(), Fail> {
    let mut item = Item::new(4, 40);
    assert_same(&rt, item.set_key(5), 4);
    assert_same(&rt, item.set_value(50), 40);
    assert_true(&rt, item == Item::new(5, 0) && item < Item::new(6, 0));
    let copy = clone_of(&item)?;
    assert_same(&rt, copy.into_pair(), (5, 50));
    assert_same(&rt, item.set(6, 60), (5, 50));
    assert_same(
        &rt,
        (clone_of(&item)?.into_key(), clone_of(&item)?.into_value()),
        (6, 60),
    );
    assert_same(&rt, item.into_inner(), (6, 60));
    Ok(())
}

#[test]
fn edits_slots(rt: HostRuntime) {
    let mut slots: Slots<u32, 4> = Slots::new();
    slots.push(1);
    slots.push(3);
    slots.insert(1, 2);
    if let Some(first) = slots.get_mut(0) {
        *first = 7;
    }
    assert_same(&rt, slots.remove(1), 2);
    assert_same(&rt, slots.len(), 2);
    assert_same(&rt, (slots.get(0), slots.get(2)), (Some(&7), None));
}

#[test]
fn lists_slots(rt: HostRuntime) {
    let mut slots: Slots<u32, 4> = Slots::new();
    slots.push(7);
    slots.push(3);
    let mut left = slots.iter();
    assert_same(&rt, left.size_hint(), (2, Some(2)));
    assert_same(&rt, left.next(), Some(&7));
    assert_same(&rt, left.size_hint(), (1, Some(1)));
    assert_same(&rt, left.next(), Some(&3));
    assert_same(&rt, left.next(), None);
    let mut from_back = slots.iter();
    assert_same(&rt, from_back.next_back(), Some(&3));
    assert_same(&rt, from_back.next(), Some(&7));
    assert_same(&rt, from_back.next_back(), None);
}

fn slots_of(numbers: &[u32]) -> Slots<Item<u32, u32>, 9>
    requires { length numbers.now ≤ 9 }
    ensures { map (λ item. item.0) result ≡ numbers.now }
{
    let mut slots = Slots::new();
    for number in numbers {
        slots.push(Item::new(*number, 0));
    }
    slots
}

#[test]
fn finds_the_last_at_most(rt: HostRuntime) {
    let mut numbers = [7, 2, 4, 2, 4, 4];
    numbers.sort_unstable();
    let slots = slots_of(&numbers);
    for (key, index) in [
        (1, None),
        (2, Some(1)),
        (3, Some(1)),
        (4, Some(4)),
        (6, Some(4)),
        (7, Some(5)),
        (9, Some(5)),
    ] {
        assert_same_in(&rt, key, binary_search_min(&slots, &key), index);
    }
    assert_same(&rt, binary_search_min(&slots_of(&[]), &1), None);
}
