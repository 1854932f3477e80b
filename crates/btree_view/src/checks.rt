//! The checks of one node.
ghost use Rattle.std.specs.Prelude.{◌≡◌, ◌≤◌, ◌<◌, ◌↔◌, IsFalse, IsTrue, length, map};
ghost use Rattle.std.specs.List.Sorted.{IsStrictlySortedBy};
ghost use Rattle.std.specs.Option.{option_copied};
ghost use Rattle.btree_view.specs.Checks.{BeginsAbove, EndsBelow, GivesKeysVerdict, is_judged_as_root};

use btree_item::{Fault, Keyed, MIN_ITEMS, Slots};

fn is_root<K>(min: Option<&K>, max: Option<&K>) -> bool
    ensures { result ≡ is_judged_as_root (option_copied min.entry) (option_copied max.entry) }
{
    match min {
        None => match max {
            None => true,
            Some(_) => false,
        },
        Some(_) => false,
    }
}

fn has_fewest(count: usize, is_root: bool) -> bool
    ensures { IsTrue result ↔ (IsFalse is_root → MIN_ITEMS ≤ count) }
{
    is_root || count >= MIN_ITEMS
}

fn has_root_item(count: usize, is_root: bool) -> bool
    ensures { IsTrue result ↔ (IsTrue is_root → 0 < count) }
{
    !is_root || count > 0
}

// Returns whether the keys ascend strictly.
fn keys_ascend<T: Keyed, const N: usize>(slots: &Slots<T, N>) -> bool
where
    T::Key: Ord,
    ensures { IsTrue result ↔ IsStrictlySortedBy T.Key.cmp (map T.key_of slots.now) }
{
    for index in 1..slots.len() {
        let before = slots.get(index - 1).unwrap().key();
        let here = slots.get(index).unwrap().key();
        if !(before < here) {
            return false;
        }
    }
    true
}

// Returns whether the first key is greater than the separator before it, if there are both.
fn begins_above<T: Keyed, const N: usize>(slots: &Slots<T, N>, min: Option<&T::Key>) -> bool
where
    T::Key: Ord,
    ensures { IsTrue result ↔ BeginsAbove T.Key.cmp (option_copied min.entry) (map T.key_of slots.now) }
{
    match min {
        Some(min) => match slots.get(0) {
            Some(first) => min < first.key(),
            None => true,
        },
        None => true,
    }
}

// Returns whether the last key is less than the separator after it, if there are both.
fn ends_below<T: Keyed, const N: usize>(slots: &Slots<T, N>, max: Option<&T::Key>) -> bool
where
    T::Key: Ord,
    ensures { IsTrue result ↔ EndsBelow T.Key.cmp (option_copied max.entry) (map T.key_of slots.now) }
{
    let count = slots.len();
    if count == 0 {
        return true;
    }
    match max {
        Some(max) => match slots.get(count - 1) {
            Some(last) => last.key() < max,
            None => true,
        },
        None => true,
    }
}

/// Does the checks of a node in order, and returns the fault of the first that fails. The node has this parent, and in a well formed tree
/// at most so many items; the rest is what is expected of it: the parent, and the nearest separators on both sides.
pub fn check_node<T: Keyed, const N: usize>(
    slots: &Slots<T, N>,
    most: usize,
    own_parent: Option<usize>,
    parent: Option<usize>,
    min: Option<&T::Key>,
    max: Option<&T::Key>,
) -> Result<(), Fault>
where
    T::Key: Ord,
    ensures { GivesKeysVerdict T.Key.cmp parent min.entry max.entry
        own_parent most (map T.key_of slots.now) result }
{
    let count = slots.len();
    let is_root = is_root(min, max);
    if own_parent != parent {
        return Err(Fault::WrongParent);
    }
    if count > most {
        return Err(Fault::Overflowing);
    }
    if !has_fewest(count, is_root) {
        return Err(Fault::Underflowing);
    }
    if !has_root_item(count, is_root) {
        return Err(Fault::EmptyRoot);
    }
    if !keys_ascend(slots) {
        return Err(Fault::Unsorted);
    }
    if !begins_above(slots, min) {
        return Err(Fault::BelowSeparator);
    }
    if !ends_below(slots, max) {
        return Err(Fault::AboveSeparator);
    }
    Ok(())
}
