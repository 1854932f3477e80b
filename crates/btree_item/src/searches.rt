//! Searches in slots in the order of their keys.
ghost use Rattle.std.specs.Prelude.{◌≡◌, ◌+◌, ◌<◌, ◌≤◌, Some, IfNone, IfSome, length, map, slice_get};
ghost use Rattle.std.specs.List.Sorted.{IsSearchInRange, IsSorted, IsStrictlySortedBy};
ghost use Rattle.btree_item.specs.Comparisons.{comparisons_for_place, comparisons_in_slots, TicksBy};
ghost use Rattle.btree_item.specs.Keys.{key_place, AllAbove, AllBelow, IsFirstNotBelow, IsLastAtMost, IsNotBelowAt};

use crate::{Keyed, LEAF_SLOTS, MAX_COMPARISONS, Query, Slots};
use btree_steps::Steps;

// The index at which a search divides the slots: the middle of a full leaf with one item too many.
const MIDDLE: usize = LEAF_SLOTS / 2;

fn key_at<T: Keyed, const N: usize>(slots: &Slots<T, N>, index: usize) -> &T::Key
    requires { index < length slots.now }
    ensures { slice_get (map T.key_of slots.now) index ≡ Some result.now }
{
    slots.get(index).unwrap().key()
}

// Returns the first index from `start` to `end` whose key is not less than `key`. It always compares all of these, so that no branch
// depends on the result, and ticks for each.
#[tactic(auto, using(crate::proofs::KeyLemmas::search_steps))]
fn first_not_below<T: Keyed, Q: Query<T::Key>, const N: usize>(
    slots: &Slots<T, N>,
    key: &Q,
    start: usize,
    end: usize,
    steps: &mut Steps,
) -> usize
where
    T::Key: Ord,
    requires ordered { start ≤ end }
    requires within { end ≤ length slots.now }
    requires ascends { IsStrictlySortedBy T.Key.cmp (map T.key_of slots.now) }
    requires before { AllBelow Q.compare key.now start (map T.key_of slots.now) }
    requires here { IsNotBelowAt Q.compare key.now end (map T.key_of slots.now) }
    ensures place { IsFirstNotBelow Q.compare key.now result (map T.key_of slots.now) }
    ensures from { start ≤ result }
    ensures to { result ≤ end }
    ensures ticks { steps.new.count + start ≡ steps.old.count + end }
{
    let mut place = start;
    for i in start..end {
        steps.tick();
        if key.is_after(key_at(slots, i)) {
            place = i + 1;
        }
    }
    place
}

// Does the same over all slots. The key in the middle decides which half to search. Of the comparisons that a node may take, one is left.
#[tactic(auto, using(crate::proofs::KeyLemmas::search_halves))]
#[inline(always)]
fn lower_bound<T: Keyed, Q: Query<T::Key>, const N: usize>(
    slots: &Slots<T, N>,
    key: &Q,
    steps: &mut Steps,
) -> usize
where
    T::Key: Ord,
    requires { IsStrictlySortedBy T.Key.cmp (map T.key_of slots.now) }
    ensures place { IsFirstNotBelow Q.compare key.now result (map T.key_of slots.now) }
    ensures counted { TicksBy steps.old steps.new (comparisons_for_place (length slots.now) result) }
    ensures ticks { length slots.now ≤ LEAF_SLOTS →
        steps.new.count < steps.old.count + MAX_COMPARISONS }
{
    let len = slots.len();
    if len <= MIDDLE {
        return first_not_below(slots, key, 0, len, steps);
    }
    // Reads a slot before the middle too, so that two cache lines of the node are loaded together.
    let _early = key_at(slots, MIDDLE / 2);
    steps.tick();
    if key.is_after(key_at(slots, MIDDLE)) {
        first_not_below(slots, key, MIDDLE + 1, len, steps)
    } else {
        first_not_below(slots, key, 0, MIDDLE, steps)
    }
}

/// Returns the place of a key in slots whose keys ascend strictly: `Ok` if it is there, or `Err` with the number of smaller keys. It
/// ticks once for each comparison of keys. In up to nine slots these are at most six: five by `<`, and then one by `==`.
#[inline(always)]
pub fn search_counted<T: Keyed, Q: Query<T::Key>, const N: usize>(
    slots: &Slots<T, N>,
    key: &Q,
    steps: &mut Steps,
) -> Result<usize, usize>
where
    T::Key: Ord,
    requires { IsStrictlySortedBy T.Key.cmp (map T.key_of slots.now) }
    ensures place { result ≡ key_place Q.compare key.now (map T.key_of slots.now) }
    ensures within { IsSearchInRange result (length slots.now) }
    ensures fits { length slots.now ≤ N }
    ensures counted { TicksBy steps.old steps.new
        (comparisons_in_slots Q.compare T.key_of key.now slots.now) }
    ensures ticks { length slots.now ≤ LEAF_SLOTS →
        steps.new.count ≤ steps.old.count + MAX_COMPARISONS }
{
    let place = lower_bound(slots, key, steps);
    if place >= slots.len() {
        return Err(place);
    }
    steps.tick();
    if key.is_at(key_at(slots, place)) {
        Ok(place)
    } else {
        Err(place)
    }
}

/// Does the same without a counter.
pub fn search<T: Keyed, Q: Query<T::Key>, const N: usize>(
    slots: &Slots<T, N>,
    key: &Q,
) -> Result<usize, usize>
where
    T::Key: Ord,
    requires { IsStrictlySortedBy T.Key.cmp (map T.key_of slots.now) }
    ensures place { result ≡ key_place Q.compare key.now (map T.key_of slots.now) }
    ensures within { IsSearchInRange result (length slots.now) }
    ensures fits { length slots.now ≤ N }
{
    let mut steps = Steps::new();
    search_counted(slots, key, &mut steps)
}

/// Returns the last index whose key is at most the given one, in slots whose keys do not descend; equal keys may be adjacent. It halves
/// the slots until one is left.
#[tactic(auto, using(crate::proofs::MinLemmas::min_steps))]
pub fn binary_search_min<T: Keyed, const N: usize>(
    slots: &Slots<T, N>,
    key: &T::Key,
) -> Option<usize>
where
    T::Key: Ord,
    requires { IsSorted T.Key.cmp (map T.key_of slots.now) }
    ensures last { IfSome result (λ i. IsLastAtMost T.Key.cmp key.now i (map T.key_of slots.now)) }
    ensures none { IfNone result (AllAbove T.Key.cmp key.now 0 (map T.key_of slots.now)) }
{
    let mut low = 0;
    let mut high = slots.len();
    while low < high {
        let middle = low + (high - low) / 2;
        if key < key_at(slots, middle) {
            high = middle;
        } else {
            low = middle + 1;
        }
    }
    if low == 0 { None } else { Some(low - 1) }
}
