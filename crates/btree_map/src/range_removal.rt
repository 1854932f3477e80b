//! Removal of the pairs in a range.
ghost use Rattle.std.specs.Prelude.{◌≡◌, false, true, Some, IsFalse, IsTrue, slice_get};
ghost use Rattle.std.specs.BTreeMap.Range.{is_past_end};
ghost use Rattle.btree_laws.specs.TreeState.{pairs_of};
ghost use Rattle.btree_walk.specs.Bounds.{bound_key};
ghost use Rattle.btree_map.specs.Editing.{RemovesEntry, left_of};
ghost use Rattle.btree_map.specs.Removal.{AddsNoNode, pairs_outside};

use crate::{BTreeMap, EntriesMut};
use btree_ext::BTreeExt;
use btree_node::NodesMut;
use std::ops::{Bound, RangeBounds};

fn is_past<K: Ord>(end: Bound<&K>, key: &K) -> bool
    ensures { result ≡ is_past_end K.cmp (bound_key end.entry) key.now }
{
    match end {
        Bound::Included(last) => last.cmp(key).is_lt(),
        Bound::Excluded(first) => first.cmp(key).is_le(),
        Bound::Unbounded => false,
    }
}

// Removes the first pair that is left, if it is not past an end bound, and returns whether it did.
fn remove_next<'a, 'b, K: Ord + Drop, V: Drop, C: NodesMut<K, V>>(
    pairs: &'b mut EntriesMut<'a, K, V, C>,
    end: Bound<&K>,
) -> bool
    ensures removed { IsTrue result → (x : K × V) × RemovesEntry pairs.old pairs.new x
        × (is_past_end K.cmp (bound_key end.entry) x.0 ≡ false) }
    ensures same { IsFalse result → pairs.new ≡ pairs.old }
    ensures past { IsFalse result → (x : K × V) → slice_get (left_of pairs.old) 0 ≡ Some x
        → is_past_end K.cmp (bound_key end.entry) x.0 ≡ true }
{
    let Some(first) = pairs.peek() else {
        return false;
    };
    if is_past(end, first.key()) {
        return false;
    }
    drop(pairs.remove());
    true
}

fn remove_between<K: Ord + Drop, V: Drop, C: NodesMut<K, V>>(
    map: &mut BTreeMap<K, V, C>,
    start: Bound<&K>,
    end: Bound<&K>,
)
    ensures pairs { pairs_of map.new ≡
        pairs_outside K.cmp (bound_key start.entry) (bound_key end.entry) (pairs_of map.old) }
    ensures unchanged { pairs_of map.new ≡ pairs_of map.old → map.new ≡ map.old }
    ensures frees { AddsNoNode map.old map.new }
    ensures uncounted { map.new.kept ≡ map.old.kept }
{
    map.tell_well_formed();
    let mut pairs = map.entries_mut_from(start);
    'rest: while remove_next(&mut pairs, end) {}
}

impl<K: Ord + Drop, V: Drop, C: NodesMut<K, V>> BTreeMap<K, V, C> {
    /// Removes the pairs whose keys are in a range, as `range` takes it, and drops them. If the start of the range is above its end, there
    /// are none.
    ///
    /// It searches once, for the start; each removal reads as many nodes as one by an editing cursor. It frees nodes and cannot fail.
    pub fn remove_range<R: RangeBounds<K>>(&mut self, range: R)
        requires { R.has_bounds range }
        ensures pairs { pairs_of self.new ≡
            pairs_outside K.cmp (R.start_bound range) (R.end_bound range) (pairs_of self.old) }
        ensures unchanged { pairs_of self.new ≡ pairs_of self.old → self.new ≡ self.old }
        ensures frees { AddsNoNode self.old self.new }
        ensures uncounted { self.new.kept ≡ self.old.kept }
    {
        remove_between(self, range.start_bound(), range.end_bound());
    }
}
