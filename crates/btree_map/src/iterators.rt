//! Iterators over the pairs, the keys and the values of a map.
ghost use Rattle.std.specs.Prelude.{◌≡◌, true};
ghost use Rattle.std.specs.BTreeMap.Range.{entries_between};
ghost use Rattle.std.specs.Map.{keys_of, values_of};
ghost use Rattle.btree_laws.specs.TreeState.{pairs_of};
ghost use Rattle.btree_walk.specs.Bounds.{is_valid};

use crate::BTreeMap;
use btree_node::NodesMut;
use btree_walk::{Iter, Keys, Range, Values, is_valid_range};
use std::iter::IntoIterator;
use std::ops::RangeBounds;

impl<K: Ord, V, C: NodesMut<K, V>> BTreeMap<K, V, C> {
    /// Returns an iterator over the pairs in the order of the keys, from both ends. A whole walk from the front fetches each node once.
    pub fn iter(&self) -> Iter<'_, K, V, C>
        ensures { result ≡ pairs_of self.now }
    {
        Iter::new(&self.tree)
    }

    /// Returns an iterator over the pairs whose keys are in a range, as `a..b`, `&a..=&b`, `..` or two bounds, each of them included, excluded
    /// or absent, from both ends. The start must be at most the end, and they may not be equal if both are excluded: `is_valid_range` tells.
    /// A `RangeInclusive` must not be one that was iterated to its end.
    ///
    /// It reads at most three nodes of each level. It makes at most six comparisons in each node on the way to the start, one more if the
    /// start is excluded, and from there on at most one for each item until the end.
    pub fn range<R: RangeBounds<K> + Drop>(&self, range: R) -> Range<'_, K, V, C>
        requires bounds { R.has_bounds range }
        requires valid { is_valid K.cmp (R.start_bound range) (R.end_bound range) ≡ true }
        ensures { result ≡
            entries_between K.cmp (R.start_bound range) (R.end_bound range) (pairs_of self.now) }
    {
        Range::new(&self.tree, (range.start_bound(), range.end_bound()))
    }

    /// Returns whether `range` and `range_mut` may be asked for a range: its start is at most its end, and they are not equal if both are
    /// excluded. A bound that is absent puts no limit on the other one. The function `is_valid_range` tells it of two bounds without a map.
    pub fn is_valid_range<R: RangeBounds<K>>(&self, range: &R) -> bool
        ensures { R.has_bounds range.now → result ≡ is_valid K.cmp (R.start_bound range.now) (R.end_bound range.now) }
    {
        is_valid_range((range.start_bound(), range.end_bound()))
    }

    /// Returns an iterator over the keys in order, from both ends, as `iter` does over the pairs.
    pub fn keys(&self) -> Keys<'_, K, V, C>
        ensures { result ≡ keys_of (pairs_of self.now) }
    {
        Keys::new(&self.tree)
    }

    /// Returns an iterator over the values in the order of their keys, from both ends, as `iter` does over the pairs.
    pub fn values(&self) -> Values<'_, K, V, C>
        ensures { result ≡ values_of (pairs_of self.now) }
    {
        Values::new(&self.tree)
    }
}

impl<'a, K: Ord, V, C: NodesMut<K, V>> IntoIterator for &'a BTreeMap<K, V, C> {
    type Item = (&'a K, &'a V);

    type IntoIter = Iter<'a, K, V, C>;

    ghost into_iter_gives = { λ map rest. rest ≡ pairs_of map.now };

    fn into_iter(self) -> Iter<'a, K, V, C> {
        self.iter()
    }
}
