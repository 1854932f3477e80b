//! Iterators over the elements of a set.
ghost use Rattle.std.specs.Prelude.{◌≡◌, true, IfSome};
ghost use Rattle.std.specs.Iterator.SizeHint.{IsWithinCount};
ghost use Rattle.std.specs.Iterator.{YieldsFirstRef, YieldsLastRef, item_count, UpTo};
ghost use Rattle.btree_walk.specs.Bounds.{is_valid};
ghost use Rattle.btree_set.specs.Elements.{elements_between, elements_from_to};

use crate::BTreeSet;
use btree_item::Query;
use btree_map::IntoKeys;
use btree_node::NodesMut;
use btree_walk::{Keys, Range as Pairs};
use std::iter::{DoubleEndedIterator, FusedIterator, IntoIterator, Iterator};
use std::marker::Model;
use std::ops::RangeBounds;

/// An iterator over the elements of a set in order, from both ends.
pub type Iter<'a, T, C> = Keys<'a, T, (), C>;

/// An iterator that owns a set and gives its elements in order, from both ends.
pub type IntoIter<T, C> = IntoKeys<T, (), C>;

/// An iterator over the elements of a set between two bounds, in order and from both ends.
#[derive(Drop)]
pub struct Range<'a, T: Ord, C: NodesMut<T, ()>> {
    pairs: Pairs<'a, T, (), C>,
}

impl<'a, T: Ord, C: NodesMut<T, ()>> Model for Range<'a, T, C> {
    ghost use Rattle.std.specs.Prelude.{List};
    ghost use Rattle.std.specs.Map.{keys_of};

    ghost Value = { List T };

    ghost view = { λ it. keys_of it.pairs };
}

impl<'a, T: Ord, C: NodesMut<T, ()>> Iterator for Range<'a, T, C> {
    type Item = &'a T;

    ghost next_gives = { YieldsFirstRef (λ rest. rest) };

    ghost remaining = { item_count (λ rest. rest) };

    fn next(&mut self) -> Option<&'a T> {
        match self.pairs.next() {
            Some((element, _)) => Some(element),
            None => None,
        }
    }

    /// Returns 0 and `None`, since the number of elements that are left is not known.
    fn size_hint(&self) -> (usize, Option<usize>)
        ensures unknown { result ≡ (0, None) }
        ensures lower { IsWithinCount result.0 (item_count (λ rest. rest) self.now) }
        ensures upper { IfSome result.1 (UpTo (item_count (λ rest. rest) self.now)) }
    {
        (0, None)
    }
}

impl<'a, T: Ord, C: NodesMut<T, ()>> DoubleEndedIterator for Range<'a, T, C> {
    ghost next_back_gives = { YieldsLastRef (λ rest. rest) };

    fn next_back(&mut self) -> Option<&'a T> {
        match self.pairs.next_back() {
            Some((element, _)) => Some(element),
            None => None,
        }
    }
}

impl<'a, T: Ord, C: NodesMut<T, ()>> FusedIterator for Range<'a, T, C> {}

impl<T: Ord, C: NodesMut<T, ()>> BTreeSet<T, C> {
    /// Returns an iterator over the elements in order, from both ends. A whole walk from the front fetches each node once.
    pub fn iter(&self) -> Iter<'_, T, C>
        ensures { result ≡ self.now.elements }
    {
        self.map.keys()
    }

    /// Returns an iterator over the elements in a range, as `BTreeMap::range` takes it, from both ends. The start must be at most the end, and
    /// they may not be equal if both are excluded: `is_valid_range` tells.
    pub fn range<R: RangeBounds<T> + Drop>(&self, range: R) -> Range<'_, T, C>
        requires bounds { R.has_bounds range }
        requires valid { is_valid T.cmp (R.start_bound range) (R.end_bound range) ≡ true }
        ensures { result ≡
            elements_between T.cmp (R.start_bound range) (R.end_bound range) self.now.elements }
    {
        Range {
            pairs: self.map.range(range),
        }
    }

    /// Returns whether `range` may be asked for a range, as that of a map tells.
    pub fn is_valid_range<R: RangeBounds<T>>(&self, range: &R) -> bool
        ensures { R.has_bounds range.now →
            result ≡ is_valid T.cmp (R.start_bound range.now) (R.end_bound range.now) }
    {
        self.map.is_valid_range(range)
    }

    /// Returns an iterator over the elements that are not below one query and are below another, from both ends, as `BTreeMap::range_by` does
    /// over pairs.
    pub fn range_by<Q: Query<T>, R: Query<T>>(&self, start: &Q, end: &R) -> Range<'_, T, C>
        ensures { result ≡ elements_from_to Q.compare start.now R.compare end.now self.now.elements }
    {
        Range {
            pairs: self.map.range_by(start, end),
        }
    }
}

impl<'a, T: Ord, C: NodesMut<T, ()>> IntoIterator for &'a BTreeSet<T, C> {
    type Item = &'a T;

    type IntoIter = Iter<'a, T, C>;

    ghost into_iter_gives = { λ set rest. rest ≡ set.now.elements };

    fn into_iter(self) -> Iter<'a, T, C> {
        self.iter()
    }
}

impl<T: Ord + Drop, C: NodesMut<T, ()> + Drop> IntoIterator for BTreeSet<T, C> {
    type Item = T;

    type IntoIter = IntoIter<T, C>;

    ghost into_iter_gives = { λ set rest. rest ≡ set.elements };

    fn into_iter(self) -> IntoIter<T, C> {
        let BTreeSet { map } = self;
        map.into_keys()
    }
}
