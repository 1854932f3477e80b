//! An iterator over the ranges of a set.
ghost use Rattle.std.specs.Prelude.{◌≡◌, IfSome, Some, length};
ghost use Rattle.std.specs.Iterator.SizeHint.{IsWithinCount};
ghost use Rattle.std.specs.Iterator.{UpTo, YieldsFirst, YieldsLast, item_count};
ghost use Rattle.btree_laws.specs.TreeState.{pairs_of};
ghost use Rattle.btree_range_set.specs.Ranges.{AreRuns};

use crate::RangeSet;
use btree_map::BTreeMap;
use btree_node::NodesMut;
use btree_walk::Iter as Pairs;
use std::iter::{DoubleEndedIterator, ExactSizeIterator, FusedIterator, IntoIterator, Iterator};
use std::marker::Model;

/// An iterator over the ranges of a set, each as its start and its end, in ascending order and from both ends. Contracts see it as the list
/// of those left.
#[derive(Drop)]
pub struct Iter<'a, C: NodesMut<u64, u64>> {
    pairs: Pairs<'a, u64, u64, C>,
}

impl<'a, C: NodesMut<u64, u64>> Model for Iter<'a, C> {
    ghost use Rattle.std.specs.Prelude.{List, ℕ};

    ghost Value = { List (ℕ × ℕ) };

    ghost view = { λ it. it.pairs };
}

impl<'a, C: NodesMut<u64, u64>> Iterator for Iter<'a, C> {
    type Item = (u64, u64);

    ghost next_gives = { YieldsFirst (λ rest. rest) };

    ghost remaining = { item_count (λ rest. rest) };

    fn next(&mut self) -> Option<(u64, u64)> {
        match self.pairs.next() {
            Some((start, end)) => Some((*start, *end)),
            None => None,
        }
    }

    /// Returns how many ranges are left, as both bounds.
    fn size_hint(&self) -> (usize, Option<usize>)
        ensures exact { result ≡ (length self.now, Some (length self.now)) }
        ensures lower { IsWithinCount result.0 (item_count (λ rest. rest) self.now) }
        ensures upper { IfSome result.1 (UpTo (item_count (λ rest. rest) self.now)) }
    {
        self.pairs.size_hint()
    }
}

impl<'a, C: NodesMut<u64, u64>> DoubleEndedIterator for Iter<'a, C> {
    ghost next_back_gives = { YieldsLast (λ rest. rest) };

    fn next_back(&mut self) -> Option<(u64, u64)> {
        match self.pairs.next_back() {
            Some((start, end)) => Some((*start, *end)),
            None => None,
        }
    }
}

impl<'a, C: NodesMut<u64, u64>> ExactSizeIterator for Iter<'a, C> {
    fn len(&self) -> usize {
        self.pairs.len()
    }
}

impl<'a, C: NodesMut<u64, u64>> FusedIterator for Iter<'a, C> {}

// Returns an iterator over the pairs of a map.
pub(crate) fn over<C: NodesMut<u64, u64>>(map: &BTreeMap<u64, u64, C>) -> Iter<'_, C>
    ensures { result ≡ pairs_of map.now }
{
    Iter { pairs: map.iter() }
}

impl<C: NodesMut<u64, u64>> RangeSet<C> {
    /// Returns an iterator over the ranges, each as its start and its end, in ascending order and from both ends. They are the maximal runs
    /// of the numbers of the set. A whole walk from the front fetches each node once.
    pub fn iter(&self) -> Iter<'_, C>
        ensures ranges { result ≡ self.now.ranges }
        ensures runs { AreRuns self.now.ranges }
    {
        over(&self.map)
    }
}

impl<'a, C: NodesMut<u64, u64>> IntoIterator for &'a RangeSet<C> {
    type Item = (u64, u64);

    type IntoIter = Iter<'a, C>;

    ghost into_iter_gives = { λ set rest. rest ≡ set.now.ranges };

    fn into_iter(self) -> Iter<'a, C> {
        self.iter()
    }
}
