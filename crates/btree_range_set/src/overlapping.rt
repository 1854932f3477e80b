//! The ranges of a set that have one of some numbers.
ghost use Rattle.std.specs.Prelude.{◌≡◌, IfSome, None};
ghost use Rattle.std.specs.Iterator.SizeHint.{IsWithinCount};
ghost use Rattle.std.specs.Iterator.{UpTo, YieldsFirst, YieldsLast, item_count};
ghost use Rattle.btree_range_set.specs.Ranges.{AreRuns, ranges_meeting};

use crate::RangeSet;
use crate::edits::range_around;
use btree_node::NodesMut;
use btree_walk::Range as Pairs;
use std::iter::{DoubleEndedIterator, FusedIterator, Iterator};
use std::marker::Model;
use std::ops::Bound;

/// An iterator over the ranges of a set that have one of some numbers, each as its start and its end, in ascending order and from both
/// ends. Contracts see it as the list of those left.
#[derive(Drop)]
pub struct Overlapping<'a, C: NodesMut<u64, u64>> {
    pairs: Pairs<'a, u64, u64, C>,
}

impl<'a, C: NodesMut<u64, u64>> Model for Overlapping<'a, C> {
    ghost use Rattle.std.specs.Prelude.{List, ℕ};

    ghost Value = { List (ℕ × ℕ) };

    ghost view = { λ it. it.pairs };
}

impl<'a, C: NodesMut<u64, u64>> Iterator for Overlapping<'a, C> {
    type Item = (u64, u64);

    ghost next_gives = { YieldsFirst (λ rest. rest) };

    ghost remaining = { item_count (λ rest. rest) };

    fn next(&mut self) -> Option<(u64, u64)> {
        match self.pairs.next() {
            Some((start, end)) => Some((*start, *end)),
            None => None,
        }
    }

    /// Returns 0 and `None`, since the number of ranges that are left is not known.
    fn size_hint(&self) -> (usize, Option<usize>)
        ensures unknown { result ≡ (0, None) }
        ensures lower { IsWithinCount result.0 (item_count (λ rest. rest) self.now) }
        ensures upper { IfSome result.1 (UpTo (item_count (λ rest. rest) self.now)) }
    {
        (0, None)
    }
}

impl<'a, C: NodesMut<u64, u64>> DoubleEndedIterator for Overlapping<'a, C> {
    ghost next_back_gives = { YieldsLast (λ rest. rest) };

    fn next_back(&mut self) -> Option<(u64, u64)> {
        match self.pairs.next_back() {
            Some((start, end)) => Some((*start, *end)),
            None => None,
        }
    }
}

impl<'a, C: NodesMut<u64, u64>> FusedIterator for Overlapping<'a, C> {}

impl<C: NodesMut<u64, u64>> RangeSet<C> {
    /// Returns an iterator over the ranges that have a number from `start` up to `end`, which is not one of them, in ascending order and from
    /// both ends. The ranges are whole, also where they begin before `start` or end after `end`. There are none if `start` is at least `end`.
    /// It searches twice.
    pub fn overlapping(&self, start: u64, end: u64) -> Overlapping<'_, C>
        ensures ranges { result ≡ ranges_meeting start end self.now.ranges }
        ensures runs { AreRuns self.now.ranges }
    {
        if end <= start {
            return Overlapping {
                pairs: self
                    .map
                    .range((Bound::Included(&start), Bound::Excluded(&start))),
            };
        }
        let first = match range_around(&self.map, start) {
            Some((first, _)) => first,
            None => start,
        };
        Overlapping {
            pairs: self
                .map
                .range((Bound::Included(&first), Bound::Excluded(&end))),
        }
    }
}
