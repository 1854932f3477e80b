//! The gaps of a set.
ghost use Rattle.std.specs.Iterator.SizeHint.{IsWithinCount};
ghost use Rattle.std.specs.Iterator.{UpTo, YieldsFirst, item_count};
ghost use Rattle.std.specs.Prelude.{◌≡◌, IfSome, None};
ghost use Rattle.btree_range_set.specs.Gaps.{AreGaps, gaps_from};

use crate::{Overlapping, RangeSet};
use btree_node::NodesMut;
use std::iter::{FusedIterator, Iterator};
use std::marker::Model;

// Returns the next gap between the ranges that are left, from `start` up to `end`, and moves both past it.
fn next_gap<'a, C: NodesMut<u64, u64>>(
    ranges: &mut Overlapping<'a, C>,
    start: &mut u64,
    end: u64,
) -> Option<(u64, u64)>
    ensures { YieldsFirst (λ gaps. gaps)
        (gaps_from start.old end ranges.old) result (gaps_from start.new end ranges.new) }
{
    while let Some((first, last)) = ranges.next() {
        let from = *start;
        *start = last;
        if from < first {
            return Some((from, first));
        }
    }
    let from = *start;
    *start = end;
    if from < end {
        return Some((from, end));
    }
    None
}

/// An iterator over the gaps of a set between two numbers, each as its start and its end, in ascending order. Contracts see it as the list
/// of those left.
#[derive(Drop)]
pub struct Gaps<'a, C: NodesMut<u64, u64>> {
    // The ranges that are left, and where the next gap may begin.
    ranges: Overlapping<'a, C>,
    start: u64,
    end: u64,
}

impl<'a, C: NodesMut<u64, u64>> Model for Gaps<'a, C> {
    ghost use Rattle.std.specs.Prelude.{List, ℕ};
    ghost use Rattle.btree_range_set.specs.Gaps.{gaps_from};

    ghost Value = { List (ℕ × ℕ) };

    ghost view = { λ it. gaps_from it.start it.end it.ranges };
}

impl<'a, C: NodesMut<u64, u64>> Iterator for Gaps<'a, C> {
    type Item = (u64, u64);

    ghost next_gives = { YieldsFirst (λ rest. rest) };

    ghost remaining = { item_count (λ rest. rest) };

    fn next(&mut self) -> Option<(u64, u64)> {
        next_gap(&mut self.ranges, &mut self.start, self.end)
    }

    /// Returns 0 and `None`, since the number of gaps that are left is not known.
    fn size_hint(&self) -> (usize, Option<usize>)
        ensures unknown { result ≡ (0, None) }
        ensures lower { IsWithinCount result.0 (item_count (λ rest. rest) self.now) }
        ensures upper { IfSome result.1 (UpTo (item_count (λ rest. rest) self.now)) }
    {
        (0, None)
    }
}

impl<'a, C: NodesMut<u64, u64>> FusedIterator for Gaps<'a, C> {}

impl<C: NodesMut<u64, u64>> RangeSet<C> {
    /// Returns an iterator over the gaps from `start` up to `end`, in ascending order: of the numbers from `start` on that are below `end`, the
    /// maximal runs of those that are not in the set. There are none if `start` is at least `end`.
    pub fn gaps(&self, start: u64, end: u64) -> Gaps<'_, C>
        ensures { AreGaps self.now.ranges start end result }
    {
        Gaps {
            ranges: self.overlapping(start, end),
            start,
            end,
        }
    }
}
