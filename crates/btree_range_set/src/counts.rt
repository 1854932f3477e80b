//! How many of some numbers are in a set.
ghost use Rattle.std.specs.Prelude.{◌≡◌, ◌-◌, ◌≤◌};
ghost use Rattle.btree_range_set.specs.Counts.{count_between};
ghost use Rattle.btree_range_set.specs.Ranges.{AreRuns};

use crate::{Overlapping, RangeSet};
use btree_node::NodesMut;
use std::iter::Iterator;

// Returns how many of the numbers from `start` up to `end` are in the ranges.
fn count_in<'a, C: NodesMut<u64, u64>>(ranges: Overlapping<'a, C>, start: u64, end: u64) -> u64
    requires { AreRuns ranges }
    ensures { result ≡ count_between ranges.entry start end }
{
    let mut rest = ranges;
    let mut from = start;
    let mut count = 0;
    while let Some((first, past)) = rest.next() {
        let low = first.max(from);
        let high = past.min(end);
        if low < high {
            count += high - low;
            from = high;
        }
    }
    count
}

impl<C: NodesMut<u64, u64>> RangeSet<C> {
    /// Returns how many of the numbers from `start` up to `end`, which is not one of them, are in the set. It searches twice, and reads each
    /// range that has one of them.
    pub fn count(&self, start: u64, end: u64) -> u64
        ensures value { result ≡ count_between self.now.ranges start end }
        ensures most { result ≤ end - start }
    {
        count_in(self.overlapping(start, end), start, end)
    }
}
