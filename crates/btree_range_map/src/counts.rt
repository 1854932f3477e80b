//! How many of some numbers have a value.
ghost use Rattle.std.specs.Prelude.{◌≡◌, ◌-◌, ◌≤◌};
ghost use Rattle.btree_range_map.specs.Counts.{count_between};
ghost use Rattle.btree_range_map.specs.Ranges.{AscendFrom};

use crate::{Overlapping, RangeMap, Span};
use btree_node::NodesMut;
use std::iter::Iterator;

// Returns how many of the numbers from `start` up to `end` are in the ranges.
fn count_in<'a, V: Clone + Eq, C: NodesMut<u64, Span<V>>>(
    ranges: Overlapping<'a, V, C>,
    start: u64,
    end: u64,
) -> u64
    requires { AscendFrom 0 ranges }
    ensures { result ≡ count_between ranges.entry start end }
{
    let mut rest = ranges;
    let mut from = start;
    let mut count = 0;
    while let Some((first, span)) = rest.next() {
        let low = first.max(from);
        let high = span.end.min(end);
        if low < high {
            count += high - low;
            from = high;
        }
    }
    count
}

impl<V: Clone + Eq, C: NodesMut<u64, Span<V>>> RangeMap<V, C> {
    /// Returns how many of the numbers from `start` up to `end`, which is not one of them, have a value. It searches twice, and reads each
    /// range that has one of them.
    pub fn count(&self, start: u64, end: u64) -> u64
        ensures value { result ≡ count_between self.now.ranges start end }
        ensures most { result ≤ end - start }
    {
        count_in(self.overlapping(start, end), start, end)
    }
}
