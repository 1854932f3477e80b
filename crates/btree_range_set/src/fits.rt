//! A search for free numbers in a row.
ghost use Rattle.std.specs.Prelude.{IfNone, IfSome};
ghost use Rattle.btree_range_set.specs.FirstFit.{FitsNowhere, IsFirstFit};
ghost use Rattle.btree_range_set.specs.Ranges.{has_number};

use crate::RangeSet;
use btree_node::NodesMut;
use std::iter::Iterator;

impl<C: NodesMut<u64, u64>> RangeSet<C> {
    /// Returns the least number, from `start` on, from which `size` numbers in a row are below `end` and not in the set, or `None` if there is
    /// none. It reads the ranges up to the first gap that is long enough.
    #[tactic(auto, using(crate::specs::FitLaws::fits))]
    pub fn first_fit(&self, start: u64, end: u64, size: u64) -> Option<u64>
        ensures first { IfSome result (IsFirstFit (has_number self.now.ranges) start end size) }
        ensures none { IfNone result (FitsNowhere (has_number self.now.ranges) start end size) }
    {
        if size == 0 {
            return if start <= end { Some(start) } else { None };
        }
        let mut gaps = self.gaps(start, end);
        while let Some((first, past)) = gaps.next() {
            if size <= past.saturating_sub(first) {
                return Some(first);
            }
        }
        None
    }
}
