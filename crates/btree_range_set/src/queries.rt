//! What a set tells of a number, of its ends and of some numbers.
ghost use Rattle.std.specs.Prelude.{◌≡◌, ◌<◌, ◌≤◌, ℕ, true, false, IfNone, IfSome, IsFalse, IsTrue, slice_get};
ghost use Rattle.btree_map.specs.Lists.{last_of};
ghost use Rattle.btree_range_set.specs.Places.{IsRangeAround};
ghost use Rattle.btree_range_set.specs.Ranges.{IsMaximalRun, Overlaps, OverlapsNone, has_number};

use crate::RangeSet;
use crate::edits::range_around;
use btree_node::NodesMut;
use std::iter::Iterator;

impl<C: NodesMut<u64, u64>> RangeSet<C> {
    /// Returns the range that a number is in, or `None`.
    #[tactic(auto, using(crate::proofs::QueryLemmas::queries))]
    pub fn get(&self, number: u64) -> Option<(u64, u64)>
        ensures around { IfSome result (IsRangeAround self.now.ranges number) }
        ensures maximal { IfSome result (IsMaximalRun self.now.ranges) }
        ensures none { IfNone result (has_number self.now.ranges number ≡ false) }
    {
        range_around(&self.map, number)
    }

    /// Returns the first range, or `None` if there are no numbers. It reads one node of each level.
    #[tactic(auto, using(crate::proofs::QueryLemmas::queries))]
    pub fn first(&self) -> Option<(u64, u64)>
        ensures listed { result ≡ slice_get self.now.ranges 0 }
        ensures lowest { IfSome result (λ range. (n : ℕ) →
            has_number self.now.ranges n ≡ true → range.0 ≤ n) }
    {
        match self.map.first_key_value() {
            Some((start, end)) => Some((*start, *end)),
            None => None,
        }
    }

    /// Returns the last range, or `None` if there are no numbers. It reads one node of each level.
    #[tactic(auto, using(crate::proofs::QueryLemmas::queries))]
    pub fn last(&self) -> Option<(u64, u64)>
        ensures listed { result ≡ last_of self.now.ranges }
        ensures highest { IfSome result (λ range. (n : ℕ) →
            has_number self.now.ranges n ≡ true → n < range.1) }
    {
        match self.map.last_key_value() {
            Some((start, end)) => Some((*start, *end)),
            None => None,
        }
    }

    /// Returns whether a number from `start` up to `end`, which is not one of them, is in the set. There is none if `start` is at least `end`.
    /// It searches twice.
    #[tactic(auto, using(crate::specs::CallerLaws::range_laws))]
    pub fn overlaps(&self, start: u64, end: u64) -> bool
        ensures some { IsTrue result → Overlaps self.now.ranges start end }
        ensures none { IsFalse result → OverlapsNone self.now.ranges start end }
    {
        self.overlapping(start, end).next().is_some()
    }
}
