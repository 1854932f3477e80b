//! What a map tells of a number, of its ends and of some numbers.
ghost use Rattle.std.specs.Prelude.{◌≡◌, ◌<◌, ◌≤◌, ℕ, IfNone, IfSome, IsFalse, IsSome, IsTrue, None, is_some, option_copied, option_map, slice_get};
ghost use Rattle.btree_map.specs.Lists.{last_of};
ghost use Rattle.btree_range_map.specs.Places.{IsRangeAround};
ghost use Rattle.btree_range_map.specs.Ranges.{IsMaximalRun, Overlaps, OverlapsNone, range_now, value_at};

use crate::edits::range_around;
use crate::{RangeMap, Span};
use btree_node::NodesMut;
use std::iter::Iterator;

impl<V: Clone + Eq, C: NodesMut<u64, Span<V>>> RangeMap<V, C> {
    /// Returns the value of a number, or `None`. It copies nothing.
    pub fn get(&self, number: u64) -> Option<&V>
        ensures { option_copied result ≡ value_at self.now.ranges number }
    {
        let (_, span) = range_around(&self.map, number)?;
        Some(&span.value)
    }

    /// Returns the range that a number is in, or `None`.
    #[tactic(auto, using(crate::proofs::QueryLemmas::queries))]
    pub fn get_range(&self, number: u64) -> Option<(u64, &Span<V>)>
        ensures around { IfSome result (λ range.
            IsRangeAround self.now.ranges number (range_now range)) }
        ensures maximal { IfSome result (λ range. IsMaximalRun self.now.ranges (range_now range)) }
        ensures none { IfNone result (value_at self.now.ranges number ≡ None) }
    {
        range_around(&self.map, number)
    }

    /// Returns whether a number has a value.
    pub fn contains(&self, number: u64) -> bool
        ensures { result ≡ is_some (value_at self.now.ranges number) }
    {
        self.get(number).is_some()
    }

    /// Returns the first range, or `None` if there are no numbers. It reads one node of each level.
    #[tactic(auto, using(crate::proofs::QueryLemmas::queries))]
    pub fn first(&self) -> Option<(u64, &Span<V>)>
        ensures listed { option_map range_now result ≡ slice_get self.now.ranges 0 }
        ensures lowest { IfSome result (λ range. (n : ℕ) →
            IsSome (value_at self.now.ranges n) → range.0 ≤ n) }
    {
        match self.map.first_key_value() {
            Some((start, span)) => Some((*start, span)),
            None => None,
        }
    }

    /// Returns the last range, or `None` if there are no numbers. It reads one node of each level.
    #[tactic(auto, using(crate::proofs::QueryLemmas::queries))]
    pub fn last(&self) -> Option<(u64, &Span<V>)>
        ensures listed { option_map range_now result ≡ last_of self.now.ranges }
        ensures highest { IfSome result (λ range. (n : ℕ) →
            IsSome (value_at self.now.ranges n) → n < range.1.now.end) }
    {
        match self.map.last_key_value() {
            Some((start, span)) => Some((*start, span)),
            None => None,
        }
    }

    /// Returns whether a number from `start` up to `end`, which is not one of them, has a value. There is none if `start` is at least `end`.
    /// It searches twice.
    #[tactic(auto, using(crate::specs::CallerLaws::range_laws))]
    pub fn overlaps(&self, start: u64, end: u64) -> bool
        ensures some { IsTrue result → Overlaps self.now.ranges start end }
        ensures none { IsFalse result → OverlapsNone self.now.ranges start end }
    {
        self.overlapping(start, end).next().is_some()
    }
}
