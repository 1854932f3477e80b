//! Equality of sets: that of their ranges, and so of their numbers. And their clones.
ghost use Rattle.std.specs.Prelude.{◌≡◌, ◌↔◌, ℕ, IfOk, IsTrue, OnErr};
ghost use Rattle.std.specs.Cmp.{on_equiv, on_per, partial_equiv_from_equiv};
ghost use Rattle.btree_range_set.specs.SameRanges.{ranges-equiv, ranges_eq};
ghost use Rattle.btree_range_set.specs.Ranges.{has_number};
ghost use Rattle.btree_range_set.specs.State.{FailsOver};

use crate::RangeSet;
use btree_ext::BTreeExt;
use btree_node::{CloneNodes, NodesMut};
use std::alloc::AllocError;

impl<C: NodesMut<u64, u64>> RangeSet<C> {
    /// Returns whether two sets, which may have different stores, have the same numbers. It compares each range once, up to the first that
    /// differs.
    pub fn same_numbers<D: NodesMut<u64, u64>>(&self, other: &RangeSet<D>) -> bool
        ensures ranges { result ≡ ranges_eq self.now.ranges other.now.ranges }
        ensures numbers { IsTrue result ↔ ((n : ℕ) →
            has_number self.now.ranges n ≡ has_number other.now.ranges n) }
    {
        self.map.same_items(&other.map)
    }
}

impl<C: CloneNodes<u64, u64>> RangeSet<C> {
    /// Returns a set of the same ranges. Its store has refused no node yet. It fails only if the clone of the store fails.
    pub fn clone(&self) -> Result<Self, AllocError>
        ensures ranges { IfOk result (λ copy. copy.ranges ≡ self.now.ranges) }
        ensures uncounted { IfOk result (λ copy. copy.kept ≡ record self.now.kept { refusals = 0 }) }
        ensures may_fail { OnErr result (FailsOver C.MayFail self.now) }
    {
        self.map.tell_well_formed();
        Ok(RangeSet {
            map: self.map.clone()?,
        })
    }
}

impl<C: NodesMut<u64, u64>> PartialEq for RangeSet<C> {
    ghost eq = { λ s t. ranges_eq s.ranges t.ranges };

    ghost laws = { on_per (λ s. s.ranges) (partial_equiv_from_equiv ranges-equiv) };

    fn eq(&self, other: &RangeSet<C>) -> bool {
        self.same_numbers(other)
    }
}

impl<C: NodesMut<u64, u64>> Eq for RangeSet<C> {
    ghost laws = { on_equiv (λ s. s.ranges) ranges-equiv };
}
