//! Equality of maps: that of their ranges, and so of the values of their numbers. And their clones.
ghost use Rattle.std.specs.Prelude.{◌≡◌, ◌↔◌, ℕ, IfOk, IsTrue, OnErr};
ghost use Rattle.std.specs.Cmp.{on_equiv, on_per, partial_equiv_from_equiv};
ghost use Rattle.btree_range_map.specs.SameRanges.{ranges-equiv, ranges_eq};
ghost use Rattle.btree_range_map.specs.Ranges.{value_at};
ghost use Rattle.btree_range_map.specs.State.{FailsOver};

use crate::{RangeMap, Span};
use btree_ext::BTreeExt;
use btree_node::{CloneNodes, NodesMut};
use std::alloc::AllocError;

impl<V: Clone + Eq, C: NodesMut<u64, Span<V>>> RangeMap<V, C> {
    /// Returns whether two maps, which may have different stores, give each number the same value. It compares each range once, up to the
    /// first that differs.
    pub fn same_values<D: NodesMut<u64, Span<V>>>(&self, other: &RangeMap<V, D>) -> bool
        ensures ranges { result ≡ ranges_eq V.eq self.now.ranges other.now.ranges }
        ensures values { IsTrue result ↔ ((n : ℕ) →
            value_at self.now.ranges n ≡ value_at other.now.ranges n) }
    {
        self.map.same_items(&other.map)
    }
}

impl<V: Clone + Eq, C: CloneNodes<u64, Span<V>>> RangeMap<V, C> {
    /// Returns a map of the same ranges. Its store has refused no node yet. It fails only if the clone of the store fails.
    pub fn clone(&self) -> Result<Self, AllocError>
        ensures ranges { IfOk result (λ copy. copy.ranges ≡ self.now.ranges) }
        ensures uncounted { IfOk result (λ copy. copy.kept ≡ record self.now.kept { refusals = 0 }) }
        ensures may_fail { OnErr result (FailsOver C.MayFail self.now) }
    {
        self.map.tell_well_formed();
        Ok(RangeMap {
            map: self.map.clone()?,
        })
    }
}

impl<V: Clone + Eq, C: NodesMut<u64, Span<V>>> PartialEq for RangeMap<V, C> {
    ghost eq = { λ s t. ranges_eq V.eq s.ranges t.ranges };

    ghost laws = { on_per (λ s. s.ranges) (partial_equiv_from_equiv (ranges-equiv V.Eq.laws)) };

    fn eq(&self, other: &RangeMap<V, C>) -> bool {
        self.same_values(other)
    }
}

impl<V: Clone + Eq, C: NodesMut<u64, Span<V>>> Eq for RangeMap<V, C> {
    ghost laws = { on_equiv (λ s. s.ranges) (ranges-equiv V.Eq.laws) };
}
