//! The map.
ghost use Rattle.std.specs.Prelude.{◌≡◌, ◌↔◌, [], IfErr, IsTrue, OnErr, OnOk, length};
ghost use Rattle.std.specs.Borrow.{u64};
ghost use Rattle.std.specs.FinMap as map;
ghost use Rattle.std.specs.Mem.{FitsInMemory};
ghost use Rattle.btree_node.specs.contracts.node.Node.{the_row as node_row};
ghost use Rattle.btree_laws.specs.TreeState.{limited_to, unlimited};
ghost use Rattle.btree_range_map.specs.contracts.span.Span.{the_row as span_row};
ghost use Rattle.btree_range_map.specs.Ranges.{ClonesEqual, CutsOne, IsAssigned, IsCleared, JoinsNone, TellsSame};
ghost use Rattle.btree_range_map.specs.State.{GrowsWithinLimit, HoldsRanges, IsInsertRefused, IsRemoveRefused};

use crate::assign::assign;
use crate::edits::subtract;
use crate::{RangeRefused, Span};
use btree_ext::BTreeExt;
use btree_map::BTreeMap;
use btree_node::{ClearNodes, NodesMut};
use std::marker::Model;

/// A map from numbers to values, kept as half-open ranges in ascending order, none empty. Where two of them touch, their values differ. It
/// may have any number but `u64::MAX`, since a range ends before its end.
///
/// A look-up of a number makes at most six comparisons at each level, and one more. Only a call that may add a range, and `clone`,
/// allocates memory. An insertion may add two, where it makes three of a range, and a removal one, where it makes two.
#[derive(Drop)]
pub struct RangeMap<V: Clone + Eq, C: NodesMut<u64, Span<V>>> {
    /// From the start of each range to its end and value.
    pub(crate) map: BTreeMap<u64, Span<V>, C>,
}

impl<V: Clone + Eq, C: NodesMut<u64, Span<V>>> Model for RangeMap<V, C> {
    ghost use Rattle.std.specs.Coded.{codes};
    ghost use Rattle.btree_laws.specs.TreeState.{pairs_of};
    ghost use Rattle.btree_range_map.specs.Ranges.{AreRuns, ClonesEqual, TellsSame};
    ghost use Rattle.btree_range_map.specs.State.{RangeState, range_code, ranges_of};

    ghost Value = { RangeState V };

    ghost coded = { range_code (Prim.hlevel codes) };

    ghost view = { λ a. ranges_of a.map };

    ghost invariant = { λ a.
        AreRuns (pairs_of a.map) × TellsSame V.eq × ClonesEqual V.is_clone };
}

impl<V: Clone + Eq, C: NodesMut<u64, Span<V>>> RangeMap<V, C> {
    /// Returns a map without numbers, over an empty store made from `origin`.
    ///
    /// The contract requires that a node fits in memory, that `==` tells whether two values are the same, as a derived one does, and that a clone of
    /// a value is equal to it.
    pub fn new(origin: C::Origin) -> Self
        requires fits { FitsInMemory (node_row u64 (span_row V.row)) }
        requires same { TellsSame V.eq }
        requires clones { ClonesEqual V.is_clone }
        ensures empty { result.ranges ≡ [] }
        ensures uncounted { result.kept ≡ unlimited 0 }
    {
        RangeMap {
            map: BTreeMap::new(origin),
        }
    }

    /// Returns a map without numbers that has at most `limit` ranges, over an empty store made from `origin`.
    ///
    /// The contract requires what that of `new` does.
    pub fn with_limit(origin: C::Origin, limit: usize) -> Self
        requires fits { FitsInMemory (node_row u64 (span_row V.row)) }
        requires same { TellsSame V.eq }
        requires clones { ClonesEqual V.is_clone }
        ensures empty { result.ranges ≡ [] }
        ensures uncounted { result.kept ≡ limited_to limit }
    {
        RangeMap {
            map: BTreeMap::with_limit(origin, limit),
        }
    }

    /// Returns a map without numbers, over an empty store; the store's `len` tells whether it is empty. It keeps its count of refusals.
    ///
    /// The contract requires what that of `new` does.
    pub fn in_store(nodes: C) -> Self
        requires fits { FitsInMemory (node_row u64 (span_row V.row)) }
        requires same { TellsSame V.eq }
        requires clones { ClonesEqual V.is_clone }
        requires empty { map.len (C.content nodes) ≡ 0 }
        ensures empty { result.ranges ≡ [] }
        ensures kept { result.kept ≡ unlimited (C.refusals nodes) }
    {
        RangeMap {
            map: BTreeMap::in_store(nodes),
        }
    }

    /// Returns how many ranges there are.
    pub fn len(&self) -> usize
        ensures { result ≡ length self.now.ranges }
    {
        self.map.len()
    }

    /// Returns whether there are no numbers.
    pub fn is_empty(&self) -> bool
        ensures { IsTrue result ↔ (self.now.ranges ≡ []) }
    {
        self.map.is_empty()
    }

    /// Returns the store of the nodes, for reading.
    pub fn store(&self) -> &C
        ensures content { HoldsRanges (C.content result.now) self.now }
        ensures refusals { C.refusals result.now ≡ self.now.kept.refusals }
    {
        self.map.tell_well_formed();
        self.map.store()
    }

    /// Gives the numbers from `start` up to `end`, which is not one of them, a value, in place of those that they have. Ranges that touch with
    /// equal values become one. If `start` is at least `end`, nothing changes.
    ///
    /// If a range is inside these numbers, or one with this value meets or touches them, it needs no new node and cannot fail. Otherwise it adds
    /// one range, or two if the numbers are inside one range, whose value is then cloned once, before anything changes. It returns an error,
    /// with `start`, `end` and the value, if the store refuses a node that is needed, if there would be more ranges than there may be, or if the
    /// clone fails.
    pub fn insert(&mut self, start: u64, end: u64, value: V) -> Result<(), RangeRefused<Span<V>>>
        ensures assigned { OnOk result
            (IsAssigned self.old.ranges start end value self.new.ranges) }
        ensures uncounted { OnOk result (self.new.kept ≡ self.old.kept) }
        ensures bounded { OnOk result (GrowsWithinLimit self.old self.new) }

        ensures returned { IfErr result (λ r.
            (r.key ≡ start) × (r.value.end ≡ end) × (r.value.value ≡ value)) }
        ensures joins_none { OnErr result (JoinsNone self.old.ranges start end value) }
        ensures cause { IfErr result (λ r.
            IsInsertRefused V.is_infallible self.old self.new start end r.cause) }
    {
        if end <= start {
            return Ok(());
        }
        assign(&mut self.map, start, Span { end, value })
    }

    /// Removes the numbers from `start` up to `end`, which is not removed. If `start` is at least `end`, nothing changes.
    ///
    /// It fails only if the numbers are inside one range, which then would become two, and whose value is cloned once, before anything changes:
    /// it returns an error, with `start` and `end`, if the store refuses a node that is needed, if the number of ranges has reached its limit, or
    /// if the clone fails.
    pub fn remove(&mut self, start: u64, end: u64) -> Result<(), RangeRefused<u64>>
        ensures cleared { OnOk result (IsCleared self.old.ranges start end self.new.ranges) }
        ensures uncounted { OnOk result (self.new.kept ≡ self.old.kept) }
        ensures bounded { OnOk result (GrowsWithinLimit self.old self.new) }

        ensures returned { IfErr result (λ r. (r.key ≡ start) × (r.value ≡ end)) }
        ensures cuts_one { OnErr result (CutsOne self.old.ranges start end) }
        ensures cause { IfErr result (λ r.
            IsRemoveRefused V.is_infallible self.old self.new start end r.cause) }
    {
        if end <= start {
            return Ok(());
        }
        subtract(&mut self.map, start, end)
    }
}

impl<V: Clone + Eq, C: ClearNodes<u64, Span<V>>> RangeMap<V, C> {
    /// Removes all numbers. The count of refusals stays.
    pub fn clear(&mut self)
        ensures empty { self.new.ranges ≡ [] }
        ensures uncounted { self.new.kept ≡ self.old.kept }
    {
        self.map.clear();
    }
}
