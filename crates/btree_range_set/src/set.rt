//! The set.
ghost use Rattle.std.specs.Prelude.{◌≡◌, ◌↔◌, [], IfErr, IsTrue, OnErr, OnOk, length};
ghost use Rattle.std.specs.FinMap as map;
ghost use Rattle.btree_laws.specs.TreeState.{limited_to, unlimited};
ghost use Rattle.btree_range_set.specs.Ranges.{CutsOne, IsDifference, IsUnion, JoinsNone, has_number};
ghost use Rattle.btree_range_set.specs.State.{GrowsWithinLimit, HoldsRanges, IsRefused};

use crate::edits::{add, range_around, subtract};
use btree_ext::BTreeExt;
use btree_item::Refused;
use btree_map::BTreeMap;
use btree_node::{ClearNodes, NodesMut};
use std::marker::Model;

/// A set of numbers, kept as its maximal runs: half-open ranges in ascending order, none empty, no two of which touch. It may have any
/// number but `u64::MAX`, since a range ends before its end.
///
/// A look-up of a number makes at most six comparisons at each level, and one more. Only a call that may add a range, and `clone`,
/// allocates memory. A removal may add one, where it makes two of a range.
#[derive(Drop)]
pub struct RangeSet<C: NodesMut<u64, u64>> {
    /// From the start of each range to its end.
    pub(crate) map: BTreeMap<u64, u64, C>,
}

impl<C: NodesMut<u64, u64>> Model for RangeSet<C> {
    ghost use Rattle.btree_laws.specs.TreeState.{pairs_of};
    ghost use Rattle.btree_range_set.specs.Ranges.{AreRuns};
    ghost use Rattle.btree_range_set.specs.State.{RangeState, range_code, ranges_of};

    ghost Value = { RangeState };

    ghost coded = { range_code };

    ghost view = { λ set. ranges_of set.map };

    ghost invariant = { λ set. AreRuns (pairs_of set.map) };
}

impl<C: NodesMut<u64, u64>> RangeSet<C> {
    /// Returns a set without numbers, over an empty store made from `origin`.
    pub fn new(origin: C::Origin) -> Self
        ensures empty { result.ranges ≡ [] }
        ensures uncounted { result.kept ≡ unlimited 0 }
    {
        RangeSet {
            map: BTreeMap::new(origin),
        }
    }

    /// Returns a set without numbers that has at most `limit` ranges, over an empty store made from `origin`.
    pub fn with_limit(origin: C::Origin, limit: usize) -> Self
        ensures empty { result.ranges ≡ [] }
        ensures uncounted { result.kept ≡ limited_to limit }
    {
        RangeSet {
            map: BTreeMap::with_limit(origin, limit),
        }
    }

    /// Returns a set without numbers, over an empty store; the store's `len` tells whether it is empty. It keeps its count of refusals.
    pub fn in_store(nodes: C) -> Self
        requires { map.len (C.content nodes) ≡ 0 }
        ensures empty { result.ranges ≡ [] }
        ensures kept { result.kept ≡ unlimited (C.refusals nodes) }
    {
        RangeSet {
            map: BTreeMap::in_store(nodes),
        }
    }

    /// Returns how many ranges there are.
    pub fn len(&self) -> usize
        ensures { result ≡ length self.now.ranges }
    {
        self.map.len()
    }

    /// Returns whether there are no numbers.
    pub fn is_empty(&self) -> bool
        ensures { IsTrue result ↔ (self.now.ranges ≡ []) }
    {
        self.map.is_empty()
    }

    /// Returns the store of the nodes, for reading.
    pub fn store(&self) -> &C
        ensures content { HoldsRanges (C.content result.now) self.now }
        ensures refusals { C.refusals result.now ≡ self.now.kept.refusals }
    {
        self.map.tell_well_formed();
        self.map.store()
    }

    /// Returns whether a number is in the set.
    pub fn contains(&self, number: u64) -> bool
        ensures { result ≡ has_number self.now.ranges number }
    {
        range_around(&self.map, number).is_some()
    }

    /// Adds the numbers from `start` up to `end`, which is not added. Ranges that meet or touch become one. If `start` is at least `end`,
    /// nothing changes.
    ///
    /// If a range meets or touches these numbers, it needs no new node and cannot fail. Otherwise it returns an error, with `start` and
    /// `end`, if the store refuses a node that is needed, or if the number of ranges has reached its limit.
    pub fn insert(&mut self, start: u64, end: u64) -> Result<(), Refused<u64, u64>>
        ensures united { OnOk result (IsUnion self.old.ranges start end self.new.ranges) }
        ensures uncounted { OnOk result (self.new.kept ≡ self.old.kept) }
        ensures bounded { OnOk result (GrowsWithinLimit self.old self.new) }

        ensures returned { IfErr result (λ r. (r.key ≡ start) × (r.value ≡ end)) }
        ensures joins_none { OnErr result (JoinsNone self.old.ranges start end) }
        ensures cause { IfErr result (λ r. IsRefused self.old self.new r.cause) }
    {
        if end <= start {
            return Ok(());
        }
        add(&mut self.map, start, end)
    }

    /// Removes the numbers from `start` up to `end`, which is not removed. If `start` is at least `end`, nothing changes.
    ///
    /// It fails only if the numbers are inside one range, which then would become two: it returns an error, with `start` and `end`, if the
    /// store refuses a node that is needed, or if the number of ranges has reached its limit.
    pub fn remove(&mut self, start: u64, end: u64) -> Result<(), Refused<u64, u64>>
        ensures without { OnOk result (IsDifference self.old.ranges start end self.new.ranges) }
        ensures uncounted { OnOk result (self.new.kept ≡ self.old.kept) }
        ensures bounded { OnOk result (GrowsWithinLimit self.old self.new) }

        ensures returned { IfErr result (λ r. (r.key ≡ start) × (r.value ≡ end)) }
        ensures cuts_one { OnErr result (CutsOne self.old.ranges start end) }
        ensures cause { IfErr result (λ r. IsRefused self.old self.new r.cause) }
    {
        if end <= start {
            return Ok(());
        }
        subtract(&mut self.map, start, end)
    }
}

impl<C: ClearNodes<u64, u64>> RangeSet<C> {
    /// Removes all numbers. The count of refusals stays.
    pub fn clear(&mut self)
        ensures empty { self.new.ranges ≡ [] }
        ensures uncounted { self.new.kept ≡ self.old.kept }
    {
        self.map.clear();
    }
}
