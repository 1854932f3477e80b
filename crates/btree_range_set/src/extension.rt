//! Insertion and removal of the ranges that an iterator gives.
ghost use Rattle.std.specs.Prelude.{◌≡◌, IfErr, OnErr, OnOk};
ghost use Rattle.std.specs.Iterator.{IsFinite};
ghost use Rattle.btree_range_set.specs.Ranges.{CutsOne, JoinsNone};
ghost use Rattle.btree_range_set.specs.Series.{AddsRanges, AddsRangesUntil, CountsLastRefusal, RemovesRanges, RemovesRangesUntil};
ghost use Rattle.btree_range_set.specs.State.{GrowsWithinLimit};

use crate::RangeSet;
use btree_item::Refused;
use btree_node::NodesMut;
use std::iter::Iterator;

impl<C: NodesMut<u64, u64>> RangeSet<C> {
    /// Inserts the ranges that `source` gives, each as its start and its end, in order, as `insert` does. Returns the first one that is
    /// refused: the numbers of those before it are in the set, and those after it are still in `source`.
    ///
    /// The contract requires that `source` ends.
    #[tactic(auto, using(crate::proofs::SeriesLemmas::series))]
    pub fn extend<I: Iterator<Item = (u64, u64)>>(
        &mut self,
        source: &mut I,
    ) -> Result<(), Refused<u64, u64>>
        requires can_step { I.can_next source.old }
        requires ends { IsFinite (I.remaining source.old) }
        ensures extended { OnOk result
            (AddsRanges I.next_gives self.old source.old self.new source.new) }
        ensures uncounted { OnOk result (self.new.kept ≡ self.old.kept) }
        ensures bounded { GrowsWithinLimit self.old self.new }

        ensures stopped { IfErr result
            (AddsRangesUntil I.next_gives self.old source.old self.new source.new) }
        ensures joins_none { IfErr result (λ r. JoinsNone self.new.ranges r.key r.value) }
        ensures cause { IfErr result (λ r. CountsLastRefusal self.old self.new r.cause) }
        ensures may_go_on { OnErr result (I.can_next source.new) }
        ensures still_ends { OnErr result (IsFinite (I.remaining source.new)) }
    {
        while let Some((start, end)) = source.next() {
            self.insert(start, end)?;
        }
        Ok(())
    }

    /// Removes the ranges that `source` gives, in order, as `remove` does. Returns the first one that is refused.
    #[tactic(auto, using(crate::proofs::SeriesLemmas::series))]
    pub(crate) fn remove_each<I: Iterator<Item = (u64, u64)>>(
        &mut self,
        source: &mut I,
    ) -> Result<(), Refused<u64, u64>>
        requires can_step { I.can_next source.old }
        requires ends { IsFinite (I.remaining source.old) }
        ensures without { OnOk result
            (RemovesRanges I.next_gives self.old source.old self.new source.new) }
        ensures uncounted { OnOk result (self.new.kept ≡ self.old.kept) }
        ensures bounded { GrowsWithinLimit self.old self.new }

        ensures stopped { IfErr result
            (RemovesRangesUntil I.next_gives self.old source.old self.new source.new) }
        ensures cuts_one { IfErr result (λ r. CutsOne self.new.ranges r.key r.value) }
        ensures cause { IfErr result (λ r. CountsLastRefusal self.old self.new r.cause) }
    {
        while let Some((start, end)) = source.next() {
            self.remove(start, end)?;
        }
        Ok(())
    }
}
