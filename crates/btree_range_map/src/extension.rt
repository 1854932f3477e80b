//! Insertion of the ranges that an iterator gives.
ghost use Rattle.std.specs.Prelude.{◌≡◌, IfErr, OnErr, OnOk};
ghost use Rattle.std.specs.Iterator.{IsFinite};
ghost use Rattle.btree_range_map.specs.Ranges.{JoinsNone};
ghost use Rattle.btree_range_map.specs.Series.{InsertsRanges, InsertsRangesUntil};
ghost use Rattle.btree_range_map.specs.State.{CountsLastRefusal, GrowsWithinLimit};

use crate::{RangeMap, RangeRefused, Span};
use btree_node::NodesMut;
use std::iter::Iterator;

impl<V: Clone + Eq, C: NodesMut<u64, Span<V>>> RangeMap<V, C> {
    /// Inserts the ranges that `source` gives, each as its start and its span, in order, as `insert` does. Returns the first one that is
    /// refused: those before it are in the map, and those after it are still in `source`.
    ///
    /// The contract requires that `source` ends.
    pub fn extend<I: Iterator<Item = (u64, Span<V>)>>(
        &mut self,
        source: &mut I,
    ) -> Result<(), RangeRefused<Span<V>>>
        requires can_step { I.can_next source.old }
        requires ends { IsFinite (I.remaining source.old) }
        ensures extended { OnOk result
            (InsertsRanges I.next_gives self.old source.old self.new source.new) }
        ensures uncounted { OnOk result (self.new.kept ≡ self.old.kept) }
        ensures bounded { GrowsWithinLimit self.old self.new }

        ensures stopped { IfErr result
            (InsertsRangesUntil I.next_gives self.old source.old self.new source.new) }
        ensures joins_none { IfErr result (λ r.
            JoinsNone self.new.ranges r.key r.value.end r.value.value) }
        ensures cause { IfErr result (λ r.
            CountsLastRefusal V.is_infallible self.old self.new r.key r.value.end r.cause) }
        ensures may_go_on { OnErr result (I.can_next source.new) }
        ensures still_ends { OnErr result (IsFinite (I.remaining source.new)) }
    {
        while let Some((start, span)) = source.next() {
            match self.insert(start, span.end, span.value) {
                Ok(()) => {}
                Err(refused) => return Err(refused),
            }
        }
        Ok(())
    }
}
