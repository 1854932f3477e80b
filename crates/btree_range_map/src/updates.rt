//! Changes of the values that some numbers have.
ghost use Rattle.std.specs.Fn.{CalledAt};
ghost use Rattle.std.specs.Prelude.{◌≡◌, ◌≤◌, ◌<◌, [], IfErr, IfNone, IfSome, OnOk};
ghost use Rattle.btree_range_map.specs.Ranges.{AreRuns, JoinsNone};
ghost use Rattle.btree_range_map.specs.State.{CountsLastRefusal, GrowsWithinLimit};
ghost use Rattle.btree_range_map.specs.Updates.{IsFirstPart, IsUpdated, IsUpdatedUntil, part_now, parts_between};

use crate::{RangeMap, RangeRefused, Span};
use btree_node::NodesMut;
use std::iter::Iterator;

// Returns the first numbers from `start` up to `end` that have a value, those of one range of the map: their start, their end and the value.
fn first_part<V: Clone + Eq, C: NodesMut<u64, Span<V>>>(
    map: &RangeMap<V, C>,
    start: u64,
    end: u64,
) -> Option<(u64, u64, &V)>
    ensures some { IfSome result (λ part.
        IsFirstPart map.now.ranges start end (part_now part)) }
    ensures none { IfNone result (parts_between start end map.now.ranges ≡ []) }
    ensures runs { AreRuns map.now.ranges }
{
    match map.overlapping(start, end).next() {
        Some((first, span)) => {
            let low = start.max(first);
            let high = end.min(span.end);
            Some((low, high, &span.value))
        }
        None => None,
    }
}

impl<V: Clone + Eq, C: NodesMut<u64, Span<V>>> RangeMap<V, C> {
    /// Gives each number from `start` up to `end`, which is not one of them, that has a value the one that `action` returns for it. It calls
    /// `action` once for the numbers of each range that meets these, in ascending order, and inserts what it returns.
    ///
    /// If an insertion is refused, it returns the error of that one, with its numbers and value: those below them have been changed, and no other.
    pub fn update<F: FnMut(&V) -> V>(
        &mut self,
        start: u64,
        end: u64,
        action: &mut F,
    ) -> Result<(), RangeRefused<Span<V>>>
        requires { F.IsAlwaysCallable action.old }
        ensures updated { OnOk result (IsUpdated (CalledAt F.FnMut) action.old action.new
            (parts_between start end self.old.ranges) self.old.ranges self.new.ranges) }
        ensures uncounted { OnOk result (self.new.kept ≡ self.old.kept) }
        ensures bounded { GrowsWithinLimit self.old self.new }
        ensures runs { AreRuns self.old.ranges }

        ensures stopped { IfErr result (IsUpdatedUntil (CalledAt F.FnMut) action.old action.new
            (parts_between start end self.old.ranges) self.old.ranges self.new.ranges) }
        ensures inside { IfErr result (λ r.
            (start ≤ r.key) × (r.key < r.value.end) × (r.value.end ≤ end)) }
        ensures joins_none { IfErr result (λ r.
            JoinsNone self.new.ranges r.key r.value.end r.value.value) }
        ensures cause { IfErr result (λ r.
            CountsLastRefusal V.is_infallible self.old self.new r.key r.value.end r.cause) }
    {
        let mut from = start;
        while let Some((first, last, value)) = first_part(self, from, end) {
            let given = action(value);
            match self.insert(first, last, given) {
                Ok(()) => from = last,
                Err(refused) => return Err(refused),
            }
        }
        Ok(())
    }
}
