//! Removal of the ranges at both ends.
ghost use Rattle.std.specs.Prelude.{◌≡◌, IfSome, slice_get};
ghost use Rattle.std.specs.Iterator.{YieldsFirst, YieldsLast};
ghost use Rattle.btree_map.specs.Lists.{last_of};
ghost use Rattle.btree_range_map.specs.Ranges.{IsCleared};

use crate::{RangeMap, Span};
use btree_node::NodesMut;

impl<V: Clone + Eq, C: NodesMut<u64, Span<V>>> RangeMap<V, C> {
    /// Removes the first range, and returns it. Returns `None`, and nothing changes, if there are no numbers.
    ///
    /// It compares no numbers, needs no new node and cannot fail.
    pub fn pop_first(&mut self) -> Option<(u64, Span<V>)>
        ensures listed { result ≡ slice_get self.old.ranges 0 }
        ensures rest { YieldsFirst (λ s. s.ranges) self.old result self.new }
        ensures cleared { IfSome result (λ range.
            IsCleared self.old.ranges range.0 range.1.end self.new.ranges) }
        ensures uncounted { self.new.kept ≡ self.old.kept }
    {
        self.map.pop_first()
    }

    /// Removes the last range, and returns it. Returns `None`, and nothing changes, if there are no numbers.
    ///
    /// It compares no numbers, needs no new node and cannot fail.
    pub fn pop_last(&mut self) -> Option<(u64, Span<V>)>
        ensures listed { result ≡ last_of self.old.ranges }
        ensures rest { YieldsLast (λ s. s.ranges) self.old result self.new }
        ensures cleared { IfSome result (λ range.
            IsCleared self.old.ranges range.0 range.1.end self.new.ranges) }
        ensures uncounted { self.new.kept ≡ self.old.kept }
    {
        self.map.pop_last()
    }
}
