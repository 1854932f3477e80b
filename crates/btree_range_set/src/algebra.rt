//! Changes of a set by another one, which may have another store.
ghost use Rattle.std.specs.Prelude.{◌≡◌, IfErr, OnOk};
ghost use Rattle.btree_range_set.specs.Ranges.{CutsOne, IsGap, IsMaximalRun, JoinsNone};
ghost use Rattle.btree_range_set.specs.Series.{CountsLastRefusal};
ghost use Rattle.btree_range_set.specs.State.{GrowsWithinLimit};
ghost use Rattle.btree_range_set.specs.TwoSets.{IsDifferenceBelow, IsDifferenceWith, IsIntersectionBelow, IsIntersectionWith, IsUnionBelow, IsUnionWith};

use crate::RangeSet;
use btree_item::Refused;
use btree_node::NodesMut;

impl<C: NodesMut<u64, u64>> RangeSet<C> {
    /// Adds the numbers of `other`: its ranges in ascending order, as `insert` does. Returns the first one that is refused: the numbers below
    /// its start have been added, and no other.
    #[tactic(auto, using(crate::proofs::TwoSetLemmas::two_sets))]
    pub fn union_with<D: NodesMut<u64, u64>>(
        &mut self,
        other: &RangeSet<D>,
    ) -> Result<(), Refused<u64, u64>>
        ensures united { OnOk result
            (IsUnionWith self.old.ranges other.now.ranges self.new.ranges) }
        ensures uncounted { OnOk result (self.new.kept ≡ self.old.kept) }
        ensures bounded { GrowsWithinLimit self.old self.new }

        ensures returned { IfErr result (λ r. IsMaximalRun other.now.ranges (r.key, r.value)) }
        ensures stopped { IfErr result (λ r.
            IsUnionBelow r.key self.old.ranges other.now.ranges self.new.ranges) }
        ensures joins_none { IfErr result (λ r. JoinsNone self.new.ranges r.key r.value) }
        ensures cause { IfErr result (λ r. CountsLastRefusal self.old self.new r.cause) }
    {
        self.extend(&mut other.iter())
    }

    /// Removes the numbers of `other`: its ranges in ascending order, as `remove` does. Returns the first one that is refused: the numbers
    /// below its start have been removed, and no other.
    #[tactic(auto, using(crate::proofs::TwoSetLemmas::two_sets))]
    pub fn difference_with<D: NodesMut<u64, u64>>(
        &mut self,
        other: &RangeSet<D>,
    ) -> Result<(), Refused<u64, u64>>
        ensures without { OnOk result
            (IsDifferenceWith self.old.ranges other.now.ranges self.new.ranges) }
        ensures uncounted { OnOk result (self.new.kept ≡ self.old.kept) }
        ensures bounded { GrowsWithinLimit self.old self.new }

        ensures returned { IfErr result (λ r. IsMaximalRun other.now.ranges (r.key, r.value)) }
        ensures stopped { IfErr result (λ r.
            IsDifferenceBelow r.key self.old.ranges other.now.ranges self.new.ranges) }
        ensures cuts_one { IfErr result (λ r. CutsOne self.new.ranges r.key r.value) }
        ensures cause { IfErr result (λ r. CountsLastRefusal self.old self.new r.cause) }
    {
        self.remove_each(&mut other.iter())
    }

    /// Removes the numbers that `other` does not have: its gaps in ascending order, as `remove` does. Returns the first one that is refused:
    /// such numbers below its start have been removed, and no other.
    #[tactic(auto, using(crate::proofs::TwoSetLemmas::two_sets))]
    pub fn intersect_with<D: NodesMut<u64, u64>>(
        &mut self,
        other: &RangeSet<D>,
    ) -> Result<(), Refused<u64, u64>>
        ensures shared { OnOk result
            (IsIntersectionWith self.old.ranges other.now.ranges self.new.ranges) }
        ensures uncounted { OnOk result (self.new.kept ≡ self.old.kept) }
        ensures bounded { GrowsWithinLimit self.old self.new }

        ensures returned { IfErr result (λ r. IsGap other.now.ranges (r.key, r.value)) }
        ensures stopped { IfErr result (λ r.
            IsIntersectionBelow r.key self.old.ranges other.now.ranges self.new.ranges) }
        ensures cuts_one { IfErr result (λ r. CutsOne self.new.ranges r.key r.value) }
        ensures cause { IfErr result (λ r. CountsLastRefusal self.old self.new r.cause) }
    {
        match self.last() {
            Some((_start, end)) => self.remove_each(&mut other.gaps(0, end)),
            None => Ok(()),
        }
    }
}
