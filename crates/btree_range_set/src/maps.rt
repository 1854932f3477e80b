//! Sets and the maps behind them.
ghost use Rattle.std.specs.Prelude.{◌≡◌, ◌↔◌, ◌<◌, ◌≤◌, IfErr, IfOk, IsOk, IsTrue};
ghost use Rattle.btree_laws.specs.TreeState.{pairs_of};
ghost use Rattle.btree_range_set.specs.Places.{low_after};
ghost use Rattle.btree_range_set.specs.Ranges.{AreRuns};
ghost use Rattle.btree_range_set.specs.State.{ranges_of};

use crate::iter::over;
use crate::{Iter, RangeSet};
use btree_map::BTreeMap;
use btree_node::NodesMut;
use std::iter::Iterator;

// Returns whether a range may follow one that ends at `past`, if there is one.
fn may_follow(past: Option<u64>, start: u64, end: u64) -> bool
    ensures { IsTrue result ↔ ((low_after past ≤ start) × (start < end)) }
{
    if end <= start {
        return false;
    }
    match past {
        Some(past) => past < start,
        None => true,
    }
}

// Returns whether ranges are those of a set.
fn are_runs<'a, C: NodesMut<u64, u64>>(ranges: Iter<'a, C>) -> bool
    ensures { IsTrue result ↔ AreRuns ranges.entry }
{
    let mut rest = ranges;
    let mut past = None;
    while let Some((start, end)) = rest.next() {
        if !may_follow(past, start, end) {
            return false;
        }
        past = Some(end);
    }
    true
}

impl<C: NodesMut<u64, u64>> RangeSet<C> {
    /// Returns the map from the start of each range to its end, for reading.
    pub fn as_map(&self) -> &BTreeMap<u64, u64, C>
        ensures { ranges_of result.now ≡ self.now }
    {
        &self.map
    }

    /// Returns the map from the start of each range to its end.
    pub fn into_map(self) -> BTreeMap<u64, u64, C>
        ensures { ranges_of result ≡ self }
    {
        let RangeSet { map } = self;
        map
    }

    /// Returns the set whose ranges are the pairs of a map, each from its key up to its value, or the map as it was, if one of them is empty,
    /// or meets or touches the next. It reads each node once.
    pub fn from_map(map: BTreeMap<u64, u64, C>) -> Result<Self, BTreeMap<u64, u64, C>>
        ensures exact { IsOk result ↔ AreRuns (pairs_of map) }
        ensures kept { IfOk result (λ set. set ≡ ranges_of map) }
        ensures returned { IfErr result (λ back. back ≡ map) }
    {
        if are_runs(over(&map)) {
            Ok(RangeSet { map })
        } else {
            Err(map)
        }
    }
}
