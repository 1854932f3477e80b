//! Maps of ranges and the ordered maps behind them.
ghost use Rattle.std.specs.Prelude.{◌≡◌, ◌↔◌, IsFalse, IsTrue};
ghost use Rattle.std.specs.Option.{option_copied};
ghost use Rattle.btree_laws.specs.TreeState.{pairs_of};
ghost use Rattle.btree_range_map.specs.Places.{MayFollow};
ghost use Rattle.btree_range_map.specs.Ranges.{AreRuns, TellsSame};
ghost use Rattle.btree_range_map.specs.State.{ranges_of};

use crate::iter::over;
use crate::{Iter, RangeMap, Span};
use btree_map::BTreeMap;
use btree_node::NodesMut;
use std::iter::Iterator;
use std::mem;

// Returns whether a range may follow one with the span `past`, if there is one.
fn may_follow<V: Clone + Eq>(past: Option<&Span<V>>, start: u64, span: &Span<V>) -> bool
    requires { TellsSame V.eq }
    ensures { IsTrue result ↔ MayFollow (option_copied past.entry) start span.now }
{
    if span.end <= start {
        return false;
    }
    match past {
        Some(past) => past.end < start || past.end == start && past.value != span.value,
        None => true,
    }
}

// Returns whether ranges are those of a map.
fn are_runs<'a, V: Clone + Eq, C: NodesMut<u64, Span<V>>>(ranges: Iter<'a, V, C>) -> bool
    requires { TellsSame V.eq }
    ensures { IsTrue result ↔ AreRuns ranges.entry }
{
    let mut rest = ranges;
    let mut past = None;
    while let Some((start, span)) = rest.next() {
        if !may_follow(past, start, span) {
            return false;
        }
        past = Some(span);
    }
    true
}

impl<V: Clone + Eq, C: NodesMut<u64, Span<V>>> RangeMap<V, C> {
    /// Returns the map from the start of each range to its end and value, for reading.
    pub fn as_map(&self) -> &BTreeMap<u64, Span<V>, C>
        ensures { ranges_of result.now ≡ self.now }
    {
        &self.map
    }

    /// Exchanges that map with `map`, if the pairs of `map` are ranges as a map of ranges has them, and returns whether they are: none is
    /// empty, and where one meets the next it ends there and has another value. Its limit and its count of refusals go with each map. It reads
    /// each node of `map` once.
    pub fn swap_map(&mut self, map: &mut BTreeMap<u64, Span<V>, C>) -> bool
        ensures exact { IsTrue result ↔ AreRuns (pairs_of map.old) }
        ensures taken { IsTrue result → (self.new ≡ ranges_of map.old) }
        ensures given { IsTrue result → (ranges_of map.new ≡ self.old) }
        ensures unchanged { IsFalse result → (self.new ≡ self.old) × (map.new ≡ map.old) }
    {
        let own = &mut self.map;
        if !are_runs(over(map)) {
            return false;
        }
        mem::swap(own, map);
        true
    }
}
