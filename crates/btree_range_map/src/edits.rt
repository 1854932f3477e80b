//! The steps of a map of ranges on its tree, by addresses.
ghost use Rattle.std.specs.Prelude.{◌≡◌, ◌<◌, ℕ, IfErr, IfNone, IfSome, OnErr, OnOk, None};
ghost use Rattle.btree_laws.specs.TreeState.{IsOccupiedIn, IsValidIn, pairs_of};
ghost use Rattle.btree_find.specs.Navigation.{HasPlace};
ghost use Rattle.btree_range_map.specs.Places.{IsRangeAround};
ghost use Rattle.btree_range_map.specs.Ranges.{AreRuns, ClonesEqual, CutsOne, range_now, value_at};
ghost use Rattle.btree_range_map.specs.Steps.{CanClear, CanCut, Clears, IsRefusedIn, IsRemoveRefusedIn, SetsEnd, TakesRange};

use crate::refused::refused_as;
use crate::{RangeCause, RangeRefused, Span};
use btree_ext::{BTreeExt, BTreeExtMut};
use btree_item::{Address, Item};
use btree_map::BTreeMap;
use btree_node::NodesMut;

/// Returns the range that a number is in.
pub(crate) fn range_around<V: Clone + Eq, C: NodesMut<u64, Span<V>>>(
    map: &BTreeMap<u64, Span<V>, C>,
    number: u64,
) -> Option<(u64, &Span<V>)>
    requires { AreRuns (pairs_of map.now) }
    ensures around { IfSome result (λ range.
        IsRangeAround (pairs_of map.now) number (range_now range)) }
    ensures none { IfNone result (value_at (pairs_of map.now) number ≡ None) }
{
    let gap = match map.address_of(&number) {
        Ok(at) => {
            let (start, span) = map.pair_at(at);
            return Some((*start, span));
        }
        Err(gap) => gap,
    };
    let Some(before) = map.previous_item_address(gap) else {
        return None;
    };
    let (start, span) = map.pair_at(before);
    if number < span.end {
        return Some((*start, span));
    }
    None
}

/// Gives the range at an address another end.
pub(crate) fn set_end<V: Clone + Eq, C: NodesMut<u64, Span<V>>>(
    map: &mut BTreeMap<u64, Span<V>, C>,
    at: Address,
    end: u64,
)
    requires { IsOccupiedIn map.old at }
    ensures { SetsEnd map.old map.new at end }
{
    let (_start, span) = map.pair_mut(at);
    span.end = end;
}

/// Removes the range at an address, and returns the address of the one after it, if there is one.
pub(crate) fn take_range<V: Clone + Eq, C: NodesMut<u64, Span<V>>>(
    map: &mut BTreeMap<u64, Span<V>, C>,
    at: Address,
) -> Option<Address>
    requires valid { IsValidIn map.old at }
    requires occupied { IsOccupiedIn map.old at }
    ensures { (place : ℕ) → HasPlace map.old at place → TakesRange map.old map.new place result }
{
    let Some((_range, after)) = map.remove_at(at) else {
        unreachable!()
    };
    map.normalize(after)
}

// Removes the numbers from `start` up to `end` from the ranges from an address on. It needs no new node.
fn clear_from<V: Clone + Eq, C: NodesMut<u64, Span<V>>>(
    map: &mut BTreeMap<u64, Span<V>, C>,
    at: Option<Address>,
    start: u64,
    end: u64,
)
    requires some { start < end }
    requires from { CanClear map.old at start }
    ensures { Clears map.old map.new start end }
{
    let mut at = at;
    while let Some(addr) = at {
        let (first, span) = map.pair_at(addr);
        let (first, last) = (*first, span.end);
        if end <= first {
            return;
        }
        if end < last {
            map.replace_key_at(addr, end);
            return;
        }
        at = take_range(map, addr);
    }
}

// Removes the numbers from `start` up to `end` from the range before a gap, which has numbers on both sides of them, and ends at `last`. Its
// right part, with a clone of its value, is added first, so that nothing has changed if that is refused.
fn cut<V: Clone + Eq, C: NodesMut<u64, Span<V>>>(
    map: &mut BTreeMap<u64, Span<V>, C>,
    gap: Address,
    start: u64,
    end: u64,
    last: u64,
    value: V,
) -> Result<(), RangeRefused<u64>>
    requires { CanCut map.old gap start end last value }
    ensures cleared { OnOk result (Clears map.old map.new start end) }
    ensures returned { IfErr result (λ r. (r.key ≡ start) × (r.value ≡ end)) }
    ensures cause { IfErr result (λ r. IsRefusedIn map.old map.new 1 r.cause) }
{
    match map.insert_at(gap, Item::new(end, Span { end: last, value })) {
        Ok(right) => {
            let Some(left) = map.previous_item_address(right) else {
                unreachable!()
            };
            set_end(map, left, start);
            Ok(())
        }
        Err(refused) => Err(refused_as(refused, start, end)),
    }
}

/// Removes the numbers from `start` up to `end`. There is at least one. Where they cut a range in two, its value is cloned first.
pub(crate) fn subtract<V: Clone + Eq, C: NodesMut<u64, Span<V>>>(
    map: &mut BTreeMap<u64, Span<V>, C>,
    start: u64,
    end: u64,
) -> Result<(), RangeRefused<u64>>
    requires some { start < end }
    requires runs { AreRuns (pairs_of map.old) }
    requires clones { ClonesEqual V.is_clone }
    ensures cleared { OnOk result (Clears map.old map.new start end) }
    ensures returned { IfErr result (λ r. (r.key ≡ start) × (r.value ≡ end)) }
    ensures cuts_one { OnErr result (CutsOne (pairs_of map.old) start end) }
    ensures cause { IfErr result (λ r.
        IsRemoveRefusedIn map.old map.new V.is_infallible start end r.cause) }
{
    let gap = match map.address_of(&start) {
        Ok(at) => {
            clear_from(map, Some(at), start, end);
            return Ok(());
        }
        Err(gap) => gap,
    };
    if let Some(before) = map.previous_item_address(gap) {
        let (_, span) = map.pair_at(before);
        let last = span.end;
        if end < last {
            let value = match span.value.clone() {
                Ok(value) => value,
                Err(_) => {
                    return Err(RangeRefused {
                        cause: RangeCause::Clone,
                        key: start,
                        value: end,
                    });
                }
            };
            return cut(map, gap, start, end, last, value);
        }
        if start < last {
            set_end(map, before, start);
            let after = map.normalize(gap);
            clear_from(map, after, start, end);
            return Ok(());
        }
    }
    let after = map.normalize(gap);
    clear_from(map, after, start, end);
    Ok(())
}
