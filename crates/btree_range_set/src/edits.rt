//! The steps of a set of ranges on its map, by addresses.
ghost use Rattle.std.specs.Prelude.{◌≡◌, ◌<◌, ℕ, IfErr, IfNone, IfSome, IsFalse, IsTrue, OnErr, OnOk, false};
ghost use Rattle.btree_laws.specs.TreeState.{IsOccupiedIn, IsValidIn, pairs_of};
ghost use Rattle.btree_find.specs.Navigation.{HasPlace};
ghost use Rattle.btree_range_set.specs.Places.{IsRangeAround};
ghost use Rattle.btree_range_set.specs.Ranges.{AreRuns, CutsOne, JoinsNone, has_number};
ghost use Rattle.btree_range_set.specs.Steps.{CanClear, CanCut, CanJoin, Clears, IsRefusedIn, Joins, NextStartsAfter, NextStartsBy, TakesRange};

use btree_ext::{BTreeExt, BTreeExtMut};
use btree_item::{Address, Item, Refused};
use btree_map::BTreeMap;
use btree_node::NodesMut;

/// Returns the range that a number is in.
pub(crate) fn range_around<C: NodesMut<u64, u64>>(
    map: &BTreeMap<u64, u64, C>,
    number: u64,
) -> Option<(u64, u64)>
    requires { AreRuns (pairs_of map.now) }
    ensures around { IfSome result (IsRangeAround (pairs_of map.now) number) }
    ensures none { IfNone result (has_number (pairs_of map.now) number ≡ false) }
{
    let gap = match map.address_of(&number) {
        Ok(at) => {
            let (start, end) = map.pair_at(at);
            return Some((*start, *end));
        }
        Err(gap) => gap,
    };
    let Some(before) = map.previous_item_address(gap) else {
        return None;
    };
    let (start, end) = map.pair_at(before);
    if number < *end {
        return Some((*start, *end));
    }
    None
}

// Removes the range at an address, and returns the address of the one after it, if there is one.
fn take_range<C: NodesMut<u64, u64>>(
    map: &mut BTreeMap<u64, u64, C>,
    at: Address,
) -> Option<Address>
    requires valid { IsValidIn map.old at }
    requires occupied { IsOccupiedIn map.old at }
    ensures { (place : ℕ) → HasPlace map.old at place → TakesRange map.old map.new place result }
{
    let Some((_range, after)) = map.remove_at(at) else {
        unreachable!()
    };
    map.normalize(after)
}

// Returns whether there is a range after the one at an address, and starts at `end` or below it.
fn touches_next<C: NodesMut<u64, u64>>(map: &BTreeMap<u64, u64, C>, at: &Address, end: u64) -> bool
    requires valid { IsValidIn map.now at.now }
    requires occupied { IsOccupiedIn map.now at.now }
    ensures touches { IsTrue result → NextStartsBy map.now at.now end }
    ensures apart { IsFalse result → NextStartsAfter map.now at.now end }
{
    let Some(next) = map.next_item_address(*at) else {
        return false;
    };
    let (start, _end) = map.pair_at(next);
    *start <= end
}

// Adds the numbers from `start` up to `end` to the range at an address, which meets or touches them, and joins it with those after it
// that do. It needs no new node.
fn join<C: NodesMut<u64, u64>>(map: &mut BTreeMap<u64, u64, C>, at: Address, start: u64, end: u64)
    requires { CanJoin map.old at start end }
    ensures { Joins map.old map.new start end }
{
    let mut at = at;
    while touches_next(map, &at, end) {
        let Some(next) = take_range(map, at) else {
            unreachable!()
        };
        at = next;
    }
    let (_, last) = map.pair_at(at);
    let last = end.max(*last);
    map.replace_at(at, start, last);
}

/// Adds the numbers from `start` up to `end`. There is at least one.
pub(crate) fn add<C: NodesMut<u64, u64>>(
    map: &mut BTreeMap<u64, u64, C>,
    start: u64,
    end: u64,
) -> Result<(), Refused<u64, u64>>
    requires some { start < end }
    requires runs { AreRuns (pairs_of map.old) }
    ensures joined { OnOk result (Joins map.old map.new start end) }
    ensures returned { IfErr result (λ r. (r.key ≡ start) × (r.value ≡ end)) }
    ensures joins_none { OnErr result (JoinsNone (pairs_of map.old) start end) }
    ensures cause { IfErr result (λ r. IsRefusedIn map.old map.new r.cause) }
{
    let gap = match map.address_of(&start) {
        Ok(at) => {
            join(map, at, start, end);
            return Ok(());
        }
        Err(gap) => gap,
    };
    if let Some(before) = map.previous_item_address(gap) {
        let (first, last) = map.pair_at(before);
        let first = *first;
        if start <= *last {
            join(map, before, first, end);
            return Ok(());
        }
    }
    if let Some(after) = map.normalize(gap) {
        let (first, _) = map.pair_at(after);
        if *first <= end {
            join(map, after, start, end);
            return Ok(());
        }
    }
    match map.insert_at(gap, Item::new(start, end)) {
        Ok(_at) => Ok(()),
        Err(refused) => Err(refused),
    }
}

// Takes the numbers from `start` up to `end` out of the ranges from an address on. It needs no new node.
fn clear_from<C: NodesMut<u64, u64>>(
    map: &mut BTreeMap<u64, u64, C>,
    at: Option<Address>,
    start: u64,
    end: u64,
)
    requires some { start < end }
    requires from { CanClear map.old at start }
    ensures { Clears map.old map.new start end }
{
    let mut at = at;
    while let Some(addr) = at {
        let (first, last) = map.pair_at(addr);
        let (first, last) = (*first, *last);
        if end <= first {
            return;
        }
        if end < last {
            map.replace_at(addr, end, last);
            return;
        }
        at = take_range(map, addr);
    }
}

// Takes the numbers from `start` up to `end` out of the range before a gap, which has numbers on both sides of them. Its right part is
// added first, so that nothing has changed if that is refused.
fn cut<C: NodesMut<u64, u64>>(
    map: &mut BTreeMap<u64, u64, C>,
    gap: Address,
    start: u64,
    end: u64,
    last: u64,
) -> Result<(), Refused<u64, u64>>
    requires { CanCut map.old gap start end last }
    ensures cleared { OnOk result (Clears map.old map.new start end) }
    ensures returned { IfErr result (λ r. (r.key ≡ start) × (r.value ≡ end)) }
    ensures cause { IfErr result (λ r. IsRefusedIn map.old map.new r.cause) }
{
    match map.insert_at(gap, Item::new(end, last)) {
        Ok(right) => {
            let Some(left) = map.previous_item_address(right) else {
                unreachable!()
            };
            map.replace_value_at(left, start);
            Ok(())
        }
        Err(refused) => Err(Refused {
            cause: refused.cause,
            key: start,
            value: end,
        }),
    }
}

/// Removes the numbers from `start` up to `end`. There is at least one.
pub(crate) fn subtract<C: NodesMut<u64, u64>>(
    map: &mut BTreeMap<u64, u64, C>,
    start: u64,
    end: u64,
) -> Result<(), Refused<u64, u64>>
    requires some { start < end }
    requires runs { AreRuns (pairs_of map.old) }
    ensures cleared { OnOk result (Clears map.old map.new start end) }
    ensures returned { IfErr result (λ r. (r.key ≡ start) × (r.value ≡ end)) }
    ensures cuts_one { OnErr result (CutsOne (pairs_of map.old) start end) }
    ensures cause { IfErr result (λ r. IsRefusedIn map.old map.new r.cause) }
{
    let gap = match map.address_of(&start) {
        Ok(at) => {
            clear_from(map, Some(at), start, end);
            return Ok(());
        }
        Err(gap) => gap,
    };
    if let Some(before) = map.previous_item_address(gap) {
        let (_, last) = map.pair_at(before);
        let last = *last;
        if end < last {
            return cut(map, gap, start, end, last);
        }
        if start < last {
            map.replace_value_at(before, start);
            let after = map.normalize(gap);
            clear_from(map, after, start, end);
            return Ok(());
        }
    }
    let after = map.normalize(gap);
    clear_from(map, after, start, end);
    Ok(())
}
