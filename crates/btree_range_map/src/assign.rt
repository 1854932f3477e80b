//! Numbers that are given a value, on the tree of a map of ranges, by addresses.
ghost use Rattle.std.specs.Prelude.{◌≡◌, ◌<◌, ℕ, IfErr, IfSome, OnErr, OnOk};
ghost use Rattle.btree_laws.specs.TreeState.{IsOccupiedIn, pairs_of};
ghost use Rattle.btree_find.specs.Navigation.{HasPlace, IsItemAt};
ghost use Rattle.btree_range_map.specs.declared.span.Span.{Span};
ghost use Rattle.btree_range_map.specs.Ranges.{AreRuns, ClonesEqual, JoinsNone, TellsSame};
ghost use Rattle.btree_range_map.specs.Steps.{Assigns, CanAbsorb, CanPut, CanPutOver, IsInsertRefusedIn, IsPlaceFor, IsRefusedIn, KeepsBefore, Meets, Overlaps};

use crate::edits::{set_end, take_range};
use crate::refused::refused_by_node;
use crate::split::split;
use crate::{RangeCause, RangeRefused, Span};
use btree_ext::{BTreeExt, BTreeExtMut};
use btree_item::{Address, Item};
use btree_map::BTreeMap;
use btree_node::NodesMut;

// What a range does to numbers before it that are given a value.
enum Next {
    // It is inside them, or has their value and meets or touches them. With it they end here.
    Absorbed(Address, u64),
    // It has another value, and goes on past their end.
    Overlapped(Address),
    // It does not meet them, and where it touches them, it has another value; or there is none.
    Apart,
}

// Returns what the range at an address, if there is one, does to numbers before it that end at `end`, with a value.
fn meets<V: Clone + Eq, C: NodesMut<u64, Span<V>>>(
    map: &BTreeMap<u64, Span<V>, C>,
    at: Option<Address>,
    end: u64,
    value: &V,
) -> Next
    requires occupied { IfSome at (IsOccupiedIn map.now) }
    requires same { TellsSame V.eq }
    ensures { (place : ℕ) → IsItemAt map.now place at →
        Meets map.now place (record { end = end; value = value.now }) result }
{
    let Some(at) = at else {
        return Next::Apart;
    };
    let (first, next) = map.pair_at(at);
    if next.value == *value {
        if *first <= end {
            return Next::Absorbed(at, end.max(next.end));
        }
        return Next::Apart;
    }
    if end <= *first {
        return Next::Apart;
    }
    if next.end <= end {
        return Next::Absorbed(at, end);
    }
    Next::Overlapped(at)
}

// Makes the range at an address, which is inside the numbers from `start` up to `span.end`, the range of these numbers with their value. It
// takes in the ranges after it that meet them, or touch them with their value. It needs no new node.
fn absorb<V: Clone + Eq, C: NodesMut<u64, Span<V>>>(
    map: &mut BTreeMap<u64, Span<V>, C>,
    at: Address,
    start: u64,
    span: Span<V>,
)
    requires can { CanAbsorb map.old at start span }
    requires same { TellsSame V.eq }
    ensures { Assigns map.old map.new start span }
{
    let Span { mut end, value } = span;
    let mut at = at;
    loop {
        let next = map.next_item_address(at);
        match meets(map, next, end, &value) {
            Next::Absorbed(_, last) => {
                let Some(next) = take_range(map, at) else {
                    unreachable!()
                };
                at = next;
                end = last;
            }
            Next::Overlapped(next) => {
                map.replace_key_at(next, end);
                map.replace_at(at, start, Span { end, value });
                return;
            }
            Next::Apart => {
                map.replace_at(at, start, Span { end, value });
                return;
            }
        }
    }
}

// Puts the range from `start` with `span` at an address, where the range at its place overlaps it: that one then begins at `span.end`. If the
// new one is refused, it begins again where it did.
fn put_before<V: Clone + Eq, C: NodesMut<u64, Span<V>>>(
    map: &mut BTreeMap<u64, Span<V>, C>,
    at: Address,
    next: Address,
    start: u64,
    span: Span<V>,
) -> Result<(), RangeRefused<Span<V>>>
    requires can { CanPut map.old at start span }
    requires next { (place : ℕ) → HasPlace map.old at place →
        (rest : Span V) × Overlaps map.old place span next rest }
    ensures assigned { OnOk result (Assigns map.old map.new start span) }
    ensures returned { IfErr result (λ r. (r.key ≡ start) × (r.value ≡ span)) }
    ensures stays { OnErr result (KeepsBefore map.old map.new at) }
    ensures cause { IfErr result (λ r. IsRefusedIn map.old map.new 1 r.cause) }
{
    let first = map.replace_key_at(next, span.end);
    match map.insert_at(at, Item::new(start, span)) {
        Ok(_at) => Ok(()),
        Err(refused) => {
            map.replace_key_at(next, first);
            Err(refused_by_node(refused))
        }
    }
}

// Puts the range from `start` with `span` at an address. It takes in the ranges from there on that meet it, or touch it with its value.
fn put<V: Clone + Eq, C: NodesMut<u64, Span<V>>>(
    map: &mut BTreeMap<u64, Span<V>, C>,
    at: Address,
    start: u64,
    span: Span<V>,
) -> Result<(), RangeRefused<Span<V>>>
    requires can { CanPut map.old at start span }
    requires same { TellsSame V.eq }
    ensures assigned { OnOk result (Assigns map.old map.new start span) }
    ensures returned { IfErr result (λ r. (r.key ≡ start) × (r.value ≡ span)) }
    ensures joins_none { OnErr result (JoinsNone (pairs_of map.old) start span.end span.value) }
    ensures stays { OnErr result (KeepsBefore map.old map.new at) }
    ensures cause { IfErr result (λ r. IsRefusedIn map.old map.new 1 r.cause) }
{
    let next = map.normalize(at);
    match meets(map, next, span.end, &span.value) {
        Next::Absorbed(next, end) => {
            let value = span.value;
            absorb(map, next, start, Span { end, value });
            Ok(())
        }
        Next::Overlapped(next) => put_before(map, at, next, start, span),
        Next::Apart => match map.insert_at(at, Item::new(start, span)) {
            Ok(_at) => Ok(()),
            Err(refused) => Err(refused_by_node(refused)),
        },
    }
}

// Does the same where the range before the address ends inside the new one, at `end`: that one then ends at `start`. If the new one is
// refused, it ends again where it did.
fn put_over<V: Clone + Eq, C: NodesMut<u64, Span<V>>>(
    map: &mut BTreeMap<u64, Span<V>, C>,
    at: Address,
    before: Address,
    start: u64,
    span: Span<V>,
    end: u64,
) -> Result<(), RangeRefused<Span<V>>>
    requires can { CanPutOver map.old at before start span end }
    requires same { TellsSame V.eq }
    ensures assigned { OnOk result (Assigns map.old map.new start span) }
    ensures returned { IfErr result (λ r. (r.key ≡ start) × (r.value ≡ span)) }
    ensures joins_none { OnErr result (JoinsNone (pairs_of map.old) start span.end span.value) }
    ensures cause { IfErr result (λ r. IsRefusedIn map.old map.new 1 r.cause) }
{
    set_end(map, before, start);
    match put(map, at, start, span) {
        Ok(()) => Ok(()),
        Err(refused) => {
            set_end(map, before, end);
            Err(refused)
        }
    }
}

// Returns the address of the range that starts at a number, or else that of the gap where it would be.
fn place_for<V: Clone + Eq, C: NodesMut<u64, Span<V>>>(
    map: &BTreeMap<u64, Span<V>, C>,
    number: u64,
) -> Address
    ensures { IsPlaceFor map.now number result }
{
    match map.address_of(&number) {
        Ok(at) => at,
        Err(gap) => gap,
    }
}

/// Gives the numbers from `start` up to `span.end` a value. There is at least one. Where they cut a range in two, its value is cloned first.
pub(crate) fn assign<V: Clone + Eq, C: NodesMut<u64, Span<V>>>(
    map: &mut BTreeMap<u64, Span<V>, C>,
    start: u64,
    span: Span<V>,
) -> Result<(), RangeRefused<Span<V>>>
    requires same { TellsSame V.eq }
    requires clones { ClonesEqual V.is_clone }
    requires some { start < span.end }
    requires runs { AreRuns (pairs_of map.old) }
    ensures assigned { OnOk result (Assigns map.old map.new start span) }
    ensures returned { IfErr result (λ r. (r.key ≡ start) × (r.value ≡ span)) }
    ensures joins_none { OnErr result (JoinsNone (pairs_of map.old) start span.end span.value) }
    ensures cause { IfErr result (λ r.
        IsInsertRefusedIn map.old map.new V.is_infallible start span.end r.cause) }
{
    let at = place_for(map, start);
    let Some(before) = map.previous_item_address(at) else {
        return put(map, at, start, span);
    };
    let (first, last) = map.pair_at(before);
    let first = *first;
    if last.end < start {
        return put(map, at, start, span);
    }
    if last.value == span.value {
        let end = last.end.max(span.end);
        let value = span.value;
        absorb(map, before, first, Span { end, value });
        return Ok(());
    }
    if last.end == start {
        return put(map, at, start, span);
    }
    if span.end < last.end {
        let rest = match last.clone() {
            Ok(rest) => rest,
            Err(_) => {
                return Err(RangeRefused {
                    cause: RangeCause::Clone,
                    key: start,
                    value: span,
                });
            }
        };
        return split(map, at, start, span, rest);
    }
    let end = last.end;
    put_over(map, at, before, start, span, end)
}
