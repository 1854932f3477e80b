//! Times the kit's map and this repository's map: insertion, look-up, walks from both ends, removal, insertion in descending order, owning
//! walks from both ends, and sets of ranges over both maps. Of this repository's map alone, it times short ranges, insertion at the address
//! of the item before, insertion in ascending order, and maps of ranges. Insertion and look-up are timed over a fixed table of nodes too, for up to 1,536 keys.
//!
//! Without an argument it runs over 1000 keys and prints the sum of each phase. With a number of keys as its argument it prints, for each
//! phase, its name, the nanoseconds that it took, and its sum.
#![tactic(auto)]

mod ascent;
mod descent;
mod random;
mod range_maps;
mod ranges;
mod report;
mod spans;
mod tables;

use crate::ascent::{ascend, collect, length};
use crate::descent::{descend, descend_at};
use crate::random::{Numbers, drawn, shuffle};
use crate::range_maps::{assign_and_remove, sum_values};
use crate::ranges::sum_ranges;
use crate::report::Report;
use crate::spans::{KitSpans, Spans, add_and_subtract};
use crate::tables::{FixedNodes, Fresh, KitMap, SlabMap, SlabNodes, SpanNodes, Table};
use btree_map::BTreeMap;
use btree_node::NodesMut;
use btree_range_map::{RangeMap, Span};
use btree_range_set::RangeSet;
use std::alloc::{AllocError, Global};
use std::env::Env;
use std::process::ExitCode;
use std::time::Clock;
use std::{env, io};

// The keys in the order of their insertion, the same keys in the order of their look-up, and keys that are absent.
#[derive(Drop)]
struct Keys {
    put: Vec<u64>,
    present: Vec<u64>,
    absent: Vec<u64>,
}

fn make_keys(count: usize, alloc: Global) -> Result<Keys, AllocError> {
    let mut numbers = Numbers::from_state(0x9e37_79b9_7f4a_7c15);
    let put = drawn(&mut numbers, count, alloc)?;
    let absent = drawn(&mut numbers, count, alloc)?;
    let mut present = put.clone()?;
    shuffle(present.as_mut_slice(), &mut numbers);
    Ok(Keys {
        put,
        present,
        absent,
    })
}

// Inserts each key with its index, and returns how many were there.
fn put_all(table: &mut impl Table, keys: &[u64]) -> Result<u64, AllocError> {
    let mut present = 0u64;
    let mut index = 0u64;
    for key in keys {
        if table.put(*key, index)? {
            present = present.wrapping_add(1);
        }
        index = index.wrapping_add(1);
    }
    Ok(present)
}

// Returns the sum of the values at the keys that are there.
fn sum_at(table: &impl Table, keys: &[u64]) -> u64 {
    let mut sum = 0u64;
    for key in keys {
        if let Some(value) = table.value_at(*key) {
            sum = sum.wrapping_add(value);
        }
    }
    sum
}

// Removes each key, and returns the sum of the values.
fn take_all(table: &mut impl Table, keys: &[u64]) -> u64 {
    let mut sum = 0u64;
    for key in keys {
        if let Some(value) = table.take(*key) {
            sum = sum.wrapping_add(value);
        }
    }
    sum
}

fn measure_look_ups(
    rt: &(impl Print + Clock),
    report: &mut Report,
    map: &str,
    table: &mut impl Table,
    keys: &Keys,
) {
    report.begin(rt);
    let present = put_all(table, keys.put.as_slice());
    report.end(rt, (map, "insert"), present);
    report.begin(rt);
    let sum = sum_at(table, keys.present.as_slice());
    report.end(rt, (map, "get_present"), Ok(sum));
    report.begin(rt);
    let sum = sum_at(table, keys.absent.as_slice());
    report.end(rt, (map, "get_absent"), Ok(sum));
}

fn measure<T: Table + Drop>(
    rt: &(impl Print + Clock),
    report: &mut Report,
    map: &str,
    mut table: T,
    keys: &Keys,
) {
    measure_look_ups(rt, report, map, &mut table, keys);
    report.begin(rt);
    let sum = table.sum();
    report.end(rt, (map, "iterate"), Ok(sum));
    report.begin(rt);
    let sum = table.sum_back();
    report.end(rt, (map, "iterate_back"), Ok(sum));
    report.begin(rt);
    let sum = take_all(&mut table, keys.present.as_slice());
    report.end(rt, (map, "remove"), Ok(sum));
}

// Insertion and look-up alone.
fn measure_fixed<C: NodesMut<u64, u64> + Drop>(
    rt: &(impl Print + Clock),
    report: &mut Report,
    origin: C::Origin,
    keys: &Keys,
) {
    let mut table: BTreeMap<u64, u64, C> = BTreeMap::new(origin);
    measure_look_ups(rt, report, "fixed", &mut table, keys);
}

fn measure_descent<T: Table + Drop>(
    rt: &(impl Print + Clock),
    report: &mut Report,
    map: &str,
    mut table: T,
    count: u64,
) {
    report.begin(rt);
    let absent = descend(&mut table, count);
    report.end(rt, (map, "descend"), absent);
}

fn measure_descent_at<C: NodesMut<u64, u64> + Drop>(
    rt: &(impl Print + Clock),
    report: &mut Report,
    origin: C::Origin,
    count: u64,
) {
    let mut ours: BTreeMap<u64, u64, C> = BTreeMap::new(origin);
    report.begin(rt);
    let len = descend_at(&mut ours, count);
    report.end(rt, ("btree_slab", "descend_at"), len);
}

// From each key on, a range that has about ten pairs.
fn measure_ranges<C: NodesMut<u64, u64> + Drop>(
    rt: &(impl Print + Clock),
    report: &mut Report,
    origin: C::Origin,
    keys: &Keys,
) {
    let mut ours: BTreeMap<u64, u64, C> = BTreeMap::new(origin);
    report.note(put_all(&mut ours, keys.put.as_slice()));
    let width = (u64::MAX / (keys.put.len() as u64).max(1)).saturating_mul(9);
    report.begin(rt);
    let sum = sum_ranges(&ours, keys.present.as_slice(), width);
    report.end(rt, ("btree_slab", "range_ten"), Ok(sum));
}

// The pairs of a map inserted into an empty one in order, each by its key, and the same pairs made a map by one call.
fn measure_ascents<C: NodesMut<u64, u64> + Drop>(
    rt: &(impl Print + Clock),
    report: &mut Report,
    origin: C::Origin,
    keys: &Keys,
)
where
    C::Origin: Copy,
{
    let mut from: BTreeMap<u64, u64, C> = BTreeMap::new(origin);
    report.note(put_all(&mut from, keys.put.as_slice()));
    let mut map: BTreeMap<u64, u64, C> = BTreeMap::new(origin);
    report.begin(rt);
    let len = ascend(&mut map, &from);
    report.end(rt, ("btree_slab", "ascend"), len);
    report.begin(rt);
    let made = collect(origin, &from);
    report.end(rt, ("btree_slab", "collect"), length(&made));
}

// Both ends of an iterator that owns its map, each of a new one.
fn measure_owned<T: Table + Drop>(
    rt: &(impl Print + Clock),
    report: &mut Report,
    map: &str,
    (table, other): (T, T),
    keys: &Keys,
) {
    let (mut table, mut other) = (table, other);
    report.note(put_all(&mut table, keys.put.as_slice()));
    report.begin(rt);
    let sum = table.into_sum();
    report.end(rt, (map, "consume"), Ok(sum));
    report.note(put_all(&mut other, keys.put.as_slice()));
    report.begin(rt);
    let sum = other.into_sum_back();
    report.end(rt, (map, "consume_back"), Ok(sum));
}

// The widths of all ranges together are those of all numbers.
fn measure_spans<S: Spans + Drop>(
    rt: &(impl Print + Clock),
    report: &mut Report,
    map: &str,
    mut set: S,
    keys: &Keys,
) {
    let width = u64::MAX / (keys.put.len() as u64).max(1);
    report.begin(rt);
    let count = add_and_subtract(&mut set, keys.put.as_slice(), width);
    report.end(rt, (map, "range_set"), count);
}

// The same with a value for each range, and then the values of all keys.
fn measure_range_map<C: NodesMut<u64, Span<u64>> + Drop>(
    rt: &(impl Print + Clock),
    report: &mut Report,
    origin: C::Origin,
    keys: &Keys,
) {
    let mut map: RangeMap<u64, C> = RangeMap::new(origin);
    let width = u64::MAX / (keys.put.len() as u64).max(1);
    report.begin(rt);
    let count = assign_and_remove(&mut map, keys.put.as_slice(), width);
    report.end(rt, ("btree_slab", "range_map"), count);
    report.begin(rt);
    let sum = sum_values(&map, keys.present.as_slice());
    report.end(rt, ("btree_slab", "range_map_get"), Ok(sum));
}

// The phases of a map that the kit has too.
fn measure_table<T: Table + Fresh + Drop>(
    rt: &(impl Print + Clock),
    report: &mut Report,
    alloc: Global,
    map: &str,
    keys: &Keys,
) {
    measure(rt, report, map, T::fresh(alloc), keys);
    measure_descent(rt, report, map, T::fresh(alloc), keys.put.len() as u64);
    measure_owned(rt, report, map, (T::fresh(alloc), T::fresh(alloc)), keys);
}

// The phases of this repository's maps and sets alone, over stores of two kinds.
fn measure_ours<C: NodesMut<u64, u64> + Drop, D: NodesMut<u64, Span<u64>> + Drop>(
    rt: &(impl Print + Clock),
    report: &mut Report,
    (origin, of_spans): (C::Origin, D::Origin),
    keys: &Keys,
)
where
    C::Origin: Copy,
    D::Origin: Copy,
{
    measure_ranges::<C>(rt, report, origin, keys);
    measure_descent_at::<C>(rt, report, origin, keys.put.len() as u64);
    measure_ascents::<C>(rt, report, origin, keys);
    let set: RangeSet<C> = RangeSet::new(origin);
    measure_spans(rt, report, "btree_slab", set, keys);
    measure_range_map::<D>(rt, report, of_spans, keys);
}

// The phases of the kit's map alone, and of a table, of which 512 nodes take 1,536 keys in any order.
fn measure_others(rt: &(impl Print + Clock), report: &mut Report, alloc: Global, keys: &Keys) {
    if keys.put.len() <= 1_536 {
        measure_fixed::<FixedNodes>(rt, report, (), keys);
    }
    let kit = KitSpans::in_map(KitMap::new(alloc));
    measure_spans(rt, report, "std", kit, keys);
}

fn measure_maps(rt: &(impl Print + Clock), report: &mut Report, alloc: Global, keys: &Keys) {
    measure_table::<KitMap>(rt, report, alloc, "std", keys);
    measure_table::<SlabMap>(rt, report, alloc, "btree_slab", keys);
    measure_others(rt, report, alloc, keys);
    measure_ours::<SlabNodes, SpanNodes>(rt, report, (alloc, alloc), keys);
}

fn measure_all(
    rt: &(impl Print + Clock + AllocGlobal),
    count: usize,
    is_timed: bool,
) -> io::Result<()> {
    let keys = make_keys(count, rt.alloc())?;
    let mut report = Report::new(is_timed);
    measure_maps(rt, &mut report, rt.alloc(), &keys);
    report.into_outcome()
}

// Returns the number of keys that the arguments give, and whether times are printed; `None` if they are something else.
fn read_arguments(rt: &(impl Env + Alloc)) -> Option<(usize, bool)> {
    let mut words = env::args(rt).ok()?.skip(1);
    let Some(word) = words.next() else {
        return Some((1000, false));
    };
    let count = word.as_str().parse::<usize>().ok()?;
    match words.next() {
        Some(_) => None,
        None => Some((count, true)),
    }
}

fn main(rt: HostRuntime) -> ExitCode {
    let Some((count, is_timed)) = read_arguments(&rt) else {
        let _ = rt.eprintln("usage: bench_maps [number of keys]");
        return ExitCode::from(1);
    };
    match measure_all(&rt, count, is_timed) {
        Ok(()) => ExitCode::SUCCESS,
        Err(error) => {
            let _ = rt.eprintln(format_args!("{error}"));
            ExitCode::from(2)
        }
    }
}
