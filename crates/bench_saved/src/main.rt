//! Times saved maps: insertion, saving and opening, and insertion of the same pairs in order; beside it the kit's std map, which `serde_json`
//! writes and reads.
//!
//! Without an argument it runs over 1000 pairs and prints how many each phase came to. With a number of pairs as its argument it prints,
//! for each phase, its name, the nanoseconds that it took, and the bytes that it wrote or read.
#![tactic(auto)]

use anyhow::{Context, Result, anyhow, bail};
use btree_map::BTreeMap;
use btree_more_stores::{Fill, SlotStore};
use btree_node::{Node, NodesMut};
use btree_save::{OpenError, bytes_of_map, map_of_bytes};
use std::alloc::{AllocError, Global};
use std::collections::BTreeMap as KitMap;
use std::env;
use std::env::Env;
use std::time::{Clock, Instant};

// Prints a line about each phase. The first error ends the report, and is kept.
#[derive(Drop)]
struct Report {
    is_timed: bool,
    since: Option<Instant>,
    outcome: Result<()>,
}

impl Report {
    // Begins a phase.
    fn begin(&mut self, rt: &impl Clock) {
        self.since = Instant::now(rt).ok();
    }

    // Prints the line about a phase that ends now.
    fn show(
        &self,
        rt: &(impl Print + Clock),
        phase: &str,
        (pairs, bytes): (usize, usize),
    ) -> Result<()> {
        let nanos = self.since.context("no clock")?.elapsed(rt)?.as_nanos();
        if self.is_timed {
            rt.println(format_args!("{phase} {nanos} {bytes}"))?;
        } else {
            rt.println(format_args!("{phase} {pairs}"))?;
        }
        Ok(())
    }

    // Ends a phase, which came to so many pairs and bytes if it is done.
    fn end(
        &mut self,
        rt: &(impl Print + Clock),
        phase: &str,
        is_done: bool,
        came_to: (usize, usize),
    ) {
        if !is_done {
            self.outcome = Err(anyhow!("{phase} failed"));
        } else if self.outcome.is_ok() {
            self.outcome = self.show(rt, phase, came_to);
        }
    }
}

// Returns keys without an order, by a linear congruence.
fn make_keys(alloc: Global, count: usize) -> Result<Vec<u64>, AllocError> {
    let mut keys = Vec::new(alloc);
    let mut state = 1u64;
    for _ in 0..count {
        state = state
            .wrapping_mul(6364136223846793005)
            .wrapping_add(1442695040888963407);
        keys.push(state)?;
    }
    Ok(keys)
}

// Inserts each key, with itself as its value.
fn put_all<C: NodesMut<u64, u64>>(
    map: &mut BTreeMap<u64, u64, C>,
    keys: &[u64],
) -> Result<(), AllocError> {
    for key in keys {
        map.insert(*key, *key)?;
    }
    Ok(())
}

// Inserts the pairs of another map, in order.
fn put_in_order<C: NodesMut<u64, u64>>(
    map: &mut BTreeMap<u64, u64, C>,
    from: &BTreeMap<u64, u64, C>,
) -> Result<(), AllocError> {
    for (key, value) in from {
        map.insert(*key, *value)?;
    }
    Ok(())
}

// Inserts each key, with itself as its value.
fn put_all_in_kit(map: &mut KitMap<u64, u64>, keys: &[u64]) -> Result<(), AllocError> {
    for key in keys {
        map.insert(*key, *key)?;
    }
    Ok(())
}

// Times a map that is saved. Returns its bytes.
fn measure_save<C: Fill<Node<u64, u64>, Origin = Global> + Drop>(
    rt: &(impl Print + Clock),
    report: &mut Report,
    alloc: Global,
    keys: &[u64],
) -> Vec<u8> {
    let mut map: BTreeMap<u64, u64, C> = BTreeMap::new(alloc);
    report.begin(rt);
    let is_done = put_all(&mut map, keys).is_ok();
    report.end(rt, "saved.insert", is_done, (map.len(), 0));
    report.begin(rt);
    let saved = bytes_of_map(alloc, &map);
    let is_done = saved.is_ok();
    let bytes = saved.unwrap_or(Vec::new(alloc));
    report.end(rt, "saved.save", is_done, (map.len(), bytes.len()));
    bytes
}

// Times insertion of the pairs of a map in order.
fn measure_in_order<C: NodesMut<u64, u64, Origin = Global> + Drop>(
    rt: &(impl Print + Clock),
    report: &mut Report,
    alloc: Global,
    map: &BTreeMap<u64, u64, C>,
) {
    let mut other: BTreeMap<u64, u64, C> = BTreeMap::new(alloc);
    report.begin(rt);
    let is_done = put_in_order(&mut other, map).is_ok();
    report.end(rt, "saved.insert_in_order", is_done, (other.len(), 0));
}

// Times a map that is opened, and one into which the same pairs are inserted.
fn measure_open<C: Fill<Node<u64, u64>, Origin = Global> + Drop>(
    rt: &(impl Print + Clock),
    report: &mut Report,
    alloc: Global,
    bytes: &[u8],
) {
    report.begin(rt);
    let opened: Result<BTreeMap<u64, u64, C>, OpenError> = map_of_bytes(alloc, bytes);
    match opened {
        Ok(map) => {
            report.end(rt, "saved.open", true, (map.len(), bytes.len()));
            measure_in_order(rt, report, alloc, &map);
        }
        Err(_) => report.end(rt, "saved.open", false, (0, 0)),
    }
}

// Times a map of the kit's std that is written as JSON. Returns the text.
fn measure_write(
    rt: &(impl Print + Clock),
    report: &mut Report,
    alloc: Global,
    keys: &[u64],
) -> String {
    let mut map: KitMap<u64, u64> = KitMap::new(alloc);
    report.begin(rt);
    let is_done = put_all_in_kit(&mut map, keys).is_ok();
    report.end(rt, "std.insert", is_done, (map.len(), 0));
    report.begin(rt);
    let written = serde_json::to_string(alloc, &map);
    let is_done = written.is_ok();
    let text = written.unwrap_or(String::new(alloc));
    report.end(rt, "std.to_json", is_done, (map.len(), text.len()));
    text
}

// Times a map of the kit's std that is read from JSON.
fn measure_read(rt: &(impl Print + Clock), report: &mut Report, alloc: Global, text: &str) {
    report.begin(rt);
    let read: serde_json::Result<KitMap<u64, u64>> = serde_json::from_str(alloc, text);
    match &read {
        Ok(map) => report.end(rt, "std.from_json", true, (map.len(), text.len())),
        Err(_) => report.end(rt, "std.from_json", false, (0, 0)),
    }
}

// Times both.
fn measure(rt: &(impl Print + Clock), report: &mut Report, alloc: Global, keys: &[u64]) {
    let bytes = measure_save::<SlotStore<Node<u64, u64>>>(rt, report, alloc, keys);
    measure_open::<SlotStore<Node<u64, u64>>>(rt, report, alloc, &bytes);
    let text = measure_write(rt, report, alloc, keys);
    measure_read(rt, report, alloc, text.as_str());
}

fn main(rt: HostRuntime) -> Result<()> {
    let mut words = env::args(&rt)?.skip(1);
    let (count, is_timed) = match words.next() {
        Some(word) => (word.as_str().parse::<usize>()?, true),
        None => (1000, false),
    };
    if count == 0 {
        bail!("no pairs");
    }
    let keys = make_keys(rt.alloc(), count)?;
    let mut report = Report {
        is_timed,
        since: None,
        outcome: Ok(()),
    };
    measure(&rt, &mut report, rt.alloc(), &keys);
    report.outcome
}
