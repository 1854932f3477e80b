//! What threads may share, and what may be sent to another one.
use btree_slab::{BTreeMap, BTreeSet, FixedMap, RangeMap, RangeSet};

// Takes what threads may share.
fn share<T: Sync>(_value: &T) {}

// Takes what may be sent to another thread.
fn send<T: Send + Drop>(value: T) {
    drop(value);
}

/// A map of strings, a set, a set of ranges and a map of ranges over the heap, and a map in a table, may be shared by threads.
pub fn share_each(
    map: &BTreeMap<String, u64>,
    set: &BTreeSet<u32>,
    ranges: &RangeSet,
    owners: &RangeMap<u32>,
    table: &FixedMap<u32, u64, 11>,
) {
    share(map);
    share(set);
    share(ranges);
    share(owners);
    share(table);
}

/// Each of them may be sent to another thread.
pub fn send_each(
    map: BTreeMap<String, u64>,
    set: BTreeSet<u32>,
    ranges: RangeSet,
    owners: RangeMap<u32>,
    table: FixedMap<u32, u64, 11>,
) {
    send(map);
    send(set);
    send(ranges);
    send(owners);
    send(table);
}
