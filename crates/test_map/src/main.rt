//! Tests of maps and sets. It is a program since some values count their drops.
#![tactic(auto)]

#[cfg(test)]
mod asserts;
#[cfg(test)]
mod callers;
#[cfg(test)]
mod counted;
#[cfg(test)]
mod counted_keys;
#[cfg(test)]
mod drains;
#[cfg(test)]
mod dropped;
mod drops;
#[cfg(test)]
mod entries;
#[cfg(test)]
mod equal;
#[cfg(test)]
mod fetched;
#[cfg(test)]
mod fixed;
#[cfg(test)]
mod gates;
#[cfg(test)]
mod lending;
#[cfg(test)]
mod merges;
#[cfg(test)]
mod once;
#[cfg(test)]
mod own;
#[cfg(test)]
mod owner;
#[cfg(test)]
mod queries;
#[cfg(test)]
mod samples;

use crate::drops::Counted;
use btree_map::BTreeMap;
use btree_node::Node;
use btree_store::SlabStore;
use std::cell::Cell;

// Drops a map of such values, since the answers for a node's drop are read here too.
fn main(rt: HostRuntime) {
    let drops = Cell::new(0u64);
    let map: BTreeMap<u64, Counted<'_>, SlabStore<Node<u64, Counted<'_>>>> = BTreeMap::new(
        rt.alloc(),
    );
    drop(map);
    drop(drops);
}
