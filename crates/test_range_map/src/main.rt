//! Tests of maps of ranges. It is a program since some values own memory.
#![tactic(auto)]

#[cfg(test)]
mod asserts;
#[cfg(test)]
mod checks;
#[cfg(test)]
mod extension;
#[cfg(test)]
mod fmt;
#[cfg(test)]
mod maps;
#[cfg(test)]
mod owned;
#[cfg(test)]
mod table;
mod texts;
#[cfg(test)]
mod two_maps;

use crate::texts::Text;
use btree_node::Node;
use btree_range_map::{RangeMap, Span};
use btree_store::SlabStore;

// Drops a map of texts, since the answers for a node's drop are read here too.
fn main(rt: HostRuntime) {
    let map: RangeMap<Text, SlabStore<Node<u64, Span<Text>>>> = RangeMap::new(rt.alloc());
    drop(map);
}
