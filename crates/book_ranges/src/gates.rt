//! A set and a map of ranges over stores that refuse one node.
use crate::things::Thing;
use book_text::{Desk, Reply, number, word};
use btree_more_stores::Gate;
use btree_node::Node;
use btree_range_map::{RangeMap, Span};
use btree_range_set::RangeSet;
use btree_store::{SlabMut, SlabStore};
use std::alloc::Global;

type SetStore = SlabStore<Node<u64, u64>>;

type MapStore = SlabStore<Node<u64, Span<u64>>>;

/// A set or a map of ranges over a slab behind a gate.
pub(crate) trait Gated: Thing {
    /// Returns one without numbers, whose store refuses one node: 1 is the first one, 0 is none.
    fn gated(alloc: Global, refuses_at: usize) -> Self;
}

fn gated_set(alloc: Global, refuses_at: usize) -> RangeSet<Gate<SetStore>> {
    let nodes = <SetStore as SlabMut<Node<u64, u64>>>::empty(alloc);
    RangeSet::in_store(Gate::over(nodes, refuses_at))
}

fn gated_map(alloc: Global, refuses_at: usize) -> RangeMap<u64, Gate<MapStore>> {
    let nodes = <MapStore as SlabMut<Node<u64, Span<u64>>>>::empty(alloc);
    RangeMap::in_store(Gate::over(nodes, refuses_at))
}

impl Gated for RangeSet<Gate<SetStore>> {
    fn gated(alloc: Global, refuses_at: usize) -> Self {
        gated_set(alloc, refuses_at)
    }
}

impl Gated for RangeMap<u64, Gate<MapStore>> {
    fn gated(alloc: Global, refuses_at: usize) -> Self {
        gated_map(alloc, refuses_at)
    }
}

/// A set and a map of ranges, each behind a gate.
#[derive(Drop)]
pub(crate) struct Gates<R: Gated + Drop, M: Gated + Drop> {
    alloc: Global,
    r: R,
    m: M,
}

/// Returns an empty set and an empty map, whose stores refuse no node.
pub(crate) fn make_gates<R: Gated + Drop, M: Gated + Drop>(alloc: Global) -> Gates<R, M> {
    Gates {
        alloc,
        r: R::gated(alloc, 0),
        m: M::gated(alloc, 0),
    }
}

impl<R: Gated + Drop, M: Gated + Drop> Desk for Gates<R, M> {
    fn call(&mut self, words: &str, reply: &mut Reply) -> bool {
        let (name, rest) = word(words);
        match (name, number(rest)) {
            ("r", _) => self.r.serve(rest, reply),
            ("m", _) => self.m.serve(rest, reply),
            ("new", Some(refuses_at)) => {
                self.r = R::gated(self.alloc, refuses_at as usize);
                self.m = M::gated(self.alloc, refuses_at as usize);
                reply.word("ok");
                true
            }
            _ => false,
        }
    }

    fn content(&self, reply: &mut Reply) {
        self.r.put(reply);
        self.m.put(reply);
    }
}
