//! Sets and maps of ranges as what lines are calls of.
use crate::map_calls::serve_map;
use crate::ranges::put_ranges;
use crate::set_calls::serve_set;
use book_text::{Reply, number, word};
use btree_node::{ClearNodes, NodesMut};
use btree_range_map::{RangeMap, Span};
use btree_range_set::RangeSet;

/// A set or a map of ranges.
pub(crate) trait Thing: Sized {
    /// What its store is made from.
    type Origin;

    /// Returns one without numbers.
    fn empty(origin: Self::Origin) -> Self;

    /// Returns one without numbers that has at most `limit` ranges.
    fn limited(origin: Self::Origin, limit: usize) -> Self;

    /// Serves a call. Returns whether the words are one.
    fn serve(&mut self, words: &str, reply: &mut Reply) -> bool;

    /// Adds its ranges, and how many nodes there are.
    fn put(&self, reply: &mut Reply);
}

impl<C: ClearNodes<u64, u64> + Drop> Thing for RangeSet<C> {
    type Origin = C::Origin;

    fn empty(origin: C::Origin) -> Self {
        RangeSet::new(origin)
    }

    fn limited(origin: C::Origin, limit: usize) -> Self {
        RangeSet::with_limit(origin, limit)
    }

    fn serve(&mut self, words: &str, reply: &mut Reply) -> bool {
        serve_set(self, words, reply)
    }

    fn put(&self, reply: &mut Reply) {
        put_ranges(self.iter(), reply);
        reply.count(self.store().len());
    }
}

impl<C: ClearNodes<u64, Span<u64>> + Drop> Thing for RangeMap<u64, C> {
    type Origin = C::Origin;

    fn empty(origin: C::Origin) -> Self {
        RangeMap::new(origin)
    }

    fn limited(origin: C::Origin, limit: usize) -> Self {
        RangeMap::with_limit(origin, limit)
    }

    fn serve(&mut self, words: &str, reply: &mut Reply) -> bool {
        serve_map(self, words, reply)
    }

    fn put(&self, reply: &mut Reply) {
        put_ranges(self.iter(), reply);
        reply.count(self.store().len());
    }
}

/// Serves a call of a set or a map, which may be made anew with a limit. Returns whether the words are one.
pub(crate) fn serve_thing<T: Thing + Drop>(
    origin: T::Origin,
    thing: &mut T,
    words: &str,
    reply: &mut Reply,
) -> bool
where
    T::Origin: Copy,
{
    let (verb, rest) = word(words);
    match (verb, number(rest)) {
        ("limited", Some(limit)) => {
            *thing = T::limited(origin, limit as usize);
            reply.word("ok");
            true
        }
        _ => thing.serve(words, reply),
    }
}
