//! All calls of maps.
use crate::addresses::serve_addresses;
use crate::cursors::serve_cursors;
use crate::edits::serve_edits;
use crate::entries::serve_entries;
use crate::keys::serve_keys;
use crate::queries::serve_queries;
use crate::several::serve_several;
use crate::walks::serve_walks;
use book_text::{Reply, word};
use btree_map::BTreeMap;
use btree_node::{ClearNodes, CloneNodes, NodesMut};
use std::alloc::Global;

/// Does the call of a map, or of it and another one, that words name, and adds the reply. Returns whether the words are a call. Maps over stores
/// of their own kind and of another are made from the origins.
pub fn serve_map<
    C: ClearNodes<u64, u64> + CloneNodes<u64, u64> + Drop,
    D: NodesMut<u64, u64> + Drop,
>(
    alloc: Global,
    origins: (C::Origin, D::Origin),
    map: &mut BTreeMap<u64, u64, C>,
    other: &mut BTreeMap<u64, u64, C>,
    words: &str,
    reply: &mut Reply,
) -> bool
where
    C::Origin: Copy,
    D::Origin: Copy,
{
    let (verb, rest) = word(words);
    serve_keys(map, verb, rest, reply)
        || serve_entries(map, verb, rest, reply)
        || serve_addresses(map, verb, rest, reply)
        || serve_edits(map, verb, rest, reply)
        || serve_queries(map, verb, rest, reply)
        || serve_walks(map, verb, rest, reply)
        || serve_cursors(map, verb, rest, reply)
        || serve_several::<C, D>(alloc, origins, map, other, verb, rest, reply)
}
