//! Maps of several kinds of keys and values.
ghost use Rattle.std.specs.Mem.{FitsInMemory};
ghost use Rattle.btree_node.specs.contracts.node.Node.{the_row as node_row};

use crate::asserts::{assert_same, assert_true, given};
use crate::maps::check_same;
use btree_map::BTreeMap;
use btree_more_stores::{Fill, SlotStore};
use btree_node::Node;
use btree_save::{bytes_of_map, map_of_bytes};
use btree_spelled::Spelled;
use std::alloc::Global;
use std::fmt::Debug;
use std::process::Abort;

// The nodes of a map, in slots.
type SlotsOf<K, V> = SlotStore<Node<K, V>>;

// Checks that a map of three pairs is opened from its bytes. These are 72 about one leaf with its number of items, and those of the pairs,
// and the check sum.
fn check_kind<
    K: Spelled + Ord + Copy + Debug,
    V: Spelled + PartialEq + Copy + Debug,
    C: Fill<Node<K, V>, Origin = Global> + Drop,
>(rt: &impl Abort, alloc: Global, pairs: &[(K, V)], len: usize)
    requires { FitsInMemory (node_row K.row V.row) }
{
    let mut map: BTreeMap<K, V, C> = BTreeMap::new(alloc);
    for (key, value) in pairs.iter().copied() {
        assert_true(rt, map.insert(key, value).is_ok());
    }
    let bytes = given(rt, bytes_of_map(alloc, &map));
    assert_same(rt, bytes.len(), len);
    let again: BTreeMap<K, V, C> = given(rt, map_of_bytes(alloc, &bytes));
    check_same(rt, &map, &again);
}

// A set is a map to nothing.
#[test]
fn pairs_to_nothing(rt: HostRuntime) {
    let pairs = [(('z', -1), ()), (('a', i32::MIN), ()), (('z', -2), ())];
    check_kind::<_, _, SlotsOf<(char, i32), ()>>(&rt, rt.alloc(), &pairs, 80 + 3 * 8);
}

#[test]
fn booleans_to_characters(rt: HostRuntime) {
    let pairs = [
        ((true, 7usize), 'x'),
        ((false, 7), '\u{10ffff}'),
        ((true, 6), 'y'),
    ];
    check_kind::<_, _, SlotsOf<(bool, usize), char>>(&rt, rt.alloc(), &pairs, 80 + 3 * 13);
}
