//! Cursors that lend each value for writing, in a whole map and in a range: what their callers know of the map afterwards.
ghost use Rattle.std.specs.Prelude.{◌≡◌, map as each};
ghost use Rattle.btree_laws.specs.TreeAddresses.{item_addresses_of};
ghost use Rattle.btree_laws.specs.TreeState.{pairs_of};
ghost use Rattle.btree_walk.specs.Bounds.{IsValidRange};
ghost use Rattle.test_map.specs.Raised.{greater_between, greater_by};

use btree_map::BTreeMap;
use btree_node::{Node, NodesMut};
use btree_store::SlabStore;
use std::ops::Bound;

type Map = BTreeMap<u64, u64, SlabStore<Node<u64, u64>>>;

// Adds one to each value.
pub(crate) fn add_one<K: Ord + Drop, C: NodesMut<K, u64>>(map: &mut BTreeMap<K, u64, C>)
    ensures pairs { pairs_of map.new ≡ each (greater_by 1) (pairs_of map.old) }
    ensures addresses { item_addresses_of map.new ≡ item_addresses_of map.old }
    ensures uncounted { map.new.kept ≡ map.old.kept }
{
    let mut pairs = map.iter_mut();
    while pairs.len() > 0 {
        let (_key, value) = pairs.next_pair();
        *value = value.wrapping_add(1);
    }
}

// The same for a map of known types, by a cursor over its values.
pub(crate) fn add_one_to_each(map: &mut Map)
    ensures pairs { pairs_of map.new ≡ each (greater_by 1) (pairs_of map.old) }
{
    let mut values = map.values_mut();
    while values.len() > 0 {
        let value = values.next_value();
        *value = value.wrapping_add(1);
    }
}

// Adds a number to each value between two bounds.
pub(crate) fn add_to_range<K: Ord + Drop, C: NodesMut<K, u64>>(
    map: &mut BTreeMap<K, u64, C>,
    range: (Bound<&K>, Bound<&K>),
    more: u64,
)
    requires { IsValidRange K.cmp range }
    ensures all { pairs_of map.new ≡
        each (greater_between K.cmp range.entry more) (pairs_of map.old) }
    ensures addresses { item_addresses_of map.new ≡ item_addresses_of map.old }
    ensures uncounted { map.new.kept ≡ map.old.kept }
{
    let mut pairs = map.range_mut(range);
    while !pairs.is_empty() {
        let (_key, value) = pairs.next_pair();
        *value = value.wrapping_add(more);
    }
}
