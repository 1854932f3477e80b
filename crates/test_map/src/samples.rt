//! A map that several modules of tests use.
use crate::asserts::assert_true;
use btree_map::BTreeMap;
use btree_node::NodesMut;
use std::process::Abort;

/// Returns the map of the keys from 0 on, with the values 10 times the keys.
pub(crate) fn first_keys<C: NodesMut<u64, u64> + Drop>(
    rt: &impl Abort,
    origin: C::Origin,
    count: u64,
) -> BTreeMap<u64, u64, C> {
    let mut map: BTreeMap<u64, u64, C> = BTreeMap::new(origin);
    for key in 0..count {
        assert_true(rt, map.insert(key, key.wrapping_mul(10)).is_ok());
    }
    map
}
