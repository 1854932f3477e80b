//! Short ranges.
use btree_map::BTreeMap;
use btree_node::NodesMut;
use btree_walk::is_valid_range;
use std::ops::Bound;

/// Returns the sum of all keys and values that a range of this width from each key on yields.
pub fn sum_ranges<C: NodesMut<u64, u64>>(
    map: &BTreeMap<u64, u64, C>,
    keys: &[u64],
    width: u64,
) -> u64 {
    let mut sum = 0u64;
    for key in keys {
        sum = sum.wrapping_add(sum_range(map, key, &key.saturating_add(width)));
    }
    sum
}

fn sum_range<C: NodesMut<u64, u64>>(map: &BTreeMap<u64, u64, C>, start: &u64, end: &u64) -> u64 {
    let bounds = (Bound::Included(start), Bound::Included(end));
    if !is_valid_range((Bound::Included(start), Bound::Included(end))) {
        return 0;
    }
    let mut sum = 0u64;
    for (key, value) in map.range(bounds) {
        sum = sum.wrapping_add(*key).wrapping_add(*value);
    }
    sum
}
