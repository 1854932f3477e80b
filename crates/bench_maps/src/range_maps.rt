//! Maps of ranges.
use btree_node::NodesMut;
use btree_range_map::{RangeMap, Span};
use std::alloc::AllocError;

/// Inserts and removes a range from each key on, in turn. Each has a width of `width`, or ends at the greatest number, and the value is one of
/// four. Returns how many ranges there are then.
pub fn assign_and_remove<C: NodesMut<u64, Span<u64>>>(
    map: &mut RangeMap<u64, C>,
    keys: &[u64],
    width: u64,
) -> Result<u64, AllocError> {
    let mut is_inserted = false;
    for key in keys {
        is_inserted = !is_inserted;
        let end = key.saturating_add(width);
        if is_inserted {
            map.insert(*key, end, *key % 4)?;
        } else {
            map.remove(*key, end)?;
        }
    }
    Ok(map.len() as u64)
}

/// Returns the sum of the values of the keys, each with one more, so that a value that is 0 counts.
pub fn sum_values<C: NodesMut<u64, Span<u64>>>(map: &RangeMap<u64, C>, keys: &[u64]) -> u64 {
    let mut sum = 0u64;
    for key in keys {
        if let Some(value) = map.get(*key) {
            sum = sum.wrapping_add(*value).wrapping_add(1);
        }
    }
    sum
}
