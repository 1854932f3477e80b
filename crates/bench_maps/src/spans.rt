//! Sets of ranges: that of this repository, and a plain one over the kit's map.
use crate::tables::KitMap;
use btree_node::NodesMut;
use btree_range_set::RangeSet;
use std::alloc::AllocError;

/// A set of ranges that is measured. A range starts below its end.
pub trait Spans {
    /// Adds the numbers from `start` up to `end`.
    fn add(&mut self, start: u64, end: u64) -> Result<(), AllocError>;

    /// Removes the numbers from `start` up to `end`.
    fn subtract(&mut self, start: u64, end: u64) -> Result<(), AllocError>;

    /// Returns how many ranges there are.
    fn count(&self) -> usize;
}

/// A set of ranges in a map of the kit's std, from the start of each range to its end.
#[derive(Drop)]
pub struct KitSpans {
    map: KitMap,
}

impl KitSpans {
    /// Returns a set without ranges, in an empty map.
    pub fn in_map(map: KitMap) -> KitSpans {
        KitSpans { map }
    }

    // Returns the last range that starts at `most` or below it.
    fn last_up_to(&self, most: u64) -> Option<(u64, u64)> {
        match self.map.range(..=most).next_back() {
            Some((start, end)) => Some((*start, *end)),
            None => None,
        }
    }
}

impl Spans for KitSpans {
    fn add(&mut self, start: u64, end: u64) -> Result<(), AllocError> {
        let (mut low, mut high) = (start, end);
        for _ in 0..self.map.len() {
            let Some((first, last)) = self.last_up_to(high) else {
                break;
            };
            if last < low {
                break;
            }
            self.map.remove(&first);
            low = low.min(first);
            high = high.max(last);
        }
        self.map.insert(low, high)?;
        Ok(())
    }

    fn subtract(&mut self, start: u64, end: u64) -> Result<(), AllocError> {
        for _ in 0..self.map.len() {
            let Some((first, last)) = self.last_up_to(end.saturating_sub(1)) else {
                break;
            };
            if last <= start {
                break;
            }
            self.map.remove(&first);
            if end < last {
                self.map.insert(end, last)?;
            }
            if first < start {
                self.map.insert(first, start)?;
                break;
            }
        }
        Ok(())
    }

    fn count(&self) -> usize {
        self.map.len()
    }
}

impl<C: NodesMut<u64, u64>> Spans for RangeSet<C> {
    fn add(&mut self, start: u64, end: u64) -> Result<(), AllocError> {
        self.insert(start, end)?;
        Ok(())
    }

    fn subtract(&mut self, start: u64, end: u64) -> Result<(), AllocError> {
        self.remove(start, end)?;
        Ok(())
    }

    fn count(&self) -> usize {
        self.len()
    }
}

/// Adds and removes a range from each key on, in turn. Each has a width of `width`, or ends at the greatest number. Returns how many
/// ranges there are then.
pub fn add_and_subtract(set: &mut impl Spans, keys: &[u64], width: u64) -> Result<u64, AllocError> {
    let mut is_added = false;
    for key in keys {
        is_added = !is_added;
        let end = key.saturating_add(width);
        if is_added {
            set.add(*key, end)?;
        } else {
            set.subtract(*key, end)?;
        }
    }
    Ok(set.count() as u64)
}
