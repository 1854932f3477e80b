//! The maps that are measured.
ghost use Rattle.std.specs.Iterator.{IsFinite};

use btree_map::BTreeMap;
use btree_more_stores::FixedSlab;
use btree_node::{Node, NodesMut};
use btree_range_map::Span;
use btree_store::SlabStore;
use std::alloc::{AllocError, Global};
use std::collections;

/// The nodes of a map, in a slab.
pub type SlabNodes = SlabStore<Node<u64, u64>>;

/// The nodes of a map of ranges, in a slab.
pub type SpanNodes = SlabStore<Node<u64, Span<u64>>>;

/// The nodes of a map, in a table of its own.
pub type FixedNodes = FixedSlab<Node<u64, u64>, 512>;

/// The map of this repository, in a slab.
pub type SlabMap = BTreeMap<u64, u64, SlabNodes>;

/// The map of the kit's std.
pub type KitMap = collections::BTreeMap<u64, u64>;

/// A map that is measured.
pub trait Table {
    /// Inserts a pair, and returns whether the key was there.
    fn put(&mut self, key: u64, value: u64) -> Result<bool, AllocError>;

    /// Returns the value at a key, or `None`.
    fn value_at(&self, key: u64) -> Option<u64>;

    /// Returns the sum of all keys and values, by a walk.
    fn sum(&self) -> u64;

    /// Returns the same sum, by a walk from the back.
    fn sum_back(&self) -> u64;

    /// Removes a key, and returns its value, or `None`.
    fn take(&mut self, key: u64) -> Option<u64>;

    /// Returns the sum of all keys and values, by an iterator that owns the map, from the front.
    fn into_sum(self) -> u64;

    /// Returns the same sum, from the back.
    fn into_sum_back(self) -> u64;
}

/// A map that is made anew for each phase, so that all of them touch fresh memory.
pub trait Fresh {
    /// Returns an empty map.
    fn fresh(alloc: Global) -> Self;
}

impl Fresh for KitMap {
    fn fresh(alloc: Global) -> KitMap {
        KitMap::new(alloc)
    }
}

impl Fresh for SlabMap {
    fn fresh(alloc: Global) -> SlabMap {
        SlabMap::new(alloc)
    }
}

fn sum_of<I: Iterator<Item = (u64, u64)> + Drop>(pairs: I) -> u64
    requires can { I.can_next pairs }
    requires ends { IsFinite (I.remaining pairs) }
{
    let mut sum = 0u64;
    for (key, value) in pairs {
        sum = sum.wrapping_add(key).wrapping_add(value);
    }
    sum
}

impl Table for KitMap {
    fn put(&mut self, key: u64, value: u64) -> Result<bool, AllocError> {
        Ok(self.insert(key, value)?.is_some())
    }

    fn value_at(&self, key: u64) -> Option<u64> {
        self.get(&key).copied()
    }

    fn sum(&self) -> u64 {
        let mut sum = 0u64;
        for (key, value) in self.iter() {
            sum = sum.wrapping_add(*key).wrapping_add(*value);
        }
        sum
    }

    fn sum_back(&self) -> u64 {
        let mut sum = 0u64;
        for (key, value) in self.iter().rev() {
            sum = sum.wrapping_add(*key).wrapping_add(*value);
        }
        sum
    }

    fn take(&mut self, key: u64) -> Option<u64> {
        self.remove(&key)
    }

    fn into_sum(self) -> u64 {
        sum_of(self.into_iter())
    }

    fn into_sum_back(self) -> u64 {
        sum_of(self.into_iter().rev())
    }
}

impl<C: NodesMut<u64, u64> + Drop> Table for BTreeMap<u64, u64, C> {
    fn put(&mut self, key: u64, value: u64) -> Result<bool, AllocError> {
        Ok(self.insert(key, value)?.is_some())
    }

    fn value_at(&self, key: u64) -> Option<u64> {
        self.get(&key).copied()
    }

    fn sum(&self) -> u64 {
        let mut sum = 0u64;
        for (key, value) in self.iter() {
            sum = sum.wrapping_add(*key).wrapping_add(*value);
        }
        sum
    }

    fn sum_back(&self) -> u64 {
        let mut sum = 0u64;
        for (key, value) in self.iter().rev() {
            sum = sum.wrapping_add(*key).wrapping_add(*value);
        }
        sum
    }

    fn take(&mut self, key: u64) -> Option<u64> {
        self.remove(&key)
    }

    fn into_sum(self) -> u64 {
        sum_of(self.into_iter())
    }

    fn into_sum_back(self) -> u64 {
        sum_of(self.into_iter().rev())
    }
}
