//! A map whose values count how many of them are dropped.
#[cfg(test)]
use btree_map::BTreeMap;
#[cfg(test)]
use btree_node::NodesMut;
use std::cell::Cell;

/// A value that knows its key, and counts how many of its kind are dropped.
pub(crate) struct Counted<'a> {
    pub key: u64,
    pub drops: &'a Cell<u64>,
}

impl<'a> Drop for Counted<'a> {
    fn drop(self) {
        let Counted { key: _, drops } = self;
        drops.set(drops.get().wrapping_add(1));
    }
}

/// A value that knows its key, and counts its drop.
#[cfg(test)]
pub(crate) trait Dropping<'a> {
    fn dropping(key: u64, drops: &'a Cell<u64>) -> Self;

    fn key(&self) -> u64;
}

#[cfg(test)]
impl<'a> Dropping<'a> for Counted<'a> {
    fn dropping(key: u64, drops: &'a Cell<u64>) -> Counted<'a> {
        Counted { key, drops }
    }

    fn key(&self) -> u64 {
        self.key
    }
}

/// Inserts the keys from 0 to 99 into a map that is empty. Returns it, or `None` if memory ran out.
#[cfg(test)]
pub(crate) fn hundred<'a, V: Drop + Dropping<'a>, C: NodesMut<u64, V> + Drop>(
    mut map: BTreeMap<u64, V, C>,
    drops: &'a Cell<u64>,
) -> Option<BTreeMap<u64, V, C>> {
    for key in 0..100u64 {
        if map.insert(key, V::dropping(key, drops)).is_err() {
            return None;
        }
    }
    Some(map)
}
