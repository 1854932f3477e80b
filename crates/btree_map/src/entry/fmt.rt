//! Entries as text, for tests and messages.
use super::{Entry, OccupiedEntry, VacantEntry};
use btree_node::NodesMut;
use std::fmt::{Debug, Formatter, Result, Write};

impl<'a, K: Ord + Debug, V: Debug, C: NodesMut<K, V>> Debug for Entry<'a, K, V, C> {
    /// Writes the text of the entry in it.
    fn fmt<W: Write>(&self, f: &mut Formatter<W>) -> Result {
        match self {
            Entry::Vacant(entry) => entry.fmt(f),
            Entry::Occupied(entry) => entry.fmt(f),
        }
    }
}

impl<'a, K: Ord + Debug, V, C: NodesMut<K, V>> Debug for VacantEntry<'a, K, V, C> {
    /// Writes the key, as `VacantEntry(1)`.
    fn fmt<W: Write>(&self, f: &mut Formatter<W>) -> Result {
        f.debug_tuple("VacantEntry").field(self.key()).finish()
    }
}

impl<'a, K: Ord + Debug, V: Debug, C: NodesMut<K, V>> Debug for OccupiedEntry<'a, K, V, C> {
    /// Writes the stored key and the value, as `OccupiedEntry { key: 1, value: 2 }`.
    fn fmt<W: Write>(&self, f: &mut Formatter<W>) -> Result {
        f.debug_struct("OccupiedEntry")
            .field("key", self.key())
            .field("value", self.get())
            .finish()
    }
}
