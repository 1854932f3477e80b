//! The debug text of a map.
use crate::BTreeMap;
use btree_node::NodesMut;
use std::fmt::{Debug, Formatter, Result, Write};

/// The pairs in the order of their keys, as in `{1: 10, 2: 20}`.
impl<K: Ord + Debug, V: Debug, C: NodesMut<K, V>> Debug for BTreeMap<K, V, C> {
    fn fmt<W: Write>(&self, f: &mut Formatter<W>) -> Result {
        f.debug_map().entries(self.iter()).finish()
    }
}
