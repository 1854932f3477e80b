//! The debug text of a set.
use crate::BTreeSet;
use btree_node::NodesMut;
use std::fmt::{Debug, Formatter, Result, Write};

/// The elements in order, as in `{1, 2}`.
impl<T: Ord + Debug, C: NodesMut<T, ()>> Debug for BTreeSet<T, C> {
    fn fmt<W: Write>(&self, f: &mut Formatter<W>) -> Result {
        f.debug_set().entries(self.iter()).finish()
    }
}
