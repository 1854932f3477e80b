//! The debug text of a set.
use crate::RangeSet;
use btree_node::NodesMut;
use std::fmt::{Debug, Formatter, Result, Write};
use std::iter::Iterator;

/// The ranges in order, as in `{1..3, 5..9}`.
impl<C: NodesMut<u64, u64>> Debug for RangeSet<C> {
    fn fmt<W: Write>(&self, f: &mut Formatter<W>) -> Result {
        f.debug_set()
            .entries(self.iter().map(|(start, end)| start..end))
            .finish()
    }
}
