//! The debug text of a map.
use crate::{RangeMap, Span};
use btree_node::NodesMut;
use std::fmt::{Debug, Formatter, Result, Write};
use std::iter::Iterator;

/// The ranges in order with their values, as in `{1..3: 7, 5..9: 8}`.
impl<V: Clone + Eq + Debug, C: NodesMut<u64, Span<V>>> Debug for RangeMap<V, C> {
    fn fmt<W: Write>(&self, f: &mut Formatter<W>) -> Result {
        f.debug_map()
            .entries(
                self.iter()
                    .map(|(start, span)| (start..span.end, &span.value)),
            )
            .finish()
    }
}
