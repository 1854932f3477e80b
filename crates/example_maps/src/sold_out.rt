//! A stock without the parts that are sold out, by an editing cursor.
ghost use Rattle.std.specs.Prelude.{◌≡◌};
ghost use Rattle.btree_slab.specs.TreeState.{pairs_of};
ghost use Rattle.example_maps.specs.Stock.{left_from};

use btree_slab::generic::map::BTreeMap;
use btree_slab::store::NodesMut;
use std::ops::Bound;

/// Removes the parts from a number on whose count is 0, in a map over any store.
///
/// It finds the first of them, and passes once over the rest: the cursor removes a part where it is, and goes on with the next one.
pub fn remove_sold_out<K: Ord + Drop, C: NodesMut<K, u64>>(
    stock: &mut BTreeMap<K, u64, C>,
    first: &K,
)
    ensures { pairs_of stock.new ≡ left_from K.cmp first.now stock.old }
{
    let mut parts = stock.entries_mut_from(Bound::Included(first));
    while let Some(part) = parts.peek() {
        if *part.value() == 0 {
            drop(parts.remove());
            continue;
        }
        let _passed = parts.next_pair();
    }
}
