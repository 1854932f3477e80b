//! The drain: the pairs of a map that a closure picks, removed one at a time.
mod map;
mod steps;

use crate::BTreeMap;
use crate::pair_test::ByPair;
use btree_item::Address;
use btree_node::NodesMut;
pub use steps::{run_out, seek_from};

/// The pairs of a map that a closure picks, removed one at a time in the order of the keys: what `BTreeMap::drain_filter` returns. The closure
/// is called once at each pair, and the values that it writes stay.
///
/// A pair that is kept costs what a step of a cursor costs. The drain allocates no memory and cannot fail. When it is dropped, the closure is
/// called at the pairs that are left, and those that it picks are dropped. `finish` does the same.
///
/// A `for` loop cannot take it, since its drop requires that the closure may be called: write `while let Some(pair) = drain.next()`.
pub struct DrainFilter<'a, K: Ord, V, C: NodesMut<K, V>, F: FnMut(&K, &mut V) -> bool> {
    pub(crate) map: &'a mut BTreeMap<K, V, C>,
    /// The address of the item at place `front`: so many pairs were kept.
    pub(crate) first: Option<Address>,
    pub(crate) front: usize,
    pub(crate) test: ByPair<F>,
}

impl<'a, K: Ord + Drop, V: Drop, C: NodesMut<K, V>, F: FnMut(&K, &mut V) -> bool> Drop
    for DrainFilter<'a, K, V, C, F> {
    ghost use Rattle.btree_map.specs.DrainSteps.{IsDraining, LetsGo};

    fn drop(self)
        requires { IsDraining F.FnMut self }
        ensures { LetsGo F.FnMut self.entry self.exit.0.now }
    {
        let DrainFilter {
            map,
            first,
            front,
            mut test,
        } = self;
        run_out(map, first, front, &mut test);
    }
}
