//! The drain: the elements of a set that a closure picks, removed one at a time.
mod set;
mod steps;

use crate::BTreeSet;
use btree_item::Address;
use btree_map::ByKey;
use btree_node::NodesMut;
use steps::run_rest;

/// The elements of a set that a closure picks, removed one at a time in order: what `BTreeSet::drain_filter` returns. The closure is called
/// once at each element.
///
/// An element that is kept costs what a step of a cursor costs. The drain allocates no memory and cannot fail. When it is dropped, the closure
/// is called at the elements that are left, and those that it picks are dropped. `finish` does the same.
///
/// A `for` loop cannot take it, since its drop requires that the closure may be called: write `while let Some(element) = drain.next()`.
pub struct DrainFilter<'a, T: Ord, C: NodesMut<T, ()>, F: FnMut(&T) -> bool> {
    pub(crate) set: &'a mut BTreeSet<T, C>,
    /// The address of the element at place `front`: so many were kept.
    pub(crate) first: Option<Address>,
    pub(crate) front: usize,
    pub(crate) test: ByKey<F>,
}

impl<'a, T: Ord + Drop, C: NodesMut<T, ()>, F: FnMut(&T) -> bool> Drop
    for DrainFilter<'a, T, C, F> {
    ghost use Rattle.btree_set.specs.Drain.{IsDraining, LetsGo};

    fn drop(self)
        requires { IsDraining F.FnMut self }
        ensures { LetsGo F.FnMut self.entry self.exit.0.now }
    {
        let DrainFilter {
            set,
            first,
            front,
            mut test,
        } = self;
        run_rest(set, first, front, &mut test);
    }
}
