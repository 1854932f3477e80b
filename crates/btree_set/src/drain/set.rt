//! What drains of a set are asked, and what keeps elements.
ghost use Rattle.std.specs.Prelude.{◌≡◌, true};
ghost use Rattle.std.specs.Fn.{CalledAt, TakesAt};
ghost use Rattle.btree_map.specs.Drain.{KeepsAddresses};
ghost use Rattle.btree_set.specs.Drain.{CallableOnEach, IsDraining, LetsGo, Selects};

use super::steps::{run_rest, seek};
use crate::BTreeSet;
use crate::drain::DrainFilter;
use btree_ext::BTreeExt;
use btree_map::ByKey;
use btree_node::NodesMut;

impl<'a, T: Ord + Drop, C: NodesMut<T, ()>, F: FnMut(&T) -> bool> DrainFilter<'a, T, C, F> {
    /// Returns the elements of a set for which the closure returns `true`, as `BTreeSet::drain_filter` does.
    pub fn new(set: &'a mut BTreeSet<T, C>, f: F) -> Self
        requires { CallableOnEach (CalledAt F.FnMut) (TakesAt F.FnMut) f set.old.elements }
        ensures same_set { result.set.ghost_name ≡ set.entry.ghost_name }
        ensures unchanged { result.set.now ≡ set.old }
        ensures front { result.front ≡ 0 }
        ensures test { result.test ≡ f }
        ensures draining { IsDraining F.FnMut result }
    {
        let first = set.map.first_item_address();
        DrainFilter {
            set,
            first,
            front: 0,
            test: ByKey::new(f),
        }
    }

    /// Calls the closure at the elements that are left, and drops those that it picks.
    pub fn finish(self)
        requires { IsDraining F.FnMut self }
        ensures { LetsGo F.FnMut self.entry self.exit.0.now }
    {
        let DrainFilter {
            set,
            first,
            front,
            mut test,
        } = self;
        run_rest(set, first, front, &mut test);
    }
}

impl<'a, T: Ord + Drop, C: NodesMut<T, ()>, F: FnMut(&T) -> bool> Iterator
    for DrainFilter<'a, T, C, F> {
    ghost use Rattle.std.specs.Prelude.{Some, IfSome, drop, length};
    ghost use Rattle.std.specs.Iterator.SizeHint.{IsWithinCount};
    ghost use Rattle.std.specs.Iterator.{UpTo, at_most};
    ghost use Rattle.btree_map.specs.Lists.{at_most_behind};
    ghost use Rattle.btree_set.specs.Drain.{DrainsNext};

    type Item = T;

    ghost can_next = { IsDraining F.FnMut };

    ghost next_gives = { DrainsNext F.FnMut };

    ghost remaining = { λ s. at_most (length (drop s.front s.set.now.elements)) };

    fn next(&mut self) -> Option<T> {
        let (first, front, element) = seek(self.set, self.first, self.front, &mut self.test);
        self.first = first;
        self.front = front;
        element
    }

    /// Returns 0, and the number of elements that are left as the upper bound.
    fn size_hint(&self) -> (usize, Option<usize>)
        ensures exact { result ≡
            (0, Some (length (drop self.now.front self.now.set.now.elements))) }
        ensures lower { IsWithinCount result.0
            (at_most_behind self.now.front self.now.set.now.elements) }
        ensures upper { IfSome result.1
            (UpTo (at_most_behind self.now.front self.now.set.now.elements)) }
    {
        (0, Some(self.set.len().saturating_sub(self.front)))
    }
}

impl<T: Ord + Drop, C: NodesMut<T, ()>> BTreeSet<T, C> {
    /// Returns the elements for which the closure returns `true`, which are removed one at a time. It is called once at each element, in order.
    pub fn drain_filter<F: FnMut(&T) -> bool>(&mut self, f: F) -> DrainFilter<'_, T, C, F>
        requires { CallableOnEach (CalledAt F.FnMut) (TakesAt F.FnMut) f self.old.elements }
        ensures same_set { result.set.ghost_name ≡ self.entry.ghost_name }
        ensures unchanged { result.set.now ≡ self.old }
        ensures front { result.front ≡ 0 }
        ensures test { result.test ≡ f }
        ensures draining { IsDraining F.FnMut result }
    {
        DrainFilter::new(self, f)
    }

    /// Keeps the elements for which the closure returns `true`, and drops the others. It is called once at each element, in order. If it keeps
    /// all elements, every address stays. It cannot fail.
    pub fn retain<F: FnMut(&T) -> bool>(&mut self, f: F)
        requires { CallableOnEach (CalledAt F.FnMut) (TakesAt F.FnMut) f self.old.elements }
        ensures kept { Selects (CalledAt F.FnMut) true f self.old.elements self.new.elements }
        ensures uncounted { self.new.kept ≡ self.old.kept }
        ensures addresses { KeepsAddresses self.old.tree self.new.tree }
    {
        self.map.retain_by(ByKey::new(f));
    }
}
