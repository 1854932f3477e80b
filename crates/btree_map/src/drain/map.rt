//! What drains are asked, and what keeps pairs.
ghost use Rattle.std.specs.Prelude.{◌≡◌, true};
ghost use Rattle.std.specs.Map.Calls.{CallableOnEachPair, CalledAtPair, TakesPair};
ghost use Rattle.btree_laws.specs.TreeState.{pairs_of};
ghost use Rattle.btree_map.specs.Drain.{KeepsAddresses, Selects};
ghost use Rattle.btree_map.specs.DrainSteps.{IsDraining, LetsGo};

use super::steps::run_rest;
use super::{run_out, seek_from};
use crate::BTreeMap;
use crate::drain::DrainFilter;
use crate::pair_test::{ByPair, PairTest};
use btree_ext::BTreeExt;
use btree_node::NodesMut;

impl<'a, K: Ord + Drop, V: Drop, C: NodesMut<K, V>, F: FnMut(&K, &mut V) -> bool> DrainFilter<
    'a,
    K,
    V,
    C,
    F,
> {
    /// Calls the closure at the pairs that are left, and drops those that it picks.
    pub fn finish(self)
        requires { IsDraining F.FnMut self }
        ensures { LetsGo F.FnMut self.entry self.exit.0.now }
    {
        let DrainFilter {
            map,
            first,
            front,
            mut test,
        } = self;
        run_out(map, first, front, &mut test);
    }
}

impl<'a, K: Ord + Drop, V: Drop, C: NodesMut<K, V>, F: FnMut(&K, &mut V) -> bool> Iterator
    for DrainFilter<'a, K, V, C, F> {
    ghost use Rattle.std.specs.Prelude.{Some, IfSome, drop, length};
    ghost use Rattle.std.specs.Iterator.SizeHint.{IsWithinCount};
    ghost use Rattle.std.specs.Iterator.{UpTo, at_most};
    ghost use Rattle.btree_map.specs.DrainSteps.{DrainsNext};
    ghost use Rattle.btree_map.specs.Lists.{at_most_behind};

    type Item = (K, V);

    ghost can_next = { IsDraining F.FnMut };

    ghost next_gives = { DrainsNext F.FnMut };

    ghost remaining = { λ s. at_most (length (drop s.front (pairs_of s.map.now))) };

    fn next(&mut self) -> Option<(K, V)> {
        let (first, front, pair) = seek_from(self.map, self.first, self.front, &mut self.test);
        self.first = first;
        self.front = front;
        pair
    }

    /// Returns 0, and the number of pairs that are left as the upper bound.
    fn size_hint(&self) -> (usize, Option<usize>)
        ensures exact { result ≡
            (0, Some (length (drop self.now.front (pairs_of self.now.map.now)))) }
        ensures lower { IsWithinCount result.0
            (at_most_behind self.now.front (pairs_of self.now.map.now)) }
        ensures upper { IfSome result.1
            (UpTo (at_most_behind self.now.front (pairs_of self.now.map.now))) }
    {
        (0, Some(self.map.len().saturating_sub(self.front)))
    }
}

impl<K: Ord + Drop, V: Drop, C: NodesMut<K, V>> BTreeMap<K, V, C> {
    /// Returns the pairs for which the closure returns `true`, which are removed one at a time. It is called once at each pair, in order, and
    /// may write to the value.
    pub fn drain_filter<F: FnMut(&K, &mut V) -> bool>(
        &mut self,
        f: F,
    ) -> DrainFilter<'_, K, V, C, F>
        requires { CallableOnEachPair
            (CalledAtPair F.FnMut) (TakesPair F.FnMut) f (pairs_of self.old) }
        ensures same_map { result.map.ghost_name ≡ self.entry.ghost_name }
        ensures unchanged { result.map.now ≡ self.old }
        ensures front { result.front ≡ 0 }
        ensures test { result.test ≡ f }
        ensures draining { IsDraining F.FnMut result }
    {
        let first = self.first_item_address();
        DrainFilter {
            map: self,
            first,
            front: 0,
            test: ByPair::new(f),
        }
    }

    /// Keeps the pairs for which the closure returns `true`, and drops the others. It is called once at each pair, in order, and may write to
    /// the value. If it keeps all pairs, every address stays. It cannot fail.
    pub fn retain<F: FnMut(&K, &mut V) -> bool>(&mut self, f: F)
        requires { CallableOnEachPair
            (CalledAtPair F.FnMut) (TakesPair F.FnMut) f (pairs_of self.old) }
        ensures kept { Selects
            (CalledAtPair F.FnMut) true f (pairs_of self.old) (pairs_of self.new) }
        ensures uncounted { self.new.kept ≡ self.old.kept }
        ensures addresses { KeepsAddresses self.old self.new }
    {
        self.retain_by(ByPair::new(f));
    }

    /// Keeps the pairs that pass the test, and drops the others.
    pub fn retain_by<P: PairTest<K, V>>(&mut self, test: P)
        requires { CallableOnEachPair P.step P.accepts test (pairs_of self.old) }
        ensures kept { Selects P.step true test (pairs_of self.old) (pairs_of self.new) }
        ensures uncounted { self.new.kept ≡ self.old.kept }
        ensures addresses { KeepsAddresses self.old self.new }
    {
        let mut test = test;
        let mut entries = self.entries_mut();
        run_rest(&mut entries, &mut test, false);
    }
}
