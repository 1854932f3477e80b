//! Insertion of many elements.
ghost use Rattle.std.specs.Prelude.{◌≡◌, [], IfErr, IfOk, IfSome, IsSome, None, OnErr, OnOk};
ghost use Rattle.std.specs.Iterator.{IsFinite};
ghost use Rattle.std.specs.Mem.{FitsInMemory};
ghost use denote.Plain.{Nothing as unit_row};
ghost use Rattle.btree_node.specs.contracts.node.Node.{the_row as node_row};
ghost use Rattle.btree_laws.specs.TreeState.{unlimited};
ghost use Rattle.btree_map.specs.Ascending.{GoesLast, IsLastPair};
ghost use Rattle.btree_set.specs.Elements.{IsRefused, inserted, stored};
ghost use Rattle.btree_set.specs.Extension.{Adds, AddsAll, AddsUntil, Collects, CollectsUntil, MovesEach, MovesUntil, RefusesInTurn, SwapsIntoEmpty, copied_steps};

use crate::BTreeSet;
use btree_ext::BTreeExt;
use btree_item::{Address, Refused};
use btree_map::insert_in_order;
use btree_node::NodesMut;

impl<T: Ord + Drop, C: NodesMut<T, ()>> BTreeSet<T, C> {
    /// Moves the elements of `other` into this set. Where both have an element, this set keeps its own.
    ///
    /// If this set is empty, and those of `other` are within its limit, the elements are exchanged with their stores, and each set keeps its
    /// limit. Otherwise the elements come from the front of `other`, one at a time, as `insert` inserts them. The first one that is refused
    /// is returned: those before it are in this set, and those after it are still in `other`.
    pub fn append(&mut self, other: &mut Self) -> Result<(), Refused<T, ()>>
        ensures appended { OnOk result (AddsAll T.cmp self.old other.old self.new) }
        ensures emptied { OnOk result (other.new.elements ≡ []) }
        ensures unchanged { other.old.elements ≡ [] → (self.new ≡ self.old) × (other.new ≡ other.old) }
        ensures swapped { SwapsIntoEmpty self.old other.old self.new other.new }
        ensures uncounted { OnOk result (MovesEach self.old other.old →
            self.new.kept ≡ self.old.kept) }
        ensures other_uncounted { MovesEach self.old other.old → other.new.kept ≡ other.old.kept }

        ensures stopped { IfErr result (MovesUntil T.cmp self.old other.old self.new other.new) }
        ensures moved_each { OnErr result (MovesEach self.old other.old) }
        ensures cause { IfErr result (RefusesInTurn T.cmp C.MayRefuse self.old.kept self.new) }
    {
        match self.map.append(&mut other.map) {
            Ok(()) => return Ok(()),
            Err(refused) => return Err(refused),
        }
    }

    // Inserts an element as `insert` does, but first compares it with the last one, if the address of that is given, and if it is greater
    // compares it with no other. Returns the address of the last element, if that is known now.
    fn insert_in_order(
        &mut self,
        last: Option<Address>,
        element: T,
    ) -> Result<Option<Address>, Refused<T, ()>>
        requires { IfSome last (IsLastPair self.old.tree) }
        ensures inserted { OnOk result (self.new.elements ≡ inserted T.cmp element self.old.elements) }
        ensures last { IfOk result (λ at. IfSome at (IsLastPair self.new.tree)) }
        ensures known { IfOk result (λ at. GoesLast T.cmp element last self.old.tree → IsSome at) }
        ensures uncounted { OnOk result (self.new.kept ≡ self.old.kept) }

        ensures returned { IfErr result (λ r. r.key ≡ element) }
        ensures absent { OnErr result (stored T.cmp element self.old.elements ≡ None) }
        ensures cause { IfErr result (λ r. IsRefused T.cmp C.MayRefuse element self.old self.new r.cause) }
    {
        match insert_in_order(&mut self.map, last, element, ()) {
            Ok(at) => return Ok(at),
            Err(refused) => return Err(refused),
        }
    }

    /// Inserts the elements that `source` gives, in order, as `insert` does. Returns the first one that is refused: those before it are in
    /// the set, and those after it are still in `source`.
    ///
    /// From the start on, as long as each element is greater than all in the set, it is compared with the last one alone, and goes to the
    /// last leaf without a search. The first one that is not greater costs one comparison more than `insert`, and from there on each element
    /// costs what `insert` costs.
    ///
    /// The contract requires that `source` ends.
    pub fn extend<I: Iterator<Item = T>>(&mut self, source: &mut I) -> Result<(), Refused<T, ()>>
        requires can_step { I.can_next source.old }
        requires ends { IsFinite (I.remaining source.old) }
        ensures extended { OnOk result
            (Adds T.cmp I.next_gives self.old source.old self.new source.new) }
        ensures uncounted { OnOk result (self.new.kept ≡ self.old.kept) }

        ensures stopped { IfErr result
            (AddsUntil T.cmp I.next_gives self.old source.old self.new source.new) }
        ensures cause { IfErr result (RefusesInTurn T.cmp C.MayRefuse self.old.kept self.new) }
        ensures may_go_on { OnErr result (I.can_next source.new) }
        ensures still_ends { OnErr result (IsFinite (I.remaining source.new)) }
    {
        let mut last = self.map.last_item_address();
        while let Some(element) = source.next() {
            match self.insert_in_order(last, element) {
                Ok(at) => last = at,
                Err(refused) => return Err(refused),
            }
        }
        Ok(())
    }

    /// Does the same as `extend` for an iterator that lends elements, and inserts copies of them.
    pub fn extend_copied<'a, I: Iterator<Item = &'a T>>(
        &mut self,
        source: &mut I,
    ) -> Result<(), Refused<T, ()>>
    where
        T: Copy + 'a,
        requires can_step { I.can_next source.old }
        requires ends { IsFinite (I.remaining source.old) }
        ensures extended { OnOk result
            (Adds T.cmp (copied_steps I.next_gives) self.old source.old self.new source.new) }
        ensures uncounted { OnOk result (self.new.kept ≡ self.old.kept) }

        ensures stopped { IfErr result
            (AddsUntil T.cmp (copied_steps I.next_gives) self.old source.old self.new source.new) }
        ensures cause { IfErr result (RefusesInTurn T.cmp C.MayRefuse self.old.kept self.new) }
        ensures may_go_on { OnErr result (I.can_next source.new) }
        ensures still_ends { OnErr result (IsFinite (I.remaining source.new)) }
    {
        let mut last = self.map.last_item_address();
        while let Some(element) = source.next() {
            match self.insert_in_order(last, *element) {
                Ok(at) => last = at,
                Err(refused) => return Err(refused),
            }
        }
        Ok(())
    }

    /// Returns a set of the elements that `source` gives, over an empty store made from `origin`. It inserts them by `extend`, so of equal
    /// elements the first one stays. Returns the first element that is refused, with the set of those before it; those after it are still in
    /// `source`.
    ///
    /// The contract requires that `source` ends, and that a node fits in memory, as `new` does.
    pub fn from_iter<I: Iterator<Item = T>>(
        origin: C::Origin,
        source: &mut I,
    ) -> Result<Self, (Self, Refused<T, ()>)>
        requires fits { FitsInMemory (node_row T.row unit_row) }
        requires can_step { I.can_next source.old }
        requires ends { IsFinite (I.remaining source.old) }
        ensures extended { IfOk result (Collects T.cmp I.next_gives source.old source.new) }
        ensures uncounted { IfOk result (λ set. set.kept ≡ unlimited 0) }

        ensures stopped { IfErr result (CollectsUntil T.cmp I.next_gives source.old source.new) }
        ensures cause { IfErr result (λ e. RefusesInTurn T.cmp C.MayRefuse (unlimited 0) e.0 e.1) }
        ensures may_go_on { OnErr result (I.can_next source.new) }
        ensures still_ends { OnErr result (IsFinite (I.remaining source.new)) }
    {
        let mut set = BTreeSet::new(origin);
        match set.extend(source) {
            Ok(()) => Ok(set),
            Err(refused) => Err((set, refused)),
        }
    }
}
