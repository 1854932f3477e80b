//! The set.
ghost use Rattle.std.specs.Prelude.{◌≡◌, ◌↔◌, ◌*◌, ◌+◌, ◌-◌, ◌≤◌, [], IfErr, IfNone, IfOk, IfSome, IsSome, IsTrue, None, OnErr, OnOk, length, option_map, slice_get};
ghost use Rattle.std.specs.Iterator.{YieldsFirst, YieldsLast};
ghost use Rattle.std.specs.FinMap as map;
ghost use Rattle.std.specs.Mem.{FitsInMemory};
ghost use denote.Plain.{Nothing as unit_row};
ghost use Rattle.btree_node.specs.contracts.node.Node.{the_row as node_row};
ghost use Rattle.std.specs.Option.{option_copied};
ghost use Rattle.btree_laws.specs.TreeState.{limited_to, unlimited};
ghost use Rattle.btree_ext.specs.Insert.{InsertsByKey};
ghost use Rattle.btree_ext.specs.Remove.{RemovesIfThereBy};
ghost use Rattle.btree_ext.specs.Replace.{ReplacesByKey};
ghost use Rattle.btree_ext.specs.Update.{RemovesIfThere};
ghost use Rattle.btree_map.specs.Removal.{AddsNoNode};
ghost use Rattle.btree_set.specs.Elements.{IsInTree, IsRefused, RemovesFirst, RemovesLast, elements_outside, inserted, removed, replaced, stored};

use btree_ext::BTreeExt;
use btree_item::{Query, Refused};
use btree_map::BTreeMap;
use btree_node::{ClearNodes, NodesMut};
use std::marker::Model;
use std::ops::RangeBounds;

/// An ordered set: a map without values. Contracts see its elements in order.
///
/// A search by an element or another query makes at most six comparisons at each level. The removal of an element frees at most as many
/// nodes as the tree has levels, and cannot fail. Only a call that may add an element, and `clone`, allocates memory.
#[derive(Drop)]
pub struct BTreeSet<T: Ord, C: NodesMut<T, ()>> {
    pub(crate) map: BTreeMap<T, (), C>,
}

impl<T: Ord, C: NodesMut<T, ()>> Model for BTreeSet<T, C> {
    ghost use Rattle.std.specs.Coded.{codes};
    ghost use Rattle.btree_set.specs.Elements.{SetState, set_code, set_of};

    ghost Value = { SetState T };

    ghost coded = { set_code (Prim.hlevel codes) (Prim.hlevel codes) };

    ghost view = { λ set. set_of set.map };
}

impl<T: Ord, C: NodesMut<T, ()>> BTreeSet<T, C> {
    /// Returns a set without elements, over an empty store made from `origin`.
    ///
    /// The contract requires that a node fits in memory. The prover finds that by itself if the type of the elements is known.
    pub fn new(origin: C::Origin) -> Self
        requires { FitsInMemory (node_row T.row unit_row) }
        ensures empty { result.elements ≡ [] }
        ensures uncounted { result.kept ≡ unlimited 0 }
    {
        BTreeSet {
            map: BTreeMap::new(origin),
        }
    }

    /// Returns a set without elements that has at most `limit`, over an empty store made from `origin`. With the limit 0 every new
    /// element is refused.
    ///
    /// The contract requires that a node fits in memory, as that of `new`.
    pub fn with_limit(origin: C::Origin, limit: usize) -> Self
        requires { FitsInMemory (node_row T.row unit_row) }
        ensures empty { result.elements ≡ [] }
        ensures uncounted { result.kept ≡ limited_to limit }
    {
        BTreeSet {
            map: BTreeMap::with_limit(origin, limit),
        }
    }

    /// Returns a set without elements, over an empty store; the store's `len` tells whether it is empty. It keeps its count of refusals.
    ///
    /// The contract requires that a node fits in memory, as that of `new`.
    pub fn in_store(nodes: C) -> Self
        requires fits { FitsInMemory (node_row T.row unit_row) }
        requires empty { map.len (C.content nodes) ≡ 0 }
        ensures empty { result.elements ≡ [] }
        ensures kept { result.kept ≡ unlimited (C.refusals nodes) }
    {
        BTreeSet {
            map: BTreeMap::in_store(nodes),
        }
    }

    /// Returns how many elements there are.
    pub fn len(&self) -> usize
        ensures { result ≡ length self.now.elements }
    {
        self.map.len()
    }

    /// Returns how many elements there may be: `usize::MAX`, unless the set was made with another limit.
    pub fn limit(&self) -> usize
        ensures { result ≡ self.now.kept.limit }
    {
        self.map.limit()
    }

    /// Returns whether there are no elements.
    pub fn is_empty(&self) -> bool
        ensures { IsTrue result ↔ (self.now.elements ≡ []) }
    {
        self.map.is_empty()
    }

    /// Returns how many nodes there are: at most (n+2)/3 for n elements.
    pub fn node_count(&self) -> usize
        ensures value { result ≡ map.len self.now.tree.nodes }
        ensures dense { 3 * result ≤ length self.now.elements + 2 }
        ensures in_tree { IsInTree T.cmp self.now }
        ensures can_hold { C.CanHold self.now.tree.nodes }
    {
        self.map.tell_well_formed();
        self.map.node_count()
    }

    /// Returns the store of the nodes, for reading.
    pub fn store(&self) -> &C
        ensures content { C.content result.now ≡ self.now.tree.nodes }
        ensures refusals { C.refusals result.now ≡ self.now.kept.refusals }
    {
        self.map.store()
    }

    /// Returns whether an element is equal to the given one.
    pub fn contains(&self, element: &T) -> bool
        ensures { IsTrue result ↔ IsSome (stored T.cmp element.now self.now.elements) }
    {
        self.map.contains_key(element)
    }

    /// Returns the stored element that is equal to the given one, or `None`.
    pub fn get(&self, element: &T) -> Option<&T>
        ensures { option_copied result ≡ stored T.cmp element.now self.now.elements }
    {
        match self.map.get_key_value(element) {
            Some((stored, _)) => Some(stored),
            None => None,
        }
    }

    /// Returns whether a query is equal to an element, as `contains` does: no element has to be made for it.
    pub fn contains_by<Q: Query<T>>(&self, query: &Q) -> bool
        ensures { IsTrue result ↔ IsSome (stored Q.compare query.now self.now.elements) }
    {
        self.map.contains_key_by(query)
    }

    /// Returns the element that a query is equal to, or `None`, as `get` does.
    pub fn get_by<Q: Query<T>>(&self, query: &Q) -> Option<&T>
        ensures { option_copied result ≡ stored Q.compare query.now self.now.elements }
    {
        match self.map.get_key_value_by(query) {
            Some((stored, _)) => Some(stored),
            None => None,
        }
    }

    /// Returns the least element, or `None` if there are no elements. It reads one node of each level, and compares no elements.
    pub fn first(&self) -> Option<&T>
        ensures { option_copied result ≡ slice_get self.now.elements 0 }
    {
        match self.map.first_key_value() {
            Some((first, _)) => Some(first),
            None => None,
        }
    }

    /// Returns the greatest element, or `None` if there are no elements. It reads one node of each level, and compares no elements.
    pub fn last(&self) -> Option<&T>
        ensures { option_copied result ≡ slice_get self.now.elements (length self.now.elements - 1) }
    {
        match self.map.last_key_value() {
            Some((last, _)) => Some(last),
            None => None,
        }
    }
}

impl<T: Ord + Drop, C: NodesMut<T, ()>> BTreeSet<T, C> {
    /// Inserts an element. Returns whether it was not there yet: if an element is equal to it, that one stays, and the given one is dropped.
    ///
    /// A new element uses as many new nodes as `BTreeMap::insert` does. It returns an error, with the element, if the store refuses one of
    /// them, or if the number of elements has reached its limit.
    pub fn insert(&mut self, element: T) -> Result<bool, Refused<T, ()>>
        ensures new { IfOk result (λ new. IsTrue new ↔ (stored T.cmp element self.old.elements ≡ None)) }
        ensures inserted { OnOk result (self.new.elements ≡ inserted T.cmp element self.old.elements) }
        ensures nodes { OnOk result (InsertsByKey T.cmp element self.old.tree self.new.tree tt) }
        ensures uncounted { OnOk result (self.new.kept ≡ self.old.kept) }

        ensures returned { IfErr result (λ r. r.key ≡ element) }
        ensures absent { OnErr result (stored T.cmp element self.old.elements ≡ None) }
        ensures cause { IfErr result (λ r. IsRefused T.cmp C.MayRefuse element self.old self.new r.cause) }
    {
        match self.map.insert(element, ()) {
            Ok(replaced) => return Ok(replaced.is_none()),
            Err(refused) => return Err(refused),
        }
    }

    /// Inserts an element in the place of an equal one, if there is one. Returns the one that was replaced. It fails as `insert` does.
    pub fn replace(&mut self, element: T) -> Result<Option<T>, Refused<T, ()>>
        ensures old { IfOk result (λ old. old ≡ stored T.cmp element self.old.elements) }
        ensures replaced { OnOk result (self.new.elements ≡ replaced T.cmp element self.old.elements) }
        ensures nodes { OnOk result (ReplacesByKey T.cmp element self.old.tree self.new.tree tt) }
        ensures uncounted { OnOk result (self.new.kept ≡ self.old.kept) }

        ensures returned { IfErr result (λ r. r.key ≡ element) }
        ensures absent { OnErr result (stored T.cmp element self.old.elements ≡ None) }
        ensures cause { IfErr result (λ r. IsRefused T.cmp C.MayRefuse element self.old self.new r.cause) }
    {
        match self.map.replace(element, ()) {
            Ok(replaced) => return Ok(first_of(replaced)),
            Err(refused) => return Err(refused),
        }
    }

    /// Removes the element that is equal to the given one. Returns whether there was one. It searches once.
    pub fn remove(&mut self, element: &T) -> bool
        ensures there { IsTrue result ↔ IsSome (stored T.cmp element.now self.old.elements) }
        ensures removed { self.new.elements ≡ removed T.cmp element.now self.old.elements }
        ensures nodes { RemovesIfThere T.cmp self.old.tree self.new.tree element.now }
        ensures uncounted { self.new.kept ≡ self.old.kept }
    {
        self.map.remove_entry(element).is_some()
    }

    /// Removes the element that is equal to the given one, and returns it. Otherwise it does the same as `remove`.
    pub fn take(&mut self, element: &T) -> Option<T>
        ensures element { result ≡ stored T.cmp element.now self.old.elements }
        ensures removed { self.new.elements ≡ removed T.cmp element.now self.old.elements }
        ensures nodes { RemovesIfThere T.cmp self.old.tree self.new.tree element.now }
        ensures uncounted { self.new.kept ≡ self.old.kept }
    {
        first_of(self.map.remove_entry(element))
    }

    /// Removes the element that a query is equal to. Returns whether there was one. It searches once.
    pub fn remove_by<Q: Query<T>>(&mut self, query: &Q) -> bool
        ensures there { IsTrue result ↔ IsSome (stored Q.compare query.now self.old.elements) }
        ensures removed { self.new.elements ≡ removed Q.compare query.now self.old.elements }
        ensures nodes { RemovesIfThereBy self.old.tree self.new.tree T.cmp Q.compare query.now }
        ensures uncounted { self.new.kept ≡ self.old.kept }
    {
        self.map.remove_entry_by(query).is_some()
    }

    /// Removes the element that a query is equal to, and returns it. Otherwise it does the same as `remove_by`.
    pub fn take_by<Q: Query<T>>(&mut self, query: &Q) -> Option<T>
        ensures element { result ≡ stored Q.compare query.now self.old.elements }
        ensures removed { self.new.elements ≡ removed Q.compare query.now self.old.elements }
        ensures nodes { RemovesIfThereBy self.old.tree self.new.tree T.cmp Q.compare query.now }
        ensures uncounted { self.new.kept ≡ self.old.kept }
    {
        first_of(self.map.remove_entry_by(query))
    }

    /// Removes the elements in a range, as `range` takes it, and drops them, as `BTreeMap::remove_range` does with pairs.
    pub fn remove_range<R: RangeBounds<T>>(&mut self, range: R)
        requires { R.has_bounds range }
        ensures elements { self.new.elements ≡
            elements_outside T.cmp (R.start_bound range) (R.end_bound range) self.old.elements }
        ensures unchanged { self.new.elements ≡ self.old.elements → self.new ≡ self.old }
        ensures frees { AddsNoNode self.old.tree self.new.tree }
        ensures uncounted { self.new.kept ≡ self.old.kept }
    {
        self.map.remove_range(range);
    }

    /// Removes the least element, and returns it. Returns `None`, and nothing changes, if there are no elements. It compares no elements.
    pub fn pop_first(&mut self) -> Option<T>
        ensures rest { YieldsFirst (λ set. set.elements) self.old result self.new }
        ensures nodes { IfSome result (RemovesFirst T.cmp self.old self.new) }
        ensures unchanged { IfNone result (self.new ≡ self.old) }
        ensures uncounted { self.new.kept ≡ self.old.kept }
    {
        first_of(self.map.pop_first())
    }

    /// Removes the greatest element, and returns it. Returns `None`, and nothing changes, if there are no elements. It compares no elements.
    pub fn pop_last(&mut self) -> Option<T>
        ensures rest { YieldsLast (λ set. set.elements) self.old result self.new }
        ensures nodes { IfSome result (RemovesLast T.cmp self.old self.new) }
        ensures unchanged { IfNone result (self.new ≡ self.old) }
        ensures uncounted { self.new.kept ≡ self.old.kept }
    {
        first_of(self.map.pop_last())
    }
}

impl<T: Ord, C: ClearNodes<T, ()>> BTreeSet<T, C> {
    /// Removes all elements. The count of refusals stays.
    pub fn clear(&mut self)
        ensures empty { self.new.elements ≡ [] }
        ensures uncounted { self.new.kept ≡ self.old.kept }
    {
        self.map.clear();
    }
}

/// Returns the element of a pair without a value.
pub(crate) fn first_of<T>(pair: Option<(T, ())>) -> Option<T>
    ensures { result ≡ option_map (λ p. p.0) pair }
{
    match pair {
        Some((element, ())) => Some(element),
        None => None,
    }
}
