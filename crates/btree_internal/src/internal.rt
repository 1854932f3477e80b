//! An internal node of the tree.
ghost use Rattle.std.specs.Prelude.{◌≡◌, ◌+◌, ◌<◌, ◌≤◌, ◌↔◌, ◌==◌, [], ◌∷◌, Some, None, IsTrue, IsSomeAnd, IfSome, IfOk, OnErr, length, map, slice_get, position};
ghost use Rattle.std.proofs.Common.{rules};
ghost use Rattle.std.specs.Cmp.Rules.{comparing};
ghost use Rattle.std.specs.Ordering.{on};
ghost use Rattle.std.specs.List.Sorted.{IsSearchInRange};
ghost use Rattle.std.specs.Option.{option_copied, option_map};
ghost use Rattle.btree_item.specs.Comparisons.{TicksBy};
ghost use Rattle.btree_item.specs.Pairs.{Ascends, before, found, place_of};
ghost use Rattle.btree_view.specs.Edits.{balance_of, IsOverflowing, IsUnderflowing};
ghost use Rattle.btree_view.specs.Kept.{kept_parent};
ghost use Rattle.btree_view.specs.LookUp.{comparisons_in, IsIndexOfKey, look_up, offset_in, PointsInto, result_map, result_map_err};
ghost use Rattle.btree_internal.specs.Internal.{branch_pair, comparisons_in_branches, gap_with_child, internal_view as view_of, InternalPopsLeft, InternalPopsRight};
ghost use Rattle.btree_view.specs.Separators.{separator_after, separator_before};
ghost use Rattle.btree_view.specs.View.{items_of, children_of, internal, item_at_offset, size_of, value_at_offset};

use btree_item::{
    Fault, INTERNAL_MEDIAN, INTERNAL_SLOTS, Item, Keyed, MAX_COMPARISONS, MAX_INTERNAL_ITEMS,
    MIN_ITEMS, Offset, Query, Slots, search_counted,
};
use btree_steps::Steps;
use btree_view::{Balance, WouldUnderflow, check_node, offset_at};
use std::cmp::Ordering;
use std::marker::Model;
use std::mem;

/// An item of an internal node, with the number of the child after it. It is compared by the item's key alone.
#[derive(Clone, Drop)]
pub struct Branch<K, V> {
    pub item: Item<K, V>,
    pub child: usize,
}

impl<K, V> Branch<K, V> {
    ghost use Rattle.std.specs.Borrow.{sem};
    ghost use Rattle.btree_internal.specs.InternalLends.{branch_lends, branch_lends_item};

    /// Returns the item, like Rust's `as_ref`.
    pub fn as_item(&self) -> &Item<K, V>
        ensures { result.now ≡ self.now.item }
    {
        &self.item
    }

    // Returns the item's value for writing.
    fn value_mut(&mut self) -> &mut V
        ensures* writes_back { sem 𝓛 (branch_lends K.row V.row self.entry result) }
        ensures value { result.now ≡ self.old.item.1 }
    {
        self.item.value_mut()
    }

    // Returns the item for writing.
    fn item_mut(&mut self) -> &mut Item<K, V>
        ensures* writes_back { sem 𝓛 (branch_lends_item K.row V.row self.entry result) }
        ensures item { result.now ≡ self.old.item }
    {
        &mut self.item
    }
}

impl<K, V> Keyed for Branch<K, V> {
    type Key = K;

    ghost key_of = { λ branch. branch.item.0 };

    fn key(&self) -> &K {
        self.item.key()
    }
}

impl<K: PartialEq, V> PartialEq for Branch<K, V> {
    ghost eq = { on (λ branch. branch.item.0) K.eq };

    ghost laws = { Prim.search (comparing, rules) };

    fn eq(&self, other: &Self) -> bool {
        self.item == other.item
    }
}

impl<K: Eq, V> Eq for Branch<K, V> {
    ghost laws = { Prim.search (comparing, rules) };
}

impl<K: PartialOrd, V> PartialOrd for Branch<K, V> {
    ghost partial_cmp = { on (λ branch. branch.item.0) K.partial_cmp };

    ghost laws = { Prim.search (comparing, rules) };

    fn partial_cmp(&self, other: &Self) -> Option<Ordering> {
        self.item.partial_cmp(&other.item)
    }
}

impl<K: Ord, V> Ord for Branch<K, V> {
    ghost cmp = { on (λ branch. branch.item.0) K.cmp };

    ghost total = { Prim.search (comparing, rules) };

    ghost matches_partial_cmp = { Prim.search (comparing, rules) };

    ghost matches_eq = { Prim.search (comparing, rules) };

    fn cmp(&self, other: &Self) -> Ordering {
        self.item.cmp(&other.item)
    }
}

/// A key that an internal node does not hold, with its value, and the index and the number of the child that may hold it.
#[derive(Drop)]
pub struct InsertionError<K, V> {
    pub key: K,
    pub value: V,
    pub child_offset: usize,
    pub child_id: usize,
}

/// An internal node: the number of its parent, the number of its first child, and up to eight items, each with the child after it. In a
/// well formed tree it has at most seven items.
#[derive(Clone, Drop)]
pub struct InternalNode<K, V> {
    // `usize::MAX` if there is no parent.
    parent: usize,
    first: usize,
    branches: Slots<Branch<K, V>, INTERNAL_SLOTS>,
}

/// The same type, under its name in Rust's crate.
pub type Internal<K, V> = InternalNode<K, V>;

impl<K, V> Model for InternalNode<K, V> {
    ghost use Rattle.std.specs.Prelude.{map};
    ghost use Rattle.btree_internal.specs.Internal.{Internal, branch_pair};
    ghost use Rattle.btree_view.specs.Kept.{node_of};

    ghost Value = { Internal K V };

    ghost view = { λ node. record { parent = node_of node.parent; first = node.first; branches = map branch_pair node.branches } };
}

impl<K: Drop, V: Drop> InternalNode<K, V> {
    /// Returns a node with one item between two children. `Some(usize::MAX)` as the parent is read as `None`.
    pub fn binary(
        parent: Option<usize>,
        left_id: usize,
        median: Item<K, V>,
        right_id: usize,
    ) -> Self
        ensures { view_of result ≡ internal (kept_parent parent) left_id ((median, right_id) ∷ []) }
    {
        let mut branches = Slots::new();
        branches.push(Branch {
            item: median,
            child: right_id,
        });
        InternalNode {
            parent: parent.unwrap_or(usize::MAX),
            first: left_id,
            branches,
        }
    }
}

impl<K, V> InternalNode<K, V> {
    ghost use Rattle.std.specs.Borrow.{sem};
    ghost use Rattle.std.specs.Option.{option_copied_mut};
    ghost use Rattle.btree_internal.specs.InternalLends.{internal_lends_at, internal_lends_item};

    // Returns the value at an index for writing.
    fn value_at(&mut self, index: usize) -> Option<&mut V>
        ensures* writes_back { sem 𝓛 (internal_lends_at K.row V.row self.entry index result) }
        ensures value { option_copied_mut result ≡ value_at_offset (view_of self.old) (Some index) }
    {
        match self.branches.get_mut(index) {
            Some(branch) => Some(branch.value_mut()),
            None => None,
        }
    }

    /// Returns the number of the parent, if there is one.
    pub fn parent(&self) -> Option<usize>
        ensures value { result ≡ self.now.parent }
        ensures bound { IfSome result (λ id. id < usize.MAX) }
    {
        if self.parent == usize::MAX {
            None
        } else {
            Some(self.parent)
        }
    }

    /// Sets the parent. `Some(usize::MAX)` is read as `None`.
    pub fn set_parent(&mut self, parent: Option<usize>)
        ensures { self.new ≡ record self.old { parent = kept_parent parent } }
    {
        self.parent = parent.unwrap_or(usize::MAX);
    }

    pub fn item_count(&self) -> usize
        ensures value { result ≡ length self.now.branches }
        ensures fits { result ≤ INTERNAL_SLOTS }
    {
        self.branches.len()
    }

    /// Returns how many children there are: one more than items.
    pub fn child_count(&self) -> usize
        ensures value { result ≡ length (children_of (view_of self.now)) }
        ensures fits { result ≤ INTERNAL_SLOTS + 1 }
    {
        self.item_count() + 1
    }

    pub fn first_child_id(&self) -> usize
        ensures { result ≡ self.now.first }
    {
        self.child_id(0)
    }

    /// Returns the items in order, each with the child after it.
    pub fn branches(&self) -> &Slots<Branch<K, V>, INTERNAL_SLOTS>
        ensures { map branch_pair result.now ≡ self.now.branches }
    {
        &self.branches
    }

    /// Returns the first index of a child's number, if it is there.
    pub fn child_index(&self, id: usize) -> Option<usize>
        ensures value { result ≡ position (λ child. child == id) (children_of (view_of self.now)) }
        ensures within { IfSome result (λ index. index ≤ length self.now.branches) }
    {
        for index in 0..self.child_count() {
            if self.child_id(index) == id {
                return Some(index);
            }
        }
        None
    }

    /// Returns the number of the child at an index. There must be one; see `child_id_opt`.
    pub fn child_id(&self, index: usize) -> usize
        requires { index ≤ length self.now.branches }
        ensures { slice_get (children_of (view_of self.now)) index ≡ Some result }
    {
        child_id_among(self.first, &self.branches, index)
    }

    /// Returns the number of the child at an index, or `None` past the last.
    pub fn child_id_opt(&self, index: usize) -> Option<usize>
        ensures { result ≡ slice_get (children_of (view_of self.now)) index }
    {
        if index == 0 {
            return Some(self.first);
        }
        match self.branches.get(index - 1) {
            Some(branch) => Some(branch.child),
            None => None,
        }
    }

    /// Returns the keys before and after the child at an index: `None` before the first child, and after the last. There must be a child;
    /// see `child_id_opt`.
    pub fn separators(&self, index: usize) -> (Option<&K>, Option<&K>)
        requires { index ≤ length self.now.branches }
        ensures before { option_copied result.0 ≡ separator_before (view_of self.now) index }
        ensures after { option_copied result.1 ≡ separator_after (view_of self.now) index }
    {
        let before = if index == 0 {
            None
        } else {
            key_in(&self.branches, index - 1)
        };
        (before, key_in(&self.branches, index))
    }

    /// Returns the item at an offset, or `None` at -1 and past the end.
    pub fn item(&self, offset: Offset) -> Option<&Item<K, V>>
        ensures { option_copied result ≡ item_at_offset (view_of self.now) offset }
    {
        match offset.value() {
            Some(index) => match self.branches.get(index) {
                Some(branch) => Some(&branch.item),
                None => None,
            },
            None => None,
        }
    }

    /// Returns the item at an offset for writing, or `None` at -1 and past the end. The order of the keys is then up to the caller.
    pub fn item_mut(&mut self, offset: Offset) -> Option<&mut Item<K, V>>
        ensures* writes_back { sem 𝓛 (internal_lends_item K.row V.row self.entry offset result) }
        ensures value { option_copied_mut result ≡ item_at_offset (view_of self.old) offset }
    {
        match offset.value() {
            Some(index) => self.item_mut_at_index(index),
            None => None,
        }
    }

    // Returns the item at an index for writing.
    fn item_mut_at_index(&mut self, index: usize) -> Option<&mut Item<K, V>>
        ensures* writes_back { sem 𝓛 (internal_lends_item K.row V.row self.entry (Some index) result) }
        ensures value { option_copied_mut result ≡ slice_get (items_of (view_of self.old)) index }
    {
        match self.branches.get_mut(index) {
            Some(branch) => Some(branch.item_mut()),
            None => None,
        }
    }

    /// Returns whether there are too many items, too few, or neither. A root is judged like any other node.
    pub fn balance(&self) -> Balance
        ensures { result ≡ balance_of (view_of self.now) }
    {
        Balance::of(self.item_count(), MAX_INTERNAL_ITEMS)
    }

    /// Returns whether there are more than seven items.
    pub fn is_overflowing(&self) -> bool
        ensures { IsTrue result ↔ IsOverflowing (view_of self.now) }
    {
        self.item_count() > MAX_INTERNAL_ITEMS
    }

    /// Returns whether there are fewer than three items. A root is judged like any other node.
    pub fn is_underflowing(&self) -> bool
        ensures { IsTrue result ↔ IsUnderflowing (view_of self.now) }
    {
        self.item_count() < MIN_ITEMS
    }
}

fn branch_at<K, V>(branches: &Slots<Branch<K, V>, INTERNAL_SLOTS>, index: usize) -> &Branch<K, V>
    requires { index < length branches.now }
    ensures { slice_get branches.now index ≡ Some result.now }
{
    branches.get(index).unwrap()
}

// Returns the key of the branch at an index, if there is one.
fn key_in<K, V>(branches: &Slots<Branch<K, V>, INTERNAL_SLOTS>, index: usize) -> Option<&K>
    ensures { option_copied result ≡ option_map (λ b. b.item.0) (slice_get branches.now index) }
{
    match branches.get(index) {
        Some(branch) => Some(branch.item.key()),
        None => None,
    }
}

// Returns the number of the child at an index; `first` is the child before all branches.
fn child_id_among<K, V>(
    first: usize,
    branches: &Slots<Branch<K, V>, INTERNAL_SLOTS>,
    index: usize,
) -> usize
    requires { index ≤ length branches.now }
    ensures { slice_get (first ∷ map (λ b. b.child) branches.now) index ≡ Some result }
{
    if index == 0 {
        first
    } else {
        branch_at(branches, index - 1).child
    }
}

// Returns the place of a key among the items, and ticks once for each comparison of keys.
#[inline(always)]
fn place<K: Ord, Q: Query<K>, V>(
    branches: &Slots<Branch<K, V>, INTERNAL_SLOTS>,
    key: &Q,
    steps: &mut Steps,
) -> Result<usize, usize>
    requires { Ascends K.cmp (map (λ b. b.item) branches.now) }
    ensures place { result ≡ place_of Q.compare key.now (map (λ b. b.item) branches.now) }
    ensures within { IsSearchInRange result (length branches.now) }
    ensures fits { length branches.now ≤ INTERNAL_SLOTS }
    ensures here { IfOk result (IsIndexOfKey Q.compare key.now (map (λ b. b.item) branches.now)) }
    ensures absent { OnErr result (found Q.compare key.now (map (λ b. b.item) branches.now) ≡ None) }
    ensures counted { TicksBy steps.old steps.new (comparisons_in_branches Q.compare key.now branches.now) }
    ensures ticks { steps.new.count ≤ steps.old.count + MAX_COMPARISONS }
{
    search_counted(branches, key, steps)
}

impl<K: Ord, V> InternalNode<K, V> {
    ghost use Rattle.std.specs.Borrow.{sem};
    ghost use Rattle.btree_internal.specs.InternalLends.{internal_lends};

    /// Returns `Ok` with the value at a key, or `Err` with the number of the child that may hold it. It makes at most six comparisons.
    pub fn get(&self, key: &K) -> Result<&V, usize>
        requires { Ascends K.cmp (items_of (view_of self.now)) }
        ensures { result_map (λ v. Some v.now) result ≡ look_up K.cmp key.now (view_of self.now) }
    {
        match self.find(key) {
            Ok(index) => Ok(branch_at(&self.branches, index).item.value()),
            Err(index) => Err(self.child_id(index)),
        }
    }

    // Returns the place of a key among the items, and ticks once for each comparison of keys.
    #[inline(always)]
    fn find_counted<Q: Query<K>>(&self, key: &Q, steps: &mut Steps) -> Result<usize, usize>
        requires { Ascends K.cmp (items_of (view_of self.now)) }
        ensures place { result ≡ place_of Q.compare key.now (items_of (view_of self.now)) }
        ensures within { IsSearchInRange result (length self.now.branches) }
        ensures sized { size_of (view_of self.now) ≡ length self.now.branches }
        ensures here { IfOk result (IsIndexOfKey Q.compare key.now (items_of (view_of self.now))) }
        ensures fits { length self.now.branches ≤ INTERNAL_SLOTS }
        ensures absent { OnErr result (found Q.compare key.now (items_of (view_of self.now)) ≡ None) }
        ensures counted { TicksBy steps.old steps.new (comparisons_in Q.compare key.now (view_of self.now)) }
        ensures ticks { steps.new.count ≤ steps.old.count + MAX_COMPARISONS }
    {
        place(&self.branches, key, steps)
    }

    // Does the same without a counter.
    fn find<Q: Query<K>>(&self, key: &Q) -> Result<usize, usize>
        requires { Ascends K.cmp (items_of (view_of self.now)) }
        ensures place { result ≡ place_of Q.compare key.now (items_of (view_of self.now)) }
        ensures within { IsSearchInRange result (length self.now.branches) }
        ensures sized { size_of (view_of self.now) ≡ length self.now.branches }
        ensures here { IfOk result (IsIndexOfKey Q.compare key.now (items_of (view_of self.now))) }
        ensures fits { length self.now.branches ≤ INTERNAL_SLOTS }
        ensures absent { OnErr result (found Q.compare key.now (items_of (view_of self.now)) ≡ None) }
    {
        let mut steps = Steps::new();
        self.find_counted(key, &mut steps)
    }

    /// Returns `Ok` with the value at a key for writing, or `Err` with the number of the child that may hold it. It makes at most six
    /// comparisons.
    pub fn get_mut(&mut self, key: &K) -> Result<&mut V, usize>
        requires { Ascends K.cmp (items_of (view_of self.old)) }
        ensures* writes_back { sem 𝓛 (internal_lends K.row V.row K.cmp self.entry key.now result) }
        ensures value { result_map (λ v. Some v.now) result ≡ look_up K.cmp key.now (view_of self.old) }
    {
        match self.find(key) {
            Ok(index) => match self.value_at(index) {
                Some(value) => Ok(value),
                None => unreachable!(),
            },
            Err(index) => Err(self.child_id(index)),
        }
    }

    /// Returns `Ok` with the offset of a key that is there, or `Err` with the index and the number of the child that may hold it. It
    /// makes at most six comparisons.
    pub fn offset_of<Q: Query<K>>(&self, key: &Q) -> Result<Offset, (usize, usize)>
        requires { Ascends K.cmp (items_of (view_of self.now)) }
        ensures value { result_map_err gap_with_child result ≡ offset_in Q.compare key.now (view_of self.now) }
        ensures within { PointsInto (view_of self.now) result }
    {
        let mut steps = Steps::new();
        self.offset_of_counted(key, &mut steps)
    }

    /// Does the same as `offset_of`, and ticks once for each comparison of keys, at most six times.
    #[inline(always)]
    pub fn offset_of_counted<Q: Query<K>>(
        &self,
        key: &Q,
        steps: &mut Steps,
    ) -> Result<Offset, (usize, usize)>
        requires { Ascends K.cmp (items_of (view_of self.now)) }
        ensures value { result_map_err gap_with_child result ≡ offset_in Q.compare key.now (view_of self.now) }
        ensures within { PointsInto (view_of self.now) result }
        ensures counted { TicksBy steps.old steps.new (comparisons_in Q.compare key.now (view_of self.now)) }
        ensures ticks { steps.new.count ≤ steps.old.count + MAX_COMPARISONS }
    {
        match self.find_counted(key, steps) {
            Ok(index) => Ok(offset_at(index)),
            Err(index) => Err((index, self.child_id(index))),
        }
    }
}

impl<K: Ord, V> InternalNode<K, V> {
    ghost use Rattle.btree_view.specs.Checks.{GivesNodeVerdict};

    /// Checks the parent, the number of items, and the keys, also against the nearest separators on both sides, and returns the fault of
    /// the first check that fails. A node with neither separator is judged as the root.
    pub fn validate(
        &self,
        parent: Option<usize>,
        min: Option<&K>,
        max: Option<&K>,
    ) -> Result<(), Fault>
        ensures { GivesNodeVerdict K.cmp parent min.entry max.entry (view_of self.now) result }
    {
        check_node(
            &self.branches,
            MAX_INTERNAL_ITEMS,
            self.parent(),
            parent,
            min,
            max,
        )
    }
}

impl<K: Ord + Drop, V: Drop> InternalNode<K, V> {
    ghost use Rattle.std.specs.Prelude.{IfErr, OnOk};
    ghost use Rattle.btree_item.specs.Pairs.{found_value};
    ghost use Rattle.btree_internal.specs.Insertion.{NamesChildFor};
    ghost use Rattle.btree_view.specs.Insertion.{with_inserted};

    /// Replaces the value at a key, with at most six comparisons: the key that is there stays, and the given key is dropped. Returns the
    /// offset and the old value. If the key is not there, nothing changes.
    pub fn insert_by_key(&mut self, key: K, value: V) -> Result<(Offset, V), InsertionError<K, V>>
        requires { Ascends K.cmp (items_of (view_of self.old)) }
        ensures offset { IfOk result (λ p. p.0 ≡ Some (before K.cmp key (items_of (view_of self.old)))) }
        ensures answer { IfOk result (λ p. Some p.1 ≡ found_value K.cmp key (items_of (view_of self.old))) }
        ensures after { OnOk result (view_of self.new ≡ with_inserted K.cmp key value (view_of self.old)) }
        ensures absent { IfErr result (NamesChildFor K.cmp key value (view_of self.old)) }
        ensures kept { OnErr result (self.new ≡ self.old) }
    {
        match self.find(&key) {
            Ok(index) => match self.value_at(index) {
                Some(here) => Ok((offset_at(index), mem::replace(here, value))),
                None => unreachable!(),
            },
            Err(index) => Err(InsertionError {
                key,
                value,
                child_offset: index,
                child_id: self.child_id(index),
            }),
        }
    }
}

impl<K: Drop, V: Drop> InternalNode<K, V> {
    ghost use Rattle.btree_view.specs.Edits.{HasSpare, HaveRoom, IsSplit, joined, pushed_left, pushed_right, with_item_at, with_other_item_at, without, without_at};
    ghost use Rattle.btree_view.specs.View.{child_after_offset, child_before_offset};

    /// Inserts an item at an offset, with a child after it, and moves those from there on right by one. The order of the keys and the
    /// child's parent are then up to the caller.
    pub fn insert(&mut self, offset: Offset, item: Item<K, V>, right_id: usize)
        requires room { length self.old.branches < INTERNAL_SLOTS }
        requires within { IsSomeAnd offset (λ index. index ≤ length self.old.branches) }
        ensures { view_of self.new ≡ with_item_at offset item (Some right_id) (view_of self.old) }
    {
        self.branches.insert(
            offset.unwrap(),
            Branch {
                item,
                child: right_id,
            },
        );
    }

    /// Replaces the item at an offset, and returns the old one. The children stay. The order of the keys is then up to the caller.
    pub fn replace(&mut self, offset: Offset, item: Item<K, V>) -> Item<K, V>
        requires { IsSomeAnd offset (λ index. index < length self.old.branches) }
        ensures answer { Some result ≡ item_at_offset (view_of self.old) offset }
        ensures after { view_of self.new ≡ with_other_item_at offset item (view_of self.old) }
    {
        let index = offset.unwrap();
        match self.item_mut_at_index(index) {
            Some(here) => mem::replace(here, item),
            None => unreachable!(),
        }
    }

    /// Removes the item at an offset and the child after it, and moves those after them left by one. Returns the number of the child
    /// before the item, the item, and the number of the child after it.
    pub fn remove(&mut self, offset: Offset) -> (usize, Item<K, V>, usize)
        requires { IsSomeAnd offset (λ index. index < length self.old.branches) }
        ensures left { Some result.0 ≡ child_before_offset (view_of self.old) offset }
        ensures item { Some result.1 ≡ item_at_offset (view_of self.old) offset }
        ensures right { Some result.2 ≡ child_after_offset (view_of self.old) offset }
        ensures after { view_of self.new ≡ without_at offset (view_of self.old) }
    {
        let index = offset.unwrap();
        let left = self.child_id(index);
        let Branch { item, child } = self.branches.remove(index);
        (left, item, child)
    }

    /// Removes the item between two adjacent children, and the number of the right child. Returns the left one's index, the numbers of
    /// both, the item, and the balance of the node after that.
    pub fn merge(&mut self, left: usize, right: usize) -> (usize, usize, usize, Item<K, V>, Balance)
        requires next { right ≡ left + 1 }
        requires within { right ≤ length self.old.branches }
        ensures index { result.0 ≡ left }
        ensures left { slice_get (children_of (view_of self.old)) left ≡ Some result.1 }
        ensures right { slice_get (children_of (view_of self.old)) right ≡ Some result.2 }
        ensures item { slice_get (items_of (view_of self.old)) left ≡ Some result.3 }
        ensures after { view_of self.new ≡ without left (view_of self.old) }
        ensures balance { result.4 ≡ balance_of (view_of self.new) }
    {
        let left_id = self.child_id(left);
        let right_id = self.child_id(right);
        let item = self.branches.remove(left).item;
        (left, left_id, right_id, item, self.balance())
    }

    /// Appends the separator with the other node's first child, and then the other node's branches. Each moves once. Returns the
    /// separator's offset. The order of the keys and the parents of the children are up to the caller.
    pub fn append(&mut self, separator: Item<K, V>, other: InternalNode<K, V>) -> Offset
        requires { HaveRoom (view_of self.old) (view_of other) }
        ensures offset { result ≡ Some (length self.old.branches) }
        ensures after { view_of self.new ≡ joined (view_of self.old) separator (view_of other) }
    {
        let mut emptied = other;
        self.append_from(separator, &mut emptied)
    }

    /// Appends the separator with the other node's first child, and then the other node's branches. The other node keeps only its parent and
    /// its first child. Each branch moves once, and no node is passed by value. Returns the separator's offset. The order of the keys
    /// and the parents of the children are up to the caller.
    pub fn append_from(&mut self, separator: Item<K, V>, other: &mut InternalNode<K, V>) -> Offset
        requires { HaveRoom (view_of self.old) (view_of other.old) }
        ensures offset { result ≡ Some (length self.old.branches) }
        ensures after { view_of self.new ≡ joined (view_of self.old) separator (view_of other.old) }
        ensures emptied { other.new ≡ record other.old { branches = [] } }
    {
        let offset = offset_at(self.item_count());
        self.branches.push(Branch {
            item: separator,
            child: other.first,
        });
        other.branches.move_tail(0, &mut self.branches);
        offset
    }

    /// Inserts an item before the others, and a child before the others. The order of the keys and the child's parent are then up to the
    /// caller.
    pub fn push_left(&mut self, item: Item<K, V>, child: usize)
        requires { length self.old.branches < INTERNAL_SLOTS }
        ensures { view_of self.new ≡ pushed_left item (Some child) (view_of self.old) }
    {
        let second = self.first;
        self.branches.insert(
            0,
            Branch {
                item,
                child: second,
            },
        );
        self.first = child;
    }

    /// Appends an item, and a child after it. Returns the item's offset. The order of the keys and the child's parent are then up to the
    /// caller.
    pub fn push_right(&mut self, item: Item<K, V>, child: usize) -> Offset
        requires { length self.old.branches < INTERNAL_SLOTS }
        ensures offset { result ≡ Some (length self.old.branches) }
        ensures after { view_of self.new ≡ pushed_right item (Some child) (view_of self.old) }
    {
        let offset = offset_at(self.item_count());
        self.branches.push(Branch { item, child });
        offset
    }

    // Returns whether there are more items than the fewest that it must keep.
    fn has_spare(&self) -> bool
        ensures { IsTrue result ↔ HasSpare (view_of self.now) }
    {
        self.item_count() > MIN_ITEMS
    }

    /// Removes and returns the first item and the first child, however few items there are.
    pub fn take_left(&mut self) -> (Item<K, V>, usize)
        requires { 0 < length self.old.branches }
        ensures { InternalPopsLeft self.old self.new result }
    {
        let first = self.first;
        let Branch { item, child } = self.branches.remove(0);
        self.first = child;
        (item, first)
    }

    /// Removes and returns the last item, with the offset that it had, and the last child, however few items there are.
    pub fn take_right(&mut self) -> (Offset, Item<K, V>, usize)
        requires { 0 < length self.old.branches }
        ensures offset { result.0 ≡ Some (length self.new.branches) }
        ensures taken { InternalPopsRight self.old self.new result }
    {
        let Branch { item, child } = self.branches.pop().unwrap();
        (offset_at(self.item_count()), item, child)
    }

    /// Removes and returns the first item and the first child, if there are four items or more.
    pub fn pop_left(&mut self) -> Result<(Item<K, V>, usize), WouldUnderflow>
        ensures spare { IfOk result (λ _. HasSpare (view_of self.old)) }
        ensures taken { IfOk result (InternalPopsLeft self.old self.new) }
        ensures short { OnErr result (size_of (view_of self.old) ≤ MIN_ITEMS × self.new ≡ self.old) }
    {
        if !self.has_spare() {
            return Err(WouldUnderflow);
        }
        let first = self.first;
        let Branch { item, child } = self.branches.remove(0);
        self.first = child;
        Ok((item, first))
    }

    /// Removes and returns the last item, with the offset that it had, and the last child, if there are four items or more.
    pub fn pop_right(&mut self) -> Result<(Offset, Item<K, V>, usize), WouldUnderflow>
        ensures spare { IfOk result (λ _. HasSpare (view_of self.old)) }
        ensures offset { IfOk result (λ popped. popped.0 ≡ Some (length self.new.branches)) }
        ensures taken { IfOk result (InternalPopsRight self.old self.new) }
        ensures short { OnErr result (size_of (view_of self.old) ≤ MIN_ITEMS × self.new ≡ self.old) }
    {
        if !self.has_spare() {
            return Err(WouldUnderflow);
        }
        let Branch { item, child } = self.branches.pop().unwrap();
        Ok((offset_at(self.item_count()), item, child))
    }

    /// Keeps the first three items of eight. Returns how many are kept, the median, and a node with the items after it, which begins with
    /// the child after the median and has the same parent. The parents of the children are then up to the caller.
    pub fn split(&mut self) -> (usize, Item<K, V>, InternalNode<K, V>)
        requires { IsOverflowing (view_of self.old) }
        ensures parts { IsSplit (view_of self.old) result.1 (view_of self.new) (view_of result.2) }
        ensures left { result.0 ≡ INTERNAL_MEDIAN }
        ensures right { length result.2.branches ≡ MIN_ITEMS + 1 }
    {
        // For the prover alone: there are at most eight items, which gives the size of the right part.
        let _count = self.item_count();
        let branches = self.branches.split_off(INTERNAL_MEDIAN + 1);
        let Branch { item, child } = self.branches.pop().unwrap();
        let right = InternalNode {
            parent: self.parent,
            first: child,
            branches,
        };
        (self.branches.len(), item, right)
    }
}
