//! A leaf of the tree.
ghost use Rattle.std.specs.Prelude.{◌≡◌, ◌+◌, ◌<◌, ◌≤◌, ◌↔◌, [], ◌∷◌, Some, None, IsTrue, IfSome, IsSomeAnd, IfOk, OnErr, length, slice_get};
ghost use Rattle.std.specs.Borrow.{sem};
ghost use Rattle.std.specs.List.Sorted.{IsSearchInRange};
ghost use Rattle.std.specs.Option.{option_and_then, option_copied, option_copied_mut};
ghost use Rattle.btree_item.specs.Comparisons.{TicksBy};
ghost use Rattle.btree_item.specs.Pairs.{Ascends, before, found, found_value, inserted, place_of};
ghost use Rattle.btree_leaf.specs.Leaf.{as_offset, leaf_view as view_of, LeafPopsRight};
ghost use Rattle.btree_view.specs.Kept.{insert_at, kept_parent};
ghost use Rattle.btree_view.specs.LookUp.{comparisons_among, comparisons_in, IsIndexOfKey};

use btree_item::{
    Fault, Item, LEAF_MEDIAN, LEAF_SLOTS, MAX_COMPARISONS, MAX_LEAF_ITEMS, MIN_ITEMS, Offset,
    Query, Slots, SlotsIter, search_counted,
};
use btree_steps::Steps;
use btree_view::{Balance, WouldUnderflow, check_node, offset_at};
use std::marker::Model;

/// A leaf: the number of its parent, and up to nine items. In a well formed tree it has at most eight.
#[derive(Clone, Drop)]
pub struct LeafNode<K, V> {
    // `usize::MAX` if there is no parent.
    parent: usize,
    items: Slots<Item<K, V>, LEAF_SLOTS>,
}

impl<K, V> Model for LeafNode<K, V> {
    ghost use Rattle.btree_leaf.specs.Leaf.{Leaf};
    ghost use Rattle.btree_view.specs.Kept.{node_of};

    ghost Value = { Leaf K V };

    ghost view = { λ leaf. record { parent = node_of leaf.parent; items = leaf.items } };
}

impl<K: Drop, V: Drop> LeafNode<K, V> {
    /// Returns a leaf with one item. `Some(usize::MAX)` as the parent is read as `None`.
    pub fn new(parent: Option<usize>, item: Item<K, V>) -> Self
        ensures { result ≡ record { parent = kept_parent parent; items = item ∷ [] } }
    {
        let mut leaf = LeafNode::empty(parent);
        leaf.items.push(item);
        leaf
    }

    /// Returns a leaf without items. `Some(usize::MAX)` as the parent is read as `None`.
    pub fn empty(parent: Option<usize>) -> Self
        ensures { result ≡ record { parent = kept_parent parent; items = [] } }
    {
        LeafNode {
            parent: parent.unwrap_or(usize::MAX),
            items: Slots::new(),
        }
    }
}

impl<K, V> LeafNode<K, V> {
    ghost use Rattle.btree_leaf.specs.LeafLends.{leaf_lends_item};

    /// Returns the number of the parent, if there is one.
    pub fn parent(&self) -> Option<usize>
        ensures value { result ≡ self.now.parent }
        ensures bound { IfSome result (λ id. id < usize.MAX) }
    {
        if self.parent == usize::MAX {
            None
        } else {
            Some(self.parent)
        }
    }

    pub fn item_count(&self) -> usize
        ensures value { result ≡ length self.now.items }
        ensures fits { result ≤ LEAF_SLOTS }
    {
        self.items().len()
    }

    pub fn items(&self) -> &Slots<Item<K, V>, LEAF_SLOTS>
        ensures { result.now ≡ self.now.items }
    {
        &self.items
    }

    /// Returns the item at an offset, or `None` at -1 and past the end.
    pub fn item(&self, offset: Offset) -> Option<&Item<K, V>>
        ensures { option_copied result ≡ option_and_then (slice_get self.now.items) offset }
    {
        match offset.value() {
            Some(index) => self.items().get(index),
            None => None,
        }
    }

    /// Returns the item at an offset for writing, or `None` at -1 and past the end. The order of the keys is then up to the caller.
    pub fn item_mut(&mut self, offset: Offset) -> Option<&mut Item<K, V>>
        ensures* writes_back { sem 𝓛 (leaf_lends_item K.row V.row self.entry offset result) }
        ensures value { option_copied_mut result ≡ option_and_then (slice_get self.old.items) offset }
    {
        match offset.value() {
            Some(index) => self.item_mut_at_index(index),
            None => None,
        }
    }

    // Returns the item at an index for writing.
    fn item_mut_at_index(&mut self, index: usize) -> Option<&mut Item<K, V>>
        ensures* writes_back { sem 𝓛 (leaf_lends_item K.row V.row self.entry (Some index) result) }
        ensures value { option_copied_mut result ≡ slice_get self.old.items index }
    {
        self.items.get_mut(index)
    }

    /// Returns an iterator over the items in order.
    pub fn iter(&self) -> SlotsIter<'_, Item<K, V>>
        ensures { result ≡ self.now.items }
    {
        self.items.iter()
    }
}

impl<K, V> LeafNode<K, V> {
    ghost use Rattle.btree_view.specs.Edits.{balance_of, IsOverflowing, IsUnderflowing};

    /// Returns whether there are too many items, too few, or neither. A root is judged like any other node.
    pub fn balance(&self) -> Balance
        ensures { result ≡ balance_of (view_of self.now) }
    {
        Balance::of(self.item_count(), MAX_LEAF_ITEMS)
    }

    /// Returns whether there are more than eight items.
    pub fn is_overflowing(&self) -> bool
        ensures { IsTrue result ↔ IsOverflowing (view_of self.now) }
    {
        self.item_count() > MAX_LEAF_ITEMS
    }

    /// Returns whether there are fewer than three items. A root is judged like any other node.
    pub fn is_underflowing(&self) -> bool
        ensures { IsTrue result ↔ IsUnderflowing (view_of self.now) }
    {
        self.item_count() < MIN_ITEMS
    }

    /// Sets the parent. `Some(usize::MAX)` is read as `None`.
    pub fn set_parent(&mut self, parent: Option<usize>)
        ensures { self.new ≡ record self.old { parent = kept_parent parent } }
    {
        self.parent = parent.unwrap_or(usize::MAX);
    }
}

// Returns the place of a key among items, and ticks once for each comparison of keys.
#[inline(always)]
fn place_counted<K: Ord, Q: Query<K>, V>(
    items: &Slots<Item<K, V>, LEAF_SLOTS>,
    key: &Q,
    steps: &mut Steps,
) -> Result<usize, usize>
    requires { Ascends K.cmp items.now }
    ensures place { result ≡ place_of Q.compare key.now items.now }
    ensures within { IsSearchInRange result (length items.now) }
    ensures fits { length items.now ≤ LEAF_SLOTS }
    ensures here { IfOk result (IsIndexOfKey Q.compare key.now items.now) }
    ensures absent { OnErr result (found Q.compare key.now items.now ≡ None) }
    ensures counted { TicksBy steps.old steps.new (comparisons_among Q.compare key.now items.now) }
    ensures ticks { steps.new.count ≤ steps.old.count + MAX_COMPARISONS }
{
    search_counted(items, key, steps)
}

// Does the same without a counter.
fn place<K: Ord, Q: Query<K>, V>(
    items: &Slots<Item<K, V>, LEAF_SLOTS>,
    key: &Q,
) -> Result<usize, usize>
    requires { Ascends K.cmp items.now }
    ensures place { result ≡ place_of Q.compare key.now items.now }
    ensures within { IsSearchInRange result (length items.now) }
    ensures fits { length items.now ≤ LEAF_SLOTS }
    ensures here { IfOk result (IsIndexOfKey Q.compare key.now items.now) }
    ensures absent { OnErr result (found Q.compare key.now items.now ≡ None) }
{
    let mut steps = Steps::new();
    place_counted(items, key, &mut steps)
}

impl<K: Ord, V> LeafNode<K, V> {
    ghost use Rattle.btree_leaf.specs.LeafLends.{leaf_lends_value};

    /// Returns the value at a key, or `None`. It makes at most six comparisons.
    pub fn get(&self, key: &K) -> Option<&V>
        requires { Ascends K.cmp self.now.items }
        ensures { option_copied result ≡ found_value K.cmp key.now self.now.items }
    {
        match place(self.items(), key) {
            Ok(index) => match self.items().get(index) {
                Some(item) => Some(item.value()),
                None => None,
            },
            Err(_) => None,
        }
    }

    /// Returns the value at a key for writing, or `None`. It makes at most six comparisons.
    pub fn get_mut(&mut self, key: &K) -> Option<&mut V>
        requires { Ascends K.cmp self.old.items }
        ensures* writes_back { sem 𝓛 (leaf_lends_value K.row V.row K.cmp self.entry key.now result) }
        ensures value { option_copied_mut result ≡ found_value K.cmp key.now self.old.items }
    {
        match place(&self.items, key) {
            Ok(index) => match self.items.get_mut(index) {
                Some(item) => Some(item.value_mut()),
                None => None,
            },
            Err(_) => None,
        }
    }

    /// Returns `Ok` with the offset of a key that is there, or `Err` with the number of smaller keys. It makes at most six comparisons.
    pub fn offset_of<Q: Query<K>>(&self, key: &Q) -> Result<Offset, Offset>
        requires { Ascends K.cmp self.now.items }
        ensures { result ≡ as_offset (place_of Q.compare key.now self.now.items) }
    {
        match self.find(key) {
            Ok(index) => Ok(offset_at(index)),
            Err(index) => Err(offset_at(index)),
        }
    }

    /// Does the same with indices.
    pub fn find<Q: Query<K>>(&self, key: &Q) -> Result<usize, usize>
        requires { Ascends K.cmp self.now.items }
        ensures place { result ≡ place_of Q.compare key.now self.now.items }
        ensures within { IsSearchInRange result (length self.now.items) }
        ensures fits { length self.now.items ≤ LEAF_SLOTS }
    {
        place(self.items(), key)
    }

    /// Does the same as `find`, and ticks once for each comparison of keys, at most six times.
    #[inline(always)]
    pub fn find_counted<Q: Query<K>>(&self, key: &Q, steps: &mut Steps) -> Result<usize, usize>
        requires { Ascends K.cmp self.now.items }
        ensures place { result ≡ place_of Q.compare key.now self.now.items }
        ensures within { IsSearchInRange result (length self.now.items) }
        ensures fits { length self.now.items ≤ LEAF_SLOTS }
        ensures counted { TicksBy steps.old steps.new (comparisons_in Q.compare key.now (view_of self.now)) }
        ensures ticks { steps.new.count ≤ steps.old.count + MAX_COMPARISONS }
    {
        place_counted(self.items(), key, steps)
    }
}

impl<K: Ord, V> LeafNode<K, V> {
    ghost use Rattle.btree_view.specs.Checks.{GivesNodeVerdict};

    /// Checks the parent, the number of items, and the keys, also against the nearest separators on both sides, and returns the fault of
    /// the first check that fails. A leaf with neither separator is judged as the root.
    pub fn validate(
        &self,
        parent: Option<usize>,
        min: Option<&K>,
        max: Option<&K>,
    ) -> Result<(), Fault>
        ensures { GivesNodeVerdict K.cmp parent min.entry max.entry (view_of self.now) result }
    {
        check_node(&self.items, MAX_LEAF_ITEMS, self.parent(), parent, min, max)
    }
}

impl<K: Ord + Drop, V: Drop> LeafNode<K, V> {
    /// Inserts a value by its key, with at most six comparisons: a key that is there stays and gets the new value, and the given key is
    /// dropped. Returns the offset, and the old value if there was one.
    pub fn insert_by_key(&mut self, key: K, value: V) -> (Offset, Option<V>)
        requires room { length self.old.items < LEAF_SLOTS }
        requires ascends { Ascends K.cmp self.old.items }
        ensures offset { result.0 ≡ Some (before K.cmp key self.old.items) }
        ensures answer { result.1 ≡ found_value K.cmp key self.old.items }
        ensures after { self.new ≡
            record self.old { items = inserted K.cmp key value self.old.items } }
        ensures ascends { Ascends K.cmp self.new.items }
    {
        match place(&self.items, &key) {
            Ok(index) => {
                let item = self.items.get_mut(index).unwrap();
                (offset_at(index), Some(item.set_value(value)))
            }
            Err(index) => {
                self.items.insert(index, Item::new(key, value));
                (offset_at(index), None)
            }
        }
    }
}

impl<K: Drop, V: Drop> LeafNode<K, V> {
    ghost use Rattle.btree_view.specs.Edits.{HasSpare, HaveRoom, IsOverflowing, IsSplit, joined, pushed_left, pushed_right, without_at, without_last};
    ghost use Rattle.btree_view.specs.View.{last_item_of};

    /// Inserts an item at an offset, and moves those from there on right by one. The order of the keys is then up to the caller.
    pub fn insert(&mut self, offset: Offset, item: Item<K, V>)
        requires room { length self.old.items < LEAF_SLOTS }
        requires within { IsSomeAnd offset (λ index. index ≤ length self.old.items) }
        ensures { self.new ≡ record self.old { items = insert_at offset self.old.items item } }
    {
        self.items.insert(offset.unwrap(), item);
    }

    /// Removes and returns the item at an offset, and moves those after it left by one.
    pub fn remove(&mut self, offset: Offset) -> Item<K, V>
        requires { IsSomeAnd offset (λ index. index < length self.old.items) }
        ensures answer { Some result ≡ option_and_then (slice_get self.old.items) offset }
        ensures after { view_of self.new ≡ without_at offset (view_of self.old) }
    {
        self.items.remove(offset.unwrap())
    }

    /// Removes and returns the last item.
    pub fn remove_last(&mut self) -> Item<K, V>
        requires { 0 < length self.old.items }
        ensures answer { Some result ≡ last_item_of (view_of self.old) }
        ensures after { view_of self.new ≡ without_last (view_of self.old) }
    {
        self.items.pop().unwrap()
    }

    /// Appends the separator and then the items of the other leaf. Each moves once. Returns the separator's offset. The order of the keys
    /// is then up to the caller.
    pub fn append(&mut self, separator: Item<K, V>, other: LeafNode<K, V>) -> Offset
        requires { HaveRoom (view_of self.old) (view_of other) }
        ensures offset { result ≡ Some (length self.old.items) }
        ensures after { view_of self.new ≡ joined (view_of self.old) separator (view_of other) }
    {
        let mut emptied = other;
        self.append_from(separator, &mut emptied)
    }

    /// Appends the separator and then the items of the other leaf, which keeps only its parent. Each moves once, and no leaf is passed by
    /// value. Returns the separator's offset. The order of the keys is then up to the caller.
    pub fn append_from(&mut self, separator: Item<K, V>, other: &mut LeafNode<K, V>) -> Offset
        requires { HaveRoom (view_of self.old) (view_of other.old) }
        ensures offset { result ≡ Some (length self.old.items) }
        ensures after { view_of self.new ≡ joined (view_of self.old) separator (view_of other.old) }
        ensures emptied { other.new ≡ record other.old { items = [] } }
    {
        let offset = offset_at(self.items.len());
        self.items.push(separator);
        other.items.move_tail(0, &mut self.items);
        offset
    }

    /// Moves the items into an empty leaf, `part`, which gets the parent of this leaf too. This leaf keeps its parent. Each item moves once,
    /// and no leaf is passed by value.
    pub fn move_into(&mut self, part: &mut LeafNode<K, V>)
        requires { part.old.items ≡ [] }
        ensures moved { part.new ≡ self.old }
        ensures emptied { self.new ≡ record self.old { items = [] } }
    {
        // For the prover alone: there are at most nine items, which an empty leaf has room for.
        let _count = self.item_count();
        part.parent = self.parent;
        self.items.move_tail(0, &mut part.items);
    }

    /// Inserts an item before the others. The order of the keys is then up to the caller.
    pub fn push_left(&mut self, item: Item<K, V>)
        requires { length self.old.items < LEAF_SLOTS }
        ensures { view_of self.new ≡ pushed_left item None (view_of self.old) }
    {
        self.items.insert(0, item);
    }

    /// Appends an item, and returns its offset. The order of the keys is then up to the caller.
    pub fn push_right(&mut self, item: Item<K, V>) -> Offset
        requires { length self.old.items < LEAF_SLOTS }
        ensures offset { result ≡ Some (length self.old.items) }
        ensures after { view_of self.new ≡ pushed_right item None (view_of self.old) }
    {
        let offset = offset_at(self.items.len());
        self.items.push(item);
        offset
    }

    // Returns whether there are more items than the fewest that it must keep.
    fn has_spare(&self) -> bool
        ensures { IsTrue result ↔ HasSpare (view_of self.now) }
    {
        self.item_count() > MIN_ITEMS
    }

    /// Removes and returns the first item, however few there are.
    pub fn take_left(&mut self) -> Item<K, V>
        requires { 0 < length self.old.items }
        ensures { view_of self.old ≡ pushed_left result None (view_of self.new) }
    {
        self.items.remove(0)
    }

    /// Removes and returns the last item, however few there are.
    pub fn take_right(&mut self) -> Item<K, V>
        requires { 0 < length self.old.items }
        ensures { view_of self.old ≡ pushed_right result None (view_of self.new) }
    {
        self.items.pop().unwrap()
    }

    /// Removes and returns the first item, if there are four or more.
    pub fn pop_left(&mut self) -> Result<Item<K, V>, WouldUnderflow>
        ensures spare { IfOk result (λ _. HasSpare (view_of self.old)) }
        ensures taken { IfOk result (λ item. view_of self.old ≡ pushed_left item None (view_of self.new)) }
        ensures short { OnErr result (length self.old.items ≤ MIN_ITEMS × self.new ≡ self.old) }
    {
        if !self.has_spare() {
            return Err(WouldUnderflow);
        }
        Ok(self.items.remove(0))
    }

    /// Removes and returns the last item, with the offset that it had, if there are four or more.
    pub fn pop_right(&mut self) -> Result<(Offset, Item<K, V>), WouldUnderflow>
        ensures spare { IfOk result (λ _. HasSpare (view_of self.old)) }
        ensures offset { IfOk result (λ popped. popped.0 ≡ Some (length self.new.items)) }
        ensures taken { IfOk result (LeafPopsRight self.old self.new) }
        ensures short { OnErr result (length self.old.items ≤ MIN_ITEMS × self.new ≡ self.old) }
    {
        if !self.has_spare() {
            return Err(WouldUnderflow);
        }
        let item = self.items.pop().unwrap();
        Ok((offset_at(self.items.len()), item))
    }

    /// Keeps the first four items of nine. Returns how many are kept, the median, and a leaf with the items after it, under the same
    /// parent.
    pub fn split(&mut self) -> (usize, Item<K, V>, LeafNode<K, V>)
        requires { IsOverflowing (view_of self.old) }
        ensures parts { IsSplit (view_of self.old) result.1 (view_of self.new) (view_of result.2) }
        ensures left { result.0 ≡ LEAF_MEDIAN }
        ensures right { length result.2.items ≡ MIN_ITEMS + 1 }
    {
        let mut right = LeafNode::empty(None);
        let (left, median) = self.split_into(&mut right);
        (left, median, right)
    }

    /// Keeps the first four items of nine, and moves those after the median into an empty leaf, which gets the same parent. Returns how many
    /// are kept, and the median. Each item moves once, and no leaf is passed by value.
    pub fn split_into(&mut self, right: &mut LeafNode<K, V>) -> (usize, Item<K, V>)
        requires over { IsOverflowing (view_of self.old) }
        requires empty { right.old.items ≡ [] }
        ensures parts { IsSplit (view_of self.old) result.1 (view_of self.new) (view_of right.new) }
        ensures left { result.0 ≡ LEAF_MEDIAN }
        ensures right { length right.new.items ≡ MIN_ITEMS + 1 }
    {
        // For the prover alone: there are at most nine items, which gives the size of the right part.
        let _count = self.item_count();
        right.parent = self.parent;
        self.items.move_tail(LEAF_MEDIAN + 1, &mut right.items);
        let median = self.items.pop().unwrap();
        (self.items.len(), median)
    }
}
