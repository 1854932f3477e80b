//! The steps of a cursor over a range.
ghost use Rattle.std.specs.Prelude.{◌≡◌, ◌-◌, ◌↔◌, [], Some, true, IfSome, IfNone, IsTrue, nat_lt, not, slice_get};
ghost use Rattle.std.specs.Borrow.{sem};
ghost use Rattle.btree_map.specs.RangeCursor.{WritesFirstInRange, WritesLastInRange, range_back, range_front, range_left};
ghost use Rattle.btree_map.specs.CursorLent.{lends_first_in_range, lends_last_in_range};
ghost use Rattle.btree_map.specs.Lists.{LendsPairAt, last_of};

use crate::cursor::RangeMut;
use crate::cursor::pairs::{address_after, address_before};
use btree_ext::BTreeExtMut;
use btree_item::Address;
use btree_node::NodesMut;

impl<'a, K: Ord, V, C: NodesMut<K, V>> RangeMut<'a, K, V, C> {
    /// Returns whether no pair is left. It reads no node. How many are left is not known.
    pub fn is_empty(&self) -> bool
        ensures value { result ≡ not self.now.any_left }
        ensures places { result ≡ not (nat_lt (range_front self.now) (range_back self.now)) }
        ensures none { IsTrue result ↔ (range_left self.now ≡ []) }
    {
        !self.any_left
    }
}

impl<'a, K: Ord + Drop, V: Drop, C: NodesMut<K, V>> RangeMut<'a, K, V, C> {
    /// Returns the key of the first pair that is left, and its value for writing. What is written replaces the value, and nothing else
    /// changes: the key stays, and so does every address.
    ///
    /// A pair must be left: `is_empty` decides that. `next` returns `None` if there is none.
    pub fn next_pair(&mut self) -> (&K, &mut V)
        requires { self.old.any_left ≡ true }
        ensures* writes_back { sem 𝓛 (lends_first_in_range
            K.row V.row C.row C.Origin.row self.entry result.1) }
        ensures pair { LendsPairAt self.old.map.now (range_front self.old) result }
        ensures writes { (w : V) → WritesFirstInRange self.old result.0.now result.1.now w }
    {
        let Some(at) = self.first else {
            unreachable!();
        };
        self.any_left = self.first != self.last;
        self.first = address_after(self.map, at);
        self.map.pair_mut(at)
    }

    /// Returns the key of the last pair that is left, and its value for writing, as `next_pair` does of the first one.
    pub fn next_back_pair(&mut self) -> (&K, &mut V)
        requires { self.old.any_left ≡ true }
        ensures* writes_back { sem 𝓛 (lends_last_in_range
            K.row V.row C.row C.Origin.row self.entry result.1) }
        ensures pair { LendsPairAt self.old.map.now (range_back self.old - 1) result }
        ensures writes { (w : V) → WritesLastInRange self.old result.0.now result.1.now w }
    {
        let Some(at) = self.last else {
            unreachable!();
        };
        self.any_left = self.first != self.last;
        self.last = address_before(self.map, at);
        self.map.pair_mut(at)
    }

    /// Returns the key of the first pair that is left, and its value for writing, or `None` if no pair is left.
    ///
    /// The contract says which pair is lent, and nothing of the cursor and the map afterwards, also where that is none; that of `next_pair`
    /// says both.
    pub fn next(&mut self) -> Option<(&K, &mut V)>
        ensures pair { IfSome result (λ p.
            slice_get (range_left self.old) 0 ≡ Some (p.0.now, p.1.now)) }
        ensures none { IfNone result (range_left self.old ≡ []) }
    {
        if self.is_empty() {
            return None;
        }
        Some(self.next_pair())
    }

    /// Returns the key of the last pair that is left, and its value for writing, or `None` if no pair is left.
    ///
    /// The contract says which pair is lent, and nothing of the cursor and the map afterwards, also where that is none; that of `next_back_pair`
    /// says both.
    pub fn next_back(&mut self) -> Option<(&K, &mut V)>
        ensures pair { IfSome result (λ p.
            last_of (range_left self.old) ≡ Some (p.0.now, p.1.now)) }
        ensures none { IfNone result (range_left self.old ≡ []) }
    {
        if self.is_empty() {
            return None;
        }
        Some(self.next_back_pair())
    }
}
