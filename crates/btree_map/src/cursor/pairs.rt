//! The steps of a cursor over pairs.
ghost use Rattle.std.specs.Prelude.{◌≡◌, ◌-◌, ◌<◌, ℕ, [], Some, IfSome, IfNone, length, slice_get};
ghost use Rattle.std.specs.Borrow.{sem};
ghost use Rattle.btree_laws.specs.TreeAddresses.{item_addresses_of};
ghost use Rattle.btree_laws.specs.TreeState.{IsBTree, IsOccupiedIn};
ghost use Rattle.btree_map.specs.Cursor.{WritesFirst, WritesLast, pairs_left};
ghost use Rattle.btree_map.specs.CursorLent.{lends_back, lends_front};
ghost use Rattle.btree_map.specs.Lists.{IsAddressAfter, IsAddressBefore, LendsPairAt, last_of};

use crate::BTreeMap;
use crate::cursor::IterMut;
use btree_ext::{BTreeExt, BTreeExtMut};
use btree_item::Address;
use btree_node::NodesMut;

/// Returns the address of the item after the one at an address.
pub(crate) fn address_after<K: Ord, V, C: NodesMut<K, V>>(
    map: &BTreeMap<K, V, C>,
    addr: Address,
) -> Option<Address>
    requires { (place : ℕ) × (slice_get (item_addresses_of map.now) place ≡ Some addr) }
    ensures tree { IsBTree K.cmp map.now }
    ensures occupied { IsOccupiedIn map.now addr }
    ensures after { IsAddressAfter map.now addr result }
{
    map.tell_well_formed();
    map.next_item_address(addr)
}

/// Returns the address of the item before the one at an address.
pub(crate) fn address_before<K: Ord, V, C: NodesMut<K, V>>(
    map: &BTreeMap<K, V, C>,
    addr: Address,
) -> Option<Address>
    requires { (place : ℕ) × (slice_get (item_addresses_of map.now) place ≡ Some addr) }
    ensures tree { IsBTree K.cmp map.now }
    ensures occupied { IsOccupiedIn map.now addr }
    ensures before { IsAddressBefore map.now addr result }
{
    map.tell_well_formed();
    map.previous_item_address(addr)
}

impl<'a, K: Ord, V, C: NodesMut<K, V>> IterMut<'a, K, V, C> {
    /// Returns how many pairs are left.
    pub fn len(&self) -> usize
        ensures value { result ≡ self.now.back - self.now.front }
        ensures left { result ≡ length (pairs_left self.now) }
    {
        self.back.saturating_sub(self.front)
    }

    /// Returns how many pairs are left, as both bounds.
    pub fn size_hint(&self) -> (usize, Option<usize>)
        ensures value { result ≡
            (self.now.back - self.now.front, Some (self.now.back - self.now.front)) }
        ensures left { result ≡ (length (pairs_left self.now), Some (length (pairs_left self.now))) }
    {
        let left = self.len();
        (left, Some(left))
    }
}

impl<'a, K: Ord + Drop, V: Drop, C: NodesMut<K, V>> IterMut<'a, K, V, C> {
    /// Returns the key of the first pair that is left, and its value for writing. What is written replaces the value, and nothing else
    /// changes: the key stays, and so does every address.
    ///
    /// A pair must be left: `len` decides that. `next` returns `None` if there is none.
    pub fn next_pair(&mut self) -> (&K, &mut V)
        requires { self.old.front < self.old.back }
        ensures* writes_back { sem 𝓛 (lends_front
            K.row V.row C.row C.Origin.row self.entry result.1) }
        ensures pair { LendsPairAt self.old.map.now self.old.front result }
        ensures writes { (w : V) → WritesFirst self.old result.0.now result.1.now w }
    {
        let Some(at) = self.first else {
            unreachable!();
        };
        self.first = address_after(self.map, at);
        self.front += 1;
        self.map.pair_mut(at)
    }

    /// Returns the key of the last pair that is left, and its value for writing, as `next_pair` does of the first one.
    pub fn next_back_pair(&mut self) -> (&K, &mut V)
        requires { self.old.front < self.old.back }
        ensures* writes_back { sem 𝓛 (lends_back
            K.row V.row C.row C.Origin.row self.entry result.1) }
        ensures pair { LendsPairAt self.old.map.now (self.old.back - 1) result }
        ensures writes { (w : V) → WritesLast self.old result.0.now result.1.now w }
    {
        let Some(at) = self.last else {
            unreachable!();
        };
        self.last = address_before(self.map, at);
        self.back -= 1;
        self.map.pair_mut(at)
    }

    /// Returns the key of the first pair that is left, and its value for writing, or `None` if no pair is left.
    ///
    /// The contract says which pair is lent, and nothing of the cursor and the map afterwards, also where that is none; that of `next_pair`
    /// says both.
    pub fn next(&mut self) -> Option<(&K, &mut V)>
        ensures pair { IfSome result (λ p.
            slice_get (pairs_left self.old) 0 ≡ Some (p.0.now, p.1.now)) }
        ensures none { IfNone result (pairs_left self.old ≡ []) }
    {
        if self.len() == 0 {
            return None;
        }
        Some(self.next_pair())
    }

    /// Returns the key of the last pair that is left, and its value for writing, or `None` if no pair is left.
    ///
    /// The contract says which pair is lent, and nothing of the cursor and the map afterwards, also where that is none; that of `next_back_pair`
    /// says both.
    pub fn next_back(&mut self) -> Option<(&K, &mut V)>
        ensures pair { IfSome result (λ p.
            last_of (pairs_left self.old) ≡ Some (p.0.now, p.1.now)) }
        ensures none { IfNone result (pairs_left self.old ≡ []) }
    {
        if self.len() == 0 {
            return None;
        }
        Some(self.next_back_pair())
    }
}
