//! The steps of a cursor over values.
ghost use Rattle.std.specs.Prelude.{◌≡◌, ◌-◌, ◌<◌, [], Some, IfSome, IfNone, length, slice_get};
ghost use Rattle.std.specs.Borrow.{sem};
ghost use Rattle.btree_map.specs.Cursor.{WritesFirstValue, values_left};
ghost use Rattle.btree_map.specs.CursorLent.{lends_first_value, lends_next_value};

use crate::cursor::ValuesMut;
use crate::cursor::pairs::address_after;
use btree_ext::BTreeExtMut;
use btree_item::Address;
use btree_node::NodesMut;

impl<'a, K: Ord, V, C: NodesMut<K, V>> ValuesMut<'a, K, V, C> {
    /// Returns how many values are left.
    pub fn len(&self) -> usize
        ensures value { result ≡ self.now.back - self.now.front }
        ensures left { result ≡ length (values_left self.now) }
    {
        self.back.saturating_sub(self.front)
    }

    /// Returns how many values are left, as both bounds.
    pub fn size_hint(&self) -> (usize, Option<usize>)
        ensures value { result ≡
            (self.now.back - self.now.front, Some (self.now.back - self.now.front)) }
        ensures left { result ≡ (length (values_left self.now), Some (length (values_left self.now))) }
    {
        let left = self.len();
        (left, Some(left))
    }
}

impl<'a, K: Ord + Drop, V: Drop, C: NodesMut<K, V>> ValuesMut<'a, K, V, C> {
    /// Returns the first value that is left for writing. What is written replaces the value, and nothing else changes: the keys stay, and so
    /// does every address.
    ///
    /// A value must be left: `len` decides that. `next` returns `None` if there is none.
    pub fn next_value(&mut self) -> &mut V
        requires { self.old.front < self.old.back }
        ensures* writes_back { sem 𝓛 (lends_first_value
            K.row V.row C.row C.Origin.row self.entry result) }
        ensures value { slice_get (values_left self.old) 0 ≡ Some result.now }
        ensures writes { (w : V) → WritesFirstValue self.old result.now w }
    {
        let Some(at) = self.first else {
            unreachable!();
        };
        self.first = address_after(self.map, at);
        self.front += 1;
        let (_key, value) = self.map.pair_mut(at);
        value
    }

    /// Returns the first value that is left for writing, as `next_value` does, or `None` if no value is left.
    pub fn next(&mut self) -> Option<&mut V>
        ensures* writes_back { sem 𝓛 (lends_next_value
            K.row V.row C.row C.Origin.row self.entry result) }
        ensures value { IfSome result (λ v. slice_get (values_left self.old) 0 ≡ Some v.now) }
        ensures writes { IfSome result (λ v. (w : V) → WritesFirstValue self.old v.now w) }
        ensures none { IfNone result (values_left self.old ≡ []) }
    {
        if self.len() == 0 {
            return None;
        }
        Some(self.next_value())
    }
}
