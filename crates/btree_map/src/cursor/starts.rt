//! Where a cursor starts.
ghost use Rattle.std.specs.Prelude.{◌≡◌, length};
ghost use Rattle.std.specs.Map.{values_of};
ghost use Rattle.btree_laws.specs.TreeState.{pairs_of};
ghost use Rattle.btree_map.specs.Cursor.{pairs_left, values_left};

use crate::BTreeMap;
use crate::cursor::{IterMut, ValuesMut};
use btree_ext::BTreeExt;
use btree_node::NodesMut;

impl<K: Ord, V, C: NodesMut<K, V>> BTreeMap<K, V, C> {
    /// Returns a cursor over all pairs, which lends their values for writing. It reads two nodes of each level.
    pub fn iter_mut(&mut self) -> IterMut<'_, K, V, C>
        ensures same_map { result.map.ghost_name ≡ self.entry.ghost_name }
        ensures unchanged { result.map.now ≡ self.old }
        ensures front { result.front ≡ 0 }
        ensures back { result.back ≡ length (pairs_of self.old) }
        ensures left { pairs_left result ≡ pairs_of self.old }
    {
        let first = self.first_item_address();
        let last = self.last_item_address();
        let back = self.len();
        IterMut {
            map: self,
            first,
            last,
            front: 0,
            back,
        }
    }

    /// Returns a cursor over all values, which lends them for writing. It reads two nodes of each level.
    pub fn values_mut(&mut self) -> ValuesMut<'_, K, V, C>
        ensures same_map { result.map.ghost_name ≡ self.entry.ghost_name }
        ensures unchanged { result.map.now ≡ self.old }
        ensures front { result.front ≡ 0 }
        ensures back { result.back ≡ length (pairs_of self.old) }
        ensures left { values_left result ≡ values_of (pairs_of self.old) }
    {
        let IterMut {
            map,
            first,
            last,
            front,
            back,
        } = self.iter_mut();
        let _ = last;
        ValuesMut {
            map,
            first,
            front,
            back,
        }
    }
}
