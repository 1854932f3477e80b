//! A change of a value that is there.
ghost use Rattle.std.specs.Prelude.{◌≡◌, Some};
ghost use Rattle.std.specs.Borrow.{MutBor};
ghost use Rattle.std.specs.Map.Calls.{ModifiesValue};
ghost use Rattle.btree_map.specs.Entry.{ModifiesEntry, asked_key, entry_search, entry_map, entry_value, list_with_value};

use super::Entry;
use btree_node::NodesMut;

impl<'a, K: Ord + Drop, V: Drop, C: NodesMut<K, V>> Entry<'a, K, V, C> {
    /// Calls `change` with the value if the key is there, and returns the entry. The stored key stays, and so does every address.
    pub fn and_modify<F: FnOnce(&mut V)>(self, change: F) -> Entry<'a, K, V, C>
        requires { (p : MutBor V) → entry_value self ≡ Some p.now → F.pre change p }
        ensures same_map { (entry_map result).ghost_name ≡ (entry_map self.entry).ghost_name }
        ensures search { entry_search result ≡ entry_search self.entry }
        ensures asked { asked_key result ≡ asked_key self.entry }
        ensures value { ModifiesValue F.FnOnce change (entry_value self.entry) (entry_value result) }
        ensures map { ModifiesEntry self.entry (entry_map result).now (entry_value result) }
        ensures writes { (w : V) → list_with_value result w ≡ list_with_value self.entry w }
    {
        match self {
            Entry::Vacant(entry) => Entry::Vacant(entry),
            Entry::Occupied(mut entry) => {
                change(entry.get_mut());
                Entry::Occupied(entry)
            }
        }
    }
}
