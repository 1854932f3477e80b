//! Calls that need no node, below the limit, over any store: they are not refused.
ghost use Rattle.std.specs.Prelude.{◌≡◌, IsSome};
ghost use Rattle.btree_item.specs.Pairs.{found_value, inserted};
ghost use Rattle.btree_laws.specs.TreeState.{IsValidIn, pairs_of};
ghost use Rattle.btree_raw.specs.Limit.{IsBelowLimit};
ghost use Rattle.btree_find.specs.Fits.{FitsAt};
ghost use Rattle.btree_ext.specs.InsertAt.{InsertsAt};
ghost use Rattle.btree_ext.specs.Update.{RunsByKey};
ghost use Rattle.btree_fixed.specs.Capacity.{NeedsNoNode, NeedsNoNodeAt};

use btree_ext::BTreeExtMut;
use btree_item::{Address, Item};
use btree_map::BTreeMap;
use btree_node::NodesMut;

/// Inserts a pair where that needs no node, by `BTreeMap::insert`: the key is there, or its gap is in a leaf with room. Returns the old
/// value, if there was one.
pub fn insert_with_room<K: Ord + Drop, V: Drop, C: NodesMut<K, V>>(
    map: &mut BTreeMap<K, V, C>,
    key: K,
    value: V,
) -> Option<V>
    requires none { NeedsNoNode K.cmp key map.old }
    requires below_limit { IsBelowLimit map.old }
    ensures old { result ≡ found_value K.cmp key (pairs_of map.old) }
    ensures inserted { pairs_of map.new ≡ inserted K.cmp key value (pairs_of map.old) }
{
    match map.insert(key, value) {
        Ok(old) => old,
        Err(_) => unreachable!(),
    }
}

/// Updates a key where that needs no node, by `BTreeMap::update`, and returns the answer of the action.
pub fn update_with_room<
    K: Ord + Drop,
    V: Drop,
    C: NodesMut<K, V>,
    T,
    F: FnOnce(Option<V>) -> (Option<V>, T),
>(map: &mut BTreeMap<K, V, C>, key: K, action: F) -> T
    requires none { NeedsNoNode K.cmp key map.old }
    requires below_limit { IsBelowLimit map.old }
    requires callable { F.pre action (found_value K.cmp key (pairs_of map.old)) }
    ensures { RunsByKey K.cmp map.old map.new (F.post action) key result }
{
    match map.update(key, action) {
        Ok(answer) => answer,
        Err(_) => unreachable!(),
    }
}

/// Inserts a pair at an address whose leaf has room, by `insert_at`, and returns the address of the pair.
pub fn insert_at_with_room<K: Ord + Drop, V: Drop, C: NodesMut<K, V>>(
    map: &mut BTreeMap<K, V, C>,
    addr: Address,
    item: Item<K, V>,
) -> Address
    requires valid { IsValidIn map.old addr }
    requires back { IsSome addr.offset }
    requires fits { FitsAt K.cmp item.0 map.old addr }
    requires none { NeedsNoNodeAt map.old addr }
    requires below_limit { IsBelowLimit map.old }
    ensures { InsertsAt map.old map.new addr K.cmp result item }
{
    match map.insert_at(addr, item) {
        Ok(at) => at,
        Err(_) => unreachable!(),
    }
}
