//! Calls at a key that is there, over any store: they need no node, and are not refused.
ghost use Rattle.std.specs.Prelude.{◌≡◌, IsSome, Some};
ghost use Rattle.btree_item.specs.Pairs.{found, found_value, inserted};
ghost use Rattle.btree_laws.specs.TreeState.{pairs_of};
ghost use Rattle.btree_ext.specs.Replace.{replaced};
ghost use Rattle.btree_ext.specs.Update.{RunsByKey};

use btree_map::BTreeMap;
use btree_node::NodesMut;

/// Replaces the value at a key that is there, by `BTreeMap::insert`, and returns the old one.
pub fn insert_present<K: Ord + Drop, V: Drop, C: NodesMut<K, V>>(
    map: &mut BTreeMap<K, V, C>,
    key: K,
    value: V,
) -> V
    requires present { IsSome (found K.cmp key (pairs_of map.old)) }
    ensures old { found_value K.cmp key (pairs_of map.old) ≡ Some result }
    ensures inserted { pairs_of map.new ≡ inserted K.cmp key value (pairs_of map.old) }
{
    match map.insert(key, value) {
        Ok(Some(old)) => old,
        _ => unreachable!(),
    }
}

/// Replaces a key that is there with its value, by `BTreeMap::replace`, and returns the old pair.
pub fn replace_present<K: Ord + Drop, V: Drop, C: NodesMut<K, V>>(
    map: &mut BTreeMap<K, V, C>,
    key: K,
    value: V,
) -> (K, V)
    requires present { IsSome (found K.cmp key (pairs_of map.old)) }
    ensures old { found K.cmp key (pairs_of map.old) ≡ Some result }
    ensures replaced { pairs_of map.new ≡ replaced K.cmp key value (pairs_of map.old) }
{
    match map.replace(key, value) {
        Ok(Some(old)) => old,
        _ => unreachable!(),
    }
}

/// Calls `action` with the value at a key that is there, by `BTreeMap::update`, and returns its answer.
pub fn update_present<
    K: Ord + Drop,
    V: Drop,
    C: NodesMut<K, V>,
    T,
    F: FnOnce(Option<V>) -> (Option<V>, T),
>(map: &mut BTreeMap<K, V, C>, key: K, action: F) -> T
    requires present { IsSome (found K.cmp key (pairs_of map.old)) }
    requires callable { F.pre action (found_value K.cmp key (pairs_of map.old)) }
    ensures { RunsByKey K.cmp map.old map.new (F.post action) key result }
{
    match map.update(key, action) {
        Ok(answer) => answer,
        Err(_) => unreachable!(),
    }
}
