//! Insertions and updates by key.
ghost use Rattle.std.specs.Prelude.{◌≡◌, None, IfErr, IfOk, OnErr, OnOk};
ghost use Rattle.btree_item.specs.Pairs.{found, found_value, inserted};
ghost use Rattle.btree_laws.specs.TreeState.{IsUsed, pairs_of};
ghost use Rattle.btree_find.specs.Fits.{FitsIn};
ghost use Rattle.btree_ext.specs.Insert.{IsRefusedAtGap};
ghost use Rattle.btree_ext.specs.Replace.{replaced};
ghost use Rattle.btree_ext.specs.Update.{RunsByKey};
ghost use Rattle.btree_fixed.specs.Capacity.{HoldsAll, HoldsAtMost, RefusesExactly, TakesFew};

use crate::{FixedMap, tell_held};
use btree_ext::BTreeExtMut;
use btree_item::{Refused, UpdateRefused};

/// Inserts a pair, as `BTreeMap::insert` does.
pub fn insert<K: Ord + Drop, V: Drop, const N: usize>(
    map: &mut FixedMap<K, V, N>,
    key: K,
    value: V,
) -> Result<Option<V>, Refused<K, V>>
    ensures exact { RefusesExactly K.cmp key map.old N result }
    ensures few { TakesFew map.old N result }
    ensures held { HoldsAtMost N map.new.nodes }

    ensures old { IfOk result (λ old. old ≡ found_value K.cmp key (pairs_of map.old)) }
    ensures inserted { OnOk result (pairs_of map.new ≡ inserted K.cmp key value (pairs_of map.old)) }
    ensures uncounted { OnOk result (map.new.kept ≡ map.old.kept) }
    ensures returned { IfErr result (λ r. (r.key ≡ key) × (r.value ≡ value)) }
    ensures absent { OnErr result (found K.cmp key (pairs_of map.old) ≡ None) }
    ensures cause { IfErr result (λ r.
        IsRefusedAtGap K.cmp key map.old map.new (HoldsAll N) r.cause) }
{
    let result = map.insert(key, value);
    tell_held(map);
    result
}

/// Inserts a pair, or replaces key and value if an equal key is there, as `BTreeMap::replace` does.
pub fn replace<K: Ord + Drop, V: Drop, const N: usize>(
    map: &mut FixedMap<K, V, N>,
    key: K,
    value: V,
) -> Result<Option<(K, V)>, Refused<K, V>>
    ensures exact { RefusesExactly K.cmp key map.old N result }
    ensures few { TakesFew map.old N result }
    ensures held { HoldsAtMost N map.new.nodes }

    ensures old { IfOk result (λ old. old ≡ found K.cmp key (pairs_of map.old)) }
    ensures replaced { OnOk result (pairs_of map.new ≡ replaced K.cmp key value (pairs_of map.old)) }
    ensures uncounted { OnOk result (map.new.kept ≡ map.old.kept) }
    ensures returned { IfErr result (λ r. (r.key ≡ key) × (r.value ≡ value)) }
    ensures absent { OnErr result (found K.cmp key (pairs_of map.old) ≡ None) }
    ensures cause { IfErr result (λ r.
        IsRefusedAtGap K.cmp key map.old map.new (HoldsAll N) r.cause) }
{
    let result = map.replace(key, value);
    tell_held(map);
    result
}

/// Calls `action` with the value at a key, or with `None` if the key is not there, and stores what it gives, as `BTreeMap::update` does.
/// For an absent key it is refused even if the action would give no value.
pub fn update<K: Ord + Drop, V: Drop, T, F: FnOnce(Option<V>) -> (Option<V>, T), const N: usize>(
    map: &mut FixedMap<K, V, N>,
    key: K,
    action: F,
) -> Result<T, UpdateRefused<K, F>>
    requires callable { F.pre action (found_value K.cmp key (pairs_of map.old)) }
    ensures exact { RefusesExactly K.cmp key map.old N result }
    ensures few { TakesFew map.old N result }
    ensures held { HoldsAtMost N map.new.nodes }

    ensures updated { IfOk result (λ t. RunsByKey K.cmp map.old map.new (F.post action) key t) }
    ensures uncounted { OnOk result (map.new.kept ≡ map.old.kept) }
    ensures returned { IfErr result (λ r. (r.key ≡ key) × (r.action ≡ action)) }
    ensures absent { OnErr result (found K.cmp key (pairs_of map.old) ≡ None) }
    ensures cause { IfErr result (λ r.
        IsRefusedAtGap K.cmp key map.old map.new (HoldsAll N) r.cause) }
{
    let result = map.update(key, action);
    tell_held(map);
    result
}

/// Does the same as `update`, and searches from a node down, as `BTreeExtMut::update_in` does. The node must be in use, and the key must
/// lie strictly between its separators: `has_node` and `key_fits_in` decide that.
pub fn update_in<K: Ord + Drop, V: Drop, T, F: FnOnce(Option<V>) -> (Option<V>, T), const N: usize>(
    map: &mut FixedMap<K, V, N>,
    id: usize,
    key: K,
    action: F,
) -> Result<T, UpdateRefused<K, F>>
    requires used { IsUsed map.old id }
    requires fits { FitsIn K.cmp key map.old id }
    requires callable { F.pre action (found_value K.cmp key (pairs_of map.old)) }
    ensures exact { RefusesExactly K.cmp key map.old N result }
    ensures few { TakesFew map.old N result }
    ensures held { HoldsAtMost N map.new.nodes }

    ensures updated { IfOk result (λ t. RunsByKey K.cmp map.old map.new (F.post action) key t) }
    ensures uncounted { OnOk result (map.new.kept ≡ map.old.kept) }
    ensures returned { IfErr result (λ r. (r.key ≡ key) × (r.action ≡ action)) }
    ensures absent { OnErr result (found K.cmp key (pairs_of map.old) ≡ None) }
    ensures cause { IfErr result (λ r.
        IsRefusedAtGap K.cmp key map.old map.new (HoldsAll N) r.cause) }
{
    let result = map.update_in(id, key, action);
    tell_held(map);
    result
}
