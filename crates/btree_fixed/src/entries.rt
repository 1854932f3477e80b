//! Insertions by way of an entry.
ghost use Rattle.std.specs.Prelude.{◌≡◌, ◌↔◌, None, IfErr, IfOk, IsFalse, IsTrue, OnOk};
ghost use Rattle.btree_item.specs.Pairs.{found};
ghost use Rattle.btree_laws.specs.TreeState.{pairs_of};
ghost use Rattle.btree_ext.specs.Insert.{IsRefusedAtGap};
ghost use Rattle.btree_fixed.specs.Capacity.{HoldsAll, HoldsAtMost, InsertsByEntry, KeepsPresent, RefusesExactly, TakesFew};

use crate::{FixedMap, tell_held};
use btree_item::Refused;
use btree_map::{BTreeMap, Entry};
use btree_node::NodesMut;

// Inserts a pair whose key is not there, by `VacantEntry::insert`, over any store. Returns whether the key was not there.
fn insert_by_vacant<K: Ord + Drop, V: Drop, C: NodesMut<K, V>>(
    map: &mut BTreeMap<K, V, C>,
    key: K,
    value: V,
) -> Result<bool, Refused<K, V>>
    ensures new { IfOk result (λ new. IsTrue new ↔ (found K.cmp key (pairs_of map.old) ≡ None)) }
    ensures present { IfOk result (λ new. IsFalse new → pairs_of map.new ≡ pairs_of map.old) }
    ensures inserted { OnOk result (InsertsByEntry K.cmp key map.old map.new) }
    ensures returned { IfErr result (λ r. (r.key ≡ key) × (r.value ≡ value)) }
    ensures cause { IfErr result (λ r.
        IsRefusedAtGap K.cmp key map.old map.new C.MayRefuse r.cause) }
{
    match map.entry(key) {
        Entry::Vacant(entry) => match entry.insert(value) {
            Ok(lent) => {
                let _value: &V = lent;
                return Ok(true);
            }
            Err(refused) => return Err(refused),
        },
        Entry::Occupied(entry) => {
            // For the prover: what an entry leaves is told by the call that ends it.
            let _value: &V = entry.into_mut();
            return Ok(false);
        }
    }
}

/// Inserts a pair whose key is not there, by `VacantEntry::insert`. Returns whether the key was not there.
///
/// If the key is there, nothing changes, and the given pair is dropped.
pub fn insert_vacant<K: Ord + Drop, V: Drop, const N: usize>(
    map: &mut FixedMap<K, V, N>,
    key: K,
    value: V,
) -> Result<bool, Refused<K, V>>
    ensures exact { RefusesExactly K.cmp key map.old N result }
    ensures few { TakesFew map.old N result }
    ensures held { HoldsAtMost N map.new.nodes }

    ensures new { IfOk result (λ new. IsTrue new ↔ (found K.cmp key (pairs_of map.old) ≡ None)) }
    ensures present { IfOk result (λ new. IsFalse new → pairs_of map.new ≡ pairs_of map.old) }
    ensures inserted { OnOk result (InsertsByEntry K.cmp key map.old map.new) }
    ensures returned { IfErr result (λ r. (r.key ≡ key) × (r.value ≡ value)) }
    ensures cause { IfErr result (λ r.
        IsRefusedAtGap K.cmp key map.old map.new (HoldsAll N) r.cause) }
{
    let result = insert_by_vacant(map, key, value);
    tell_held(map);
    result
}

// Inserts a value at a key that is not there, by `Entry::or_insert`, over any store.
fn insert_by_entry<K: Ord + Drop, V: Drop, C: NodesMut<K, V>>(
    map: &mut BTreeMap<K, V, C>,
    key: K,
    default: V,
) -> Result<(), Refused<K, V>>
    ensures inserted { OnOk result (InsertsByEntry K.cmp key map.old map.new) }
    ensures present { OnOk result (KeepsPresent K.cmp key map.old map.new) }
    ensures returned { IfErr result (λ r. (r.key ≡ key) × (r.value ≡ default)) }
    ensures cause { IfErr result (λ r.
        IsRefusedAtGap K.cmp key map.old map.new C.MayRefuse r.cause) }
{
    match map.entry(key).or_insert(default) {
        Ok(lent) => {
            let _value: &V = lent;
            return Ok(());
        }
        Err(refused) => return Err(refused),
    }
}

/// Inserts a value at a key that is not there, by `Entry::or_insert`. If the key is there, the map stays as it is, and the value is dropped.
///
/// `or_insert_with`, `or_insert_with_key` and `or_default` have the same clause on the map, `entry_lends`, from which `entry-inserts` and
/// `entry-refused` lead to the law that this function cites.
pub fn or_insert<K: Ord + Drop, V: Drop, const N: usize>(
    map: &mut FixedMap<K, V, N>,
    key: K,
    default: V,
) -> Result<(), Refused<K, V>>
    ensures exact { RefusesExactly K.cmp key map.old N result }
    ensures few { TakesFew map.old N result }
    ensures held { HoldsAtMost N map.new.nodes }

    ensures inserted { OnOk result (InsertsByEntry K.cmp key map.old map.new) }
    ensures present { OnOk result (KeepsPresent K.cmp key map.old map.new) }
    ensures returned { IfErr result (λ r. (r.key ≡ key) × (r.value ≡ default)) }
    ensures cause { IfErr result (λ r.
        IsRefusedAtGap K.cmp key map.old map.new (HoldsAll N) r.cause) }
{
    let result = insert_by_entry(map, key, default);
    tell_held(map);
    result
}
