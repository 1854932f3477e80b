//! Insertions at an address, and by a cursor.
ghost use Rattle.std.specs.Prelude.{◌≡◌, IfErr, IfOk, IsSome, OnErr, OnOk};
ghost use Rattle.btree_laws.specs.TreeState.{IsLeafAddressIn, IsValidIn, pairs_of};
ghost use Rattle.btree_find.specs.Fits.{FitsAt};
ghost use Rattle.btree_ext.specs.InsertAt.{InsertsAt, IsRefusedAt};
ghost use Rattle.btree_walk.specs.Bounds.{bound_key};
ghost use Rattle.btree_fixed.specs.Capacity.{HoldsAll, HoldsAtMost, RefusesExactlyAt, TakesFew};
ghost use Rattle.btree_fixed.specs.From.{FitsFrom, InsertsFrom, IsRefusedFrom, RefusesExactlyFrom};

use crate::{FixedMap, tell_held};
use btree_ext::{BTreeExt, BTreeExtMut};
use btree_item::{Address, Item, Refused};
use std::ops::Bound;

/// Inserts a pair at the place of an address, as `BTreeExtMut::insert_at` does, and returns the address of the pair.
///
/// The address must be valid and not at -1, and the key must fit at its place: `is_valid` and `fits_at` decide that.
pub fn insert_at<K: Ord + Drop, V: Drop, const N: usize>(
    map: &mut FixedMap<K, V, N>,
    addr: Address,
    item: Item<K, V>,
) -> Result<Address, Refused<K, V>>
    requires valid { IsValidIn map.old addr }
    requires back { IsSome addr.offset }
    requires fits { FitsAt K.cmp item.0 map.old addr }
    ensures exact { RefusesExactlyAt map.old addr N result }
    ensures few { TakesFew map.old N result }
    ensures held { HoldsAtMost N map.new.nodes }

    ensures inserted { IfOk result (λ b. InsertsAt map.old map.new addr K.cmp b item) }
    ensures returned { IfErr result (λ r. (r.key, r.value) ≡ item) }
    ensures refused { IfErr result (λ r. IsRefusedAt map.old map.new addr (HoldsAll N) r.cause) }
{
    let result = map.insert_at(addr, item);
    tell_held(map);
    result
}

/// Inserts a pair at an address in a leaf, or nowhere in the empty map, as `BTreeExtMut::insert_exactly_at` does, and returns the address
/// of the pair.
///
/// The address must be valid and not at -1, and the key must fit at its place: `is_valid` and `fits_at` decide that.
pub fn insert_exactly_at<K: Ord + Drop, V: Drop, const N: usize>(
    map: &mut FixedMap<K, V, N>,
    addr: Address,
    item: Item<K, V>,
) -> Result<Address, Refused<K, V>>
    requires valid { IsValidIn map.old addr }
    requires back { IsSome addr.offset }
    requires leaf { IsLeafAddressIn map.old addr }
    requires fits { FitsAt K.cmp item.0 map.old addr }
    ensures exact { RefusesExactlyAt map.old addr N result }
    ensures few { TakesFew map.old N result }
    ensures held { HoldsAtMost N map.new.nodes }

    ensures inserted { IfOk result (λ b. InsertsAt map.old map.new addr K.cmp b item) }
    ensures returned { IfErr result (λ r. (r.key, r.value) ≡ item) }
    ensures refused { IfErr result (λ r. IsRefusedAt map.old map.new addr (HoldsAll N) r.cause) }
{
    let result = map.insert_exactly_at(addr, item);
    tell_held(map);
    result
}

/// Inserts a pair at any place, by `EntriesMut::insert` of a cursor that starts at a bound, as `entries_mut_from` gives it.
///
/// The key must lie between the pairs that the bound leaves out and the others; `EntriesMut::fits` decides that.
pub fn insert_from<K: Ord + Drop, V: Drop, const N: usize>(
    map: &mut FixedMap<K, V, N>,
    start: Bound<&K>,
    key: K,
    value: V,
) -> Result<(), Refused<K, V>>
    requires { FitsFrom K.cmp (bound_key start) map.old key }
    ensures exact { RefusesExactlyFrom K.cmp (bound_key start.entry) map.old N result }
    ensures few { TakesFew map.old N result }
    ensures held { HoldsAtMost N map.new.nodes }

    ensures inserted { OnOk result
        (InsertsFrom K.cmp (bound_key start.entry) map.old key value map.new) }
    ensures returned { IfErr result (λ r. (r.key ≡ key) × (r.value ≡ value)) }
    ensures refused { IfErr result (λ r.
        IsRefusedFrom K.cmp (bound_key start.entry) map.old map.new N r.cause) }
    ensures kept { OnErr result (pairs_of map.new ≡ pairs_of map.old) }
{
    map.tell_well_formed();
    let mut entries = map.entries_mut_from(start);
    let result = entries.insert(key, value);
    tell_held(map);
    result
}
