//! A cache of a bounded number of pairs: where it is full, the pair with the least key goes.
ghost use Rattle.std.specs.Prelude.{◌≡◌, ◌≤◌, IfOk, IsSome, None, length};
ghost use Rattle.example_maps.specs.Cache.{without_first_if};
ghost use Rattle.btree_slab.specs.Pairs.{found, inserted};
ghost use Rattle.btree_slab.specs.TreeState.{pairs_of};

use btree_slab::generic::map::{BTreeMap, Cause, Refused};
use btree_slab::store::NodesMut;

/// Puts a pair into a cache, or replaces the value of an equal key. If the cache has as many pairs as its limit allows, the one with the least
/// key is taken out first, and returned.
///
/// A cache over a table of N nodes with the limit 3N is never refused a node. Over another store a pair that was taken out is gone if the
/// insertion is refused a node afterwards.
pub fn put<K: Ord + Drop, V: Drop, C: NodesMut<K, V>>(
    cache: &mut BTreeMap<K, V, C>,
    key: K,
    value: V,
) -> Result<Option<(K, V)>, Refused<K, V>>
    ensures put { IfOk result (λ gone. pairs_of cache.new ≡
        inserted K.cmp key value (without_first_if gone (pairs_of cache.old))) }
    ensures full { IfOk result (λ gone. IsSome gone → cache.old.kept.limit ≤ length (pairs_of cache.old)) }
    ensures absent { IfOk result (λ gone. IsSome gone → found K.cmp key (pairs_of cache.old) ≡ None) }
{
    match cache.insert(key, value) {
        Ok(_replaced) => Ok(None),
        Err(refused) => {
            if refused.cause == Cause::Store {
                return Err(refused);
            }
            let gone = cache.pop_first();
            cache.insert(refused.key, refused.value)?;
            Ok(gone)
        }
    }
}
