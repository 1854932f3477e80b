//! The pairs between two queries.
ghost use Rattle.std.specs.Prelude.{◌≡◌, ℕ, [], option_map, slice_get};
ghost use Rattle.std.specs.declared.cmp.Ordering.TheVariants.{Greater, Less};
ghost use Rattle.btree_item.specs.Pairs.{before};
ghost use Rattle.btree_laws.specs.TreeState.{IsValidIn, pairs_of};
ghost use Rattle.btree_laws.specs.Visits.{prior};
ghost use Rattle.btree_find.specs.Navigation.{HasPlace};
ghost use Rattle.btree_walk.specs.Bounds.{IsValidRange, pairs_between};
ghost use Rattle.btree_map.specs.Queries.{pairs_from_to};

use crate::BTreeMap;
use crate::keys::pair_at;
use btree_ext::{BTreeExt, Tree};
use btree_item::{Address, Query};
use btree_node::NodesMut;
use btree_walk::Range;
use std::ops::Bound;

/// The place before all keys, for a range by queries that begins at the first pair.
#[derive(Clone, Copy)]
pub struct BeforeAll;

impl<K: Ord> Query<K> for BeforeAll {
    ghost use Rattle.btree_map.specs.Queries.{all_above};

    ghost compare = { λ _ _. Greater };

    ghost cuts = { all_above };

    fn is_after(&self, key: &K) -> bool {
        let _key = key;
        false
    }

    fn is_at(&self, key: &K) -> bool {
        let _key = key;
        false
    }
}

/// The place after all keys, for a range by queries that ends at the last pair.
#[derive(Clone, Copy)]
pub struct AfterAll;

impl<K: Ord> Query<K> for AfterAll {
    ghost use Rattle.btree_map.specs.Queries.{all_below};

    ghost compare = { λ _ _. Less };

    ghost cuts = { all_below };

    fn is_after(&self, key: &K) -> bool {
        let _key = key;
        true
    }

    fn is_at(&self, key: &K) -> bool {
        let _key = key;
        false
    }
}

// Returns the address of the key that a query is equal to, or of the gap where it is.
fn address_near<K: Ord, Q: Query<K>, V, C: NodesMut<K, V>>(
    tree: &Tree<K, V, C>,
    query: &Q,
) -> Address
    ensures valid { IsValidIn tree.now result }
    ensures place { HasPlace tree.now result (before Q.compare query.now (pairs_of tree.now)) }
{
    match tree.address_by(query) {
        Ok(at) => at,
        Err(gap) => gap,
    }
}

// Returns the pair at the place of an address, if there is one.
fn pair_from<K: Ord, V, C: NodesMut<K, V>>(tree: &Tree<K, V, C>, addr: Address) -> Option<(&K, &V)>
    requires { IsValidIn tree.now addr }
    ensures { (place : ℕ) → HasPlace tree.now addr place →
        option_map (λ p. (p.0.now, p.1.now)) result ≡ slice_get (pairs_of tree.now) place }
{
    match tree.normalize(addr) {
        Some(at) => pair_at(tree, at),
        None => None,
    }
}

// Returns the pair before the place of an address, if there is one.
fn pair_before<K: Ord, V, C: NodesMut<K, V>>(
    tree: &Tree<K, V, C>,
    addr: Address,
) -> Option<(&K, &V)>
    requires { IsValidIn tree.now addr }
    ensures { (place : ℕ) → HasPlace tree.now addr place →
        option_map (λ p. (p.0.now, p.1.now)) result ≡ prior (pairs_of tree.now) place }
{
    match tree.previous_item_address(addr) {
        Some(at) => pair_at(tree, at),
        None => None,
    }
}

// Returns the bounds of a range in which no pair is.
fn no_bounds<'a, K: Ord + 'a, V: 'a, C: NodesMut<K, V> + 'a>(
    map: &'a BTreeMap<K, V, C>,
) -> (Bound<&'a K>, Bound<&'a K>)
    ensures valid { IsValidRange K.cmp result }
    ensures empty { pairs_between K.cmp result (pairs_of map.now) ≡ [] }
{
    match map.first_key_value() {
        Some((key, _)) => (Bound::Excluded(key), Bound::Included(key)),
        None => (Bound::Unbounded, Bound::Unbounded),
    }
}

// Returns the bounds of the pairs between two queries: the first key and the last one.
fn bounds_by<'a, K: Ord + 'a, Q: Query<K>, R: Query<K>, V: 'a, C: NodesMut<K, V> + 'a>(
    map: &'a BTreeMap<K, V, C>,
    start: &Q,
    end: &R,
) -> (Bound<&'a K>, Bound<&'a K>)
    ensures valid { IsValidRange K.cmp result }
    ensures between { pairs_between K.cmp result (pairs_of map.now)
        ≡ pairs_from_to Q.compare start.now R.compare end.now (pairs_of map.now) }
{
    map.tell_well_formed();
    let Some(first) = pair_from(&map.tree, address_near(&map.tree, start)) else {
        return no_bounds(map);
    };
    let Some(last) = pair_before(&map.tree, address_near(&map.tree, end)) else {
        return no_bounds(map);
    };
    if first.0.cmp(last.0).is_gt() {
        return no_bounds(map);
    }
    (Bound::Included(first.0), Bound::Included(last.0))
}

impl<K: Ord, V, C: NodesMut<K, V>> BTreeMap<K, V, C> {
    /// Returns an iterator over the pairs whose keys are not below one query and are below another, from both ends. If the queries are in the
    /// other order, there are none. So the entries `(a, _)` of a first part are those from `BeforeFirst(&a)` to `AfterFirst(&a)`. `BeforeAll`
    /// and `AfterAll` are the ends of the map.
    ///
    /// It searches four times: for both queries, and then, as `range` does, for the first key and the last one.
    pub fn range_by<Q: Query<K>, R: Query<K>>(&self, start: &Q, end: &R) -> Range<'_, K, V, C>
        ensures { result ≡ pairs_from_to Q.compare start.now R.compare end.now (pairs_of self.now) }
    {
        self.range(bounds_by(self, start, end))
    }
}
