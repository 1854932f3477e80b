//! Comparison of maps, also over different stores, and their hash.
ghost use Rattle.std.specs.Prelude.{◌≡◌, ◌++◌};
ghost use Rattle.std.specs.List.{fold};
ghost use Rattle.std.specs.Cmp.Lexicographic.{pointwise, slice_cmp, slice_partial_cmp};
ghost use Rattle.btree_map.specs.Comparison.{hash_writes, pair_cmp, pair_eq, pair_partial_cmp};
ghost use Rattle.btree_map.specs.Lists.{read_pair};

mod traits;

use btree_node::NodesMut;
use btree_walk::Iter;
use std::cmp::Ordering;
use std::hash::{Hash, Hasher};

fn is_same_pair<K: PartialEq, V: PartialEq>(left: (&K, &V), right: (&K, &V)) -> bool
    ensures { result ≡ pair_eq K.eq V.eq
        (read_pair left.entry) (read_pair right.entry) }
{
    left.0.eq(right.0) && left.1.eq(right.1)
}

fn compare_pairs<K: Ord, V: Ord>(left: (&K, &V), right: (&K, &V)) -> Ordering
    ensures { result ≡ pair_cmp K.cmp V.cmp
        (read_pair left.entry) (read_pair right.entry) }
{
    match left.0.cmp(right.0) {
        Ordering::Equal => left.1.cmp(right.1),
        Ordering::Less => Ordering::Less,
        Ordering::Greater => Ordering::Greater,
    }
}

fn partial_compare_pairs<K: PartialOrd, V: PartialOrd>(
    left: (&K, &V),
    right: (&K, &V),
) -> Option<Ordering>
    ensures { result ≡ pair_partial_cmp K.partial_cmp V.partial_cmp
        (read_pair left.entry) (read_pair right.entry) }
{
    match left.0.partial_cmp(right.0) {
        Some(found) => match found {
            Ordering::Equal => left.1.partial_cmp(right.1),
            Ordering::Less => Some(Ordering::Less),
            Ordering::Greater => Some(Ordering::Greater),
        },
        None => None,
    }
}

/// Returns whether two iterators yield equal pairs, and equally many.
pub(crate) fn is_same<'a, K: Ord + 'a, V: PartialEq + 'a, C: NodesMut<K, V>, D: NodesMut<K, V>>(
    left: Iter<'a, K, V, C>,
    right: Iter<'a, K, V, D>,
) -> bool
    ensures { result ≡ pointwise (pair_eq K.eq V.eq) left.entry right.entry }
{
    let mut left = left;
    let mut right = right;
    while let Some(pair) = left.next() {
        let Some(other) = right.next() else {
            return false;
        };
        if !is_same_pair(pair, other) {
            return false;
        }
    }
    right.next().is_none()
}

/// Compares the pairs of two iterators lexicographically.
pub(crate) fn lexicographic_cmp<'a, K: Ord + 'a, V: Ord + 'a, C: NodesMut<K, V>, D: NodesMut<K, V>>(
    left: Iter<'a, K, V, C>,
    right: Iter<'a, K, V, D>,
) -> Ordering
    ensures { result ≡ slice_cmp (pair_cmp K.cmp V.cmp) left.entry right.entry }
{
    let mut left = left;
    let mut right = right;
    while let Some(pair) = left.next() {
        let Some(other) = right.next() else {
            return Ordering::Greater;
        };
        match compare_pairs(pair, other) {
            Ordering::Equal => {}
            Ordering::Less => return Ordering::Less,
            Ordering::Greater => return Ordering::Greater,
        }
    }
    match right.next() {
        Some(_) => Ordering::Less,
        None => Ordering::Equal,
    }
}

/// Does the same for values whose order is partial.
pub(crate) fn lexicographic_partial_cmp<
    'a,
    K: Ord + 'a,
    V: PartialOrd + 'a,
    C: NodesMut<K, V>,
    D: NodesMut<K, V>,
>(left: Iter<'a, K, V, C>, right: Iter<'a, K, V, D>) -> Option<Ordering>
    ensures { result ≡ slice_partial_cmp (pair_partial_cmp K.partial_cmp V.partial_cmp)
        left.entry right.entry }
{
    let mut left = left;
    let mut right = right;
    while let Some(pair) = left.next() {
        let Some(other) = right.next() else {
            return Some(Ordering::Greater);
        };
        match partial_compare_pairs(pair, other) {
            Some(found) => match found {
                Ordering::Equal => {}
                Ordering::Less => return Some(Ordering::Less),
                Ordering::Greater => return Some(Ordering::Greater),
            },
            None => return None,
        }
    }
    match right.next() {
        Some(_) => Some(Ordering::Less),
        None => Some(Ordering::Equal),
    }
}

/// Feeds the keys and values of an iterator to a hasher, in order, and nothing else.
pub(crate) fn feed<'a, K: Ord + Hash + 'a, V: Hash + 'a, C: NodesMut<K, V>, H: Hasher>(
    pairs: Iter<'a, K, V, C>,
    state: &mut H,
)
    ensures { state.new ≡ fold H.write state.old (hash_writes K.hash_input V.hash_input pairs.entry) }
{
    let mut rest = pairs;
    while let Some((key, value)) = rest.next() {
        key.hash(state);
        value.hash(state);
    }
}
