//! Equality, order and hash of maps: those of their lists of pairs.
ghost use Rattle.std.specs.Prelude.{◌≡◌};
ghost use Rattle.std.specs.Cmp.{and_equiv, and_per, both_tied, on_equiv, on_per, on_po, on_total, then_agrees, then_po, then_total};
ghost use Rattle.std.specs.Cmp.Lexicographic.{lists_agrees, lists_equiv, lists_per, lists_po, lists_ties, lists_total, pointwise, slice_cmp, slice_partial_cmp};
ghost use Rattle.std.specs.Hash.{and-Alike, on_Alike};
ghost use Rattle.btree_laws.specs.TreeState.{pairs_of};
ghost use Rattle.btree_map.specs.Comparison.{hash_writes, pair_cmp, pair_eq, pair_partial_cmp, writes-same};

use crate::BTreeMap;
use crate::comparison::{feed, is_same, lexicographic_cmp, lexicographic_partial_cmp};
use btree_node::NodesMut;
use std::cmp::Ordering;
use std::hash::{Hash, Hasher};

impl<K: Ord, V, C: NodesMut<K, V>> BTreeMap<K, V, C> {
    /// Returns whether two maps, which may have different stores, have equal pairs. It compares each pair once, up to the first that
    /// differs.
    pub fn same_items<D: NodesMut<K, V>>(&self, other: &BTreeMap<K, V, D>) -> bool
    where
        V: PartialEq,
        ensures { result ≡ pointwise (pair_eq K.eq V.eq) (pairs_of self.now) (pairs_of other.now) }
    {
        is_same(self.iter(), other.iter())
    }

    /// Compares the pairs of two maps, which may have different stores, lexicographically: each pair by its key and then by its value. It
    /// stops at the first pair that differs.
    pub fn compare_items<D: NodesMut<K, V>>(&self, other: &BTreeMap<K, V, D>) -> Ordering
    where
        V: Ord,
        ensures { result ≡ slice_cmp (pair_cmp K.cmp V.cmp) (pairs_of self.now) (pairs_of other.now) }
    {
        lexicographic_cmp(self.iter(), other.iter())
    }
}

impl<K: Ord, V: PartialEq, C: NodesMut<K, V>> PartialEq for BTreeMap<K, V, C> {
    ghost eq = { λ m n. pointwise (pair_eq K.eq V.eq) (pairs_of m) (pairs_of n) };

    ghost laws = { on_per pairs_of (lists_per (and_per (on_per (λ p. p.0) K.PartialEq.laws) (on_per (λ p. p.1) V.laws))) };

    fn eq(&self, other: &BTreeMap<K, V, C>) -> bool {
        self.same_items(other)
    }
}

impl<K: Ord, V: Eq, C: NodesMut<K, V>> Eq for BTreeMap<K, V, C> {
    ghost laws = { on_equiv pairs_of (lists_equiv (and_equiv (on_equiv (λ p. p.0) K.Eq.laws) (on_equiv (λ p. p.1) V.Eq.laws))) };
}

impl<K: Ord, V: PartialOrd, C: NodesMut<K, V>> PartialOrd for BTreeMap<K, V, C> {
    ghost partial_cmp = { λ m n.
        slice_partial_cmp (pair_partial_cmp K.partial_cmp V.partial_cmp) (pairs_of m) (pairs_of n) };

    ghost laws = { on_po pairs_of (lists_po (then_po (on_po (λ p. p.0) K.PartialOrd.laws) (on_po (λ p. p.1) V.PartialOrd.laws))) };

    fn partial_cmp(&self, other: &BTreeMap<K, V, C>) -> Option<Ordering> {
        lexicographic_partial_cmp(self.iter(), other.iter())
    }
}

impl<K: Ord, V: Ord, C: NodesMut<K, V>> Ord for BTreeMap<K, V, C> {
    ghost cmp = { λ m n. slice_cmp (pair_cmp K.cmp V.cmp) (pairs_of m) (pairs_of n) };

    ghost total = { on_total pairs_of (lists_total (then_total (on_total (λ p. p.0) K.total) (on_total (λ p. p.1) V.total))) };

    ghost matches_partial_cmp = { λ m n.
        lists_agrees (then_agrees (λ p q. K.matches_partial_cmp p.0 q.0) (λ p q. V.matches_partial_cmp p.1 q.1)) (pairs_of m) (pairs_of n) };

    ghost matches_eq = { λ m n.
        let key_cmp = K.cmp in
        let value_cmp = V.cmp in
        lists_ties (pair_cmp key_cmp value_cmp) (λ p q. both_tied _ _ (key_cmp p.0 q.0) (value_cmp p.1 q.1) (K.matches_eq p.0 q.0) (V.matches_eq p.1 q.1)) (pairs_of m) (pairs_of n) };

    fn cmp(&self, other: &BTreeMap<K, V, C>) -> Ordering {
        self.compare_items(other)
    }
}

impl<K: Ord + Hash, V: Hash, C: NodesMut<K, V>> Hash for BTreeMap<K, V, C> {
    ghost hash_input = { λ m. hash_writes K.hash_input V.hash_input (pairs_of m) };

    ghost respects_eq = { λ m n.
        writes-same (and-Alike (on_Alike (λ p. p.0) (record { fed = K.respects_eq })) (on_Alike (λ p. p.1) (record { fed = V.respects_eq }))) (pairs_of m) (pairs_of n) };

    fn hash<H: Hasher>(&self, state: &mut H) {
        feed(self.iter(), state);
    }
}
