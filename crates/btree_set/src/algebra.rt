//! Two sets, which may have different stores.
ghost use Rattle.std.specs.Prelude.{◌≡◌, ◌↔◌, [], IsTrue};
ghost use Rattle.btree_set.specs.Merges.{difference, intersection};

use crate::BTreeSet;
use crate::difference::Difference;
use crate::intersection::Intersection;
use crate::peeked::Peeked;
use crate::symmetric_difference::SymmetricDifference;
use crate::union::Union;
use btree_ext::BTreeExt;
use btree_node::NodesMut;

impl<T: Ord, C: NodesMut<T, ()>> BTreeSet<T, C> {
    // Returns the elements, the first of which is taken from the iterator already.
    fn peeked(&self) -> Peeked<'_, T, C>
        ensures { result ≡ self.now.elements }
    {
        // For the prover: the tree is well formed, so its elements ascend.
        self.map.tell_well_formed();
        Peeked::new(self.map.keys())
    }

    /// Returns an iterator over the elements of either set, each once. Of two equal elements it yields that of `other`.
    pub fn union<'a, D: NodesMut<T, ()>>(&'a self, other: &'a BTreeSet<T, D>) -> Union<'a, T, C, D>
        ensures { result ≡ (self.now.elements, other.now.elements) }
    {
        Union {
            first: self.peeked(),
            second: other.peeked(),
        }
    }

    /// Returns an iterator over the elements of this set that `other` has too.
    pub fn intersection<'a, D: NodesMut<T, ()>>(
        &'a self,
        other: &'a BTreeSet<T, D>,
    ) -> Intersection<'a, T, C, D>
        ensures { result ≡ (self.now.elements, other.now.elements) }
    {
        Intersection {
            first: self.peeked(),
            second: other.peeked(),
        }
    }

    /// Returns an iterator over the elements of this set that `other` does not have.
    pub fn difference<'a, D: NodesMut<T, ()>>(
        &'a self,
        other: &'a BTreeSet<T, D>,
    ) -> Difference<'a, T, C, D>
        ensures { result ≡ (self.now.elements, other.now.elements) }
    {
        Difference {
            first: self.peeked(),
            second: other.peeked(),
        }
    }

    /// Returns an iterator over the elements that exactly one of the sets has.
    pub fn symmetric_difference<'a, D: NodesMut<T, ()>>(
        &'a self,
        other: &'a BTreeSet<T, D>,
    ) -> SymmetricDifference<'a, T, C, D>
        ensures { result ≡ (self.now.elements, other.now.elements) }
    {
        SymmetricDifference {
            first: self.peeked(),
            second: other.peeked(),
        }
    }

    /// Returns whether the sets have no element in common. It goes through both sets together, up to the first common element.
    pub fn is_disjoint<D: NodesMut<T, ()>>(&self, other: &BTreeSet<T, D>) -> bool
        ensures { IsTrue result ↔ (intersection T.cmp self.now.elements other.now.elements ≡ []) }
    {
        self.intersection(other).next().is_none()
    }

    /// Returns whether `other` has all elements of this set. It goes through both sets together, up to the first element that is missing.
    pub fn is_subset<D: NodesMut<T, ()>>(&self, other: &BTreeSet<T, D>) -> bool
        ensures { IsTrue result ↔ (difference T.cmp self.now.elements other.now.elements ≡ []) }
    {
        self.difference(other).next().is_none()
    }

    /// Returns whether this set has all elements of `other`, as `is_subset` does with the two exchanged.
    pub fn is_superset<D: NodesMut<T, ()>>(&self, other: &BTreeSet<T, D>) -> bool
        ensures { IsTrue result ↔ (difference T.cmp other.now.elements self.now.elements ≡ []) }
    {
        other.is_subset(self)
    }
}
