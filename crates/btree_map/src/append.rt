//! Moving the pairs of one map into another.
ghost use Rattle.std.specs.Prelude.{◌≡◌, [], IfErr, OnErr, OnOk};
ghost use Rattle.btree_laws.specs.TreeState.{pairs_of};
ghost use Rattle.btree_map.specs.Extension.{AddsAll, MovesEach, MovesUntil, RefusesInTurn, SwapsIntoEmpty};

use crate::BTreeMap;
use btree_ext::BTreeExt;
use btree_item::Refused;
use btree_node::NodesMut;

impl<K: Ord + Drop, V: Drop, C: NodesMut<K, V>> BTreeMap<K, V, C> {
    /// Moves the pairs of `other` into this map. Where both have a key, this map keeps its own and gets the value of `other`.
    ///
    /// If this map is empty, and those of `other` are within its limit, the pairs are exchanged with their stores, and each map keeps its
    /// limit. Otherwise the pairs come from the front of `other`, one at a time, as `insert` inserts them. The first one that is refused is
    /// returned: those before it are in this map, and those after it are still in `other`.
    pub fn append(&mut self, other: &mut Self) -> Result<(), Refused<K, V>>
        ensures appended { OnOk result (AddsAll K.cmp self.old other.old self.new) }
        ensures emptied { OnOk result (pairs_of other.new ≡ []) }
        ensures unchanged { pairs_of other.old ≡ [] → (self.new ≡ self.old) × (other.new ≡ other.old) }
        ensures swapped { SwapsIntoEmpty self.old other.old self.new other.new }
        ensures uncounted { OnOk result (MovesEach self.old other.old →
            self.new.kept ≡ self.old.kept) }
        ensures other_uncounted { MovesEach self.old other.old → other.new.kept ≡ other.old.kept }

        ensures stopped { IfErr result (MovesUntil K.cmp self.old other.old self.new other.new) }
        ensures moved_each { OnErr result (MovesEach self.old other.old) }
        ensures cause { IfErr result (RefusesInTurn K.cmp C.MayRefuse self.old.kept self.new) }
    {
        if other.is_empty() {
            return Ok(());
        }
        if self.is_empty() && other.len() <= self.limit() {
            // For the prover: the tree is well formed, so its keys ascend.
            other.tell_well_formed();
            self.tree.swap(&mut other.tree);
            return Ok(());
        }
        while let Some((key, value)) = other.pop_first() {
            match self.insert(key, value) {
                Ok(replaced) => drop(replaced),
                Err(refused) => return Err(refused),
            }
        }
        Ok(())
    }
}
