//! Splitting a map at a key.
ghost use Rattle.std.specs.Prelude.{◌≡◌, ◌++◌, ◌∷◌, [], true, IfErr, IfNone, IfOk, IfSome, OnOk};
ghost use Rattle.std.specs.BTreeMap.Range.{is_from_start};
ghost use Rattle.std.specs.FinMap as map;
ghost use Rattle.std.specs.Mem.{FitsInMemory};
ghost use Rattle.std.specs.declared.ops.Bound.TheVariants.{Included};
ghost use Rattle.btree_node.specs.contracts.node.Node.{the_row as node_row};
ghost use Rattle.btree_laws.specs.TreeState.{pairs_of, unlimited};
ghost use Rattle.btree_walk.specs.Bounds.{pairs_from};
ghost use Rattle.btree_map.specs.Extension.{RefusesInTurn};
ghost use Rattle.btree_map.specs.Removal.{AddsNoNode};
ghost use Rattle.btree_map.specs.Spans.{pairs_before};
ghost use Rattle.btree_map.specs.Splitting.{AreBefore, AreFrom, StopsAtRefused};

use crate::BTreeMap;
use btree_ext::BTreeExt;
use btree_item::Refused;
use btree_node::NodesMut;

// Removes the last pair, if its key is not below another one.
fn pop_from<K: Ord + Drop, V: Drop, C: NodesMut<K, V>>(
    map: &mut BTreeMap<K, V, C>,
    key: &K,
) -> Option<(K, V)>
    ensures popped { IfSome result (λ x. pairs_of map.old ≡ pairs_of map.new ++ x ∷ []) }
    ensures from { IfSome result (λ x. is_from_start K.cmp (Included key.now) x.0 ≡ true) }
    ensures none { IfNone result (AreBefore K.cmp (Included key.now) (pairs_of map.old)) }
    ensures unchanged { IfNone result (map.new ≡ map.old) }
    ensures frees { AddsNoNode map.old map.new }
    ensures uncounted { map.new.kept ≡ map.old.kept }
{
    map.tell_well_formed();
    let Some((last, _)) = map.last_key_value() else {
        return None;
    };
    if key.cmp(last).is_gt() {
        return None;
    }
    map.pop_last()
}

impl<K: Ord + Drop, V: Drop, C: NodesMut<K, V>> BTreeMap<K, V, C> {
    /// Moves the pairs from a key on into a map over `nodes`, an empty store, and returns that map. It has no limit.
    ///
    /// They come from the end, one at a time, as `insert` inserts them. If one is refused, it comes back with the map of those after it, and
    /// those before it are still in this map. The contract requires that a node fits in memory, as that of `new`.
    pub fn split_off(&mut self, key: &K, nodes: C) -> Result<Self, (Self, Refused<K, V>)>
        requires fits { FitsInMemory (node_row K.row V.row) }
        requires empty { map.len (C.content nodes) ≡ 0 }
        ensures kept { OnOk result (pairs_of self.new ≡ pairs_before K.cmp (Included key.now) self.old) }
        ensures moved { IfOk result (λ other.
            pairs_of other ≡ pairs_from K.cmp (Included key.now) self.old) }
        ensures unchanged { OnOk result (pairs_of self.new ≡ pairs_of self.old → self.new ≡ self.old) }
        ensures frees { AddsNoNode self.old self.new }
        ensures uncounted { self.new.kept ≡ self.old.kept }
        ensures moved_uncounted { IfOk result (λ other. other.kept ≡ unlimited (C.refusals nodes)) }

        ensures stopped { IfErr result (λ stop.
            StopsAtRefused (pairs_of self.old) (pairs_of self.new) stop.1 (pairs_of stop.0)) }
        ensures from { IfErr result (λ stop.
            AreFrom K.cmp (Included key.now) ((stop.1.key, stop.1.value) ∷ pairs_of stop.0)) }
        ensures cause { IfErr result (λ stop.
            RefusesInTurn K.cmp C.MayRefuse (unlimited (C.refusals nodes)) stop.0 stop.1) }
    {
        self.tell_well_formed();
        let mut other = BTreeMap::in_store(nodes);
        while let Some((last, value)) = pop_from(self, key) {
            match other.insert(last, value) {
                Ok(replaced) => drop(replaced),
                Err(refused) => return Err((other, refused)),
            }
        }
        Ok(other)
    }
}
