//! Splitting a set at an element.
ghost use Rattle.std.specs.Prelude.{◌≡◌, ◌∷◌, IfErr, IfOk, OnOk};
ghost use Rattle.std.specs.FinMap as map;
ghost use Rattle.std.specs.Mem.{FitsInMemory};
ghost use Rattle.std.specs.declared.ops.Bound.TheVariants.{Included, Unbounded};
ghost use denote.Plain.{Nothing as unit_row};
ghost use Rattle.btree_node.specs.contracts.node.Node.{the_row as node_row};
ghost use Rattle.btree_laws.specs.TreeState.{unlimited};
ghost use Rattle.btree_map.specs.Removal.{AddsNoNode};
ghost use Rattle.btree_set.specs.Elements.{elements_between};
ghost use Rattle.btree_set.specs.Extension.{RefusesInTurn};
ghost use Rattle.btree_set.specs.Splitting.{AreFrom, StopsAtRefused, elements_before};

use crate::BTreeSet;
use btree_item::Refused;
use btree_node::NodesMut;

impl<T: Ord + Drop, C: NodesMut<T, ()>> BTreeSet<T, C> {
    /// Moves the elements from one on into a set over `nodes`, an empty store, and returns that set, as `BTreeMap::split_off` does with
    /// pairs. It has no limit.
    pub fn split_off(&mut self, element: &T, nodes: C) -> Result<Self, (Self, Refused<T, ()>)>
        requires fits { FitsInMemory (node_row T.row unit_row) }
        requires empty { map.len (C.content nodes) ≡ 0 }
        ensures kept { OnOk result (self.new.elements ≡
            elements_before T.cmp (Included element.now) self.old.elements) }
        ensures moved { IfOk result (λ other. other.elements ≡
            elements_between T.cmp (Included element.now) Unbounded self.old.elements) }
        ensures unchanged { OnOk result
            (self.new.elements ≡ self.old.elements → self.new ≡ self.old) }
        ensures frees { AddsNoNode self.old.tree self.new.tree }
        ensures uncounted { self.new.kept ≡ self.old.kept }
        ensures moved_uncounted { IfOk result (λ other. other.kept ≡ unlimited (C.refusals nodes)) }

        ensures stopped { IfErr result (λ stop.
            StopsAtRefused self.old.elements self.new.elements stop.1 stop.0.elements) }
        ensures from { IfErr result (λ stop.
            AreFrom T.cmp (Included element.now) (stop.1.key ∷ stop.0.elements)) }
        ensures cause { IfErr result (λ stop.
            RefusesInTurn T.cmp C.MayRefuse (unlimited (C.refusals nodes)) stop.0 stop.1) }
    {
        match self.map.split_off(element, nodes) {
            Ok(map) => return Ok(BTreeSet { map }),
            Err((map, refused)) => return Err((BTreeSet { map }, refused)),
        }
    }
}
