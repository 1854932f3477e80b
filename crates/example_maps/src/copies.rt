//! Trees in nodes that another program wrote: of two copies the second is read if the first has a fault.
ghost use Rattle.std.specs.Prelude.{◌≡◌, ◌↔◌, Err, IfErr, IfOk, IsTrue, OnErr};
ghost use Rattle.btree_slab.specs.Faults.{IsRawVerdict};
ghost use Rattle.btree_slab.specs.Reading.{IsReadable, PassesPositions};
ghost use Rattle.btree_slab.specs.Verdicts.{HasNoFaultUnder};
ghost use Rattle.example_maps.specs.Copies.{HaveFaults, ReadsCopy};

use btree_slab::generic::map::{BTreeMap, Fault, RawBTree};
use btree_slab::store::NodesMut;

/// Returns the first of two copies as a map, or the second one if the first has a fault. If both have one, returns the second copy as it
/// was, with its fault.
pub fn read_copy<K: Ord + Drop, V: Drop, C: NodesMut<K, V> + Drop>(
    first: RawBTree<K, V, C>,
    second: RawBTree<K, V, C>,
) -> Result<BTreeMap<K, V, C>, (RawBTree<K, V, C>, Fault)>
    ensures read { IfOk result (ReadsCopy K.cmp first second) }
    ensures both { OnErr result (HaveFaults K.cmp first second) }
    ensures returned { IfErr result (λ r. r.0 ≡ second) }
    ensures fault { IfErr result (λ r. IsRawVerdict K.cmp second (Err r.1)) }
{
    match BTreeMap::from_raw(first) {
        Ok(map) => Ok(map),
        Err(_refused) => BTreeMap::from_raw(second),
    }
}

// Returns whether a fault is one of the whole tree: a wrong length, one over the limit, or other nodes beside those of the tree.
fn is_of_whole(fault: Fault) -> bool
    ensures { IsTrue result ↔ PassesPositions (Err fault) }
{
    match fault {
        Fault::WrongLength | Fault::Unreachable | Fault::OverLimit => true,
        _ => false,
    }
}

/// Returns whether a copy can be read down from its root, each node once: it has no fault, or only one of the whole tree.
pub fn is_readable<K: Ord, V, C: NodesMut<K, V>>(raw: &RawBTree<K, V, C>) -> bool
    ensures faults { IsTrue result ↔ HasNoFaultUnder K.cmp raw.now.nodes raw.now.root }
    ensures read { IsTrue result → IsReadable K.cmp raw.now.nodes raw.now.root }
{
    match raw.validate() {
        Ok(()) => true,
        Err(fault) => is_of_whole(fault),
    }
}
