//! The tree that bytes stand for.
ghost use Rattle.std.specs.Prelude.{◌≡◌, ◌<◌, ◌⊎◌, IfErr, IfOk, IsSome, OnErr, OnOk};
ghost use Rattle.std.specs.FinMap as map;
ghost use Rattle.std.specs.Mem.{FitsInMemory};
ghost use Rattle.btree_node.specs.contracts.node.Node.{the_row as node_row};
ghost use Rattle.btree_laws.specs.TreeState.{views};
ghost use Rattle.btree_image.specs.Reading.{image_at, places_at};
ghost use Rattle.btree_image.specs.Saved.{IsErrorOf, IsSavedAs, LacksPlace, LacksRoom, ReadsPlaces};
ghost use Rattle.btree_image.specs.Stored.{reached_with, with_place};
ghost use Rattle.btree_image.specs.declared.fault.ReadError.TheVariants as errors;

use crate::fault::ReadError;
use crate::head::{read_end, read_head};
use crate::reading::read_place;
use btree_more_stores::Fill;
use btree_node::Node;
use btree_raw::RawBTree;
use btree_spelled::Spelled;

// Stores the node of a place, if it has one.
fn store_place<K: Drop, V: Drop, C: Fill<Node<K, V>>>(
    nodes: &mut C,
    id: usize,
    place: Option<Node<K, V>>,
) -> Result<(), ReadError>
    requires { FitsInMemory (node_row K.row V.row) }
    ensures stored { OnOk result (C.content nodes.new ≡ with_place (C.content nodes.old) id place) }
    ensures refusals { OnOk result (C.refusals nodes.new ≡ C.refusals nodes.old) }
    ensures reached { OnOk result
        (C.reached nodes.new ≡ reached_with (C.reached nodes.old) id place) }
    ensures refused { IfErr result (λ e. e ≡ errors.Store) }
    ensures node { OnErr result (IsSome place) }
    ensures lacks { OnErr result ((id < C.reached nodes.old) ⊎ C.MayLack id) }
{
    match place {
        None => Ok(()),
        Some(node) => match nodes.insert_under(id, node) {
            Ok(()) => Ok(()),
            Err(node) => {
                drop(node);
                Err(ReadError::Store)
            }
        },
    }
}

// Reads so many places into an unused store.
fn read_places<K: Spelled, V: Spelled, C: Fill<Node<K, V>> + Drop>(
    nodes: C,
    count: u64,
    bytes: &[u8],
) -> Result<(C, &[u8]), ReadError>
    requires fits { FitsInMemory (node_row K.row V.row) }
    requires empty { C.content nodes ≡ map.empty }
    requires unused { C.reached nodes ≡ 0 }
    ensures places { IfOk result (λ x. ReadsPlaces (views (C.content x.0)) x.1.now
        (places_at K.read V.read count bytes.now)) }
    ensures refusals { IfOk result (λ x. C.refusals x.0 ≡ C.refusals nodes) }
    ensures refused { IfErr result
        (IsErrorOf (LacksPlace K.read V.read C.MayLack count bytes.now)
        (places_at K.read V.read count bytes.now)) }
{
    let mut nodes = nodes;
    let mut rest = bytes;
    for id in 0..count {
        let (place, after) = read_place(rest, id + 1 == count)?;
        store_place(&mut nodes, id as usize, place)?;
        rest = after;
    }
    Ok((nodes, rest))
}

/// Returns the tree of any content that bytes stand for, in an unused store. It refuses a node only if the store may have no room for the
/// node's number.
///
/// It reads each byte once, and each again for the check sum. What is not there takes no memory: it stores at most a node for each eight
/// bytes, under a number below their count.
pub fn read_tree<K: Spelled, V: Spelled, C: Fill<Node<K, V>> + Drop>(
    nodes: C,
    bytes: &[u8],
) -> Result<RawBTree<K, V, C>, ReadError>
    requires fits { FitsInMemory (node_row K.row V.row) }
    requires empty { C.content nodes ≡ map.empty }
    requires unused { C.reached nodes ≡ 0 }
    ensures saved { IfOk result (λ tree. IsSavedAs K.read V.read tree bytes.now) }
    ensures refusals { IfOk result (λ tree. tree.kept.refusals ≡ C.refusals nodes) }
    ensures refused { IfErr result
        (IsErrorOf (LacksRoom K.read V.read C.MayLack bytes.now)
        (image_at K.read V.read bytes.now)) }
{
    let (head, rest) = read_head(bytes)?;
    let (nodes, rest) = read_places(nodes, head.count, rest)?;
    read_end(bytes, rest)?;
    let mut tree = RawBTree::in_store(nodes);
    tree.set_root_id(head.root);
    tree.set_len(head.len);
    tree.set_limit(head.limit);
    Ok(tree)
}
