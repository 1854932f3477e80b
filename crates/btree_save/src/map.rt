//! Maps as bytes.
ghost use Rattle.std.specs.Prelude.{◌≡◌, [], IfErr, IfOk, OnOk};
ghost use Rattle.std.specs.FinMap as map;
ghost use Rattle.std.specs.Io.KnownBytes.{IsAtEnd};
ghost use Rattle.std.specs.Mem.{FitsInMemory};
ghost use Rattle.btree_node.specs.contracts.node.Node.{the_row as node_row};
ghost use Rattle.btree_laws.specs.TreeState.{TreeState};
ghost use Rattle.btree_raw.specs.Limit.{IsBTreeWithinLimit};
ghost use Rattle.btree_image.specs.Saved.{AreOnlyBytesOf, IsSavedAs};
ghost use Rattle.btree_save.specs.Opened.{IsErrorFrom, IsOpenedFrom, IsReadToEnd, IsRefusedBy, IsUnwritten, IsWrittenTo, Opens, OpensFrom};

use crate::error::{OpenError, SaveError, of_read};
use btree_ext::BTreeExt;
use btree_image::{bytes_of, read_tree};
use btree_map::BTreeMap;
use btree_more_stores::{Fill, SlotStore};
use btree_node::{Node, NodesMut};
use btree_spelled::Spelled;
use std::alloc::{AllocError, Allocator, Global};
use std::io::{Read, Write};

/// A map that is opened in memory from an allocator.
pub type SavedMap<K, V, A = Global> = BTreeMap<K, V, SlotStore<Node<K, V>, A>>;

/// Returns the bytes of a map. No others are opened as it.
///
/// It reads each node once, and asks the store for each number up to the greatest that is used.
pub fn bytes_of_map<K: Spelled + Ord, V: Spelled, C: NodesMut<K, V>, A: Allocator>(
    alloc: A,
    map: &BTreeMap<K, V, C>,
) -> Result<Vec<u8, A>, AllocError>
    ensures saved { IfOk result (λ bytes. IsSavedAs K.read V.read map.now bytes.items) }
    ensures only { IfOk result (λ bytes. AreOnlyBytesOf K.read V.read map.now bytes.items) }
{
    bytes_of(alloc, map.as_raw())
}

// Returns the map that bytes are those of, in an unused store.
fn map_in_store<K: Spelled + Ord, V: Spelled, C: Fill<Node<K, V>> + Drop>(
    nodes: C,
    bytes: &[u8],
) -> Result<BTreeMap<K, V, C>, OpenError>
    requires fits { FitsInMemory (node_row K.row V.row) }
    requires empty { C.content nodes ≡ map.empty }
    requires unused { C.reached nodes ≡ 0 }
    ensures saved { IfOk result (λ map. IsSavedAs K.read V.read map bytes.now) }
    ensures uncounted { IfOk result (λ map. map.kept.refusals ≡ C.refusals nodes) }
    ensures refused { IfErr result (IsRefusedBy K.read V.read K.cmp C.MayLack bytes.now) }
    ensures opens { Opens K.read V.read K.cmp C.MayLack bytes.now result }
{
    match read_tree(nodes, bytes) {
        Ok(raw) => match BTreeMap::from_raw(raw) {
            Ok(map) => Ok(map),
            Err((_raw, fault)) => Err(OpenError::Tree(fault)),
        },
        Err(error) => Err(of_read(error, bytes.len())),
    }
}

/// Returns the map that bytes are those of, whatever they are, in a store made from `origin`. Its nodes have the numbers that they had, so
/// each address names what it named.
///
/// It opens the bytes of each well formed tree within its limit, unless the store may have no room for the number of a node: a table of N
/// nodes opens those whose nodes have numbers below N.
///
/// It reads each byte twice, and each node once more. For each eight bytes it takes room for at most three nodes and their numbers.
pub fn map_of_bytes<K: Spelled + Ord, V: Spelled, C: Fill<Node<K, V>> + Drop>(
    origin: C::Origin,
    bytes: &[u8],
) -> Result<BTreeMap<K, V, C>, OpenError>
    requires { FitsInMemory (node_row K.row V.row) }
    ensures saved { IfOk result (λ map. IsSavedAs K.read V.read map bytes.now) }
    ensures uncounted { IfOk result (λ map. map.kept.refusals ≡ 0) }
    ensures refused { IfErr result (IsRefusedBy K.read V.read K.cmp C.MayLack bytes.now) }
    // What was saved is opened, if there is room.
    ensures opens { Opens K.read V.read K.cmp C.MayLack bytes.now result }
{
    C::note_fits();
    map_in_store(C::unused(origin), bytes)
}

/// Writes a map, always as the same bytes.
///
/// It takes memory for the bytes, and does not flush the writer. A writer that fails may have taken some of them.
pub fn save<K: Spelled + Ord, V: Spelled, C: NodesMut<K, V>, A: Allocator, W: Write>(
    alloc: A,
    map: &BTreeMap<K, V, C>,
    out: &mut W,
) -> Result<(), SaveError>
    ensures written { OnOk result
        (IsWrittenTo K.read V.read (W.contents out.old) (W.contents out.new) map.now) }
    ensures unwritten { IfErr result (IsUnwritten (W.contents out.old) (W.contents out.new)) }
{
    let bytes = bytes_of_map(alloc, map)?;
    match out.write_all(&bytes) {
        Ok(()) => Ok(()),
        Err(error) => Err(SaveError::Write(error)),
    }
}

/// Opens what a reader gives up to its end, as `map_of_bytes` does. It says that the store has no room only if that may be so for the number
/// of a node that was read.
///
/// It takes memory for the bytes too. Unless the reader fails, it reads to its end, whatever the bytes are.
pub fn open<K: Spelled + Ord, V: Spelled, C: Fill<Node<K, V>> + Drop, A: Allocator, R: Read>(
    alloc: A,
    origin: C::Origin,
    input: &mut R,
) -> Result<BTreeMap<K, V, C>, OpenError>
    requires { FitsInMemory (node_row K.row V.row) }
    ensures saved { IfOk result (IsOpenedFrom K.read V.read (R.remaining input.old)) }
    ensures uncounted { IfOk result (λ map. map.kept.refusals ≡ 0) }
    ensures refused { IfErr result
        (IsErrorFrom K.read V.read K.cmp C.MayLack (R.remaining input.old)) }
    ensures opens { OpensFrom K.read V.read K.cmp C.MayLack (R.remaining input.old) result }
    ensures end { OnOk result (IsAtEnd (R.remaining input.new)) }
    ensures end_at_fault { IfErr result (IsReadToEnd (R.remaining input.new)) }
{
    C::note_fits();
    let nodes = C::unused(origin);
    let mut bytes = Vec::new(alloc);
    match input.read_to_end(&mut bytes) {
        Ok(_count) => map_in_store(nodes, &bytes),
        Err(error) => Err(OpenError::Read(error)),
    }
}
