//! The shelves on which parts lie, several for a part. A set of pairs, each of a key and one of its values, is a multimap.
//!
//! `insert` of the set adds a value of a key, and `remove` takes one out. The values of a key follow one another.
ghost use Rattle.std.specs.Prelude.{◌≡◌, ◌++◌, OnOk};
ghost use Rattle.example_maps.specs.Shelves.{shelves_of};

use btree_slab::generic::BTreeSet;
use btree_slab::query::{AfterFirst, BeforeFirst};
use btree_slab::store::NodesMut;
use std::alloc::AllocError;

/// Appends the shelves of a part to `found`, in order, from a set over any store. It returns an error only if there is no memory for
/// `found`.
///
/// The pairs of a part are those between the places before and after all pairs that begin with it.
pub fn append_shelves<K: Ord, C: NodesMut<(K, u32), ()>>(
    shelves: &BTreeSet<(K, u32), C>,
    part: &K,
    found: &mut Vec<u32>,
) -> Result<(), AllocError>
    ensures { OnOk result (found.new.items ≡ found.old.items
        ++ shelves_of K.cmp part.now shelves.now.elements) }
{
    let mut rest = shelves.range_by(&BeforeFirst(part), &AfterFirst(part));
    while let Some(pair) = rest.next() {
        found.push(pair.1)?;
    }
    Ok(())
}
