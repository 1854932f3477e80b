//! What comes of bytes.
use crate::asserts::{assert_same, assert_true, given};
use crate::maps::Slots;
use btree_ext::BTreeExt;
use btree_image::BadImage;
use btree_item::Fault;
use btree_map::BTreeMap;
use btree_more_stores::Fill;
use btree_node::Node;
use btree_save::{OpenError, bytes_of_map, map_of_bytes};
use std::alloc::Global;
use std::process::Abort;

/// What comes of bytes: a map, or a fault of the image and its place, or a fault of the tree, or a store that has no room.
#[derive(Clone, Copy, Debug, PartialEq)]
pub(crate) enum Verdict {
    Opened,
    Image(BadImage, usize),
    Tree(Fault),
    Store,
    Read,
}

/// The verdict of an error.
pub(crate) fn verdict_of(error: OpenError) -> Verdict {
    match error {
        OpenError::Image(fault, at) => Verdict::Image(fault, at),
        OpenError::Tree(fault) => Verdict::Tree(fault),
        OpenError::Store => Verdict::Store,
        OpenError::Read(_) => Verdict::Read,
    }
}

/// Opens bytes. A map that is opened is well formed, and is saved as these bytes, so it is no other map than theirs.
pub(crate) fn tried_in<C: Fill<Node<u64, u64>> + Drop>(
    rt: &impl Abort,
    alloc: Global,
    origin: C::Origin,
    bytes: &[u8],
) -> Verdict {
    let opened: Result<BTreeMap<u64, u64, C>, OpenError> = map_of_bytes(origin, bytes);
    match opened {
        Ok(map) => {
            assert_true(rt, map.validate().is_ok());
            let again = given(rt, bytes_of_map(alloc, &map));
            assert_same(rt, again.as_slice(), bytes);
            Verdict::Opened
        }
        Err(error) => verdict_of(error),
    }
}

/// Opens bytes so, in slots.
pub(crate) fn tried(rt: &impl Abort, alloc: Global, bytes: &[u8]) -> Verdict {
    tried_in::<Slots>(rt, alloc, alloc, bytes)
}

/// How many lists of bytes were opened, were no image, and were no tree.
#[derive(Clone, Copy)]
pub(crate) struct Tally {
    pub opened: u64,
    pub images: u64,
    pub trees: u64,
}

impl Tally {
    /// No list of bytes.
    pub(crate) const NONE: Tally = Tally {
        opened: 0,
        images: 0,
        trees: 0,
    };

    /// Counts a verdict. No other one comes of bytes in memory, in a store that grows.
    pub(crate) fn count(&mut self, rt: &impl Abort, verdict: Verdict) {
        match verdict {
            Verdict::Opened => self.opened = self.opened.wrapping_add(1),
            Verdict::Image(_, _) => self.images = self.images.wrapping_add(1),
            Verdict::Tree(_) => self.trees = self.trees.wrapping_add(1),
            Verdict::Store => panic!(rt; "no room"),
            Verdict::Read => panic!(rt; "nothing is read"),
        }
    }
}
