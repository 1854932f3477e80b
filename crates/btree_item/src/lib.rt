//! What a node of the tree is made of: offsets and addresses, items, and lists of a fixed capacity.
#![tactic(auto)]

mod address;
mod fault;
mod item;
mod offset;
mod query;
mod refused;
mod searches;
mod slots;
mod slots_clone;
mod slots_iter;

pub use address::Address;
pub use fault::Fault;
pub use item::{Item, Keyed};
pub use offset::Offset;
pub use query::{After, AfterFirst, Before, BeforeFirst, Query};
pub use refused::{Cause, Refused, UpdateRefused};
pub use searches::{binary_search_min, search, search_counted};
pub use slots::Slots;
pub use slots_iter::SlotsIter;

/// The order of the tree. A leaf holds at most `M` items, and an internal node has at most `M` children. The other numbers of items follow
/// from it. `M` is fixed.
pub const M: usize = 8;

/// The most items of a leaf.
pub const MAX_LEAF_ITEMS: usize = M;

/// The most items of an internal node, which has one child more.
pub const MAX_INTERNAL_ITEMS: usize = M - 1;

/// The fewest items of a leaf or an internal node other than the root.
pub const MIN_ITEMS: usize = M / 2 - 1;

/// The number of items that a leaf keeps when it is split, and so the index of its median.
pub const LEAF_MEDIAN: usize = MAX_LEAF_ITEMS / 2;

/// The number of items that an internal node keeps when it is split, and so the index of its median.
pub const INTERNAL_MEDIAN: usize = MAX_INTERNAL_ITEMS / 2;

/// The slots of a leaf: room for one item too many, until it is split.
pub const LEAF_SLOTS: usize = MAX_LEAF_ITEMS + 1;

/// The slots of an internal node: room for one item too many, until it is split.
pub const INTERNAL_SLOTS: usize = MAX_INTERNAL_ITEMS + 1;

/// The most comparisons of keys that the search in a node makes.
pub const MAX_COMPARISONS: usize = 6;

/// The most levels of a tree whose items a `usize` of 64 bits can count. A root has at least two children, and any other internal node at
/// least `MIN_ITEMS + 1`, so a tree of n items and h levels satisfies 2 * 4^(h-1) <= n + 1.
pub const MAX_LEVELS: usize = 32;

/// The most nodes that an insertion uses: one for each level, and one for a new root.
pub const MAX_CLAIMS: usize = MAX_LEVELS + 1;
