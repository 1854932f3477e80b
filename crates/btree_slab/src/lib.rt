//! An ordered map and an ordered set: a B-tree whose nodes are kept in a slab and refer to one another by number.
//!
//! This crate re-exports the public names of the crates below it.
#![tactic(auto)]

pub use btree_ext::{BTreeExt, BTreeExtMut};
pub use btree_fixed::{FixedMap, FixedSet};
pub use btree_item::Address;
use btree_store::SlabStore;

/// A map with its nodes in a slab, with memory from the global allocator.
pub type BTreeMap<K, V> = generic::BTreeMap<K, V, SlabStore<generic::Node<K, V>>>;

/// A set with its nodes in a slab, with memory from the global allocator.
pub type BTreeSet<T> = generic::BTreeSet<T, SlabStore<generic::Node<T, ()>>>;

/// A set of numbers as disjoint ranges, with its nodes in a slab, with memory from the global allocator.
pub type RangeSet = range_set::RangeSet<SlabStore<generic::Node<u64, u64>>>;

/// A map from numbers to values as disjoint ranges, with its nodes in a slab, with memory from the global allocator.
pub type RangeMap<V> = range_map::RangeMap<V, SlabStore<generic::Node<u64, range_map::Span<V>>>>;

/// The types over any store of nodes.
pub mod generic {
    pub use btree_map::BTreeMap;
    pub use btree_node::Node;
    pub use btree_set::BTreeSet;

    /// The map and the tree in it, their entries and iterators, their calls by address, and how an insertion is refused.
    pub mod map {
        pub use btree_ext::{BTreeExt, BTreeExtMut, Tree};
        pub use btree_item::{Cause, Fault, M, Refused, UpdateRefused};
        pub use btree_map::{
            BTreeMap, ByKey, ByPair, DrainFilter, EntriesMut, Entry, IntoIter, IntoKeys,
            IntoValues, IterMut, OccupiedEntry, PairTest, RangeMut, VacantEntry, ValuesMut,
            insert_in_order, run_out, seek_from,
        };
        pub use btree_raw::RawBTree;
        pub use btree_walk::{Iter, Keys, Range, Values, is_valid_range};
    }

    /// The set, its iterators, and the merges of two sets.
    pub mod set {
        pub use btree_set::{
            BTreeSet, Difference, DrainFilter, Intersection, IntoIter, Iter, Range,
            SymmetricDifference, Union,
        };
    }

    /// Nodes, their items, and addresses.
    pub mod node {
        pub use btree_item::{Address, Item, Keyed, Offset};
        pub use btree_node::{
            Balance, Children, ChildrenWithSeparators, InternalNode, LeafNode, Node, PoppedItem,
            WouldUnderflow,
        };

        /// Nodes with children.
        pub mod internal {
            pub use btree_node::internal::{Branch, InsertionError, Internal};
        }
    }
}

/// The contracts of a store, for any values and for nodes, and five stores.
pub mod store {
    pub use btree_more_stores::{Fill, FixedSlab, Gate, OddSlab, SlotStore};
    pub use btree_node::{ClearNodes, CloneNodes, Nodes, NodesMut};
    pub use btree_store::{Clear, Slab, SlabClone, SlabMut, SlabStore};
}

/// Calls over a fixed table of nodes, whose contracts say exactly when they are refused, and calls over any store that are not refused.
pub mod table {
    pub use btree_fixed::{
        FixedMap, FixedSet, insert, insert_at, insert_at_with_room, insert_element,
        insert_exactly_at, insert_from, insert_present, insert_vacant, insert_with_room, or_insert,
        replace, replace_element, replace_present, update, update_in, update_present,
        update_with_room,
    };
}

/// Sessions of commands over a map, and the arguments of the program.
pub mod script {
    pub use btree_session::{
        Command, CursorStep, Reply, Session, Setup, Stop, drive, run, run_cursor, setup,
    };
}

/// Sets of numbers as disjoint ranges over a map, and their iterators.
pub mod range_set {
    pub use btree_range_set::{Gaps, IntoIter, Iter, Overlapping, RangeSet};
}

/// Maps from numbers to values as disjoint ranges over a map, and their iterators.
pub mod range_map {
    pub use btree_range_map::{Gaps, Iter, Overlapping, RangeCause, RangeMap, RangeRefused, Span};
}

/// What a key may be sought by beside a key: a text or a slice, and the places beside a key, beside a first part and at the ends.
pub mod query {
    pub use btree_item::{After, AfterFirst, Before, BeforeFirst, Query};
    pub use btree_map::{AfterAll, BeforeAll};
}

/// Lists of a fixed capacity, a search in one, and a counter of no bytes.
pub mod utils {
    pub use btree_item::{Slots, SlotsIter, binary_search_min};
    pub use btree_steps::Steps;
}
