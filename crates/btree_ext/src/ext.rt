//! Reads of a tree by its nodes and addresses.
ghost use Rattle.std.specs.Prelude.{◌≡◌, ◌↔◌, ◌*◌, ◌+◌, ◌≤◌, length, IsSome, IsTrue, Ok, Some, option_copied};
ghost use Rattle.std.specs.FinMap as map;
ghost use Rattle.btree_laws.specs.TreeState.{TreeState, HasLevels, IsBTree, IsOccupiedIn, IsUsed, IsValidIn, item_of, pairs_of};
ghost use Rattle.btree_item.specs.Pairs.{found_value};
ghost use Rattle.btree_raw.specs.Limit.{IsWithinLimit};
ghost use Rattle.btree_find.specs.Answers.{IsAddressBy, IsAddressIn, IsAddressOf};
ghost use Rattle.btree_find.specs.Ends.{IsFirstBack, IsFirstItem, IsLastItem, IsLastValid};
ghost use Rattle.btree_find.specs.Fits.{FitsAt, FitsIn, ReplacesAt, pairs_below};
ghost use Rattle.btree_find.specs.Levels.{IsDense, TicksAtMost, TicksExactly};
ghost use Rattle.btree_find.specs.Navigation.{IsLeafAddressFor, IsNext, IsNextOrBack, IsNormalized, IsPrevious};
ghost use Rattle.btree_find.specs.Visits.{IsNextBack, IsPreviousFront};
ghost use Rattle.btree_valid.specs.Faults.{AcceptsNode, BlamesIfErr, IsVerdictFor, SuitsIfOk};

use btree_find::{
    address_by, address_in, address_of, address_of_counted, first_back_address, first_item_address,
    fits_at, get_in, height, key_fits_in, last_item_address, last_valid_address, leaf_address,
    next_back_address, next_item_address, next_item_or_back_address, normalize,
    previous_front_address, previous_item_address, replaces_at,
};
use btree_item::{Address, Fault, Item, MAX_LEVELS, Query};
use btree_node::{Node, NodesMut};
use btree_raw::RawBTree;
use btree_steps::Steps;

/// A well formed tree, read by its nodes and by addresses in it. Only `as_raw` is required; the other calls have default bodies.
///
/// No call copies a key or a value, or allocates memory. A search by a key or another query makes at most six comparisons at each level that
/// it visits. A call that returns an address reads at most one node of each level.
pub trait BTreeExt<K: Ord, V> {
    /// The store of the nodes.
    type Nodes: NodesMut<K, V>;

    /// The tree as contracts see it.
    ghost state: { Self → TreeState K V };

    /// Returns the tree as nodes in a store, the number of a root, and a length.
    fn as_raw(&self) -> &RawBTree<K, V, Self::Nodes>
        ensures value { result.now ≡ state self.now }
        ensures well_formed { IsBTree K.cmp (state self.now) }
        ensures within { IsWithinLimit (state self.now) };

    /// Gives the prover the facts that the tree is well formed and within its limit. It does nothing at run time.
    #[inline]
    fn tell_well_formed(&self)
        ensures well_formed { IsBTree K.cmp (state self.now) }
        ensures within { IsWithinLimit (state self.now) }
    {
        let _raw = self.as_raw();
    }

    /// Returns the number of the root, or `None` if there are no pairs.
    fn root_id(&self) -> Option<usize>
        ensures value { result ≡ (state self.now).root }
        ensures well_formed { IsBTree K.cmp (state self.now) }
    {
        self.as_raw().root_id()
    }

    /// Returns whether a node has this number.
    fn has_node(&self, id: usize) -> bool
        ensures { IsTrue result ↔ IsUsed (state self.now) id }
    {
        self.as_raw().has_node(id)
    }

    /// Returns the node with this number, which must be in use; see `has_node`.
    fn node(&self, id: usize) -> &Node<K, V>
        requires { IsUsed (state self.now) id }
        ensures { map.get (state self.now).nodes id ≡ Some result.now }
    {
        self.as_raw().node(id)
    }

    /// Returns the item at an address, or `None` if there is none: at -1, past the last item, nowhere, or at a number without a node.
    fn item(&self, addr: Address) -> Option<&Item<K, V>>
        ensures value { option_copied result ≡ item_of (state self.now) addr }
        ensures occupied { IsSome result ↔ IsOccupiedIn (state self.now) addr }
    {
        self.as_raw().item(addr)
    }

    /// Returns the key and the value of the item at an address. An item must be there; `item` decides that.
    fn pair_at(&self, addr: Address) -> (&K, &V)
        requires { IsOccupiedIn (state self.now) addr }
        ensures { item_of (state self.now) addr ≡ Some (result.0.now, result.1.now) }
    {
        let Some(item) = self.item(addr) else {
            unreachable!()
        };
        (item.key(), item.value())
    }

    /// Returns how many levels of nodes there are: 0 without pairs, and at most 32. It reads one node of each level.
    fn height(&self) -> usize
        ensures value { HasLevels (state self.now) result }
        ensures few { result ≤ MAX_LEVELS }
        ensures dense { IsDense (state self.now) result }
    {
        height(self.as_raw())
    }

    /// Returns how many nodes there are: at most (n+2)/3 for n pairs.
    fn node_count(&self) -> usize
        ensures value { result ≡ map.len (state self.now).nodes }
        ensures dense { 3 * result ≤ length (pairs_of (state self.now)) + 2 }
        ensures can_hold { Self.Nodes.CanHold (state self.now).nodes }
    {
        self.as_raw().node_count()
    }

    /// Returns the store of the nodes, for reading.
    fn store<'a>(&'a self) -> &'a Self::Nodes
    where
        K: 'a,
        V: 'a,
        ensures content { Self.Nodes.content result.now ≡ (state self.now).nodes }
        ensures refusals { Self.Nodes.refusals result.now ≡ (state self.now).kept.refusals }
    {
        self.as_raw().store()
    }

    /// Returns `Ok` with the address of a key that is there, or `Err` with the back address in a leaf whose place is the number of
    /// smaller keys.
    fn address_of(&self, key: &K) -> Result<Address, Address>
        ensures { IsAddressOf K.cmp key.now (state self.now) result }
    {
        address_of(self.as_raw(), key)
    }

    /// Does the same as `address_of`, and ticks once for each comparison of keys. `Steps` takes no time and no bytes.
    fn address_of_counted(&self, key: &K, steps: &mut Steps) -> Result<Address, Address>
        ensures found { IsAddressOf K.cmp key.now (state self.now) result }
        ensures counted { TicksExactly K.cmp key.now (state self.now) steps.old.count steps.new.count }
        ensures ticks { TicksAtMost (state self.now) steps.old.count steps.new.count }
    {
        address_of_counted(self.as_raw(), key, steps)
    }

    /// Returns `Ok` with the address of the item whose key a query is equal to, or `Err` with the back address in a leaf whose place is the
    /// number of keys below it.
    fn address_by<Q: Query<K>>(&self, query: &Q) -> Result<Address, Address>
        ensures { IsAddressBy Q.compare query.now (state self.now) result }
    {
        address_by(self.as_raw(), query)
    }

    /// Returns `Ok` with the address of a key under a node, or `Err` with the back address in a leaf under the node that has as many
    /// smaller keys under the node before it. The node must be in use; see `has_node`.
    fn address_in(&self, id: usize, key: &K) -> Result<Address, Address>
        requires { IsUsed (state self.now) id }
        ensures { IsAddressIn K.cmp key.now (state self.now) id result }
    {
        address_in(self.as_raw(), id, key)
    }

    /// Returns the value at a key under a node, or `None` if the key is not there. The node must be in use; see `has_node`.
    fn get_in<'a>(&'a self, key: &K, id: usize) -> Option<&'a V>
    where
        K: 'a,
        V: 'a,
        requires { IsUsed (state self.now) id }
        ensures { option_copied result ≡ found_value K.cmp key.now (pairs_below (state self.now) id) }
    {
        get_in(self.as_raw(), key, id)
    }

    /// Returns whether a key is between the separators of a node: whether it is greater than the key before those under the node and less
    /// than the key after them. The node must be in use; see `has_node`. It compares at most two keys.
    fn key_fits_in(&self, id: usize, key: &K) -> bool
        requires { IsUsed (state self.now) id }
        ensures { IsTrue result ↔ FitsIn K.cmp key.now (state self.now) id }
    {
        key_fits_in(self.as_raw(), id, key)
    }

    /// Returns whether an address is one of the tree: in a node, from -1 to the number of its items, or nowhere if there are no pairs.
    fn is_valid(&self, addr: Address) -> bool
        ensures { IsTrue result ↔ IsValidIn (state self.now) addr }
    {
        self.as_raw().is_valid(addr)
    }

    /// Returns the address of the item at the place of a valid address, which is the address itself if there is an item. Returns
    /// `None` if the place is the number of pairs.
    fn normalize(&self, addr: Address) -> Option<Address>
        requires { IsValidIn (state self.now) addr }
        ensures { IsNormalized (state self.now) addr result }
    {
        normalize(self.as_raw(), addr)
    }

    /// Returns the address of the item after the one at a valid address. If there is no item, returns the address of the item at its
    /// place. Returns `None` if there is no such item.
    fn next_item_address(&self, addr: Address) -> Option<Address>
        requires { IsValidIn (state self.now) addr }
        ensures { IsNext (state self.now) addr result }
    {
        next_item_address(self.as_raw(), addr)
    }

    /// Returns the address of the item before the place of a valid address, or `None` at place 0.
    fn previous_item_address(&self, addr: Address) -> Option<Address>
        requires { IsValidIn (state self.now) addr }
        ensures { IsPrevious (state self.now) addr result }
    {
        previous_item_address(self.as_raw(), addr)
    }

    /// Returns an address in a leaf at the place of a valid address: past the end of a leaf, or -1 of a leaf if the address is at -1. An
    /// address in a leaf, or nowhere, is returned as it is.
    fn leaf_address(&self, addr: Address) -> Address
        requires { IsValidIn (state self.now) addr }
        ensures { IsLeafAddressFor (state self.now) addr result }
    {
        leaf_address(self.as_raw(), addr)
    }

    /// Returns the address of the next item, as `next_item_address` does, if there is one. Otherwise returns the offset after the address
    /// if there is an item, and else the address itself. Returns `None` if there are no pairs.
    fn next_item_or_back_address(&self, addr: Address) -> Option<Address>
        requires { IsValidIn (state self.now) addr }
        ensures { IsNextOrBack (state self.now) addr result }
    {
        next_item_or_back_address(self.as_raw(), addr)
    }

    /// Returns the address of the first item, or `None` if there are no pairs.
    fn first_item_address(&self) -> Option<Address>
        ensures { IsFirstItem (state self.now) result }
    {
        first_item_address(self.as_raw())
    }

    /// Returns the address of the last item, or `None` if there are no pairs.
    fn last_item_address(&self) -> Option<Address>
        ensures { IsLastItem (state self.now) result }
    {
        last_item_address(self.as_raw())
    }

    /// Returns offset 0 of the leftmost leaf, where a visit of the back addresses begins, or nowhere if there are no pairs.
    fn first_back_address(&self) -> Address
        ensures { IsFirstBack (state self.now) result }
    {
        first_back_address(self.as_raw())
    }

    /// Returns the address past the end of the rightmost leaf, or nowhere if there are no pairs.
    fn last_valid_address(&self) -> Address
        ensures { IsLastValid (state self.now) result }
    {
        last_valid_address(self.as_raw())
    }

    /// Returns the back address after a valid back address, or `None` after the last one. After -1 of a node comes the first back address
    /// under the node. From `first_back_address` it visits each back address once.
    fn next_back_address(&self, addr: Address) -> Option<Address>
        requires { IsValidIn (state self.now) addr }
        ensures { IsNextBack (state self.now) addr result }
    {
        next_back_address(self.as_raw(), addr)
    }

    /// Returns the front address before a valid front address, or `None` before the first one. Before the address past the end of a node
    /// comes the last front address under the node. From `last_item_address` it visits each front address once.
    fn previous_front_address(&self, addr: Address) -> Option<Address>
        requires { IsValidIn (state self.now) addr }
        ensures { IsPreviousFront (state self.now) addr result }
    {
        previous_front_address(self.as_raw(), addr)
    }

    /// Returns whether a key fits at the place of a valid address: whether it is greater than the key before the place and less than the key
    /// there. It compares at most two keys.
    fn fits_at(&self, addr: Address, key: &K) -> bool
        requires { IsValidIn (state self.now) addr }
        ensures { IsTrue result ↔ FitsAt K.cmp key.now (state self.now) addr }
    {
        fits_at(self.as_raw(), addr, key)
    }

    /// Returns whether an item is at a valid address and a key may replace its key: whether the key is greater than the key before it and
    /// less than the key after it. It compares at most two keys.
    fn replaces_at(&self, addr: Address, key: &K) -> bool
        requires { IsValidIn (state self.now) addr }
        ensures { IsTrue result ↔ ReplacesAt K.cmp key.now (state self.now) addr }
    {
        replaces_at(self.as_raw(), addr, key)
    }

    /// Checks that the nodes are exactly one well formed tree, and returns `Ok`, since they are. It reads each node once.
    fn validate(&self) -> Result<(), Fault>
        ensures { result ≡ Ok tt }
    {
        self.as_raw().validate()
    }

    /// Checks a node and all below it against a parent and the nearest separators on both sides. Returns `Ok` with how many levels are below
    /// the node, 0 for a leaf, exactly if they suit it, and else a fault of the arguments: the first one in preorder. The node must be in use;
    /// see `has_node`. One with neither separator is judged as the root. It reads each node under this one at most once.
    fn validate_node(
        &self,
        id: usize,
        parent: Option<usize>,
        min: Option<&K>,
        max: Option<&K>,
    ) -> Result<usize, Fault>
        requires { IsUsed (state self.now) id }
        ensures accepts { AcceptsNode K.cmp (state self.now) id parent min.entry max.entry result }
        ensures only { SuitsIfOk K.cmp (state self.now) id parent min.entry max.entry result }
        ensures blames { BlamesIfErr K.cmp (state self.now) id parent min.entry max.entry result }
        ensures verdict { IsVerdictFor K.cmp (state self.now).nodes id parent min.entry max.entry result }
    {
        self.as_raw().validate_node(id, parent, min, max)
    }
}
