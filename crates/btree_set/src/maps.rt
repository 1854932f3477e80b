//! Sets and the maps behind them.
ghost use Rattle.std.specs.Prelude.{◌≡◌};
ghost use Rattle.btree_set.specs.Elements.{set_of};

use crate::BTreeSet;
use btree_map::BTreeMap;
use btree_node::NodesMut;

impl<T: Ord, C: NodesMut<T, ()>> BTreeSet<T, C> {
    /// Returns the set of the keys of a map.
    pub fn from_map(map: BTreeMap<T, (), C>) -> Self
        ensures { result ≡ set_of map }
    {
        BTreeSet { map }
    }

    /// Returns the map whose keys are the elements, for reading.
    pub fn as_map(&self) -> &BTreeMap<T, (), C>
        ensures { set_of result.now ≡ self.now }
    {
        &self.map
    }

    /// Returns the map whose keys are the elements.
    pub fn into_map(self) -> BTreeMap<T, (), C>
        ensures { set_of result ≡ self }
    {
        let BTreeSet { map } = self;
        map
    }
}
